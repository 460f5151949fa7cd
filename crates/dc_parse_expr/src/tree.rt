// How trees are made of what was read.
ghost use Rattle.std.specs.Prelude.{◌≡◌, IfOk, Some};
ghost use Rattle.dc_ast.specs.declared.expression.ExprKind.TheVariants as e;
ghost use Rattle.dc_grammar.specs.Readers as spec;
ghost use Rattle.dc_grammar.specs.Trees.{expr};

use dc_ast::{Expr, ExprKind, Step, Suffix, TypeTree};
use sqlite_items::{Boxed, Items};
use std::alloc::{AllocError, Global};

pub(crate) fn node(alloc: Global, at: u32, kind: ExprKind) -> Result<Expr, AllocError>
    ensures { IfOk result (λ x. x ≡ expr at kind) }
{
    let kind = Boxed::new(alloc, kind)?;
    Ok(Expr { at, kind })
}

/// A chain of no operators is its first operand.
pub(crate) fn chained(
    alloc: Global,
    at: u32,
    first: Expr,
    others: Items<Step>,
) -> Result<Expr, AllocError>
    ensures { IfOk result (λ x. x ≡ spec.chain e.Chain at (first, others)) }
{
    if others.is_empty() {
        return Ok(first);
    }
    node(alloc, at, ExprKind::Chain(first, others))
}

/// An operand with nothing behind it is itself.
pub(crate) fn with_suffixes(
    alloc: Global,
    at: u32,
    first: Expr,
    others: Items<Suffix>,
) -> Result<Expr, AllocError>
    ensures { IfOk result (λ x. x ≡ spec.chain e.Postfix at (first, others)) }
{
    if others.is_empty() {
        return Ok(first);
    }
    node(alloc, at, ExprKind::Postfix(first, others))
}

pub(crate) fn cast_to(alloc: Global, at: u32, to: TypeTree, x: Expr) -> Result<Expr, AllocError>
    ensures { IfOk result (λ tree. tree ≡ expr at (e.Cast to x)) }
{
    let to = Boxed::new(alloc, to)?;
    node(alloc, at, ExprKind::Cast(to, x))
}
