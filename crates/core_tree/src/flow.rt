// Which statements may come to their end.
ghost use Rattle.std.specs.Prelude.{◌≡◌, map};
ghost use Rattle.core_tree.specs.Nodes.{branch_with};
ghost use Rattle.core_tree.specs.Typed.{all_of, always_holds, any_completes, completes};

use crate::{Branch, Stmt, Tree};
use dc_types::CTree;

/// Whether a condition always holds: it is a constant other than 0.
fn always_holds(condition: &Tree) -> bool
    ensures { result ≡ always_holds condition.now }
{
    match condition {
        Tree::Constant(_, value) => match &value.tree {
            CTree::Num(number) => *number != 0,
            _ => false,
        },
        _ => false,
    }
}

#[cycle(completing)]
fn completes(stmt: &Stmt) -> bool
    ensures { result ≡ completes stmt.now }
{
    match stmt {
        Stmt::Eval(_) | Stmt::Declare(_, _) => true,
        Stmt::Block(inside) => complete(inside.as_slice()),
        Stmt::If(_, branches, last) => {
            one_completes(branches.as_slice()) || complete(last.as_slice())
        }
        Stmt::While(_, condition, _) => !always_holds(condition),
        Stmt::Return(_, _) => false,
    }
}

#[cycle(completing)]
fn one_completes(branches: &[Branch<Stmt>]) -> bool
    ensures { result ≡ any_completes (map (branch_with completes) branches.now) }
{
    for branch in branches {
        if complete(branch.body.as_slice()) {
            return true;
        }
    }
    false
}

/// Whether each of these statements may come to its end, by their forms alone (D specification, "Statements").
#[cycle(completing)]
pub fn complete(stmts: &[Stmt]) -> bool
    ensures { result ≡ all_of (map completes stmts.now) }
{
    for stmt in stmts {
        if !completes(stmt) {
            return false;
        }
    }
    true
}
