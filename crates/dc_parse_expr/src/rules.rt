// The rules take the reader of expressions as a parameter, so that each is proved by itself.
ghost use Rattle.dc_grammar.specs.Readers as spec;
ghost use Rattle.dc_grammar.specs.Gives.{Gives};
ghost use Rattle.dc_parse_expr.specs.Nests.{Nests};

use dc_ast::{Expr, TypeTree};
use dc_grammar::{Level, Miss};
use dc_token::Token;
use std::alloc::Global;

/// The rules of the grammar, one method for each.
#[derive(Clone, Copy)]
pub(crate) struct Rules<F> {
    pub(crate) alloc: Global,
    /// How deep expressions may still nest.
    pub(crate) depth: usize,
    /// Reads the expressions inside.
    pub(crate) inner: F,
}

impl<F: Fn(Global, &[Token], usize, Level) -> Result<(Expr, &[Token]), Miss>> Rules<F> {
    pub(crate) fn inner<'a>(
        &self,
        tokens: &'a [Token],
        level: Level,
    ) -> Result<(Expr, &'a [Token]), Miss>
        requires { Nests self.now.depth (F.pre self.now.inner) (F.post self.now.inner) }
        ensures { Gives (λ x. (x.0, x.1.now)) result (spec.expr_to self.now.depth level tokens.now) }
    {
        (self.inner)(self.alloc, tokens, self.depth, level)
    }

    fn level<'a>(&self, tokens: &'a [Token], level: Level) -> Result<(Expr, &'a [Token]), Miss>
        requires { Nests self.now.depth (F.pre self.now.inner) (F.post self.now.inner) }
        ensures { Gives (λ x. (x.0, x.1.now)) result (spec.level (spec.expr_to self.now.depth) level tokens.now) }
    {
        match level {
            Level::Whole => self.whole(tokens),
            Level::Conditional => self.conditional(tokens),
            Level::Unary => self.unary(tokens),
        }
    }
}

/// The longest expression of this level that begins the tokens, with what follows it. Each further level of nesting
/// takes a token, so `depth` is to be at least the count of tokens.
pub(crate) fn expr(
    alloc: Global,
    tokens: &[Token],
    depth: usize,
    level: Level,
) -> Result<(Expr, &[Token]), Miss>
    ensures { Gives (λ x. (x.0, x.1.now)) result (spec.expr_to depth level tokens.now) }
{
    if depth == 0 {
        return Err(Miss::Nothing);
    }
    Rules {
        alloc,
        depth: depth - 1,
        inner: expr,
    }
    .level(tokens, level)
}

/// The longest type that begins the tokens, with what follows it.
pub(crate) fn type_at(alloc: Global, tokens: &[Token]) -> Result<(TypeTree, &[Token]), Miss>
    ensures { Gives (λ x. (x.0, x.1.now)) result (spec.whole_type tokens.now) }
{
    Rules {
        alloc,
        depth: tokens.len(),
        inner: expr,
    }
    .type_read(tokens)
}
