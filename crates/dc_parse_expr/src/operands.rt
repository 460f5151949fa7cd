// The rules of operands.
ghost use Rattle.std.specs.Prelude.{◌≡◌};
ghost use Rattle.dc_grammar.specs.Readers as spec;
ghost use Rattle.dc_grammar.specs.Gives.{Gives};
ghost use Rattle.dc_parse_expr.specs.Nests.{Nests};

use crate::list::{next_names, with_first};
use crate::rules::Rules;
use crate::single::{
    character, dollar, false_word, integer, null, property, string, this, true_word,
};
use crate::tree::node;
use dc_ast::{Expr, ExprKind, IsAgainst, IsTest, IsTree};
use dc_grammar::{Level, Miss, Terminal, ahead, id, is_relation_sign, mark, start_of};
use dc_token::Token;
use sqlite_items::{Boxed, Items};
use std::alloc::Global;

impl<F: Fn(Global, &[Token], usize, Level) -> Result<(Expr, &[Token]), Miss>> Rules<F> {
    pub(crate) fn symbol_expr<'a>(
        &self,
        tokens: &'a [Token],
    ) -> Result<(ExprKind, &'a [Token]), Miss>
        requires { Nests self.now.depth (F.pre self.now.inner) (F.post self.now.inner) }
        ensures { Gives (λ x. (x.0, x.1.now)) result (spec.symbol_expr (spec.expr_to self.now.depth) tokens.now) }
    {
        let (symbol, rest) = self.symbol_read(tokens)?;
        Ok((ExprKind::Symbol(symbol), rest))
    }

    #[tactic(auto, unfolding(dc_grammar::specs::Readers::next_expr))]
    pub(crate) fn next_expr<'a>(&self, tokens: &'a [Token]) -> Result<(Expr, &'a [Token]), Miss>
        requires { Nests self.now.depth (F.pre self.now.inner) (F.post self.now.inner) }
        ensures { Gives (λ x. (x.0, x.1.now)) result (spec.next_expr (spec.expr_to self.now.depth) tokens.now) }
    {
        let rest = mark(tokens, Terminal::Comma)?;
        self.inner(rest, Level::Whole)
    }

    pub(crate) fn next_exprs<'a>(
        &self,
        tokens: &'a [Token],
    ) -> Result<(Items<Expr>, &'a [Token]), Miss>
        requires { Nests self.now.depth (F.pre self.now.inner) (F.post self.now.inner) }
        ensures { Gives (λ x. (x.0, x.1.now)) result (spec.next_exprs (spec.expr_to self.now.depth) tokens.now) }
    {
        let mut found = Items::new(self.alloc);
        let mut rest = tokens;
        for _turn in 0..tokens.len() {
            match self.next_expr(rest) {
                Ok((one, after)) => {
                    found.push(one)?;
                    rest = after;
                }
                Err(Miss::Nothing) => return Ok((found, rest)),
                Err(Miss::Memory) => return Err(Miss::Memory),
            }
        }
        Ok((found, rest))
    }

    #[tactic(auto, unfolding(dc_grammar::specs::Readers::exprs))]
    pub(crate) fn exprs<'a>(&self, tokens: &'a [Token]) -> Result<(Items<Expr>, &'a [Token]), Miss>
        requires { Nests self.now.depth (F.pre self.now.inner) (F.post self.now.inner) }
        ensures { Gives (λ x. (x.0, x.1.now)) result (spec.exprs (spec.expr_to self.now.depth) tokens.now) }
    {
        let (first, rest) = self.inner(tokens, Level::Whole)?;
        let (others, rest) = self.next_exprs(rest)?;
        Ok((with_first(self.alloc, first, others)?, rest))
    }

    #[tactic(auto, unfolding(dc_grammar::specs::Readers::some_exprs))]
    pub(crate) fn some_exprs<'a>(
        &self,
        tokens: &'a [Token],
    ) -> Result<(Items<Expr>, &'a [Token]), Miss>
        requires { Nests self.now.depth (F.pre self.now.inner) (F.post self.now.inner) }
        ensures { Gives (λ x. (x.0, x.1.now)) result (spec.some_exprs (spec.expr_to self.now.depth) tokens.now) }
    {
        match self.exprs(tokens) {
            Ok((found, rest)) => Ok((found, rest)),
            Err(Miss::Nothing) => Ok((Items::new(self.alloc), tokens)),
            Err(Miss::Memory) => Err(Miss::Memory),
        }
    }

    #[tactic(auto, unfolding(dc_grammar::specs::Readers::paren))]
    pub(crate) fn paren<'a>(&self, tokens: &'a [Token]) -> Result<(ExprKind, &'a [Token]), Miss>
        requires { Nests self.now.depth (F.pre self.now.inner) (F.post self.now.inner) }
        ensures { Gives (λ x. (x.0, x.1.now)) result (spec.paren (spec.expr_to self.now.depth) tokens.now) }
    {
        let rest = mark(tokens, Terminal::LeftParen)?;
        let (x, rest) = self.inner(rest, Level::Whole)?;
        let rest = mark(rest, Terminal::RightParen)?;
        Ok((ExprKind::Paren(x), rest))
    }

    #[tactic(auto, unfolding(dc_grammar::specs::Readers::array))]
    pub(crate) fn array<'a>(&self, tokens: &'a [Token]) -> Result<(ExprKind, &'a [Token]), Miss>
        requires { Nests self.now.depth (F.pre self.now.inner) (F.post self.now.inner) }
        ensures { Gives (λ x. (x.0, x.1.now)) result (spec.array (spec.expr_to self.now.depth) tokens.now) }
    {
        let rest = mark(tokens, Terminal::LeftBracket)?;
        let (found, rest) = self.some_exprs(rest)?;
        let rest = mark(rest, Terminal::RightBracket)?;
        Ok((ExprKind::Array(found), rest))
    }

    #[tactic(auto, unfolding(dc_grammar::specs::Readers::type_of_property))]
    pub(crate) fn type_of_property<'a>(
        &self,
        tokens: &'a [Token],
    ) -> Result<(ExprKind, &'a [Token]), Miss>
        requires { Nests self.now.depth (F.pre self.now.inner) (F.post self.now.inner) }
        ensures { Gives (λ x. (x.0, x.1.now)) result (spec.type_of_property (spec.expr_to self.now.depth) tokens.now) }
    {
        let rest = mark(tokens, Terminal::TypeOf)?;
        let rest = mark(rest, Terminal::LeftParen)?;
        let (x, rest) = self.inner(rest, Level::Whole)?;
        let rest = mark(rest, Terminal::RightParen)?;
        let rest = mark(rest, Terminal::Dot)?;
        let (name, rest) = id(self.alloc, rest)?;
        Ok((ExprKind::TypeOfProperty(x, name), rest))
    }

    #[tactic(auto, unfolding(dc_grammar::specs::Readers::mixin))]
    pub(crate) fn mixin<'a>(&self, tokens: &'a [Token]) -> Result<(ExprKind, &'a [Token]), Miss>
        requires { Nests self.now.depth (F.pre self.now.inner) (F.post self.now.inner) }
        ensures { Gives (λ x. (x.0, x.1.now)) result (spec.mixin (spec.expr_to self.now.depth) tokens.now) }
    {
        let rest = mark(tokens, Terminal::Mixin)?;
        let rest = mark(rest, Terminal::LeftParen)?;
        let (x, rest) = self.inner(rest, Level::Whole)?;
        let rest = mark(rest, Terminal::RightParen)?;
        Ok((ExprKind::Mixin(x), rest))
    }

    #[tactic(auto, unfolding(dc_grammar::specs::Readers::against))]
    pub(crate) fn against<'a>(&self, tokens: &'a [Token]) -> Result<(IsAgainst, &'a [Token]), Miss>
        requires { Nests self.now.depth (F.pre self.now.inner) (F.post self.now.inner) }
        ensures { Gives (λ x. (x.0, x.1.now)) result (spec.against (spec.expr_to self.now.depth) tokens.now) }
    {
        match ahead(tokens) {
            Terminal::Struct => {
                let rest = mark(tokens, Terminal::Struct)?;
                Ok((IsAgainst::Struct, rest))
            }
            _ => {
                let (of, rest) = self.type_read(tokens)?;
                Ok((IsAgainst::OfType(of), rest))
            }
        }
    }

    #[tactic(auto, unfolding(dc_grammar::specs::Readers::is_test_read))]
    pub(crate) fn is_test_read<'a>(
        &self,
        tokens: &'a [Token],
    ) -> Result<(IsTest, &'a [Token]), Miss>
        requires { Nests self.now.depth (F.pre self.now.inner) (F.post self.now.inner) }
        ensures { Gives (λ x. (x.0, x.1.now)) result (spec.is_test_read (spec.expr_to self.now.depth) tokens.now) }
    {
        let (relation, rest) = is_relation_sign(tokens)?;
        let (against, rest) = self.against(rest)?;
        let (names, rest) = next_names(self.alloc, rest)?;
        Ok((
            IsTest {
                relation,
                against,
                names,
            },
            rest,
        ))
    }

    #[tactic(auto, unfolding(dc_grammar::specs::Readers::is_tree_read))]
    pub(crate) fn is_tree_read<'a>(
        &self,
        tokens: &'a [Token],
    ) -> Result<(IsTree, &'a [Token]), Miss>
        requires { Nests self.now.depth (F.pre self.now.inner) (F.post self.now.inner) }
        ensures { Gives (λ x. (x.0, x.1.now)) result (spec.is_tree_read (spec.expr_to self.now.depth) tokens.now) }
    {
        let (of, rest) = self.type_read(tokens)?;
        match self.is_test_read(rest) {
            Ok((test, after)) => Ok((
                IsTree {
                    of,
                    test: Some(test),
                },
                after,
            )),
            Err(Miss::Nothing) => Ok((IsTree { of, test: None }, rest)),
            Err(Miss::Memory) => Err(Miss::Memory),
        }
    }

    #[tactic(auto, unfolding(dc_grammar::specs::Readers::is_expr))]
    pub(crate) fn is_expr<'a>(&self, tokens: &'a [Token]) -> Result<(ExprKind, &'a [Token]), Miss>
        requires { Nests self.now.depth (F.pre self.now.inner) (F.post self.now.inner) }
        ensures { Gives (λ x. (x.0, x.1.now)) result (spec.is_expr (spec.expr_to self.now.depth) tokens.now) }
    {
        let rest = mark(tokens, Terminal::Is)?;
        let rest = mark(rest, Terminal::LeftParen)?;
        let (x, rest) = self.is_tree_read(rest)?;
        let rest = mark(rest, Terminal::RightParen)?;
        Ok((ExprKind::Is(Boxed::new(self.alloc, x)?), rest))
    }

    #[tactic(auto, unfolding(dc_grammar::specs::Readers::traits))]
    pub(crate) fn traits<'a>(&self, tokens: &'a [Token]) -> Result<(ExprKind, &'a [Token]), Miss>
        requires { Nests self.now.depth (F.pre self.now.inner) (F.post self.now.inner) }
        ensures { Gives (λ x. (x.0, x.1.now)) result (spec.traits (spec.expr_to self.now.depth) tokens.now) }
    {
        let rest = mark(tokens, Terminal::Traits)?;
        let rest = mark(rest, Terminal::LeftParen)?;
        let (name, rest) = id(self.alloc, rest)?;
        let rest = mark(rest, Terminal::Comma)?;
        let (found, rest) = self.arguments(rest)?;
        let rest = mark(rest, Terminal::RightParen)?;
        Ok((ExprKind::Traits(name, found), rest))
    }

    pub(crate) fn message<'a>(
        &self,
        tokens: &'a [Token],
    ) -> Result<(Option<Expr>, &'a [Token]), Miss>
        requires { Nests self.now.depth (F.pre self.now.inner) (F.post self.now.inner) }
        ensures { Gives (λ x. (x.0, x.1.now)) result (spec.message (spec.expr_to self.now.depth) tokens.now) }
    {
        match self.next_expr(tokens) {
            Ok((x, rest)) => Ok((Some(x), rest)),
            Err(Miss::Nothing) => Ok((None, tokens)),
            Err(Miss::Memory) => Err(Miss::Memory),
        }
    }

    #[tactic(auto, unfolding(dc_grammar::specs::Readers::assert))]
    pub(crate) fn assert<'a>(&self, tokens: &'a [Token]) -> Result<(ExprKind, &'a [Token]), Miss>
        requires { Nests self.now.depth (F.pre self.now.inner) (F.post self.now.inner) }
        ensures { Gives (λ x. (x.0, x.1.now)) result (spec.assert (spec.expr_to self.now.depth) tokens.now) }
    {
        let rest = mark(tokens, Terminal::Assert)?;
        let rest = mark(rest, Terminal::LeftParen)?;
        let (x, rest) = self.inner(rest, Level::Whole)?;
        let (message, rest) = self.message(rest)?;
        let rest = mark(rest, Terminal::RightParen)?;
        Ok((ExprKind::Assert(x, message), rest))
    }

    #[tactic(auto, unfolding(dc_grammar::specs::Readers::primary))]
    pub(crate) fn primary<'a>(&self, tokens: &'a [Token]) -> Result<(ExprKind, &'a [Token]), Miss>
        requires { Nests self.now.depth (F.pre self.now.inner) (F.post self.now.inner) }
        ensures { Gives (λ x. (x.0, x.1.now)) result (spec.primary (spec.expr_to self.now.depth) tokens.now) }
    {
        match ahead(tokens) {
            Terminal::Integer => integer(self.alloc, tokens),
            Terminal::Str => string(self.alloc, tokens),
            Terminal::Character => character(self.alloc, tokens),
            Terminal::Null => null(tokens),
            Terminal::True => true_word(tokens),
            Terminal::False => false_word(tokens),
            Terminal::This => this(tokens),
            Terminal::Dollar => dollar(tokens),
            Terminal::Name => self.symbol_expr(tokens),
            Terminal::LeftParen => self.paren(tokens),
            Terminal::LeftBracket => self.array(tokens),
            Terminal::TypeOf => self.type_of_property(tokens),
            Terminal::Mixin => self.mixin(tokens),
            Terminal::Is => self.is_expr(tokens),
            Terminal::Traits => self.traits(tokens),
            Terminal::Assert => self.assert(tokens),
            _ => property(self.alloc, tokens),
        }
    }

    #[tactic(auto, unfolding(dc_grammar::specs::Readers::operand))]
    pub(crate) fn operand<'a>(&self, tokens: &'a [Token]) -> Result<(Expr, &'a [Token]), Miss>
        requires { Nests self.now.depth (F.pre self.now.inner) (F.post self.now.inner) }
        ensures { Gives (λ x. (x.0, x.1.now)) result (spec.operand (spec.expr_to self.now.depth) tokens.now) }
    {
        let at = start_of(tokens);
        let (kind, rest) = self.primary(tokens)?;
        Ok((node(self.alloc, at, kind)?, rest))
    }
}
