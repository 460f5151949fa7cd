// The rules of what follows an operand.
ghost use Rattle.std.specs.Prelude.{◌≡◌};
ghost use Rattle.dc_grammar.specs.Readers as spec;
ghost use Rattle.dc_grammar.specs.Gives.{Gives};
ghost use Rattle.dc_parse_expr.specs.Nests.{Nests};

use crate::list::{one_item, slices, with_first};
use crate::rules::Rules;
use crate::single::{decrement, increment};
use crate::tree::{node, with_suffixes};
use dc_ast::{Expr, ExprKind, Suffix};
use dc_grammar::{Level, Miss, Terminal, ahead, mark, start_of};
use dc_token::Token;
use sqlite_items::{Boxed, Items};
use std::alloc::Global;

impl<F: Fn(Global, &[Token], usize, Level) -> Result<(Expr, &[Token]), Miss>> Rules<F> {
    #[tactic(auto, unfolding(dc_grammar::specs::Readers::member))]
    pub(crate) fn member<'a>(&self, tokens: &'a [Token]) -> Result<(Suffix, &'a [Token]), Miss>
        requires { Nests self.now.depth (F.pre self.now.inner) (F.post self.now.inner) }
        ensures { Gives (λ x. (x.0, x.1.now)) result (spec.member (spec.expr_to self.now.depth) tokens.now) }
    {
        let rest = mark(tokens, Terminal::Dot)?;
        let (symbol, rest) = self.symbol_read(rest)?;
        Ok((Suffix::Member(symbol), rest))
    }

    #[tactic(auto, unfolding(dc_grammar::specs::Readers::call))]
    pub(crate) fn call<'a>(&self, tokens: &'a [Token]) -> Result<(Suffix, &'a [Token]), Miss>
        requires { Nests self.now.depth (F.pre self.now.inner) (F.post self.now.inner) }
        ensures { Gives (λ x. (x.0, x.1.now)) result (spec.call (spec.expr_to self.now.depth) tokens.now) }
    {
        let rest = mark(tokens, Terminal::LeftParen)?;
        let (found, rest) = self.some_exprs(rest)?;
        let rest = mark(rest, Terminal::RightParen)?;
        Ok((Suffix::Call(found), rest))
    }

    #[tactic(auto, unfolding(dc_grammar::specs::Readers::slice_end))]
    pub(crate) fn slice_end<'a>(&self, tokens: &'a [Token]) -> Result<(Expr, &'a [Token]), Miss>
        requires { Nests self.now.depth (F.pre self.now.inner) (F.post self.now.inner) }
        ensures { Gives (λ x. (x.0, x.1.now)) result (spec.slice_end (spec.expr_to self.now.depth) tokens.now) }
    {
        let rest = mark(tokens, Terminal::DotDot)?;
        self.inner(rest, Level::Whole)
    }

    #[tactic(auto, unfolding(dc_grammar::specs::Readers::inside))]
    pub(crate) fn inside<'a>(&self, tokens: &'a [Token]) -> Result<(Suffix, &'a [Token]), Miss>
        requires { Nests self.now.depth (F.pre self.now.inner) (F.post self.now.inner) }
        ensures { Gives (λ x. (x.0, x.1.now)) result (spec.inside (spec.expr_to self.now.depth) tokens.now) }
    {
        match self.inner(tokens, Level::Whole) {
            Ok((x, rest)) => match self.slice_end(rest) {
                Ok((y, after)) => Ok((Suffix::Slice(x, y), after)),
                Err(Miss::Nothing) => Ok((Suffix::Index(x), rest)),
                Err(Miss::Memory) => Err(Miss::Memory),
            },
            Err(Miss::Nothing) => Ok((Suffix::All, tokens)),
            Err(Miss::Memory) => Err(Miss::Memory),
        }
    }

    #[tactic(auto, unfolding(dc_grammar::specs::Readers::bracketed))]
    pub(crate) fn bracketed<'a>(&self, tokens: &'a [Token]) -> Result<(Suffix, &'a [Token]), Miss>
        requires { Nests self.now.depth (F.pre self.now.inner) (F.post self.now.inner) }
        ensures { Gives (λ x. (x.0, x.1.now)) result (spec.bracketed (spec.expr_to self.now.depth) tokens.now) }
    {
        let rest = mark(tokens, Terminal::LeftBracket)?;
        let (found, rest) = self.inside(rest)?;
        let rest = mark(rest, Terminal::RightBracket)?;
        Ok((found, rest))
    }

    #[tactic(auto, unfolding(dc_grammar::specs::Readers::suffix))]
    pub(crate) fn suffix<'a>(&self, tokens: &'a [Token]) -> Result<(Suffix, &'a [Token]), Miss>
        requires { Nests self.now.depth (F.pre self.now.inner) (F.post self.now.inner) }
        ensures { Gives (λ x. (x.0, x.1.now)) result (spec.suffix (spec.expr_to self.now.depth) tokens.now) }
    {
        match ahead(tokens) {
            Terminal::Dot => self.member(tokens),
            Terminal::LeftParen => self.call(tokens),
            Terminal::LeftBracket => self.bracketed(tokens),
            Terminal::PlusPlus => increment(tokens),
            Terminal::MinusMinus => decrement(tokens),
            _ => Err(Miss::Nothing),
        }
    }

    pub(crate) fn suffixes<'a>(
        &self,
        tokens: &'a [Token],
    ) -> Result<(Items<Suffix>, &'a [Token]), Miss>
        requires { Nests self.now.depth (F.pre self.now.inner) (F.post self.now.inner) }
        ensures { Gives (λ x. (x.0, x.1.now)) result (spec.suffixes (spec.expr_to self.now.depth) tokens.now) }
    {
        let mut found = Items::new(self.alloc);
        let mut rest = tokens;
        for _turn in 0..tokens.len() {
            match self.suffix(rest) {
                Ok((one, after)) => {
                    found.push(one)?;
                    rest = after;
                }
                Err(Miss::Nothing) => return Ok((found, rest)),
                Err(Miss::Memory) => return Err(Miss::Memory),
            }
        }
        Ok((found, rest))
    }

    #[tactic(auto, unfolding(dc_grammar::specs::Readers::length_index))]
    pub(crate) fn length_index<'a>(
        &self,
        tokens: &'a [Token],
    ) -> Result<(Suffix, &'a [Token]), Miss>
        requires { Nests self.now.depth (F.pre self.now.inner) (F.post self.now.inner) }
        ensures { Gives (λ x. (x.0, x.1.now)) result (spec.length_index (spec.expr_to self.now.depth) tokens.now) }
    {
        let rest = mark(tokens, Terminal::LeftBracket)?;
        let (x, rest) = self.inner(rest, Level::Whole)?;
        let rest = mark(rest, Terminal::RightBracket)?;
        Ok((Suffix::Index(x), rest))
    }

    #[tactic(auto, unfolding(dc_grammar::specs::Readers::length_call))]
    pub(crate) fn length_call<'a>(&self, tokens: &'a [Token]) -> Result<(Suffix, &'a [Token]), Miss>
        requires { Nests self.now.depth (F.pre self.now.inner) (F.post self.now.inner) }
        ensures { Gives (λ x. (x.0, x.1.now)) result (spec.length_call (spec.expr_to self.now.depth) tokens.now) }
    {
        let rest = mark(tokens, Terminal::LeftParen)?;
        let (x, rest) = self.inner(rest, Level::Whole)?;
        let rest = mark(rest, Terminal::RightParen)?;
        Ok((Suffix::Call(one_item(self.alloc, x)?), rest))
    }

    #[tactic(auto, unfolding(dc_grammar::specs::Readers::length_part))]
    pub(crate) fn length_part<'a>(&self, tokens: &'a [Token]) -> Result<(Suffix, &'a [Token]), Miss>
        requires { Nests self.now.depth (F.pre self.now.inner) (F.post self.now.inner) }
        ensures { Gives (λ x. (x.0, x.1.now)) result (spec.length_part (spec.expr_to self.now.depth) tokens.now) }
    {
        match ahead(tokens) {
            Terminal::LeftBracket => self.length_index(tokens),
            _ => self.length_call(tokens),
        }
    }

    #[tactic(auto, unfolding(dc_grammar::specs::Readers::new_parts))]
    pub(crate) fn new_parts<'a>(
        &self,
        tokens: &'a [Token],
    ) -> Result<(Items<Suffix>, &'a [Token]), Miss>
        requires { Nests self.now.depth (F.pre self.now.inner) (F.post self.now.inner) }
        ensures { Gives (λ x. (x.0, x.1.now)) result (spec.new_parts (spec.expr_to self.now.depth) tokens.now) }
    {
        let (mut found, rest) = slices(self.alloc, tokens)?;
        let (length, rest) = self.length_part(rest)?;
        let (others, rest) = self.suffixes(rest)?;
        found.append(with_first(self.alloc, length, others)?)?;
        Ok((found, rest))
    }

    #[tactic(auto, unfolding(dc_grammar::specs::Readers::new))]
    pub(crate) fn new<'a>(&self, tokens: &'a [Token]) -> Result<(Expr, &'a [Token]), Miss>
        requires { Nests self.now.depth (F.pre self.now.inner) (F.post self.now.inner) }
        ensures { Gives (λ x. (x.0, x.1.now)) result (spec.new (spec.expr_to self.now.depth) tokens.now) }
    {
        let at = start_of(tokens);
        let rest = mark(tokens, Terminal::New)?;
        let (of, rest) = self.bare_type(rest)?;
        let (parts, rest) = self.new_parts(rest)?;
        let kind = ExprKind::New(Boxed::new(self.alloc, of)?, parts);
        Ok((node(self.alloc, at, kind)?, rest))
    }

    #[tactic(auto, unfolding(dc_grammar::specs::Readers::plain_postfix))]
    pub(crate) fn plain_postfix<'a>(&self, tokens: &'a [Token]) -> Result<(Expr, &'a [Token]), Miss>
        requires { Nests self.now.depth (F.pre self.now.inner) (F.post self.now.inner) }
        ensures { Gives (λ x. (x.0, x.1.now)) result (spec.plain_postfix (spec.expr_to self.now.depth) tokens.now) }
    {
        let at = start_of(tokens);
        let (first, rest) = self.operand(tokens)?;
        let (others, rest) = self.suffixes(rest)?;
        Ok((with_suffixes(self.alloc, at, first, others)?, rest))
    }

    #[tactic(auto, unfolding(dc_grammar::specs::Readers::postfix))]
    pub(crate) fn postfix<'a>(&self, tokens: &'a [Token]) -> Result<(Expr, &'a [Token]), Miss>
        requires { Nests self.now.depth (F.pre self.now.inner) (F.post self.now.inner) }
        ensures { Gives (λ x. (x.0, x.1.now)) result (spec.postfix (spec.expr_to self.now.depth) tokens.now) }
    {
        match ahead(tokens) {
            Terminal::New => self.new(tokens),
            _ => self.plain_postfix(tokens),
        }
    }
}
