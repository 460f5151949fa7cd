// The rules of operators, from those next to an operand outwards.
ghost use Rattle.std.specs.Prelude.{◌≡◌};
ghost use Rattle.dc_grammar.specs.Readers as spec;
ghost use Rattle.dc_grammar.specs.Gives.{Gives};
ghost use Rattle.dc_parse_expr.specs.Nests.{Nests};

use crate::rules::Rules;
use crate::tree::{cast_to, chained, node};
use dc_ast::{AssignOperator, BinaryOperator, Expr, ExprKind, Step};
use dc_grammar::{
    Level, Miss, Terminal, adds_sign, ahead, and_operator_sign, assign_operator_sign,
    bit_and_operator_sign, bit_or_operator_sign, bit_xor_operator_sign, compares_sign, mark,
    multiplies_sign, or_operator_sign, shifts_sign, start_of, unary_operator_sign,
};
use dc_token::Token;
use sqlite_items::Items;
use std::alloc::Global;

impl<F: Fn(Global, &[Token], usize, Level) -> Result<(Expr, &[Token]), Miss>> Rules<F> {
    #[tactic(auto, unfolding(dc_grammar::specs::Readers::prefix))]
    pub(crate) fn prefix<'a>(&self, tokens: &'a [Token]) -> Result<(Expr, &'a [Token]), Miss>
        requires { Nests self.now.depth (F.pre self.now.inner) (F.post self.now.inner) }
        ensures { Gives (λ x. (x.0, x.1.now)) result (spec.prefix (spec.expr_to self.now.depth) tokens.now) }
    {
        let at = start_of(tokens);
        let (operator, rest) = unary_operator_sign(tokens)?;
        let (x, rest) = self.inner(rest, Level::Unary)?;
        let kind = ExprKind::Unary(operator, x);
        Ok((node(self.alloc, at, kind)?, rest))
    }

    #[tactic(auto, unfolding(dc_grammar::specs::Readers::cast))]
    pub(crate) fn cast<'a>(&self, tokens: &'a [Token]) -> Result<(Expr, &'a [Token]), Miss>
        requires { Nests self.now.depth (F.pre self.now.inner) (F.post self.now.inner) }
        ensures { Gives (λ x. (x.0, x.1.now)) result (spec.cast (spec.expr_to self.now.depth) tokens.now) }
    {
        let at = start_of(tokens);
        let rest = mark(tokens, Terminal::Cast)?;
        let rest = mark(rest, Terminal::LeftParen)?;
        let (to, rest) = self.type_read(rest)?;
        let rest = mark(rest, Terminal::RightParen)?;
        let (x, rest) = self.inner(rest, Level::Unary)?;
        Ok((cast_to(self.alloc, at, to, x)?, rest))
    }

    #[tactic(auto, unfolding(dc_grammar::specs::Readers::unary))]
    pub(crate) fn unary<'a>(&self, tokens: &'a [Token]) -> Result<(Expr, &'a [Token]), Miss>
        requires { Nests self.now.depth (F.pre self.now.inner) (F.post self.now.inner) }
        ensures { Gives (λ x. (x.0, x.1.now)) result (spec.unary (spec.expr_to self.now.depth) tokens.now) }
    {
        match ahead(tokens) {
            Terminal::Minus
            | Terminal::Plus
            | Terminal::Not
            | Terminal::Tilde
            | Terminal::PlusPlus
            | Terminal::MinusMinus => self.prefix(tokens),
            Terminal::Cast => self.cast(tokens),
            _ => self.postfix(tokens),
        }
    }

    #[tactic(auto, unfolding(dc_grammar::specs::Readers::factor))]
    pub(crate) fn factor<'a>(&self, tokens: &'a [Token]) -> Result<(Step, &'a [Token]), Miss>
        requires { Nests self.now.depth (F.pre self.now.inner) (F.post self.now.inner) }
        ensures { Gives (λ x. (x.0, x.1.now)) result (spec.factor (spec.expr_to self.now.depth) tokens.now) }
    {
        let (operator, rest) = multiplies_sign(tokens)?;
        let (operand, rest) = self.unary(rest)?;
        Ok((Step { operator, operand }, rest))
    }

    pub(crate) fn factors<'a>(
        &self,
        tokens: &'a [Token],
    ) -> Result<(Items<Step>, &'a [Token]), Miss>
        requires { Nests self.now.depth (F.pre self.now.inner) (F.post self.now.inner) }
        ensures { Gives (λ x. (x.0, x.1.now)) result (spec.factors (spec.expr_to self.now.depth) tokens.now) }
    {
        let mut found = Items::new(self.alloc);
        let mut rest = tokens;
        for _turn in 0..tokens.len() {
            match self.factor(rest) {
                Ok((one, after)) => {
                    found.push(one)?;
                    rest = after;
                }
                Err(Miss::Nothing) => return Ok((found, rest)),
                Err(Miss::Memory) => return Err(Miss::Memory),
            }
        }
        Ok((found, rest))
    }

    #[tactic(auto, unfolding(dc_grammar::specs::Readers::product))]
    pub(crate) fn product<'a>(&self, tokens: &'a [Token]) -> Result<(Expr, &'a [Token]), Miss>
        requires { Nests self.now.depth (F.pre self.now.inner) (F.post self.now.inner) }
        ensures { Gives (λ x. (x.0, x.1.now)) result (spec.product (spec.expr_to self.now.depth) tokens.now) }
    {
        let at = start_of(tokens);
        let (first, rest) = self.unary(tokens)?;
        let (others, rest) = self.factors(rest)?;
        Ok((chained(self.alloc, at, first, others)?, rest))
    }

    #[tactic(auto, unfolding(dc_grammar::specs::Readers::term))]
    pub(crate) fn term<'a>(&self, tokens: &'a [Token]) -> Result<(Step, &'a [Token]), Miss>
        requires { Nests self.now.depth (F.pre self.now.inner) (F.post self.now.inner) }
        ensures { Gives (λ x. (x.0, x.1.now)) result (spec.term (spec.expr_to self.now.depth) tokens.now) }
    {
        let (operator, rest) = adds_sign(tokens)?;
        let (operand, rest) = self.product(rest)?;
        Ok((Step { operator, operand }, rest))
    }

    pub(crate) fn terms<'a>(&self, tokens: &'a [Token]) -> Result<(Items<Step>, &'a [Token]), Miss>
        requires { Nests self.now.depth (F.pre self.now.inner) (F.post self.now.inner) }
        ensures { Gives (λ x. (x.0, x.1.now)) result (spec.terms (spec.expr_to self.now.depth) tokens.now) }
    {
        let mut found = Items::new(self.alloc);
        let mut rest = tokens;
        for _turn in 0..tokens.len() {
            match self.term(rest) {
                Ok((one, after)) => {
                    found.push(one)?;
                    rest = after;
                }
                Err(Miss::Nothing) => return Ok((found, rest)),
                Err(Miss::Memory) => return Err(Miss::Memory),
            }
        }
        Ok((found, rest))
    }

    #[tactic(auto, unfolding(dc_grammar::specs::Readers::sum))]
    pub(crate) fn sum<'a>(&self, tokens: &'a [Token]) -> Result<(Expr, &'a [Token]), Miss>
        requires { Nests self.now.depth (F.pre self.now.inner) (F.post self.now.inner) }
        ensures { Gives (λ x. (x.0, x.1.now)) result (spec.sum (spec.expr_to self.now.depth) tokens.now) }
    {
        let at = start_of(tokens);
        let (first, rest) = self.product(tokens)?;
        let (others, rest) = self.terms(rest)?;
        Ok((chained(self.alloc, at, first, others)?, rest))
    }

    #[tactic(auto, unfolding(dc_grammar::specs::Readers::shifted))]
    pub(crate) fn shifted<'a>(&self, tokens: &'a [Token]) -> Result<(Step, &'a [Token]), Miss>
        requires { Nests self.now.depth (F.pre self.now.inner) (F.post self.now.inner) }
        ensures { Gives (λ x. (x.0, x.1.now)) result (spec.shifted (spec.expr_to self.now.depth) tokens.now) }
    {
        let (operator, rest) = shifts_sign(tokens)?;
        let (operand, rest) = self.sum(rest)?;
        Ok((Step { operator, operand }, rest))
    }

    pub(crate) fn shift_steps<'a>(
        &self,
        tokens: &'a [Token],
    ) -> Result<(Items<Step>, &'a [Token]), Miss>
        requires { Nests self.now.depth (F.pre self.now.inner) (F.post self.now.inner) }
        ensures { Gives (λ x. (x.0, x.1.now)) result (spec.shift_steps (spec.expr_to self.now.depth) tokens.now) }
    {
        let mut found = Items::new(self.alloc);
        let mut rest = tokens;
        for _turn in 0..tokens.len() {
            match self.shifted(rest) {
                Ok((one, after)) => {
                    found.push(one)?;
                    rest = after;
                }
                Err(Miss::Nothing) => return Ok((found, rest)),
                Err(Miss::Memory) => return Err(Miss::Memory),
            }
        }
        Ok((found, rest))
    }

    #[tactic(auto, unfolding(dc_grammar::specs::Readers::shift))]
    pub(crate) fn shift<'a>(&self, tokens: &'a [Token]) -> Result<(Expr, &'a [Token]), Miss>
        requires { Nests self.now.depth (F.pre self.now.inner) (F.post self.now.inner) }
        ensures { Gives (λ x. (x.0, x.1.now)) result (spec.shift (spec.expr_to self.now.depth) tokens.now) }
    {
        let at = start_of(tokens);
        let (first, rest) = self.sum(tokens)?;
        let (others, rest) = self.shift_steps(rest)?;
        Ok((chained(self.alloc, at, first, others)?, rest))
    }

    #[tactic(auto, unfolding(dc_grammar::specs::Readers::comparison_end))]
    pub(crate) fn comparison_end<'a>(
        &self,
        tokens: &'a [Token],
    ) -> Result<((BinaryOperator, Expr), &'a [Token]), Miss>
        requires { Nests self.now.depth (F.pre self.now.inner) (F.post self.now.inner) }
        ensures { Gives (λ x. (x.0, x.1.now)) result (spec.comparison_end (spec.expr_to self.now.depth) tokens.now) }
    {
        let (operator, rest) = compares_sign(tokens)?;
        let (y, rest) = self.shift(rest)?;
        Ok(((operator, y), rest))
    }

    #[tactic(auto, unfolding(dc_grammar::specs::Readers::comparison))]
    pub(crate) fn comparison<'a>(&self, tokens: &'a [Token]) -> Result<(Expr, &'a [Token]), Miss>
        requires { Nests self.now.depth (F.pre self.now.inner) (F.post self.now.inner) }
        ensures { Gives (λ x. (x.0, x.1.now)) result (spec.comparison (spec.expr_to self.now.depth) tokens.now) }
    {
        let at = start_of(tokens);
        let (x, rest) = self.shift(tokens)?;
        match self.comparison_end(rest) {
            Ok(((operator, y), after)) => {
                let kind = ExprKind::Compare(x, operator, y);
                Ok((node(self.alloc, at, kind)?, after))
            }
            Err(Miss::Nothing) => Ok((x, rest)),
            Err(Miss::Memory) => Err(Miss::Memory),
        }
    }

    #[tactic(auto, unfolding(dc_grammar::specs::Readers::bit_and_step))]
    pub(crate) fn bit_and_step<'a>(&self, tokens: &'a [Token]) -> Result<(Step, &'a [Token]), Miss>
        requires { Nests self.now.depth (F.pre self.now.inner) (F.post self.now.inner) }
        ensures { Gives (λ x. (x.0, x.1.now)) result (spec.bit_and_step (spec.expr_to self.now.depth) tokens.now) }
    {
        let (operator, rest) = bit_and_operator_sign(tokens)?;
        let (operand, rest) = self.comparison(rest)?;
        Ok((Step { operator, operand }, rest))
    }

    pub(crate) fn bit_ands<'a>(
        &self,
        tokens: &'a [Token],
    ) -> Result<(Items<Step>, &'a [Token]), Miss>
        requires { Nests self.now.depth (F.pre self.now.inner) (F.post self.now.inner) }
        ensures { Gives (λ x. (x.0, x.1.now)) result (spec.bit_ands (spec.expr_to self.now.depth) tokens.now) }
    {
        let mut found = Items::new(self.alloc);
        let mut rest = tokens;
        for _turn in 0..tokens.len() {
            match self.bit_and_step(rest) {
                Ok((one, after)) => {
                    found.push(one)?;
                    rest = after;
                }
                Err(Miss::Nothing) => return Ok((found, rest)),
                Err(Miss::Memory) => return Err(Miss::Memory),
            }
        }
        Ok((found, rest))
    }

    #[tactic(auto, unfolding(dc_grammar::specs::Readers::bit_and))]
    pub(crate) fn bit_and<'a>(&self, tokens: &'a [Token]) -> Result<(Expr, &'a [Token]), Miss>
        requires { Nests self.now.depth (F.pre self.now.inner) (F.post self.now.inner) }
        ensures { Gives (λ x. (x.0, x.1.now)) result (spec.bit_and (spec.expr_to self.now.depth) tokens.now) }
    {
        let at = start_of(tokens);
        let (first, rest) = self.comparison(tokens)?;
        let (others, rest) = self.bit_ands(rest)?;
        Ok((chained(self.alloc, at, first, others)?, rest))
    }

    #[tactic(auto, unfolding(dc_grammar::specs::Readers::bit_xor_step))]
    pub(crate) fn bit_xor_step<'a>(&self, tokens: &'a [Token]) -> Result<(Step, &'a [Token]), Miss>
        requires { Nests self.now.depth (F.pre self.now.inner) (F.post self.now.inner) }
        ensures { Gives (λ x. (x.0, x.1.now)) result (spec.bit_xor_step (spec.expr_to self.now.depth) tokens.now) }
    {
        let (operator, rest) = bit_xor_operator_sign(tokens)?;
        let (operand, rest) = self.bit_and(rest)?;
        Ok((Step { operator, operand }, rest))
    }

    pub(crate) fn bit_xors<'a>(
        &self,
        tokens: &'a [Token],
    ) -> Result<(Items<Step>, &'a [Token]), Miss>
        requires { Nests self.now.depth (F.pre self.now.inner) (F.post self.now.inner) }
        ensures { Gives (λ x. (x.0, x.1.now)) result (spec.bit_xors (spec.expr_to self.now.depth) tokens.now) }
    {
        let mut found = Items::new(self.alloc);
        let mut rest = tokens;
        for _turn in 0..tokens.len() {
            match self.bit_xor_step(rest) {
                Ok((one, after)) => {
                    found.push(one)?;
                    rest = after;
                }
                Err(Miss::Nothing) => return Ok((found, rest)),
                Err(Miss::Memory) => return Err(Miss::Memory),
            }
        }
        Ok((found, rest))
    }

    #[tactic(auto, unfolding(dc_grammar::specs::Readers::bit_xor))]
    pub(crate) fn bit_xor<'a>(&self, tokens: &'a [Token]) -> Result<(Expr, &'a [Token]), Miss>
        requires { Nests self.now.depth (F.pre self.now.inner) (F.post self.now.inner) }
        ensures { Gives (λ x. (x.0, x.1.now)) result (spec.bit_xor (spec.expr_to self.now.depth) tokens.now) }
    {
        let at = start_of(tokens);
        let (first, rest) = self.bit_and(tokens)?;
        let (others, rest) = self.bit_xors(rest)?;
        Ok((chained(self.alloc, at, first, others)?, rest))
    }

    #[tactic(auto, unfolding(dc_grammar::specs::Readers::bit_or_step))]
    pub(crate) fn bit_or_step<'a>(&self, tokens: &'a [Token]) -> Result<(Step, &'a [Token]), Miss>
        requires { Nests self.now.depth (F.pre self.now.inner) (F.post self.now.inner) }
        ensures { Gives (λ x. (x.0, x.1.now)) result (spec.bit_or_step (spec.expr_to self.now.depth) tokens.now) }
    {
        let (operator, rest) = bit_or_operator_sign(tokens)?;
        let (operand, rest) = self.bit_xor(rest)?;
        Ok((Step { operator, operand }, rest))
    }

    pub(crate) fn bit_ors<'a>(
        &self,
        tokens: &'a [Token],
    ) -> Result<(Items<Step>, &'a [Token]), Miss>
        requires { Nests self.now.depth (F.pre self.now.inner) (F.post self.now.inner) }
        ensures { Gives (λ x. (x.0, x.1.now)) result (spec.bit_ors (spec.expr_to self.now.depth) tokens.now) }
    {
        let mut found = Items::new(self.alloc);
        let mut rest = tokens;
        for _turn in 0..tokens.len() {
            match self.bit_or_step(rest) {
                Ok((one, after)) => {
                    found.push(one)?;
                    rest = after;
                }
                Err(Miss::Nothing) => return Ok((found, rest)),
                Err(Miss::Memory) => return Err(Miss::Memory),
            }
        }
        Ok((found, rest))
    }

    #[tactic(auto, unfolding(dc_grammar::specs::Readers::bit_or))]
    pub(crate) fn bit_or<'a>(&self, tokens: &'a [Token]) -> Result<(Expr, &'a [Token]), Miss>
        requires { Nests self.now.depth (F.pre self.now.inner) (F.post self.now.inner) }
        ensures { Gives (λ x. (x.0, x.1.now)) result (spec.bit_or (spec.expr_to self.now.depth) tokens.now) }
    {
        let at = start_of(tokens);
        let (first, rest) = self.bit_xor(tokens)?;
        let (others, rest) = self.bit_ors(rest)?;
        Ok((chained(self.alloc, at, first, others)?, rest))
    }

    #[tactic(auto, unfolding(dc_grammar::specs::Readers::and_step))]
    pub(crate) fn and_step<'a>(&self, tokens: &'a [Token]) -> Result<(Step, &'a [Token]), Miss>
        requires { Nests self.now.depth (F.pre self.now.inner) (F.post self.now.inner) }
        ensures { Gives (λ x. (x.0, x.1.now)) result (spec.and_step (spec.expr_to self.now.depth) tokens.now) }
    {
        let (operator, rest) = and_operator_sign(tokens)?;
        let (operand, rest) = self.bit_or(rest)?;
        Ok((Step { operator, operand }, rest))
    }

    pub(crate) fn ands<'a>(&self, tokens: &'a [Token]) -> Result<(Items<Step>, &'a [Token]), Miss>
        requires { Nests self.now.depth (F.pre self.now.inner) (F.post self.now.inner) }
        ensures { Gives (λ x. (x.0, x.1.now)) result (spec.ands (spec.expr_to self.now.depth) tokens.now) }
    {
        let mut found = Items::new(self.alloc);
        let mut rest = tokens;
        for _turn in 0..tokens.len() {
            match self.and_step(rest) {
                Ok((one, after)) => {
                    found.push(one)?;
                    rest = after;
                }
                Err(Miss::Nothing) => return Ok((found, rest)),
                Err(Miss::Memory) => return Err(Miss::Memory),
            }
        }
        Ok((found, rest))
    }

    #[tactic(auto, unfolding(dc_grammar::specs::Readers::and))]
    pub(crate) fn and<'a>(&self, tokens: &'a [Token]) -> Result<(Expr, &'a [Token]), Miss>
        requires { Nests self.now.depth (F.pre self.now.inner) (F.post self.now.inner) }
        ensures { Gives (λ x. (x.0, x.1.now)) result (spec.and (spec.expr_to self.now.depth) tokens.now) }
    {
        let at = start_of(tokens);
        let (first, rest) = self.bit_or(tokens)?;
        let (others, rest) = self.ands(rest)?;
        Ok((chained(self.alloc, at, first, others)?, rest))
    }

    #[tactic(auto, unfolding(dc_grammar::specs::Readers::or_step))]
    pub(crate) fn or_step<'a>(&self, tokens: &'a [Token]) -> Result<(Step, &'a [Token]), Miss>
        requires { Nests self.now.depth (F.pre self.now.inner) (F.post self.now.inner) }
        ensures { Gives (λ x. (x.0, x.1.now)) result (spec.or_step (spec.expr_to self.now.depth) tokens.now) }
    {
        let (operator, rest) = or_operator_sign(tokens)?;
        let (operand, rest) = self.and(rest)?;
        Ok((Step { operator, operand }, rest))
    }

    pub(crate) fn ors<'a>(&self, tokens: &'a [Token]) -> Result<(Items<Step>, &'a [Token]), Miss>
        requires { Nests self.now.depth (F.pre self.now.inner) (F.post self.now.inner) }
        ensures { Gives (λ x. (x.0, x.1.now)) result (spec.ors (spec.expr_to self.now.depth) tokens.now) }
    {
        let mut found = Items::new(self.alloc);
        let mut rest = tokens;
        for _turn in 0..tokens.len() {
            match self.or_step(rest) {
                Ok((one, after)) => {
                    found.push(one)?;
                    rest = after;
                }
                Err(Miss::Nothing) => return Ok((found, rest)),
                Err(Miss::Memory) => return Err(Miss::Memory),
            }
        }
        Ok((found, rest))
    }

    #[tactic(auto, unfolding(dc_grammar::specs::Readers::or))]
    pub(crate) fn or<'a>(&self, tokens: &'a [Token]) -> Result<(Expr, &'a [Token]), Miss>
        requires { Nests self.now.depth (F.pre self.now.inner) (F.post self.now.inner) }
        ensures { Gives (λ x. (x.0, x.1.now)) result (spec.or (spec.expr_to self.now.depth) tokens.now) }
    {
        let at = start_of(tokens);
        let (first, rest) = self.and(tokens)?;
        let (others, rest) = self.ors(rest)?;
        Ok((chained(self.alloc, at, first, others)?, rest))
    }

    #[tactic(auto, unfolding(dc_grammar::specs::Readers::conditional_end))]
    pub(crate) fn conditional_end<'a>(
        &self,
        tokens: &'a [Token],
    ) -> Result<((Expr, Expr), &'a [Token]), Miss>
        requires { Nests self.now.depth (F.pre self.now.inner) (F.post self.now.inner) }
        ensures { Gives (λ x. (x.0, x.1.now)) result (spec.conditional_end (spec.expr_to self.now.depth) tokens.now) }
    {
        let rest = mark(tokens, Terminal::Question)?;
        let (y, rest) = self.inner(rest, Level::Whole)?;
        let rest = mark(rest, Terminal::Colon)?;
        let (z, rest) = self.inner(rest, Level::Conditional)?;
        Ok(((y, z), rest))
    }

    #[tactic(auto, unfolding(dc_grammar::specs::Readers::conditional))]
    pub(crate) fn conditional<'a>(&self, tokens: &'a [Token]) -> Result<(Expr, &'a [Token]), Miss>
        requires { Nests self.now.depth (F.pre self.now.inner) (F.post self.now.inner) }
        ensures { Gives (λ x. (x.0, x.1.now)) result (spec.conditional (spec.expr_to self.now.depth) tokens.now) }
    {
        let at = start_of(tokens);
        let (x, rest) = self.or(tokens)?;
        match self.conditional_end(rest) {
            Ok(((y, z), after)) => {
                let kind = ExprKind::Conditional(x, y, z);
                Ok((node(self.alloc, at, kind)?, after))
            }
            Err(Miss::Nothing) => Ok((x, rest)),
            Err(Miss::Memory) => Err(Miss::Memory),
        }
    }

    #[tactic(auto, unfolding(dc_grammar::specs::Readers::assign_end))]
    pub(crate) fn assign_end<'a>(
        &self,
        tokens: &'a [Token],
    ) -> Result<((AssignOperator, Expr), &'a [Token]), Miss>
        requires { Nests self.now.depth (F.pre self.now.inner) (F.post self.now.inner) }
        ensures { Gives (λ x. (x.0, x.1.now)) result (spec.assign_end (spec.expr_to self.now.depth) tokens.now) }
    {
        let (operator, rest) = assign_operator_sign(tokens)?;
        let (value, rest) = self.inner(rest, Level::Whole)?;
        Ok(((operator, value), rest))
    }

    #[tactic(auto, unfolding(dc_grammar::specs::Readers::whole))]
    pub(crate) fn whole<'a>(&self, tokens: &'a [Token]) -> Result<(Expr, &'a [Token]), Miss>
        requires { Nests self.now.depth (F.pre self.now.inner) (F.post self.now.inner) }
        ensures { Gives (λ x. (x.0, x.1.now)) result (spec.whole (spec.expr_to self.now.depth) tokens.now) }
    {
        let at = start_of(tokens);
        let (x, rest) = self.conditional(tokens)?;
        match self.assign_end(rest) {
            Ok(((operator, y), after)) => {
                let kind = ExprKind::Assign(x, operator, y);
                Ok((node(self.alloc, at, kind)?, after))
            }
            Err(Miss::Nothing) => Ok((x, rest)),
            Err(Miss::Memory) => Err(Miss::Memory),
        }
    }
}
