// The rules of types, names and arguments.
ghost use Rattle.std.specs.Prelude.{◌≡◌};
ghost use Rattle.dc_grammar.specs.Readers as spec;
ghost use Rattle.dc_grammar.specs.Gives.{Gives};
ghost use Rattle.dc_parse_expr.specs.Nests.{Nests};

use crate::list::with_first;
use crate::rules::Rules;
use crate::single::{basic, immutable_char, one_basic, one_value};
use dc_ast::{Argument, Base, Bracket, Expr, Symbol, TypeTree};
use dc_grammar::{Level, Miss, Terminal, ahead, behind_parens, id, mark, names_member, start_of};
use dc_token::Token;
use sqlite_items::Items;
use std::alloc::Global;

impl<F: Fn(Global, &[Token], usize, Level) -> Result<(Expr, &[Token]), Miss>> Rules<F> {
    #[tactic(auto, unfolding(dc_grammar::specs::Readers::bracket_length))]
    pub(crate) fn bracket_length<'a>(
        &self,
        tokens: &'a [Token],
    ) -> Result<(Bracket, &'a [Token]), Miss>
        requires { Nests self.now.depth (F.pre self.now.inner) (F.post self.now.inner) }
        ensures { Gives (λ x. (x.0, x.1.now)) result (spec.bracket_length (spec.expr_to self.now.depth) tokens.now) }
    {
        match self.inner(tokens, Level::Whole) {
            Ok((x, rest)) => Ok((Bracket::Fixed(x), rest)),
            Err(Miss::Nothing) => Ok((Bracket::Slice, tokens)),
            Err(Miss::Memory) => Err(Miss::Memory),
        }
    }

    #[tactic(auto, unfolding(dc_grammar::specs::Readers::bracket))]
    pub(crate) fn bracket<'a>(&self, tokens: &'a [Token]) -> Result<(Bracket, &'a [Token]), Miss>
        requires { Nests self.now.depth (F.pre self.now.inner) (F.post self.now.inner) }
        ensures { Gives (λ x. (x.0, x.1.now)) result (spec.bracket (spec.expr_to self.now.depth) tokens.now) }
    {
        let rest = mark(tokens, Terminal::LeftBracket)?;
        let (length, rest) = self.bracket_length(rest)?;
        let rest = mark(rest, Terminal::RightBracket)?;
        Ok((length, rest))
    }

    pub(crate) fn brackets<'a>(
        &self,
        tokens: &'a [Token],
    ) -> Result<(Items<Bracket>, &'a [Token]), Miss>
        requires { Nests self.now.depth (F.pre self.now.inner) (F.post self.now.inner) }
        ensures { Gives (λ x. (x.0, x.1.now)) result (spec.brackets (spec.expr_to self.now.depth) tokens.now) }
    {
        let mut found = Items::new(self.alloc);
        let mut rest = tokens;
        for _turn in 0..tokens.len() {
            match self.bracket(rest) {
                Ok((one, after)) => {
                    found.push(one)?;
                    rest = after;
                }
                Err(Miss::Nothing) => return Ok((found, rest)),
                Err(Miss::Memory) => return Err(Miss::Memory),
            }
        }
        Ok((found, rest))
    }

    #[tactic(auto, unfolding(dc_grammar::specs::Readers::type_of))]
    pub(crate) fn type_of<'a>(&self, tokens: &'a [Token]) -> Result<(Base, &'a [Token]), Miss>
        requires { Nests self.now.depth (F.pre self.now.inner) (F.post self.now.inner) }
        ensures { Gives (λ x. (x.0, x.1.now)) result (spec.type_of (spec.expr_to self.now.depth) tokens.now) }
    {
        let rest = mark(tokens, Terminal::TypeOf)?;
        let rest = mark(rest, Terminal::LeftParen)?;
        let (x, rest) = self.inner(rest, Level::Whole)?;
        let rest = mark(rest, Terminal::RightParen)?;
        Ok((Base::TypeOf(x), rest))
    }

    #[tactic(auto, unfolding(dc_grammar::specs::Readers::plain_base))]
    pub(crate) fn plain_base<'a>(&self, tokens: &'a [Token]) -> Result<(Base, &'a [Token]), Miss>
        requires { Nests self.now.depth (F.pre self.now.inner) (F.post self.now.inner) }
        ensures { Gives (λ x. (x.0, x.1.now)) result (spec.plain_base (spec.expr_to self.now.depth) tokens.now) }
    {
        match ahead(tokens) {
            Terminal::TypeOf => self.type_of(tokens),
            Terminal::Immutable => immutable_char(tokens),
            _ => basic(tokens),
        }
    }

    #[tactic(auto, unfolding(dc_grammar::specs::Readers::plain_type))]
    pub(crate) fn plain_type<'a>(
        &self,
        tokens: &'a [Token],
    ) -> Result<(TypeTree, &'a [Token]), Miss>
        requires { Nests self.now.depth (F.pre self.now.inner) (F.post self.now.inner) }
        ensures { Gives (λ x. (x.0, x.1.now)) result (spec.plain_type (spec.expr_to self.now.depth) tokens.now) }
    {
        let at = start_of(tokens);
        let (base, rest) = self.plain_base(tokens)?;
        let (brackets, rest) = self.brackets(rest)?;
        Ok((TypeTree { at, base, brackets }, rest))
    }

    pub(crate) fn of_type<'a>(&self, tokens: &'a [Token]) -> Result<(Argument, &'a [Token]), Miss>
        requires { Nests self.now.depth (F.pre self.now.inner) (F.post self.now.inner) }
        ensures { Gives (λ x. (x.0, x.1.now)) result (spec.of_type (spec.expr_to self.now.depth) tokens.now) }
    {
        let (of, rest) = self.plain_type(tokens)?;
        Ok((Argument::OfType(of), rest))
    }

    pub(crate) fn value_or_type<'a>(
        &self,
        tokens: &'a [Token],
    ) -> Result<(Argument, &'a [Token]), Miss>
        requires { Nests self.now.depth (F.pre self.now.inner) (F.post self.now.inner) }
        ensures { Gives (λ x. (x.0, x.1.now)) result (spec.value_or_type (spec.expr_to self.now.depth) tokens.now) }
    {
        match self.inner(tokens, Level::Whole) {
            Ok((x, rest)) => Ok((Argument::Value(x), rest)),
            Err(Miss::Nothing) => self.of_type(tokens),
            Err(Miss::Memory) => Err(Miss::Memory),
        }
    }

    /// An argument that begins with a `typeof`: what stands behind its `)` says what it is.
    pub(crate) fn type_of_argument<'a>(
        &self,
        tokens: &'a [Token],
    ) -> Result<(Argument, &'a [Token]), Miss>
        requires { Nests self.now.depth (F.pre self.now.inner) (F.post self.now.inner) }
        ensures { Gives (λ x. (x.0, x.1.now)) result (spec.type_of_argument (spec.expr_to self.now.depth) tokens.now) }
    {
        if names_member(behind_parens(tokens)) {
            let (x, rest) = self.inner(tokens, Level::Whole)?;
            return Ok((Argument::Value(x), rest));
        }
        self.of_type(tokens)
    }

    #[tactic(auto, unfolding(dc_grammar::specs::Readers::argument))]
    pub(crate) fn argument<'a>(&self, tokens: &'a [Token]) -> Result<(Argument, &'a [Token]), Miss>
        requires { Nests self.now.depth (F.pre self.now.inner) (F.post self.now.inner) }
        ensures { Gives (λ x. (x.0, x.1.now)) result (spec.argument (spec.expr_to self.now.depth) tokens.now) }
    {
        match ahead(tokens) {
            Terminal::TypeOf => self.type_of_argument(tokens),
            _ => self.value_or_type(tokens),
        }
    }

    #[tactic(auto, unfolding(dc_grammar::specs::Readers::next_argument))]
    pub(crate) fn next_argument<'a>(
        &self,
        tokens: &'a [Token],
    ) -> Result<(Argument, &'a [Token]), Miss>
        requires { Nests self.now.depth (F.pre self.now.inner) (F.post self.now.inner) }
        ensures { Gives (λ x. (x.0, x.1.now)) result (spec.next_argument (spec.expr_to self.now.depth) tokens.now) }
    {
        let rest = mark(tokens, Terminal::Comma)?;
        self.argument(rest)
    }

    pub(crate) fn next_arguments<'a>(
        &self,
        tokens: &'a [Token],
    ) -> Result<(Items<Argument>, &'a [Token]), Miss>
        requires { Nests self.now.depth (F.pre self.now.inner) (F.post self.now.inner) }
        ensures { Gives (λ x. (x.0, x.1.now)) result (spec.next_arguments (spec.expr_to self.now.depth) tokens.now) }
    {
        let mut found = Items::new(self.alloc);
        let mut rest = tokens;
        for _turn in 0..tokens.len() {
            match self.next_argument(rest) {
                Ok((one, after)) => {
                    found.push(one)?;
                    rest = after;
                }
                Err(Miss::Nothing) => return Ok((found, rest)),
                Err(Miss::Memory) => return Err(Miss::Memory),
            }
        }
        Ok((found, rest))
    }

    #[tactic(auto, unfolding(dc_grammar::specs::Readers::arguments))]
    pub(crate) fn arguments<'a>(
        &self,
        tokens: &'a [Token],
    ) -> Result<(Items<Argument>, &'a [Token]), Miss>
        requires { Nests self.now.depth (F.pre self.now.inner) (F.post self.now.inner) }
        ensures { Gives (λ x. (x.0, x.1.now)) result (spec.arguments (spec.expr_to self.now.depth) tokens.now) }
    {
        let (first, rest) = self.argument(tokens)?;
        let (others, rest) = self.next_arguments(rest)?;
        Ok((with_first(self.alloc, first, others)?, rest))
    }

    #[tactic(auto, unfolding(dc_grammar::specs::Readers::some_arguments))]
    pub(crate) fn some_arguments<'a>(
        &self,
        tokens: &'a [Token],
    ) -> Result<(Items<Argument>, &'a [Token]), Miss>
        requires { Nests self.now.depth (F.pre self.now.inner) (F.post self.now.inner) }
        ensures { Gives (λ x. (x.0, x.1.now)) result (spec.some_arguments (spec.expr_to self.now.depth) tokens.now) }
    {
        match self.arguments(tokens) {
            Ok((found, rest)) => Ok((found, rest)),
            Err(Miss::Nothing) => Ok((Items::new(self.alloc), tokens)),
            Err(Miss::Memory) => Err(Miss::Memory),
        }
    }

    #[tactic(auto, unfolding(dc_grammar::specs::Readers::in_parens))]
    pub(crate) fn in_parens<'a>(
        &self,
        tokens: &'a [Token],
    ) -> Result<(Items<Argument>, &'a [Token]), Miss>
        requires { Nests self.now.depth (F.pre self.now.inner) (F.post self.now.inner) }
        ensures { Gives (λ x. (x.0, x.1.now)) result (spec.in_parens (spec.expr_to self.now.depth) tokens.now) }
    {
        let rest = mark(tokens, Terminal::LeftParen)?;
        let (found, rest) = self.some_arguments(rest)?;
        let rest = mark(rest, Terminal::RightParen)?;
        Ok((found, rest))
    }

    #[tactic(auto, unfolding(dc_grammar::specs::Readers::template_arguments))]
    pub(crate) fn template_arguments<'a>(
        &self,
        tokens: &'a [Token],
    ) -> Result<(Items<Argument>, &'a [Token]), Miss>
        requires { Nests self.now.depth (F.pre self.now.inner) (F.post self.now.inner) }
        ensures { Gives (λ x. (x.0, x.1.now)) result (spec.template_arguments (spec.expr_to self.now.depth) tokens.now) }
    {
        match ahead(tokens) {
            Terminal::LeftParen => self.in_parens(tokens),
            Terminal::Name | Terminal::Integer | Terminal::Str | Terminal::Character => {
                one_value(self.alloc, tokens)
            }
            _ => one_basic(self.alloc, tokens),
        }
    }

    #[tactic(auto, unfolding(dc_grammar::specs::Readers::instance_end))]
    pub(crate) fn instance_end<'a>(
        &self,
        tokens: &'a [Token],
    ) -> Result<(Items<Argument>, &'a [Token]), Miss>
        requires { Nests self.now.depth (F.pre self.now.inner) (F.post self.now.inner) }
        ensures { Gives (λ x. (x.0, x.1.now)) result (spec.instance_end (spec.expr_to self.now.depth) tokens.now) }
    {
        let rest = mark(tokens, Terminal::Not)?;
        self.template_arguments(rest)
    }

    #[tactic(auto, unfolding(dc_grammar::specs::Readers::symbol_read))]
    pub(crate) fn symbol_read<'a>(&self, tokens: &'a [Token]) -> Result<(Symbol, &'a [Token]), Miss>
        requires { Nests self.now.depth (F.pre self.now.inner) (F.post self.now.inner) }
        ensures { Gives (λ x. (x.0, x.1.now)) result (spec.symbol_read (spec.expr_to self.now.depth) tokens.now) }
    {
        let (name, rest) = id(self.alloc, tokens)?;
        match self.instance_end(rest) {
            Ok((found, after)) => Ok((
                Symbol {
                    name,
                    arguments: Some(found),
                },
                after,
            )),
            Err(Miss::Nothing) => Ok((
                Symbol {
                    name,
                    arguments: None,
                },
                rest,
            )),
            Err(Miss::Memory) => Err(Miss::Memory),
        }
    }

    #[tactic(auto, unfolding(dc_grammar::specs::Readers::next_symbol))]
    pub(crate) fn next_symbol<'a>(&self, tokens: &'a [Token]) -> Result<(Symbol, &'a [Token]), Miss>
        requires { Nests self.now.depth (F.pre self.now.inner) (F.post self.now.inner) }
        ensures { Gives (λ x. (x.0, x.1.now)) result (spec.next_symbol (spec.expr_to self.now.depth) tokens.now) }
    {
        let rest = mark(tokens, Terminal::Dot)?;
        self.symbol_read(rest)
    }

    pub(crate) fn next_symbols<'a>(
        &self,
        tokens: &'a [Token],
    ) -> Result<(Items<Symbol>, &'a [Token]), Miss>
        requires { Nests self.now.depth (F.pre self.now.inner) (F.post self.now.inner) }
        ensures { Gives (λ x. (x.0, x.1.now)) result (spec.next_symbols (spec.expr_to self.now.depth) tokens.now) }
    {
        let mut found = Items::new(self.alloc);
        let mut rest = tokens;
        for _turn in 0..tokens.len() {
            match self.next_symbol(rest) {
                Ok((one, after)) => {
                    found.push(one)?;
                    rest = after;
                }
                Err(Miss::Nothing) => return Ok((found, rest)),
                Err(Miss::Memory) => return Err(Miss::Memory),
            }
        }
        Ok((found, rest))
    }

    #[tactic(auto, unfolding(dc_grammar::specs::Readers::named_base))]
    pub(crate) fn named_base<'a>(&self, tokens: &'a [Token]) -> Result<(Base, &'a [Token]), Miss>
        requires { Nests self.now.depth (F.pre self.now.inner) (F.post self.now.inner) }
        ensures { Gives (λ x. (x.0, x.1.now)) result (spec.named_base (spec.expr_to self.now.depth) tokens.now) }
    {
        let (first, rest) = self.symbol_read(tokens)?;
        let (others, rest) = self.next_symbols(rest)?;
        Ok((Base::Named(with_first(self.alloc, first, others)?), rest))
    }

    #[tactic(auto, unfolding(dc_grammar::specs::Readers::base))]
    pub(crate) fn base<'a>(&self, tokens: &'a [Token]) -> Result<(Base, &'a [Token]), Miss>
        requires { Nests self.now.depth (F.pre self.now.inner) (F.post self.now.inner) }
        ensures { Gives (λ x. (x.0, x.1.now)) result (spec.base (spec.expr_to self.now.depth) tokens.now) }
    {
        match ahead(tokens) {
            Terminal::Name => self.named_base(tokens),
            _ => self.plain_base(tokens),
        }
    }

    #[tactic(auto, unfolding(dc_grammar::specs::Readers::bare_type))]
    pub(crate) fn bare_type<'a>(&self, tokens: &'a [Token]) -> Result<(TypeTree, &'a [Token]), Miss>
        requires { Nests self.now.depth (F.pre self.now.inner) (F.post self.now.inner) }
        ensures { Gives (λ x. (x.0, x.1.now)) result (spec.bare_type (spec.expr_to self.now.depth) tokens.now) }
    {
        let at = start_of(tokens);
        let (base, rest) = self.base(tokens)?;
        let brackets = Items::new(self.alloc);
        Ok((TypeTree { at, base, brackets }, rest))
    }

    #[tactic(auto, unfolding(dc_grammar::specs::Readers::type_read))]
    pub(crate) fn type_read<'a>(&self, tokens: &'a [Token]) -> Result<(TypeTree, &'a [Token]), Miss>
        requires { Nests self.now.depth (F.pre self.now.inner) (F.post self.now.inner) }
        ensures { Gives (λ x. (x.0, x.1.now)) result (spec.type_read (spec.expr_to self.now.depth) tokens.now) }
    {
        let at = start_of(tokens);
        let (base, rest) = self.base(tokens)?;
        let (brackets, rest) = self.brackets(rest)?;
        Ok((TypeTree { at, base, brackets }, rest))
    }
}
