// Rules with no expression inside.
ghost use Rattle.std.specs.Prelude.{◌≡◌};
ghost use Rattle.dc_grammar.specs.Readers as spec;
ghost use Rattle.dc_grammar.specs.Gives.{Gives};

use crate::list::one_item;
use crate::tree::node;
use dc_ast::{Argument, Base, ExprKind, Suffix, Symbol, TypeTree};
use dc_grammar::{Miss, Terminal, ahead, basic_type_sign, id, mark, start_of, word};
use dc_token::Token;
use sqlite_items::Items;
use std::alloc::Global;

pub(crate) fn basic(tokens: &[Token]) -> Result<(Base, &[Token]), Miss>
    ensures { Gives (λ x. (x.0, x.1.now)) result (spec.basic tokens.now) }
{
    let (of, rest) = basic_type_sign(tokens)?;
    Ok((Base::Basic(of), rest))
}

#[tactic(auto, unfolding(dc_grammar::specs::Readers::immutable_char))]
pub(crate) fn immutable_char(tokens: &[Token]) -> Result<(Base, &[Token]), Miss>
    ensures { Gives (λ x. (x.0, x.1.now)) result (spec.immutable_char tokens.now) }
{
    let rest = mark(tokens, Terminal::Immutable)?;
    let rest = mark(rest, Terminal::LeftParen)?;
    let rest = mark(rest, Terminal::Char)?;
    let rest = mark(rest, Terminal::RightParen)?;
    Ok((Base::ImmutableChar, rest))
}

#[tactic(auto, unfolding(dc_grammar::specs::Readers::property))]
pub(crate) fn property(alloc: Global, tokens: &[Token]) -> Result<(ExprKind, &[Token]), Miss>
    ensures { Gives (λ x. (x.0, x.1.now)) result (spec.property tokens.now) }
{
    let (of, rest) = basic_type_sign(tokens)?;
    let rest = mark(rest, Terminal::Dot)?;
    let (name, rest) = id(alloc, rest)?;
    Ok((ExprKind::Property(of, name), rest))
}

pub(crate) fn integer(alloc: Global, tokens: &[Token]) -> Result<(ExprKind, &[Token]), Miss>
    ensures { Gives (λ x. (x.0, x.1.now)) result (spec.integer tokens.now) }
{
    let (spelling, rest) = word(alloc, tokens, Terminal::Integer)?;
    Ok((ExprKind::Integer(spelling), rest))
}

pub(crate) fn string(alloc: Global, tokens: &[Token]) -> Result<(ExprKind, &[Token]), Miss>
    ensures { Gives (λ x. (x.0, x.1.now)) result (spec.string tokens.now) }
{
    let (spelling, rest) = word(alloc, tokens, Terminal::Str)?;
    Ok((ExprKind::Str(spelling), rest))
}

pub(crate) fn character(alloc: Global, tokens: &[Token]) -> Result<(ExprKind, &[Token]), Miss>
    ensures { Gives (λ x. (x.0, x.1.now)) result (spec.character tokens.now) }
{
    let (spelling, rest) = word(alloc, tokens, Terminal::Character)?;
    Ok((ExprKind::Character(spelling), rest))
}

fn single_name(alloc: Global, tokens: &[Token]) -> Result<(ExprKind, &[Token]), Miss>
    ensures { Gives (λ x. (x.0, x.1.now)) result (spec.single_name tokens.now) }
{
    let (name, rest) = id(alloc, tokens)?;
    let symbol = Symbol {
        name,
        arguments: None,
    };
    Ok((ExprKind::Symbol(symbol), rest))
}

pub(crate) fn null(tokens: &[Token]) -> Result<(ExprKind, &[Token]), Miss>
    ensures { Gives (λ x. (x.0, x.1.now)) result (spec.null tokens.now) }
{
    let rest = mark(tokens, Terminal::Null)?;
    Ok((ExprKind::Null, rest))
}

pub(crate) fn true_word(tokens: &[Token]) -> Result<(ExprKind, &[Token]), Miss>
    ensures { Gives (λ x. (x.0, x.1.now)) result (spec.true_word tokens.now) }
{
    let rest = mark(tokens, Terminal::True)?;
    Ok((ExprKind::True, rest))
}

pub(crate) fn false_word(tokens: &[Token]) -> Result<(ExprKind, &[Token]), Miss>
    ensures { Gives (λ x. (x.0, x.1.now)) result (spec.false_word tokens.now) }
{
    let rest = mark(tokens, Terminal::False)?;
    Ok((ExprKind::False, rest))
}

pub(crate) fn this(tokens: &[Token]) -> Result<(ExprKind, &[Token]), Miss>
    ensures { Gives (λ x. (x.0, x.1.now)) result (spec.this tokens.now) }
{
    let rest = mark(tokens, Terminal::This)?;
    Ok((ExprKind::This, rest))
}

pub(crate) fn dollar(tokens: &[Token]) -> Result<(ExprKind, &[Token]), Miss>
    ensures { Gives (λ x. (x.0, x.1.now)) result (spec.dollar tokens.now) }
{
    let rest = mark(tokens, Terminal::Dollar)?;
    Ok((ExprKind::Dollar, rest))
}

pub(crate) fn increment(tokens: &[Token]) -> Result<(Suffix, &[Token]), Miss>
    ensures { Gives (λ x. (x.0, x.1.now)) result (spec.increment tokens.now) }
{
    let rest = mark(tokens, Terminal::PlusPlus)?;
    Ok((Suffix::Increment, rest))
}

pub(crate) fn decrement(tokens: &[Token]) -> Result<(Suffix, &[Token]), Miss>
    ensures { Gives (λ x. (x.0, x.1.now)) result (spec.decrement tokens.now) }
{
    let rest = mark(tokens, Terminal::MinusMinus)?;
    Ok((Suffix::Decrement, rest))
}

#[tactic(auto, unfolding(dc_grammar::specs::Readers::single))]
fn single(alloc: Global, tokens: &[Token]) -> Result<(ExprKind, &[Token]), Miss>
    ensures { Gives (λ x. (x.0, x.1.now)) result (spec.single tokens.now) }
{
    match ahead(tokens) {
        Terminal::Name => single_name(alloc, tokens),
        Terminal::Integer => integer(alloc, tokens),
        Terminal::Str => string(alloc, tokens),
        Terminal::Character => character(alloc, tokens),
        _ => Err(Miss::Nothing),
    }
}

#[tactic(auto, unfolding(dc_grammar::specs::Readers::one_value))]
pub(crate) fn one_value(
    alloc: Global,
    tokens: &[Token],
) -> Result<(Items<Argument>, &[Token]), Miss>
    ensures { Gives (λ x. (x.0, x.1.now)) result (spec.one_value tokens.now) }
{
    let at = start_of(tokens);
    let (kind, rest) = single(alloc, tokens)?;
    let found = one_item(alloc, Argument::Value(node(alloc, at, kind)?))?;
    Ok((found, rest))
}

#[tactic(auto, unfolding(dc_grammar::specs::Readers::one_basic))]
pub(crate) fn one_basic(
    alloc: Global,
    tokens: &[Token],
) -> Result<(Items<Argument>, &[Token]), Miss>
    ensures { Gives (λ x. (x.0, x.1.now)) result (spec.one_basic tokens.now) }
{
    let at = start_of(tokens);
    let (of, rest) = basic_type_sign(tokens)?;
    let of = TypeTree {
        at,
        base: Base::Basic(of),
        brackets: Items::new(alloc),
    };
    Ok((one_item(alloc, Argument::OfType(of))?, rest))
}
