// Functions that read one operator.
ghost use Rattle.std.specs.Prelude.{◌≡◌};
ghost use Rattle.dc_grammar.specs.Reading as reading;
ghost use Rattle.dc_grammar.specs.Terminals as terminals;
ghost use Rattle.dc_grammar.specs.Gives.{Gives};

use crate::operator::{
    adds, and_operator, assign_operator, basic_type, bit_and_operator, bit_or_operator,
    bit_xor_operator, compares, is_relation, multiplies, or_operator, shifts, unary_operator,
};
use crate::{Miss, terminal_of};
use dc_ast::{AssignOperator, BasicType, BinaryOperator, IsRelation, UnaryOperator};
use dc_token::Token;

/// One of the basic types, and what follows it.
pub fn basic_type_sign(tokens: &[Token]) -> Result<(BasicType, &[Token]), Miss>
    ensures { Gives (λ x. (x.0, x.1.now)) result (reading.means terminals.basic_type tokens.now) }
{
    match tokens {
        [token, rest @ ..] => match basic_type(terminal_of(token)) {
            Some(operator) => Ok((operator, rest)),
            None => Err(Miss::Nothing),
        },
        [] => Err(Miss::Nothing),
    }
}

/// One of the operators before an operand, and what follows it.
pub fn unary_operator_sign(tokens: &[Token]) -> Result<(UnaryOperator, &[Token]), Miss>
    ensures { Gives (λ x. (x.0, x.1.now)) result (reading.means terminals.unary_operator tokens.now) }
{
    match tokens {
        [token, rest @ ..] => match unary_operator(terminal_of(token)) {
            Some(operator) => Ok((operator, rest)),
            None => Err(Miss::Nothing),
        },
        [] => Err(Miss::Nothing),
    }
}

/// One of the operators of a level between two operands, and what follows it.
pub fn multiplies_sign(tokens: &[Token]) -> Result<(BinaryOperator, &[Token]), Miss>
    ensures { Gives (λ x. (x.0, x.1.now)) result (reading.means terminals.multiplies tokens.now) }
{
    match tokens {
        [token, rest @ ..] => match multiplies(terminal_of(token)) {
            Some(operator) => Ok((operator, rest)),
            None => Err(Miss::Nothing),
        },
        [] => Err(Miss::Nothing),
    }
}

/// One of the operators of a level between two operands, and what follows it.
pub fn adds_sign(tokens: &[Token]) -> Result<(BinaryOperator, &[Token]), Miss>
    ensures { Gives (λ x. (x.0, x.1.now)) result (reading.means terminals.adds tokens.now) }
{
    match tokens {
        [token, rest @ ..] => match adds(terminal_of(token)) {
            Some(operator) => Ok((operator, rest)),
            None => Err(Miss::Nothing),
        },
        [] => Err(Miss::Nothing),
    }
}

/// One of the operators of a level between two operands, and what follows it.
pub fn shifts_sign(tokens: &[Token]) -> Result<(BinaryOperator, &[Token]), Miss>
    ensures { Gives (λ x. (x.0, x.1.now)) result (reading.means terminals.shifts tokens.now) }
{
    match tokens {
        [token, rest @ ..] => match shifts(terminal_of(token)) {
            Some(operator) => Ok((operator, rest)),
            None => Err(Miss::Nothing),
        },
        [] => Err(Miss::Nothing),
    }
}

/// One of the operators of a level between two operands, and what follows it.
pub fn compares_sign(tokens: &[Token]) -> Result<(BinaryOperator, &[Token]), Miss>
    ensures { Gives (λ x. (x.0, x.1.now)) result (reading.means terminals.compares tokens.now) }
{
    match tokens {
        [token, rest @ ..] => match compares(terminal_of(token)) {
            Some(operator) => Ok((operator, rest)),
            None => Err(Miss::Nothing),
        },
        [] => Err(Miss::Nothing),
    }
}

/// One of the operators of a level between two operands, and what follows it.
pub fn bit_and_operator_sign(tokens: &[Token]) -> Result<(BinaryOperator, &[Token]), Miss>
    ensures { Gives (λ x. (x.0, x.1.now)) result (reading.means terminals.bit_and_operator tokens.now) }
{
    match tokens {
        [token, rest @ ..] => match bit_and_operator(terminal_of(token)) {
            Some(operator) => Ok((operator, rest)),
            None => Err(Miss::Nothing),
        },
        [] => Err(Miss::Nothing),
    }
}

/// One of the operators of a level between two operands, and what follows it.
pub fn bit_xor_operator_sign(tokens: &[Token]) -> Result<(BinaryOperator, &[Token]), Miss>
    ensures { Gives (λ x. (x.0, x.1.now)) result (reading.means terminals.bit_xor_operator tokens.now) }
{
    match tokens {
        [token, rest @ ..] => match bit_xor_operator(terminal_of(token)) {
            Some(operator) => Ok((operator, rest)),
            None => Err(Miss::Nothing),
        },
        [] => Err(Miss::Nothing),
    }
}

/// One of the operators of a level between two operands, and what follows it.
pub fn bit_or_operator_sign(tokens: &[Token]) -> Result<(BinaryOperator, &[Token]), Miss>
    ensures { Gives (λ x. (x.0, x.1.now)) result (reading.means terminals.bit_or_operator tokens.now) }
{
    match tokens {
        [token, rest @ ..] => match bit_or_operator(terminal_of(token)) {
            Some(operator) => Ok((operator, rest)),
            None => Err(Miss::Nothing),
        },
        [] => Err(Miss::Nothing),
    }
}

/// One of the operators of a level between two operands, and what follows it.
pub fn and_operator_sign(tokens: &[Token]) -> Result<(BinaryOperator, &[Token]), Miss>
    ensures { Gives (λ x. (x.0, x.1.now)) result (reading.means terminals.and_operator tokens.now) }
{
    match tokens {
        [token, rest @ ..] => match and_operator(terminal_of(token)) {
            Some(operator) => Ok((operator, rest)),
            None => Err(Miss::Nothing),
        },
        [] => Err(Miss::Nothing),
    }
}

/// One of the operators of a level between two operands, and what follows it.
pub fn or_operator_sign(tokens: &[Token]) -> Result<(BinaryOperator, &[Token]), Miss>
    ensures { Gives (λ x. (x.0, x.1.now)) result (reading.means terminals.or_operator tokens.now) }
{
    match tokens {
        [token, rest @ ..] => match or_operator(terminal_of(token)) {
            Some(operator) => Ok((operator, rest)),
            None => Err(Miss::Nothing),
        },
        [] => Err(Miss::Nothing),
    }
}

/// One of the operators that assign, and what follows it.
pub fn assign_operator_sign(tokens: &[Token]) -> Result<(AssignOperator, &[Token]), Miss>
    ensures { Gives (λ x. (x.0, x.1.now)) result (reading.means terminals.assign_operator tokens.now) }
{
    match tokens {
        [token, rest @ ..] => match assign_operator(terminal_of(token)) {
            Some(operator) => Ok((operator, rest)),
            None => Err(Miss::Nothing),
        },
        [] => Err(Miss::Nothing),
    }
}

/// What an `is` asks, and what follows it.
pub fn is_relation_sign(tokens: &[Token]) -> Result<(IsRelation, &[Token]), Miss>
    ensures { Gives (λ x. (x.0, x.1.now)) result (reading.means terminals.is_relation tokens.now) }
{
    match tokens {
        [token, rest @ ..] => match is_relation(terminal_of(token)) {
            Some(operator) => Ok((operator, rest)),
            None => Err(Miss::Nothing),
        },
        [] => Err(Miss::Nothing),
    }
}
