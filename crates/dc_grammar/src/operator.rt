// What terminals stand for in trees.
ghost use Rattle.std.specs.Prelude.{◌≡◌};
ghost use Rattle.dc_grammar.specs.Terminals as terminals;

use crate::Terminal;
use dc_ast::{AssignOperator, BasicType, BinaryOperator, IsRelation, UnaryOperator};

/// The basic types.
pub fn basic_type(terminal: Terminal) -> Option<BasicType>
    ensures { result ≡ terminals.basic_type terminal }
{
    match terminal {
        Terminal::Void => Some(BasicType::Void),
        Terminal::Bool => Some(BasicType::Bool),
        Terminal::Char => Some(BasicType::Char),
        Terminal::Byte => Some(BasicType::Byte),
        Terminal::Ubyte => Some(BasicType::Ubyte),
        Terminal::Short => Some(BasicType::Short),
        Terminal::Ushort => Some(BasicType::Ushort),
        Terminal::Int => Some(BasicType::Int),
        Terminal::Uint => Some(BasicType::Uint),
        Terminal::Long => Some(BasicType::Long),
        Terminal::Ulong => Some(BasicType::Ulong),
        _ => None,
    }
}

/// The operators before an operand.
pub fn unary_operator(terminal: Terminal) -> Option<UnaryOperator>
    ensures { result ≡ terminals.unary_operator terminal }
{
    match terminal {
        Terminal::Minus => Some(UnaryOperator::Minus),
        Terminal::Plus => Some(UnaryOperator::Plus),
        Terminal::Not => Some(UnaryOperator::Not),
        Terminal::Tilde => Some(UnaryOperator::Complement),
        Terminal::PlusPlus => Some(UnaryOperator::Increment),
        Terminal::MinusMinus => Some(UnaryOperator::Decrement),
        _ => None,
    }
}

/// The operators of a level between two operands.
pub fn multiplies(terminal: Terminal) -> Option<BinaryOperator>
    ensures { result ≡ terminals.multiplies terminal }
{
    match terminal {
        Terminal::Star => Some(BinaryOperator::Multiply),
        Terminal::Slash => Some(BinaryOperator::Divide),
        Terminal::Percent => Some(BinaryOperator::Remainder),
        _ => None,
    }
}

/// The operators of a level between two operands.
pub fn adds(terminal: Terminal) -> Option<BinaryOperator>
    ensures { result ≡ terminals.adds terminal }
{
    match terminal {
        Terminal::Plus => Some(BinaryOperator::Add),
        Terminal::Minus => Some(BinaryOperator::Subtract),
        Terminal::Tilde => Some(BinaryOperator::Concatenate),
        _ => None,
    }
}

/// The operators of a level between two operands.
pub fn shifts(terminal: Terminal) -> Option<BinaryOperator>
    ensures { result ≡ terminals.shifts terminal }
{
    match terminal {
        Terminal::ShiftLeft => Some(BinaryOperator::ShiftLeft),
        Terminal::ShiftRight => Some(BinaryOperator::ShiftRight),
        Terminal::ShiftRightZeros => Some(BinaryOperator::ShiftRightZeros),
        _ => None,
    }
}

/// The operators of a level between two operands.
pub fn compares(terminal: Terminal) -> Option<BinaryOperator>
    ensures { result ≡ terminals.compares terminal }
{
    match terminal {
        Terminal::EqualEqual => Some(BinaryOperator::Equal),
        Terminal::NotEqual => Some(BinaryOperator::NotEqual),
        Terminal::Less => Some(BinaryOperator::Less),
        Terminal::LessEqual => Some(BinaryOperator::LessOrEqual),
        Terminal::Greater => Some(BinaryOperator::Greater),
        Terminal::GreaterEqual => Some(BinaryOperator::GreaterOrEqual),
        _ => None,
    }
}

/// The operators of a level between two operands.
pub fn bit_and_operator(terminal: Terminal) -> Option<BinaryOperator>
    ensures { result ≡ terminals.bit_and_operator terminal }
{
    match terminal {
        Terminal::Ampersand => Some(BinaryOperator::BitAnd),
        _ => None,
    }
}

/// The operators of a level between two operands.
pub fn bit_xor_operator(terminal: Terminal) -> Option<BinaryOperator>
    ensures { result ≡ terminals.bit_xor_operator terminal }
{
    match terminal {
        Terminal::Caret => Some(BinaryOperator::BitXor),
        _ => None,
    }
}

/// The operators of a level between two operands.
pub fn bit_or_operator(terminal: Terminal) -> Option<BinaryOperator>
    ensures { result ≡ terminals.bit_or_operator terminal }
{
    match terminal {
        Terminal::Bar => Some(BinaryOperator::BitOr),
        _ => None,
    }
}

/// The operators of a level between two operands.
pub fn and_operator(terminal: Terminal) -> Option<BinaryOperator>
    ensures { result ≡ terminals.and_operator terminal }
{
    match terminal {
        Terminal::AndAnd => Some(BinaryOperator::And),
        _ => None,
    }
}

/// The operators of a level between two operands.
pub fn or_operator(terminal: Terminal) -> Option<BinaryOperator>
    ensures { result ≡ terminals.or_operator terminal }
{
    match terminal {
        Terminal::OrOr => Some(BinaryOperator::Or),
        _ => None,
    }
}

/// The operators that assign.
pub fn assign_operator(terminal: Terminal) -> Option<AssignOperator>
    ensures { result ≡ terminals.assign_operator terminal }
{
    match terminal {
        Terminal::Equals => Some(AssignOperator::Assign),
        Terminal::PlusEqual => Some(AssignOperator::Add),
        Terminal::MinusEqual => Some(AssignOperator::Subtract),
        Terminal::StarEqual => Some(AssignOperator::Multiply),
        Terminal::SlashEqual => Some(AssignOperator::Divide),
        Terminal::PercentEqual => Some(AssignOperator::Remainder),
        Terminal::AmpersandEqual => Some(AssignOperator::BitAnd),
        Terminal::BarEqual => Some(AssignOperator::BitOr),
        Terminal::CaretEqual => Some(AssignOperator::BitXor),
        Terminal::TildeEqual => Some(AssignOperator::Concatenate),
        Terminal::ShiftLeftEqual => Some(AssignOperator::ShiftLeft),
        Terminal::ShiftRightEqual => Some(AssignOperator::ShiftRight),
        Terminal::ShiftRightZerosEqual => Some(AssignOperator::ShiftRightZeros),
        _ => None,
    }
}

/// What an `is` asks.
pub fn is_relation(terminal: Terminal) -> Option<IsRelation>
    ensures { result ≡ terminals.is_relation terminal }
{
    match terminal {
        Terminal::EqualEqual => Some(IsRelation::Same),
        Terminal::Colon => Some(IsRelation::Converts),
        _ => None,
    }
}
