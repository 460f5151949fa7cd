// Words and signs that stand in trees.

/// A basic type (D specification, "Types", "Basic Data Types").
#[derive(Clone, Copy, PartialEq, Eq)]
pub enum BasicType {
    Void,
    Bool,
    Char,
    Byte,
    Ubyte,
    Short,
    Ushort,
    Int,
    Uint,
    Long,
    Ulong,
}

/// An operator before its operand (D specification, "Expressions", "Unary Expressions").
#[derive(Clone, Copy)]
pub enum UnaryOperator {
    /// `-`
    Minus,
    /// `+`
    Plus,
    /// `!`
    Not,
    /// `~`
    Complement,
    /// `++`
    Increment,
    /// `--`
    Decrement,
}

/// An operator between two operands (D specification, "Expressions").
#[derive(Clone, Copy)]
pub enum BinaryOperator {
    /// `*`
    Multiply,
    /// `/`
    Divide,
    /// `%`
    Remainder,
    /// `+`
    Add,
    /// `-`
    Subtract,
    /// `~`
    Concatenate,
    /// `<<`
    ShiftLeft,
    /// `>>`
    ShiftRight,
    /// `>>>`
    ShiftRightZeros,
    /// `==`
    Equal,
    /// `!=`
    NotEqual,
    /// `<`
    Less,
    /// `<=`
    LessOrEqual,
    /// `>`
    Greater,
    /// `>=`
    GreaterOrEqual,
    /// `&`
    BitAnd,
    /// `^`
    BitXor,
    /// `|`
    BitOr,
    /// `&&`
    And,
    /// `||`
    Or,
}

/// An operator that assigns (D specification, "Expressions", "Assign Expressions").
#[derive(Clone, Copy)]
pub enum AssignOperator {
    /// `=`
    Assign,
    /// `+=`
    Add,
    /// `-=`
    Subtract,
    /// `*=`
    Multiply,
    /// `/=`
    Divide,
    /// `%=`
    Remainder,
    /// `&=`
    BitAnd,
    /// `|=`
    BitOr,
    /// `^=`
    BitXor,
    /// `~=`
    Concatenate,
    /// `<<=`
    ShiftLeft,
    /// `>>=`
    ShiftRight,
    /// `>>>=`
    ShiftRightZeros,
}

/// What an `is` asks of two types.
#[derive(Clone, Copy)]
pub enum IsRelation {
    /// `==`
    Same,
    /// `:`
    Converts,
}

/// `const` or `immutable` before a declaration.
#[derive(Clone, Copy)]
pub enum Storage {
    Const,
    Immutable,
}

#[derive(Clone, Copy)]
pub enum Visibility {
    Private,
    Public,
}

/// A word before a declaration (D specification, "Attributes").
#[derive(Clone, Copy)]
pub enum Attribute {
    Private,
    Public,
    Pure,
    Nothrow,
    /// `@safe`
    Safe,
    /// `@trusted`
    Trusted,
    /// `@system`
    System,
    /// `@nogc`
    NoGc,
}
