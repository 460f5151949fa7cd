// The kinds of numbers, and the operators on them.

/// A kind of number, named after its width and sign (D specification, "Types", "Basic Data Types").
#[derive(Clone, Copy, PartialEq, Eq)]
pub enum Kind {
    /// `bool`: 0 or 1, in 8 bits.
    Bool,
    /// `byte`
    I8,
    /// `ubyte`
    U8,
    /// `short`
    I16,
    /// `ushort`
    U16,
    /// `int`
    I32,
    /// `uint`
    U32,
    /// `long`
    I64,
    /// `ulong`
    U64,
    /// `char`: a byte of UTF-8.
    Char,
}

/// An operator on two numbers of one kind (D specification, "Expressions").
#[derive(Clone, Copy)]
pub enum BinOp {
    Add,
    Sub,
    Mul,
    Div,
    Rem,
    BitAnd,
    BitOr,
    BitXor,
    Shl,
    /// `>>`, which keeps the sign.
    Shr,
    /// `>>>`, which shifts zeros in.
    Ushr,
}

/// An operator on one number.
#[derive(Clone, Copy)]
pub enum UnOp {
    /// `-`
    Negate,
    /// `~`
    Flip,
    /// `!`
    Not,
}

/// A comparison of two numbers.
#[derive(Clone, Copy)]
pub enum CmpOp {
    Equal,
    Differs,
    Less,
    LessEq,
    Greater,
    GreaterEq,
}
