// The types of what literals stand for.

/// The type of an integer literal (D specification, "Lexical", "Integer Literals").
#[derive(Clone, Copy)]
pub enum IntegerType {
    /// `int`
    Int,
    /// `uint`
    UnsignedInt,
    /// `long`
    Long,
    /// `ulong`
    UnsignedLong,
}

/// The number and the type of an integer literal. The number lies in the type's range.
#[derive(Clone, Copy)]
pub struct Integer {
    pub value: u64,
    pub integer_type: IntegerType,
}
