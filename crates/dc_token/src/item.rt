// The kinds of items that a text consists of.

/// A kind of item: white space, a comment or a form of token (D specification, "Lexical", "Tokens").
#[derive(Clone, Copy)]
pub enum Item {
    /// Spaces, tabs and line ends.
    Blank,
    /// `// ..`
    LineComment,
    /// `/* .. */`
    BlockComment,
    /// `/+ .. +/`, which nests.
    NestedComment,
    /// A word of the form of an identifier.
    Name,
    Decimal,
    /// `0x1F`
    Hexadecimal,
    /// `0b101`
    Binary,
    /// A floating point literal that begins with a decimal digit.
    Float,
    /// `.5`
    PointFloat,
    /// `0x1p3`
    HexFloat,
    /// `'c'`
    Character,
    /// `".."`
    Quoted,
    /// A string between backquotes.
    Backquoted,
    /// `r".."`
    Raw,
    /// `q{..}`
    TokenString,
    /// `q".."`
    Delimited,
    /// `x".."`
    HexString,
    Sign,
}
