// Tokens.
use crate::Spelling;

/// What a token is. The parser tells words and signs of one kind apart by their spelling.
#[derive(Clone, Copy)]
pub enum TokenKind {
    /// A name.
    Id,
    /// A keyword that the compiler reads.
    Used,
    /// An integer with a type, as `integer` gives it.
    Integer,
    /// A string, as `string_value` gives it.
    Str,
    /// A character of one byte, as `character` gives it.
    Character,
    /// An operator or a bracket.
    Sign,
    /// A token of D that the compiler leaves out, such as a floating point literal.
    Outside,
}

/// A token of a text.
#[derive(Drop)]
pub struct Token {
    pub kind: TokenKind,
    /// The bytes of the text from `start` up to `end`.
    pub spelling: Spelling,
    /// The offset of its first byte in the text, counted in bytes from 0.
    pub start: u32,
    /// The offset behind its last byte.
    pub end: u32,
}
