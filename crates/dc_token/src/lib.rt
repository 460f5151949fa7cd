//! The tokens of a D text: their types, what they are by definition, and what their spellings stand for.
#![tactic(auto)]

mod bytes;
mod escape;
mod item;
mod kind;
mod literal;
mod literal_types;
mod spelling;
mod token;
mod tokens;
mod vocabulary;
mod words;

pub use bytes::{begins, byte};
pub use escape::escape_len;
pub use item::Item;
pub use kind::{is_token, kind_of};
pub use literal::{character, integer, string_value};
pub use literal_types::{Integer, IntegerType};
pub use spelling::Spelling;
pub use token::{Token, TokenKind};
pub use tokens::Tokens;
pub use vocabulary::{Class, Word};
pub use words::{class_of, word};
