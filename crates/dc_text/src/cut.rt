// From a text to its tokens.
use dc_lexer::lex;
use dc_token::Tokens;
use dc_types::{Fail, Items, Place, Text};
use std::alloc::Global;

/// The most bytes of a text that can be cut into tokens.
pub(crate) const MOST_BYTES: usize = 16_777_216;

/// The start of a text, behind which the lexer and the parsers count.
pub(crate) fn origin(alloc: Global) -> Place {
    Place {
        module: Text::new(alloc),
        steps: Items::new(alloc),
    }
}

/// The tokens of a text, or nothing where it is too long for any.
pub(crate) fn tokens_of(alloc: Global, text: &[u8]) -> Result<Option<Tokens>, Fail> {
    if MOST_BYTES < text.len() {
        return Ok(None);
    }
    let start = origin(alloc);
    let tokens = lex(alloc, text, &start)?;
    Ok(Some(tokens))
}
