// The kinds of tokens.
ghost use Rattle.std.specs.Prelude.{◌≡◌};
ghost use Rattle.dc_token.specs.Text as text;
ghost use Rattle.dc_token.specs.Signs as signs;

use crate::literal::{character, holds_entity, last_byte};
use crate::vocabulary::OUTSIDE_SIGNS;
use crate::words::{is_among, word};
use crate::{Item, TokenKind, Word};

/// Whether items of the kind are tokens: all but white space and comments.
pub fn is_token(item: Item) -> bool
    ensures { result ≡ text.is_token item }
{
    match item {
        Item::Blank | Item::LineComment | Item::BlockComment | Item::NestedComment => false,
        _ => true,
    }
}

fn name_kind(word: Word) -> TokenKind
    ensures { result ≡ text.name_kind word }
{
    match word {
        Word::Used => TokenKind::Used,
        Word::Outside => TokenKind::Outside,
        Word::Plain => TokenKind::Id,
    }
}

fn is_wide(spelling: &[u8]) -> bool
    ensures { result ≡ text.is_wide spelling.now }
{
    let last = last_byte(spelling);
    last == b'w' || last == b'd'
}

#[tactic(auto, using(crate::proofs::Spelled::signs_spelled), unfolding(crate::specs::Signs::is_outside_sign))]
fn is_outside_sign(spelling: &[u8]) -> bool
    ensures { result ≡ signs.is_outside_sign spelling.now }
{
    is_among(&OUTSIDE_SIGNS, spelling)
}

fn string_kind(is_outside: bool) -> TokenKind
    ensures { result ≡ text.string_kind is_outside }
{
    if is_outside {
        TokenKind::Outside
    } else {
        TokenKind::Str
    }
}

/// The kind of a token that is an item of a kind.
pub fn kind_of(item: Item, spelling: &[u8]) -> TokenKind
    ensures { result ≡ text.kind_of item spelling.now }
{
    match item {
        Item::Name => name_kind(word(spelling)),
        Item::Decimal | Item::Hexadecimal | Item::Binary => TokenKind::Integer,
        Item::Character => {
            if character(spelling).is_some() {
                TokenKind::Character
            } else {
                TokenKind::Outside
            }
        }
        Item::Quoted => string_kind(is_wide(spelling) || holds_entity(spelling)),
        Item::Backquoted | Item::Raw => string_kind(is_wide(spelling)),
        Item::TokenString => TokenKind::Str,
        Item::Sign => {
            if is_outside_sign(spelling) {
                TokenKind::Outside
            } else {
                TokenKind::Sign
            }
        }
        _ => TokenKind::Outside,
    }
}
