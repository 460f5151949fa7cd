// Words in declarations.
ghost use Rattle.std.specs.Prelude.{◌≡◌, map};
ghost use Rattle.dc_grammar.specs.Gives.{Gives};
ghost use Rattle.dc_grammar.specs.PartReaders as parts;
ghost use Rattle.dc_grammar.specs.Reading as reading;
ghost use Rattle.dc_grammar.specs.Words as words;

use crate::{Miss, Terminal, same_terminal, terminal_of};
use dc_ast::{Attribute, Storage, Visibility};
use dc_token::Token;

/// The attributes that are written behind an `@`.
pub const AT_WORDS: [(&[u8], Attribute); 4] = [
    (b"safe", Attribute::Safe),
    (b"trusted", Attribute::Trusted),
    (b"system", Attribute::System),
    (b"nogc", Attribute::NoGc),
];

/// The words of a storage class.
pub fn storage(terminal: Terminal) -> Option<Storage>
    ensures { result ≡ words.storage terminal }
{
    match terminal {
        Terminal::Const => Some(Storage::Const),
        Terminal::Immutable => Some(Storage::Immutable),
        _ => None,
    }
}

/// The words of a visibility.
pub fn visibility(terminal: Terminal) -> Option<Visibility>
    ensures { result ≡ words.visibility terminal }
{
    match terminal {
        Terminal::Private => Some(Visibility::Private),
        Terminal::Public => Some(Visibility::Public),
        _ => None,
    }
}

/// The attributes that are one word.
pub fn attribute_word(terminal: Terminal) -> Option<Attribute>
    ensures { result ≡ words.attribute_word terminal }
{
    match terminal {
        Terminal::Private => Some(Attribute::Private),
        Terminal::Public => Some(Attribute::Public),
        Terminal::Pure => Some(Attribute::Pure),
        Terminal::Nothrow => Some(Attribute::Nothrow),
        _ => None,
    }
}

fn find_attribute(mut table: &[(&[u8], Attribute)], spelling: &[u8]) -> Option<Attribute>
    ensures { result ≡ words.find_attribute (map (λ row. (row.0.now, row.1)) table.entry.now) spelling.now }
{
    while let [(word, attribute), rest @ ..] = table {
        if *word == spelling {
            return Some(*attribute);
        }
        table = rest;
    }
    None
}

/// The attribute that a word behind an `@` stands for.
#[tactic(auto, using(crate::proofs::Spelled::at_words_spelled), unfolding(crate::specs::Words::at_word))]
pub fn at_word(spelling: &[u8]) -> Option<Attribute>
    ensures { result ≡ words.at_word spelling.now }
{
    find_attribute(&AT_WORDS, spelling)
}

/// A word of a storage class, and what follows it.
pub fn storage_sign(tokens: &[Token]) -> Result<(Storage, &[Token]), Miss>
    ensures { Gives (λ x. (x.0, x.1.now)) result (reading.means words.storage tokens.now) }
{
    match tokens {
        [token, rest @ ..] => match storage(terminal_of(token)) {
            Some(word) => Ok((word, rest)),
            None => Err(Miss::Nothing),
        },
        [] => Err(Miss::Nothing),
    }
}

/// A word of a visibility, and what follows it.
pub fn visibility_sign(tokens: &[Token]) -> Result<(Visibility, &[Token]), Miss>
    ensures { Gives (λ x. (x.0, x.1.now)) result (reading.means words.visibility tokens.now) }
{
    match tokens {
        [token, rest @ ..] => match visibility(terminal_of(token)) {
            Some(word) => Ok((word, rest)),
            None => Err(Miss::Nothing),
        },
        [] => Err(Miss::Nothing),
    }
}

/// An attribute that is one word, and what follows it.
pub fn attribute_word_sign(tokens: &[Token]) -> Result<(Attribute, &[Token]), Miss>
    ensures { Gives (λ x. (x.0, x.1.now)) result (reading.means words.attribute_word tokens.now) }
{
    match tokens {
        [token, rest @ ..] => match attribute_word(terminal_of(token)) {
            Some(word) => Ok((word, rest)),
            None => Err(Miss::Nothing),
        },
        [] => Err(Miss::Nothing),
    }
}

/// The attribute behind an `@`, and what follows it.
pub fn at_word_sign(tokens: &[Token]) -> Result<(Attribute, &[Token]), Miss>
    ensures { Gives (λ x. (x.0, x.1.now)) result (parts.spelt words.at_word tokens.now) }
{
    match tokens {
        [token, rest @ ..] if same_terminal(terminal_of(token), Terminal::Name) => {
            match at_word(token.spelling.as_slice()) {
                Some(word) => Ok((word, rest)),
                None => Err(Miss::Nothing),
            }
        }
        _ => Err(Miss::Nothing),
    }
}
