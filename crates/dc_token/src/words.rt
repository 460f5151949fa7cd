// Classes of characters and words.
ghost use Rattle.std.specs.Prelude.{◌≡◌, map};
ghost use Rattle.dc_token.specs.Vocabulary as vocabulary;

use crate::vocabulary::{Class, OUTSIDE, USED, Word};

/// What the character does in an identifier.
pub fn class_of(c: char) -> Class
    ensures { result ≡ vocabulary.class c }
{
    if unicode_ident::is_xid_start(c) || c == '_' {
        Class::Start
    } else if unicode_ident::is_xid_continue(c) {
        Class::Next
    } else {
        Class::Neither
    }
}

/// Whether the word stands in the table.
pub(crate) fn is_among(mut table: &[&[u8]], word: &[u8]) -> bool
    ensures { result ≡ vocabulary.among (map (λ x. x.now) table.entry.now) word.now }
{
    while let [entry, rest @ ..] = table {
        if *entry == word {
            return true;
        }
        table = rest;
    }
    false
}

#[tactic(auto, using(crate::proofs::Spelled::used_spelled), unfolding(crate::specs::Vocabulary::is_used))]
fn is_used(word: &[u8]) -> bool
    ensures { result ≡ vocabulary.is_used word.now }
{
    is_among(&USED, word)
}

#[tactic(auto, using(crate::proofs::Spelled::outside_spelled), unfolding(crate::specs::Vocabulary::is_listed_outside))]
fn is_listed_outside(word: &[u8]) -> bool
    ensures { result ≡ vocabulary.is_listed_outside word.now }
{
    is_among(&OUTSIDE, word)
}

fn begins_with_two_bars(word: &[u8]) -> bool
    ensures { result ≡ vocabulary.begins_with_two_bars word.now }
{
    let [first, second, ..] = word else {
        return false;
    };
    *first == b'_' && *second == b'_'
}

/// Whether the word is a keyword that the compiler reads, one that it leaves out, or a name.
#[tactic(auto, unfolding(crate::specs::Vocabulary::word_class))]
pub fn word(bytes: &[u8]) -> Word
    ensures { result ≡ vocabulary.word_class bytes.now }
{
    if is_used(bytes) {
        Word::Used
    } else if is_listed_outside(bytes) || begins_with_two_bars(bytes) {
        Word::Outside
    } else {
        Word::Plain
    }
}
