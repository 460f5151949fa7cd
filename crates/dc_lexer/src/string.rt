// Strings and characters (D specification, "Lexical", "String Literals" and "Character Literals").
ghost use Rattle.std.specs.Prelude.{◌≡◌, ◌≤◌, true, [], ◌∷◌, length, take, slice_index};
ghost use Rattle.dc_token.specs.Bytes as bytes;
ghost use Rattle.dc_token.specs.Strings as strings;
ghost use Rattle.dc_lexer.specs.Fronts as fronts;

use crate::set::{Set, past};
use dc_token::{byte, escape_len};

/// The place after the closing quote, or 0.
fn body_end(z: &[u8], from: usize, quote: u8, escapes: bool) -> usize
    requires short { (1 ≤ from) × (from ≤ length z.now) }
    ensures { fronts.Exact (strings.IsBody (take from z.now) quote escapes) z.now result }
{
    let mut at = from;
    while at < z.len() {
        let b = z[at];
        if b == quote {
            return at + 1;
        }
        if escapes && b == b'\\' {
            let size = escape_len(&z[at + 1..]);
            if size == 0 {
                return 0;
            }
            at += size;
            continue;
        }
        at += 1;
    }
    0
}

fn suffixed(z: &[u8], end: usize) -> usize
    requires { end ≤ length z.now }
    ensures { result ≡ fronts.suffixed z.now end }
{
    if end == 0 {
        return 0;
    }
    let b = byte(z, end);
    if b == b'c' || b == b'w' || b == b'd' {
        end + 1
    } else {
        end
    }
}

/// The length of a string at the front whose opener has a length, or 0.
pub(crate) fn string_len(z: &[u8], opener_len: usize, quote: u8, escapes: bool) -> usize
    requires short { (1 ≤ opener_len) × (opener_len ≤ length z.now) }
    ensures { fronts.Longest (strings.Suffixed (strings.IsBody (take opener_len z.now) quote escapes)) z.now result }
{
    suffixed(z, body_end(z, opener_len, quote, escapes))
}

/// The length of an item from a letter and a quote to the next quote.
pub(crate) fn to_quote(z: &[u8]) -> usize
    requires { bytes.begins (slice_index z.now 0) 34 z.now ≡ true }
    ensures { fronts.Longest (strings.IsToQuote (slice_index z.now 0)) z.now result }
{
    let end = past(Set::NotQuote, z, 2);
    if end < z.len() { end + 1 } else { end }
}

/// The length of what stands in front between the quotes of a character: an escape, or a character that is neither
/// `'` nor a backslash; or 0.
fn character_body(z: &[u8]) -> usize
    ensures { fronts.CharacterBody z.now result }
{
    if byte(z, 0) == b'\\' {
        return escape_len(&z[1..]);
    }
    let (found, size) = bstr::decode_utf8(z);
    let Some(c) = found else {
        return 0;
    };
    if c == '\'' { 0 } else { size }
}

/// The length of a character literal at the front, or 0.
pub(crate) fn character(z: &[u8]) -> usize
    requires { slice_index z.now 0 ≡ 39 }
    ensures { fronts.Longest strings.IsCharacter z.now result }
{
    let size = character_body(&z[1..]);
    if size == 0 || byte(z, size + 1) != b'\'' {
        return 0;
    }
    size + 2
}
