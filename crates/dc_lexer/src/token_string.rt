// Token strings (D specification, "Lexical", "Token Strings"), and the next item.
ghost use Rattle.std.specs.Prelude.{◌≡◌, ◌<◌, true, false, length, drop};
ghost use Rattle.dc_token.specs.Bytes as bytes;
ghost use Rattle.dc_token.specs.Items as items;
ghost use Rattle.dc_lexer.specs.Fronts as fronts;

use crate::plain::plain_item;
use dc_token::{Item, byte};

/// The length of a token string at the front, or 0. Strings inside it count as braces, so that one count serves all.
fn token_string(z: &[u8]) -> usize
    requires { bytes.begins 113 123 z.now ≡ true }
    ensures { fronts.Longest items.IsTokenString z.now result }
{
    let mut at: usize = 2;
    let mut depth: usize = 1;
    while at < z.len() {
        let b = z[at];
        if b == b'{' {
            depth += 1;
            at += 1;
            continue;
        }
        if b == b'}' {
            depth -= 1;
            at += 1;
            if depth == 0 {
                return at;
            }
            continue;
        }
        if begins_token_string(z, at) {
            depth += 1;
            at += 2;
            continue;
        }
        let (_, size) = plain_item(&z[at..]);
        if size == 0 {
            return 0;
        }
        at += size;
    }
    0
}

fn begins_token_string(z: &[u8], at: usize) -> bool
    requires { at < length z.now }
    ensures value { result ≡ bytes.begins 113 123 (drop at z.now) }
    ensures whole { at ≡ 0 → result ≡ bytes.begins 113 123 z.now }
{
    z[at] == b'q' && byte(z, at + 1) == b'{'
}

/// The kind and the length of the item at the front; the length is 0 where none begins.
pub(crate) fn next_item(z: &[u8]) -> (Item, usize)
    requires { 0 < length z.now }
    ensures { fronts.Found items.Spells z.now (result.0, result.1) }
{
    if begins_token_string(z, 0) {
        return (Item::TokenString, token_string(z));
    }
    plain_item(z)
}
