// Names (D specification, "Lexical", "Identifiers").
ghost use Rattle.std.specs.Prelude.{◌≡◌, ◌<◌, ◌↔◌, IsTrue, length, drop};
ghost use Rattle.dc_token.specs.Vocabulary.{is_xid_continue};
ghost use Rattle.dc_token.specs.Bytes as bytes;
ghost use Rattle.dc_token.specs.Names as names;
ghost use Rattle.dc_token.specs.Vocabulary as vocabulary;
ghost use Rattle.dc_lexer.specs.Fronts as fronts;

use dc_token::{Class, class_of};

fn starts_name(c: char) -> bool
    ensures { result ≡ vocabulary.starts_name c }
{
    class_of(c) == Class::Start
}

fn continues_name(c: char) -> bool
    ensures { result ≡ is_xid_continue c }
{
    match class_of(c) {
        Class::Start => true,
        Class::Next => true,
        Class::Neither => false,
    }
}

/// The length of the character at the front that starts a name, or 0.
pub(crate) fn start_len(z: &[u8]) -> usize
    requires { 0 < length z.now }
    ensures { fronts.PassesFor vocabulary.starts_name z.now result }
{
    let (found, size) = bstr::decode_utf8(z);
    let Some(c) = found else {
        return 0;
    };
    if starts_name(c) { size } else { 0 }
}

fn continue_len(z: &[u8]) -> usize
    requires { 0 < length z.now }
    ensures { fronts.PassesFor is_xid_continue z.now result }
{
    let (found, size) = bstr::decode_utf8(z);
    let Some(c) = found else {
        return 0;
    };
    if continues_name(c) { size } else { 0 }
}

/// The length of the character at an offset that continues a name, or 0.
fn continue_at(z: &[u8], at: usize) -> usize
    requires { at < length z.now }
    ensures { fronts.PassesFor is_xid_continue (drop at z.now) result }
{
    let b = z[at];
    if 128 <= b {
        return continue_len(&z[at..]);
    }
    if is_word(b) { 1 } else { 0 }
}

/// The length of the name at the front, or 0.
pub(crate) fn name(z: &[u8]) -> usize
    requires { 0 < length z.now }
    ensures { fronts.Longest (λ w u. names.IsName w) z.now result }
{
    let mut at = start_len(z);
    if at == 0 {
        return 0;
    }
    while at < z.len() {
        let size = continue_at(z, at);
        if size == 0 {
            return at;
        }
        at += size;
    }
    at
}

fn is_word(b: u8) -> bool
    ensures { result ≡ bytes.is_word b }
{
    b.is_ascii_alphanumeric() || b == b'_'
}

/// Whether the bytes are one identifier, be it a keyword or not (D specification, "Lexical", "Identifiers").
pub fn is_name(bytes: &[u8]) -> bool
    ensures { IsTrue result ↔ names.IsName bytes.now }
{
    !bytes.is_empty() && name(bytes) == bytes.len()
}
