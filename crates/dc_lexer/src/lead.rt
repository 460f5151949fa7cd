// What a first byte can begin.
ghost use Rattle.std.specs.Prelude.{◌≡◌};
ghost use Rattle.dc_lexer.specs.Leads as leads;

/// What the first byte of an item can begin.
#[derive(Clone, Copy)]
pub(crate) enum Lead {
    Blank,
    /// A letter, `_` or a byte of a longer character: a name, or a string with a letter before its quote or brace.
    Letter,
    Digit,
    Slash,
    Quote,
    Backquote,
    Apostrophe,
    Point,
    /// A sign, or nothing.
    Other,
}

pub(crate) fn lead_of(b: u8) -> Lead
    ensures value { result ≡ leads.lead b }
    ensures means { leads.Means result b }
{
    if b == b' ' || (9 <= b && b <= 13) {
        Lead::Blank
    } else if b.is_ascii_alphabetic() || b == b'_' || 128 <= b {
        Lead::Letter
    } else if b.is_ascii_digit() {
        Lead::Digit
    } else if b == b'/' {
        Lead::Slash
    } else if b == b'"' {
        Lead::Quote
    } else if b == b'`' {
        Lead::Backquote
    } else if b == b'\'' {
        Lead::Apostrophe
    } else if b == b'.' {
        Lead::Point
    } else {
        Lead::Other
    }
}
