// The longest sign.
ghost use Rattle.std.specs.Prelude.{◌≡◌};
ghost use Rattle.dc_lexer.specs.SignBytes as by_bytes;

use dc_token::byte;

/// The length of the longest sign at the front, or 0.
#[tactic(auto, unfolding(crate::specs::SignBytes::sign_len))]
pub(crate) fn sign_len(z: &[u8]) -> usize
    ensures { result ≡ by_bytes.sign_len z.now }
{
    let (a, b, c) = (byte(z, 0), byte(z, 1), byte(z, 2));
    if !is_single(a) {
        return 0;
    }
    if !is_double(a, b) {
        return 1;
    }
    if !is_triple(a, b, c) {
        return 2;
    }
    if !is_quadruple(a, b, c, byte(z, 3)) {
        return 3;
    }
    4
}

fn is_single(b: u8) -> bool
    ensures { result ≡ by_bytes.single b }
{
    b == b'('
        || b == b')'
        || b == b'['
        || b == b']'
        || b == b'{'
        || b == b'}'
        || b == b';'
        || b == b','
        || b == b'.'
        || b == b':'
        || b == b'$'
        || b == b'?'
        || b == b'!'
        || b == b'@'
        || b == b'='
        || b == b'<'
        || b == b'>'
        || b == b'+'
        || b == b'-'
        || b == b'*'
        || b == b'/'
        || b == b'%'
        || b == b'&'
        || b == b'|'
        || b == b'^'
        || b == b'~'
}

fn takes_equals(b: u8) -> bool
    ensures { result ≡ by_bytes.takes_equals b }
{
    b == b'='
        || b == b'!'
        || b == b'<'
        || b == b'>'
        || b == b'+'
        || b == b'-'
        || b == b'*'
        || b == b'/'
        || b == b'%'
        || b == b'&'
        || b == b'|'
        || b == b'^'
        || b == b'~'
}

fn doubles(b: u8) -> bool
    ensures { result ≡ by_bytes.doubles b }
{
    b == b'.'
        || b == b'<'
        || b == b'>'
        || b == b'&'
        || b == b'|'
        || b == b'+'
        || b == b'-'
        || b == b'^'
}

fn is_double(b: u8, c: u8) -> bool
    ensures { result ≡ by_bytes.double b c }
{
    (c == b'=' && takes_equals(b)) || (c == b'>' && b == b'=') || (doubles(c) && c == b)
}

fn is_triple(b: u8, c: u8, d: u8) -> bool
    ensures { result ≡ by_bytes.triple b c d }
{
    ((d == b'.' || d == b'>') && c == d && b == d)
        || (d == b'=' && c == b && (b == b'<' || b == b'>' || b == b'^'))
}

fn is_quadruple(b: u8, c: u8, d: u8, e: u8) -> bool
    ensures { result ≡ by_bytes.quadruple b c d e }
{
    e == b'=' && b == b'>' && c == b'>' && d == b'>'
}
