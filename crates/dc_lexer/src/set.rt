// Runs of bytes of a set.
ghost use Rattle.std.specs.Prelude.{◌≡◌, ◌≤◌, length};
ghost use Rattle.dc_lexer.specs.Fronts as fronts;

#[derive(Clone, Copy)]
pub(crate) enum Set {
    Blank,
    Word,
    DigitOrBar,
    HexOrBar,
    HexOrPoint,
    BinaryOrBar,
    NotLineFeed,
    NotQuote,
}

fn is_in(set: Set, b: u8) -> bool
    ensures { result ≡ fronts.is_in set b }
{
    match set {
        Set::Blank => b == b' ' || (9 <= b && b <= 13),
        Set::Word => b.is_ascii_alphanumeric() || b == b'_',
        Set::DigitOrBar => b.is_ascii_digit() || b == b'_',
        Set::HexOrBar => b.is_ascii_hexdigit() || b == b'_',
        Set::HexOrPoint => b.is_ascii_hexdigit() || b == b'_' || b == b'.',
        Set::BinaryOrBar => b == b'0' || b == b'1' || b == b'_',
        Set::NotLineFeed => !(b == b'\n'),
        Set::NotQuote => !(b == b'"'),
    }
}

/// The first offset from `at` on whose byte is not of the set, or the end.
pub(crate) fn past(set: Set, z: &[u8], at: usize) -> usize
    requires { at ≤ length z.now }
    ensures value { result ≡ fronts.past set z.now at }
    ensures within { (at ≤ result) × (result ≤ length z.now) }
{
    let mut end = at;
    while end < z.len() && is_in(set, z[end]) {
        end += 1;
    }
    end
}
