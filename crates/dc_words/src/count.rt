// Numbers in words.

/// The most that a number in words can be.
const MOST: u64 = 1_000_000_000_000_000_000;

/// The number with one digit more, where the byte is a digit and the number isn't above the limit.
fn with_digit(value: u64, byte: u8) -> Option<u64> {
    if !byte.is_ascii_digit() {
        return None;
    }
    let digit = u64::from(byte).saturating_sub(48);
    let next = value.saturating_mul(10).saturating_add(digit);
    if next <= MOST { Some(next) } else { None }
}

/// The number up to 10^18 that a word writes in decimal, without a needless 0 in front.
pub(crate) fn count_of(word: &[u8]) -> Option<u64> {
    match word {
        [] => return None,
        [b'0', _, ..] => return None,
        _ => {}
    }
    let mut value: u64 = 0;
    for byte in word {
        match with_digit(value, *byte) {
            Some(next) => value = next,
            None => return None,
        }
    }
    Some(value)
}
