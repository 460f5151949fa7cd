// Where the key text in a place ends, and other scans of bytes.
ghost use Rattle.std.specs.Prelude.{◌≡◌, ◌≤◌, ◌<◌, ◌^◌, length};
ghost use Rattle.dc_key.specs.KeyTexts as keys;
ghost use Rattle.dc_key.specs.KeyReading as reading;

/// Where the scan of a key text is.
#[derive(Clone, Copy)]
pub(crate) struct Scan {
    /// How many `(` are open.
    depth: u64,
    /// How many bytes of a string are left, or the number that they are said to be so far.
    left: u128,
    /// Whether the length of a string is being read.
    counts: bool,
}

#[tactic(auto, unfolding(crate::specs::KeyReading::is_digit))]
fn is_digit(b: u8) -> bool
    ensures { result ≡ reading.is_digit b }
{
    48 <= b && b <= 57
}

#[tactic(auto, unfolding(crate::specs::KeyTexts::is_name_byte))]
fn is_name_byte(b: u8) -> bool
    ensures { result ≡ keys.is_name_byte b }
{
    (48 <= b && b <= 57)
        || (65 <= b && b <= 90)
        || (97 <= b && b <= 122)
        || b == b'_'
        || b == b'.'
        || 128 <= b
}

pub(crate) fn digits(bytes: &[u8]) -> usize
    ensures value { result ≡ reading.front reading.is_digit bytes.now }
    ensures within { result ≤ length bytes.now }
{
    for (at, b) in bytes.iter().enumerate() {
        if !is_digit(*b) {
            return at;
        }
    }
    bytes.len()
}

pub(crate) fn name(bytes: &[u8]) -> usize
    ensures value { result ≡ reading.front keys.is_name_byte bytes.now }
    ensures within { result ≤ length bytes.now }
{
    for (at, b) in bytes.iter().enumerate() {
        if !is_name_byte(*b) {
            return at;
        }
    }
    bytes.len()
}

fn wrapped(v: u128, b: u8) -> u128
    ensures { result ≡ reading.wrapped v b }
{
    v.wrapping_mul(10)
        .wrapping_add(b.saturating_sub(48) as u128)
}

pub(crate) fn number_of(digits: &[u8]) -> u128
    ensures { result ≡ reading.number_from 0 digits.now }
{
    let mut value: u128 = 0;
    for b in digits {
        value = wrapped(value, *b);
    }
    value
}

fn closes(scan: Scan, b: u8) -> bool
    ensures { result ≡ reading.closes scan b }
{
    !scan.counts && scan.left == 0 && scan.depth == 0 && b == b')'
}

fn counted(scan: Scan, b: u8) -> Scan
    ensures { result ≡ reading.counted scan b }
{
    if b == b':' {
        Scan {
            counts: false,
            ..scan
        }
    } else {
        Scan {
            left: wrapped(scan.left, b),
            ..scan
        }
    }
}

fn marked(scan: Scan, b: u8) -> Scan
    requires { scan.depth < 2 ^ 63 }
    ensures { result ≡ reading.marked scan b }
{
    match b {
        b'"' => Scan {
            counts: true,
            ..scan
        },
        b'(' => Scan {
            depth: scan.depth + 1,
            ..scan
        },
        b')' => Scan {
            depth: scan.depth.saturating_sub(1),
            ..scan
        },
        _ => scan,
    }
}

fn scanned(scan: Scan, b: u8) -> Scan
    requires { scan.depth < 2 ^ 63 }
    ensures { result ≡ reading.scanned scan b }
{
    if scan.counts {
        counted(scan, b)
    } else if 0 < scan.left {
        Scan {
            left: scan.left - 1,
            ..scan
        }
    } else {
        marked(scan, b)
    }
}

/// How many bytes stand before the `)` that closes the key text at the front.
pub(crate) fn key_len(bytes: &[u8]) -> usize
    ensures value { result ≡ reading.key_len (reading.outside 0) bytes.now }
    ensures within { result ≤ length bytes.now }
{
    let mut scan = Scan {
        depth: 0,
        left: 0,
        counts: false,
    };
    for (at, b) in bytes.iter().enumerate() {
        if closes(scan, *b) {
            return at;
        }
        scan = scanned(scan, *b);
    }
    bytes.len()
}
