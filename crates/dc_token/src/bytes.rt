// Single bytes of a text.
ghost use Rattle.std.specs.Prelude.{◌≡◌, ◌≢◌, ◌<◌, length, slice_index};
ghost use Rattle.dc_token.specs.Bytes as bytes;

/// The byte at an offset, or 0 behind the end.
pub fn byte(z: &[u8], at: usize) -> u8
    ensures value { result ≡ slice_index z.now at }
    ensures within { result ≢ 0 → at < length z.now }
{
    if at < z.len() { z[at] } else { 0 }
}

/// Whether the two bytes stand at the front.
pub fn begins(z: &[u8], first: u8, second: u8) -> bool
    ensures { result ≡ bytes.begins first second z.now }
{
    let [a, b, ..] = z else {
        return false;
    };
    *a == first && *b == second
}
