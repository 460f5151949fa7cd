// Escapes in strings and characters (D specification, "Lexical", "Escape Sequences").
ghost use Rattle.std.specs.Prelude.{◌≡◌, ◌+◌, ◌<◌, ◌≤◌, ◌≢◌, ◌++◌, true, false, length, slice_index, OnOk};
ghost use lib.Utf8.{scalar};
ghost use Rattle.dc_token.specs.Bytes as bytes;
ghost use Rattle.dc_token.specs.Escapes as escapes;

use crate::bytes::byte;
use bstr::ByteVec;
use std::alloc::AllocError;

fn is_hex(b: u8) -> bool
    ensures { result ≡ bytes.is_hex b }
{
    b.is_ascii_hexdigit()
}

fn is_octal(b: u8) -> bool
    ensures { result ≡ bytes.is_octal b }
{
    b'0' <= b && b <= b'7'
}

fn is_simple(b: u8) -> bool
    ensures { result ≡ escapes.is_simple b }
{
    b == b'\''
        || b == b'"'
        || b == b'?'
        || b == b'\\'
        || b == b'a'
        || b == b'b'
        || b == b'f'
        || b == b'n'
        || b == b'r'
        || b == b't'
        || b == b'v'
        || b == b'&'
}

/// The number of a hexadecimal digit.
pub(crate) fn hex_digit(b: u8) -> u32
    requires { bytes.is_hex b ≡ true }
    ensures value { result ≡ escapes.hex_digit b }
    ensures small { result < 16 }
{
    if b <= b'9' {
        (b - b'0') as u32
    } else if b <= b'F' {
        (b - 55) as u32
    } else {
        (b - 87) as u32
    }
}

#[tactic(auto, unfolding(crate::specs::Escapes::four_hex))]
fn four_hex(z: &[u8], at: usize) -> bool
    requires { at < 100 }
    ensures value { result ≡ escapes.four_hex z.now at }
    ensures within { result ≡ true → at + 4 ≤ length z.now }
{
    is_hex(byte(z, at))
        && is_hex(byte(z, at + 1))
        && is_hex(byte(z, at + 2))
        && is_hex(byte(z, at + 3))
}

#[tactic(auto, unfolding(crate::specs::Escapes::four_value, crate::specs::Escapes::four_hex))]
fn four_value(z: &[u8], at: usize) -> u32
    requires short { at < 100 }
    requires digits { escapes.four_hex z.now at ≡ true }
    ensures value { result ≡ escapes.four_value z.now at }
    ensures small { result < 65536 }
{
    let a = hex_digit(byte(z, at));
    let b = hex_digit(byte(z, at + 1));
    let c = hex_digit(byte(z, at + 2));
    let d = hex_digit(byte(z, at + 3));
    ((a * 16 + b) * 16 + c) * 16 + d
}

fn is_scalar(n: u32) -> bool
    ensures { result ≡ scalar n }
{
    n < 0xD800 || (0xE000 <= n && n < 0x110000)
}

/// An escape behind its backslash.
#[derive(Clone, Copy)]
pub(crate) struct Escape {
    /// Its length, the backslash counted; 0 where it is none.
    pub(crate) len: usize,
    /// The byte that it writes, or for `\u` and `\U` the character.
    pub(crate) value: u32,
}

const NO_ESCAPE: Escape = Escape { len: 0, value: 0 };

fn simple_value(b: u8) -> u32
    ensures value { result ≡ escapes.simple_value b }
    ensures small { result < 256 }
{
    match b {
        b'a' => 7,
        b'b' => 8,
        b'f' => 12,
        b'n' => 10,
        b'r' => 13,
        b't' => 9,
        b'v' => 11,
        _ => b as u32,
    }
}

fn hex_escape(z: &[u8]) -> Escape
    ensures len { result.len ≡ escapes.hex_len z.now }
    ensures value { result.len ≢ 0 → result.value ≡ escapes.hex_value z.now }
    ensures small { result.value < 256 }
    ensures within { result.len ≤ length z.now + 1 }
{
    let (a, b) = (byte(z, 1), byte(z, 2));
    if !is_hex(a) || !is_hex(b) {
        return NO_ESCAPE;
    }
    Escape {
        len: 4,
        value: hex_digit(a) * 16 + hex_digit(b),
    }
}

fn short_escape(z: &[u8]) -> Escape
    ensures len { result.len ≡ escapes.short_len z.now }
    ensures value { result.len ≢ 0 → result.value ≡ escapes.four_value z.now 1 }
    ensures is_scalar { scalar result.value ≡ true }
    ensures within { result.len ≤ length z.now + 1 }
{
    if !four_hex(z, 1) {
        return NO_ESCAPE;
    }
    let value = four_value(z, 1);
    if !is_scalar(value) {
        return NO_ESCAPE;
    }
    Escape { len: 6, value }
}

#[tactic(auto, unfolding(crate::specs::Escapes::long_value))]
fn long_escape(z: &[u8]) -> Escape
    ensures len { result.len ≡ escapes.long_len z.now }
    ensures value { result.len ≢ 0 → result.value ≡ escapes.long_value z.now }
    ensures is_scalar { scalar result.value ≡ true }
    ensures within { result.len ≤ length z.now + 1 }
{
    if !four_hex(z, 1) || !four_hex(z, 5) {
        return NO_ESCAPE;
    }
    let value = four_value(z, 1) * 65536 + four_value(z, 5);
    if !is_scalar(value) {
        return NO_ESCAPE;
    }
    Escape { len: 10, value }
}

fn octal_escape(z: &[u8]) -> Escape
    requires { bytes.is_octal (slice_index z.now 0) ≡ true }
    ensures len { result.len ≡ escapes.octal_len z.now }
    ensures value { result.len ≢ 0 → result.value ≡ escapes.octal_value z.now }
    ensures small { result.value < 256 }
    ensures within { result.len ≤ length z.now + 1 }
{
    let (a, b, c) = (byte(z, 0), byte(z, 1), byte(z, 2));
    let first = (a - b'0') as u32;
    if !is_octal(b) {
        return Escape {
            len: 2,
            value: first,
        };
    }
    let second = first * 8 + (b - b'0') as u32;
    if !is_octal(c) {
        return Escape {
            len: 3,
            value: second,
        };
    }
    if b'3' < a {
        return NO_ESCAPE;
    }
    Escape {
        len: 4,
        value: second * 8 + (c - b'0') as u32,
    }
}

#[tactic(auto, unfolding(crate::specs::Escapes::escape, crate::specs::Escapes::escape_value))]
pub(crate) fn escape_at(z: &[u8]) -> Escape
    ensures len { result.len ≡ escapes.escape z.now }
    ensures value { result.len ≢ 0 → result.value ≡ escapes.escape_value z.now }
    ensures is_scalar { escapes.is_character_escape z.now ≡ true → scalar result.value ≡ true }
    ensures small { escapes.is_character_escape z.now ≡ false → result.value < 256 }
    ensures within { result.len ≤ length z.now + 1 }
{
    let b = byte(z, 0);
    if is_simple(b) {
        return Escape {
            len: 2,
            value: simple_value(b),
        };
    }
    if b == b'x' {
        return hex_escape(z);
    }
    if b == b'u' {
        return short_escape(z);
    }
    if b == b'U' {
        return long_escape(z);
    }
    if is_octal(b) {
        return octal_escape(z);
    }
    NO_ESCAPE
}

/// The length of an escape, its backslash counted, where the bytes follow the backslash; 0 where they make none.
pub fn escape_len(z: &[u8]) -> usize
    ensures value { result ≡ escapes.escape z.now }
    ensures within { result ≤ length z.now + 1 }
{
    escape_at(z).len
}

pub(crate) fn is_character_escape(z: &[u8]) -> bool
    ensures { result ≡ escapes.is_character_escape z.now }
{
    let b = byte(z, 0);
    b == b'u' || b == b'U'
}

fn char_of(value: u32) -> char
    requires { scalar value ≡ true }
    ensures { result ≡ value }
{
    match char::from_u32(value) {
        Some(c) => c,
        None => unreachable!(),
    }
}

/// Appends what an escape writes.
#[tactic(auto, unfolding(crate::specs::Escapes::escape_bytes))]
pub(crate) fn push_value(out: &mut Vec<u8>, z: &[u8], value: u32) -> Result<(), AllocError>
    requires value { value ≡ escapes.escape_value z.now }
    requires is_scalar { escapes.is_character_escape z.now ≡ true → scalar value ≡ true }
    requires small { escapes.is_character_escape z.now ≡ false → value < 256 }
    ensures { OnOk result (out.new.items ≡ out.old.items ++ escapes.escape_bytes z.now) }
{
    if is_character_escape(z) {
        return out.push_char(char_of(value));
    }
    out.push(value as u8)?;
    Ok(())
}
