// Integers and floats (D specification, "Lexical", "Integer Literals" and "Floating Point Literals").
ghost use Rattle.std.specs.Prelude.{◌≡◌, ◌≤◌, ◌+◌, ◌-◌, ◌==◌, true, false, nat_le, count_by, length, take, drop, slice_index};
ghost use Rattle.std.specs.List.{list_any};
ghost use Rattle.std.specs.Char.{is_ascii_digit};
ghost use Rattle.dc_token.specs.Bytes as bytes;
ghost use Rattle.dc_token.specs.Numbers as numbers;
ghost use Rattle.dc_token.specs.Items as items;
ghost use Rattle.dc_lexer.specs.Fronts as fronts;

use crate::name::start_len;
use crate::set::{Set, past};
use dc_token::{Item, begins, byte};

fn is_long(b: u8) -> bool
    ensures { result ≡ numbers.is_long b }
{
    b == b'L'
}

fn is_unsigned(b: u8) -> bool
    ensures { result ≡ numbers.is_unsigned b }
{
    b == b'u' || b == b'U'
}

#[tactic(auto, unfolding(crate::specs::Fronts::number_suffix))]
fn number_suffix(z: &[u8]) -> usize
    ensures value { result ≡ fronts.number_suffix z.now }
    ensures within { result ≤ length z.now }
{
    let (b, c) = (byte(z, 0), byte(z, 1));
    if (is_long(b) && is_unsigned(c)) || (is_unsigned(b) && is_long(c)) {
        return 2;
    }
    if is_long(b) || is_unsigned(b) { 1 } else { 0 }
}

fn is_exponent(b: u8) -> bool
    ensures { result ≡ numbers.is_exponent b }
{
    b == b'e' || b == b'E' || b == b'f' || b == b'F'
}

/// Whether a float goes on at the place behind the first digits.
fn is_float(z: &[u8], end: usize) -> bool
    requires { end ≤ length z.now }
    ensures yes { result ≡ true → fronts.IsMark z.now end }
    ensures only { result ≡ false → fronts.IsMark z.now end → ⊥ }
{
    let b = byte(z, end);
    if is_exponent(b) {
        return true;
    }
    if b != b'.' {
        return false;
    }
    if end + 1 == z.len() {
        return true;
    }
    if z[end + 1] == b'.' {
        return false;
    }
    if start_len(&z[end + 1..]) == 0 {
        return true;
    }
    false
}

/// The end of the decimal digits at the front.
fn digits_end(z: &[u8]) -> usize
    requires { is_ascii_digit (slice_index z.now 0) ≡ true }
    ensures value { result ≡ fronts.run is_ascii_digit bytes.is_digit_or_bar z.now }
    ensures within { (1 ≤ result) × (result ≤ length z.now) }
{
    past(Set::DigitOrBar, z, 1)
}

/// A decimal integer, or a float that begins with a decimal digit.
fn decimal(z: &[u8]) -> (Item, usize)
    requires digit { is_ascii_digit (slice_index z.now 0) ≡ true }
    requires no_hex { bytes.begins 48 120 z.now ≡ false }
    requires no_binary { bytes.begins 48 98 z.now ≡ false }
    ensures { fronts.Best items.PlainSpells z.now (result.0, result.1) }
{
    let end = digits_end(z);
    if is_float(z, end) {
        return (Item::Float, past(Set::Word, z, end + 1));
    }
    (Item::Decimal, end + number_suffix(&z[end..]))
}

fn has_hex(z: &[u8]) -> bool
    ensures { result ≡ list_any bytes.is_hex z.now }
{
    z.iter().any(|b| b.is_ascii_hexdigit())
}

fn has_binary(z: &[u8]) -> bool
    ensures { result ≡ list_any bytes.is_binary z.now }
{
    z.iter().any(|b| *b == b'0' || *b == b'1')
}

fn has_one_point(z: &[u8]) -> bool
    ensures { result ≡ nat_le (count_by (λ b. b == 46) z.now) 1 }
{
    z.iter().filter(|b| **b == b'.').count() <= 1
}

/// Whether the digits behind `0x` up to an offset are a mantissa with `p` or `P` behind it.
fn is_power_mark(z: &[u8], end: usize) -> bool
    requires bounds { (2 ≤ end) × (end ≤ length z.now) }
    requires digits { end ≡ fronts.past Set.HexOrPoint z.now 2 }
    ensures yes { result ≡ true → fronts.IsPowerMark z.now end }
    ensures only { result ≡ false → fronts.IsPowerMark z.now end → ⊥ }
{
    let mark = byte(z, end);
    if mark != b'p' && mark != b'P' {
        return false;
    }
    let digits = &z[2..end];
    has_hex(digits) && has_one_point(digits)
}

/// The length of a hexadecimal integer, or 0.
fn hexadecimal_len(z: &[u8]) -> usize
    requires { bytes.begins 48 120 z.now ≡ true }
    ensures { fronts.Longest (λ w u. numbers.IsHexadecimal w) z.now result }
{
    let end = past(Set::HexOrBar, z, 2);
    if !has_hex(&z[2..end]) {
        return 0;
    }
    end + number_suffix(&z[end..])
}

/// The length of a binary integer, or 0.
fn binary_len(z: &[u8]) -> usize
    requires { bytes.begins 48 98 z.now ≡ true }
    ensures { fronts.Longest (λ w u. numbers.IsBinary w) z.now result }
{
    let end = past(Set::BinaryOrBar, z, 2);
    if !has_binary(&z[2..end]) {
        return 0;
    }
    end + number_suffix(&z[end..])
}

/// A hexadecimal integer or float.
fn hexadecimal(z: &[u8]) -> (Item, usize)
    requires { bytes.begins 48 120 z.now ≡ true }
    ensures { fronts.Best items.PlainSpells z.now (result.0, result.1) }
{
    let end = past(Set::HexOrPoint, z, 2);
    if is_power_mark(z, end) {
        return (Item::HexFloat, past(Set::Word, z, end + 1));
    }
    (Item::Hexadecimal, hexadecimal_len(z))
}

/// The number at the front, or nothing where `0x` or `0b` has no digit.
pub(crate) fn number(z: &[u8]) -> (Item, usize)
    requires { is_ascii_digit (slice_index z.now 0) ≡ true }
    ensures { fronts.Best items.PlainSpells z.now (result.0, result.1) }
{
    if begins(z, b'0', b'x') {
        return hexadecimal(z);
    }
    if begins(z, b'0', b'b') {
        return (Item::Binary, binary_len(z));
    }
    decimal(z)
}
