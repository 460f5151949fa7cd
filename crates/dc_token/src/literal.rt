// What literals stand for, by their spellings.
ghost use Rattle.std.specs.Prelude.{◌≡◌, ◌<◌, ◌≤◌, ◌^◌, IfOk, nat_lt, if◌then◌else◌, Some, None};
ghost use Rattle.std.specs.List.{list_any};
ghost use Rattle.std.specs.Char.{is_ascii_digit};
ghost use Rattle.dc_token.specs.Numbers as numbers;
ghost use Rattle.dc_token.specs.Escapes as escapes;
ghost use Rattle.dc_token.specs.Strings as strings;
ghost use Rattle.dc_token.specs.Literals as literals;

use crate::Spelling;
use crate::bytes::{begins, byte};
use crate::escape::{escape_at, hex_digit, is_character_escape, push_value};
use crate::literal_types::{Integer, IntegerType};
use std::alloc::{AllocError, Global};

fn base_of(spelling: &[u8]) -> u64
    ensures base { result ≡ literals.base_of spelling.now }
    ensures small { (2 ≤ result) × (result ≤ 16) }
{
    if begins(spelling, b'0', b'x') {
        16
    } else if begins(spelling, b'0', b'b') {
        2
    } else {
        10
    }
}

fn digits_of(spelling: &[u8]) -> &[u8]
    ensures { result.now ≡ literals.digits_of spelling.now }
{
    if base_of(spelling) == 10 {
        return spelling;
    }
    match spelling {
        [_, _, digits @ ..] => digits,
        _ => spelling,
    }
}

/// The number behind one more byte of a spelling, where it is below 2 to the power of 64.
fn next_value(base: u64, value: u64, b: u8) -> Option<u64>
    ensures { result ≡ literals.fitting (literals.next_value base value b) }
{
    if !b.is_ascii_hexdigit() {
        return Some(value);
    }
    let digit = hex_digit(b) as u64;
    value.checked_mul(base)?.checked_add(digit)
}

/// The number of the digits, where it is below 2 to the power of 64.
fn value_of(base: u64, digits: &[u8]) -> Option<u64>
    requires { 2 ≤ base }
    ensures { result ≡ literals.fitting (literals.value_from base 0 digits.now) }
{
    let mut value: u64 = 0;
    for b in digits {
        value = next_value(base, value, *b)?;
    }
    Some(value)
}

fn integer_type(decimal: bool, long: bool, unsigned: bool, value: u64) -> Option<IntegerType>
    ensures { result ≡ literals.integer_type decimal long unsigned value }
{
    match (long, unsigned) {
        (true, true) => Some(IntegerType::UnsignedLong),
        (false, true) if value <= 0xFFFF_FFFF => Some(IntegerType::UnsignedInt),
        (false, true) => Some(IntegerType::UnsignedLong),
        (false, false) if value <= 0x7FFF_FFFF => Some(IntegerType::Int),
        (false, false) if value <= 0xFFFF_FFFF && !decimal => Some(IntegerType::UnsignedInt),
        _ if value <= 0x7FFF_FFFF_FFFF_FFFF => Some(IntegerType::Long),
        _ if decimal => None,
        _ => Some(IntegerType::UnsignedLong),
    }
}

fn leading_zero(spelling: &[u8]) -> bool
    ensures { result ≡ literals.leading_zero spelling.now }
{
    let [first, rest @ ..] = spelling else {
        return false;
    };
    *first == b'0' && has_digit(rest)
}

fn has_needless_zero(spelling: &[u8]) -> bool
    ensures { result ≡ literals.needless_zero spelling.now }
{
    base_of(spelling) == 10 && leading_zero(spelling)
}

fn has_digit(bytes: &[u8]) -> bool
    ensures { result ≡ list_any is_ascii_digit bytes.now }
{
    bytes.iter().any(|b| b.is_ascii_digit())
}

fn has_long(spelling: &[u8]) -> bool
    ensures { result ≡ list_any numbers.is_long spelling.now }
{
    spelling.iter().any(|b| *b == b'L')
}

fn has_unsigned(spelling: &[u8]) -> bool
    ensures { result ≡ list_any numbers.is_unsigned spelling.now }
{
    spelling.iter().any(|b| *b == b'u' || *b == b'U')
}

/// The number and the type of an integer literal (D specification, "Lexical", "Integer Literals"), or nothing where its
/// number is too large for every type that its form can have, or where a decimal begins with a needless 0.
pub fn integer(spelling: &[u8]) -> Option<Integer>
    ensures { result ≡ literals.integer_of spelling.now }
{
    if has_needless_zero(spelling) {
        return None;
    }
    let base = base_of(spelling);
    let value = value_of(base, digits_of(spelling))?;
    let integer_type = integer_type(
        base == 10,
        has_long(spelling),
        has_unsigned(spelling),
        value,
    )?;
    Some(Integer {
        value,
        integer_type,
    })
}

pub(crate) fn last_byte(spelling: &[u8]) -> u8
    ensures { result ≡ literals.last_byte spelling.now }
{
    match spelling {
        [.., last] => *last,
        [] => 0,
    }
}

fn opener_len(spelling: &[u8]) -> usize
    ensures len { result ≡ literals.opener_len spelling.now }
    ensures small { result ≤ 2 }
{
    if begins(spelling, b'q', b'{') || begins(spelling, b'r', b'"') {
        2
    } else {
        1
    }
}

fn closer_len(spelling: &[u8]) -> usize
    ensures len { result ≡ literals.closer_len spelling.now }
    ensures small { result ≤ 2 }
{
    let last = last_byte(spelling);
    if last == b'c' || last == b'w' || last == b'd' {
        2
    } else {
        1
    }
}

/// What stands between the opener and the closer of a string.
fn inside_of(spelling: &[u8]) -> &[u8]
    ensures { result.now ≡ literals.inside_of spelling.now }
{
    let from = opener_len(spelling);
    let closer = closer_len(spelling);
    if spelling.len() < from + closer {
        return &[];
    }
    &spelling[from..spelling.len() - closer]
}

fn unescaped(alloc: Global, z: &[u8]) -> Result<Vec<u8>, AllocError>
    ensures { IfOk result (λ bytes. bytes.items ≡ escapes.unescaped 0 z.now) }
{
    let mut bytes = Vec::new(alloc);
    let mut at: usize = 0;
    while at < z.len() {
        let b = z[at];
        at += 1;
        if b == b'\\' {
            let escape = escape_at(&z[at..]);
            if escape.len != 0 {
                push_value(&mut bytes, &z[at..], escape.value)?;
                at += escape.len - 1;
                continue;
            }
        }
        bytes.push(b)?;
    }
    Ok(bytes)
}

/// The bytes of a string, with its escapes done (D specification, "Lexical", "String Literals").
#[tactic(auto, unfolding(crate::specs::Literals::string_value))]
pub fn string_value(alloc: Global, spelling: &[u8]) -> Result<Spelling, AllocError>
    ensures { IfOk result (λ value. value ≡ literals.string_value spelling.now) }
{
    let inside = inside_of(spelling);
    if byte(spelling, 0) == b'"' {
        return Ok(Spelling::from_vec(unescaped(alloc, inside)?));
    }
    Spelling::copy_of(alloc, inside)
}

/// Whether an escape that names a character by `&` stands in the text.
pub(crate) fn holds_entity(spelling: &[u8]) -> bool
    ensures { result ≡ literals.holds_entity spelling.now }
{
    let mut rest = spelling;
    while let [b, tail @ ..] = rest {
        if *b != b'\\' {
            rest = tail;
            continue;
        }
        let [c, after @ ..] = tail else {
            return false;
        };
        if *c == b'&' {
            return true;
        }
        rest = after;
    }
    false
}

/// The byte of a character literal (D specification, "Lexical", "Character Literals"), or nothing where it has more
/// than one or an escape names it by `&`.
pub fn character(spelling: &[u8]) -> Option<u8>
    ensures { result ≡ literals.character_of spelling.now }
{
    let first = byte(spelling, 1);
    if first != b'\\' {
        return if first < 128 { Some(first) } else { None };
    }
    let behind = &spelling[2..];
    let escape = escape_at(behind);
    if escape.len == 0 || byte(behind, 0) == b'&' {
        return None;
    }
    if is_character_escape(behind) && 128 <= escape.value {
        return None;
    }
    Some(escape.value as u8)
}
