// The longest item at the front of a text in which no token string begins.
ghost use Rattle.std.specs.Prelude.{◌≡◌, ◌<◌, ◌≤◌, true, false, not, length, slice_index};
ghost use Rattle.std.specs.Str.{is_utf8};
ghost use Rattle.dc_token.specs.Bytes as bytes;
ghost use Rattle.dc_token.specs.Items as items;
ghost use Rattle.dc_lexer.specs.Fronts as fronts;

use crate::comment::{block, nested};
use crate::lead::{Lead, lead_of};
use crate::name::name;
use crate::number::number;
use crate::set::{Set, past};
use crate::sign::sign_len;
use crate::string::{character, string_len, to_quote};
use bstr::ByteSlice;
use dc_token::{Item, begins, byte, integer};

/// A comment or a sign.
fn slash(z: &[u8]) -> (Item, usize)
    requires { slice_index z.now 0 ≡ 47 }
    ensures { fronts.Best items.PlainSpells z.now (result.0, result.1) }
{
    match byte(z, 1) {
        b'/' => (Item::LineComment, past(Set::NotLineFeed, z, 2)),
        b'*' => (Item::BlockComment, block(z)),
        b'+' => (Item::NestedComment, nested(z)),
        _ => (Item::Sign, sign_len(z)),
    }
}

/// A sign, or a float that begins with a point.
fn point(z: &[u8]) -> (Item, usize)
    requires { slice_index z.now 0 ≡ 46 }
    ensures { fronts.Best items.PlainSpells z.now (result.0, result.1) }
{
    if byte(z, 1).is_ascii_digit() {
        return (Item::PointFloat, past(Set::Word, z, 2));
    }
    (Item::Sign, sign_len(z))
}

/// A name, or a string that begins with a letter and a quote.
fn word(z: &[u8]) -> (Item, usize)
    requires some { 0 < length z.now }
    requires no_string { bytes.begins 113 123 z.now ≡ false }
    requires letter { bytes.is_letter (slice_index z.now 0) ≡ true }
    ensures { fronts.Best items.PlainSpells z.now (result.0, result.1) }
{
    if begins(z, b'r', b'"') {
        return (Item::Raw, string_len(z, 2, b'"', false));
    }
    if begins(z, b'q', b'"') {
        return (Item::Delimited, to_quote(z));
    }
    if begins(z, b'x', b'"') {
        return (Item::HexString, to_quote(z));
    }
    (Item::Name, name(z))
}

/// The kind and the length of the longest item, which may be one that makes the text unreadable.
fn longest_item(z: &[u8]) -> (Item, usize)
    requires some { 0 < length z.now }
    requires no_string { bytes.begins 113 123 z.now ≡ false }
    ensures { fronts.Best items.PlainSpells z.now (result.0, result.1) }
{
    match lead_of(z[0]) {
        Lead::Blank => (Item::Blank, past(Set::Blank, z, 1)),
        Lead::Letter => word(z),
        Lead::Digit => number(z),
        Lead::Slash => slash(z),
        Lead::Quote => (Item::Quoted, string_len(z, 1, b'"', true)),
        Lead::Backquote => (Item::Backquoted, string_len(z, 1, b'`', false)),
        Lead::Apostrophe => (Item::Character, character(z)),
        Lead::Point => point(z),
        Lead::Other => (Item::Sign, sign_len(z)),
    }
}

fn is_text(w: &[u8]) -> bool
    ensures { result ≡ is_utf8 w.now }
{
    w.is_utf8()
}

/// Whether the item doesn't make the text unreadable: an integer has a type, and a comment or string is UTF-8.
fn is_readable(kind: Item, w: &[u8]) -> bool
    ensures { result ≡ not (items.refused kind w.now) }
{
    match kind {
        Item::Decimal | Item::Hexadecimal | Item::Binary => integer(w).is_some(),
        Item::LineComment
        | Item::BlockComment
        | Item::NestedComment
        | Item::Quoted
        | Item::Backquoted
        | Item::Raw
        | Item::Delimited
        | Item::HexString => is_text(w),
        _ => true,
    }
}

/// The kind and the length of the item at the front; the length is 0 where none begins.
pub(crate) fn plain_item(z: &[u8]) -> (Item, usize)
    requires some { 0 < length z.now }
    requires no_string { bytes.begins 113 123 z.now ≡ false }
    ensures { fronts.Found items.PlainSpells z.now (result.0, result.1) }
{
    let (kind, len) = longest_item(z);
    if is_readable(kind, &z[..len]) {
        return (kind, len);
    }
    (kind, 0)
}
