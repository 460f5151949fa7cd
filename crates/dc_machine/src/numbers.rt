// Words as numbers of a kind.
ghost use Rattle.std.specs.Prelude.{◌≡◌, ◌++◌, pos, OnOk};
ghost use Rattle.dc_types.specs.Integers.{InKind, FitsRight, binary, unary, compare};
ghost use Rattle.dc_code.specs.Numbers.{number_of, word_of, bit_of, text_of};
ghost use Rattle.dc_code.specs.Table.{second_kind};
ghost use Rattle.dc_machine.specs.Computed.{option_word};

use dc_num::{binary, compare, decimal, unary, wrap};
use dc_types::{BinOp, CmpOp, Kind, NoMemory, TrapKind, UnOp};
use std::alloc::Global;

/// The number that a word is read as.
#[inline(always)]
fn number(k: Kind, w: u64) -> i128
    ensures value { result ≡ number_of k w }
    ensures kind { InKind k result }
{
    wrap(k, i128::from(w))
}

/// The word that a number is stored as.
#[inline(always)]
fn word(v: i128) -> u64
    ensures { result ≡ word_of v }
{
    (v.cast_unsigned() & 18446744073709551615) as u64
}

/// The kind of an operator's second operand: the count of a shift is a `long`.
#[inline(always)]
fn second_kind(op: BinOp, k: Kind) -> Kind
    ensures { result ≡ second_kind op k }
{
    match op {
        BinOp::Shl => Kind::I64,
        BinOp::Shr => Kind::I64,
        BinOp::Ushr => Kind::I64,
        _ => k,
    }
}

/// The word of an operator's value on two words.
#[inline(always)]
#[tactic(auto, using(crate::proofs::Ranges::fits_second))]
pub fn binary_word(op: BinOp, k: Kind, a: u64, b: u64) -> Result<u64, TrapKind>
    ensures { result ≡ option_word (binary op k (number_of k a) (number_of (second_kind op k) b)) }
{
    match binary(op, k, number(k, a), number(second_kind(op, k), b)) {
        Ok(v) => Ok(word(v)),
        Err(trap) => Err(trap),
    }
}

pub fn unary_word(op: UnOp, k: Kind, a: u64) -> u64
    ensures { result ≡ word_of (unary op k (number_of k a)) }
{
    word(unary(op, k, number(k, a)))
}

/// 1 where the comparison of two words as numbers holds, else 0.
pub fn compare_word(op: CmpOp, k: Kind, a: u64, b: u64) -> u64
    ensures { result ≡ bit_of (compare op (number_of k a) (number_of k b)) }
{
    if compare(op, number(k, a), number(k, b)) {
        1
    } else {
        0
    }
}

pub fn cast_word(k: Kind, a: u64) -> u64
    ensures { result ≡ word_of (number_of k a) }
{
    word(number(k, a))
}

/// Adds what a word prints as a number of the kind.
pub fn put_number(alloc: Global, text: &mut Vec<u8>, k: Kind, w: u64) -> Result<(), NoMemory>
    ensures { OnOk result (text.new.items ≡ text.old.items ++ text_of k w) }
{
    match k {
        Kind::Bool => {
            if number(k, w) == 0 {
                text.extend_from_slice(b"false")?;
            } else {
                text.extend_from_slice(b"true")?;
            }
        }
        Kind::Char => text.push((w % 256) as u8)?,
        _ => text.extend_from_slice(decimal(alloc, number(k, w))?.as_slice())?,
    }
    Ok(())
}
