// What the operators give.
ghost use Rattle.std.specs.Prelude.{◌≡◌, ◌<◌, unsigned_abs, if◌then◌else◌, IfSome, Some, None};
ghost use Rattle.dc_types.specs.Integers.{bits_of, least, InKind, FitsRight, pattern, can_divide, can_shift, binary, unary, compare};

use crate::reduce::{bits_of, residue, wrap};
use dc_types::{BinOp, CmpOp, Kind, TrapKind, UnOp};

/// The least number of a kind.
#[tactic(auto, unfolding(dc_types::specs::Integers::least))]
fn least(k: Kind) -> i128
    ensures { result ≡ least k }
{
    match k {
        Kind::I8 => i128::from(i8::MIN),
        Kind::I16 => i128::from(i16::MIN),
        Kind::I32 => i128::from(i32::MIN),
        Kind::I64 => i128::from(i64::MIN),
        Kind::Bool | Kind::U8 | Kind::U16 | Kind::U32 | Kind::U64 | Kind::Char => 0,
    }
}

/// The bits of `a` in two's complement.
fn pattern(k: Kind, a: i128) -> u64
    ensures { result ≡ pattern k a }
{
    residue(bits_of(k), a)
}

/// Whether `a / b` and `a % b` have a value: `b` isn't 0, nor is the least number divided by -1.
#[tactic(auto, unfolding(dc_types::specs::Integers::can_divide))]
fn can_divide(k: Kind, a: i128, b: i128) -> bool
    ensures { result ≡ can_divide k a b }
{
    b != 0 && !(a == least(k) && b == -1)
}

/// The count of a shift, if a shift by it has a value: it isn't below 0, and is below the number of bits.
#[tactic(auto, unfolding(dc_types::specs::Integers::can_shift))]
fn shift_count(k: Kind, count: i128) -> Option<u32>
    ensures value { result ≡ (if can_shift k count then Some (unsigned_abs count) else None) }
    ensures bound { IfSome result (λ n. n < 64) }
{
    if 0 <= count && count < i128::from(bits_of(k)) {
        Some(count as u32)
    } else {
        None
    }
}

/// `a / b`, rounded towards zero.
fn quotient(k: Kind, a: i128, b: i128) -> Result<i128, TrapKind>
    requires { InKind k a }
    ensures { result ≡ binary BinOp.Div k a b }
{
    if can_divide(k, a, b) {
        Ok(wrap(k, a / b))
    } else {
        Err(TrapKind::Divide)
    }
}

/// `a % b`, with the sign of `a`.
fn remainder(k: Kind, a: i128, b: i128) -> Result<i128, TrapKind>
    requires { InKind k a }
    ensures { result ≡ binary BinOp.Rem k a b }
{
    if can_divide(k, a, b) {
        Ok(wrap(k, a % b))
    } else {
        Err(TrapKind::Divide)
    }
}

/// `a << count`, of which the bits of the kind stay.
fn shift_left(k: Kind, a: i128, count: i128) -> Result<i128, TrapKind>
    requires { InKind k a }
    ensures { result ≡ binary BinOp.Shl k a count }
{
    match shift_count(k, count) {
        Some(count) => Ok(wrap(k, a << count)),
        None => Err(TrapKind::Shift),
    }
}

/// `a >> count`, rounded down, which keeps the sign.
fn shift_right(k: Kind, a: i128, count: i128) -> Result<i128, TrapKind>
    ensures { result ≡ binary BinOp.Shr k a count }
{
    match shift_count(k, count) {
        Some(count) => Ok(wrap(k, a >> count)),
        None => Err(TrapKind::Shift),
    }
}

/// `a >>> count`, which shifts zeros into the bits of the kind.
fn shift_right_zeros(k: Kind, a: i128, count: i128) -> Result<i128, TrapKind>
    ensures { result ≡ binary BinOp.Ushr k a count }
{
    match shift_count(k, count) {
        Some(count) => Ok(wrap(k, i128::from(pattern(k, a) >> count))),
        None => Err(TrapKind::Shift),
    }
}

/// What `a op b` is in a kind, for two numbers of it (D specification, "Expressions", "Additive Expressions",
/// "Multiplicative Expressions", "Shift Expressions" and "Bitwise Expressions"). `/` rounds towards zero, and
/// `%` has the sign of `a`. The count of a shift may be any number. It takes no memory.
///
/// # Errors
/// `Divide` where `b` is 0, or where the least number of a signed kind is divided by -1, for `/` and for `%`.
/// `Shift` where the count is below 0, or not below the number of bits.
#[tactic(auto, unfolding(dc_types::specs::Integers::binary))]
pub fn binary(op: BinOp, k: Kind, a: i128, b: i128) -> Result<i128, TrapKind>
    requires left { InKind k a }
    requires right { FitsRight op k b }
    ensures { result ≡ binary op k a b }
{
    match op {
        BinOp::Add => Ok(wrap(k, a + b)),
        BinOp::Sub => Ok(wrap(k, a - b)),
        // The product of two unsigned numbers of 64 bits may not fit: what is lost lies above the bits of every kind.
        BinOp::Mul => Ok(wrap(k, a.wrapping_mul(b))),
        BinOp::Div => quotient(k, a, b),
        BinOp::Rem => remainder(k, a, b),
        BinOp::BitAnd => Ok(wrap(k, i128::from(pattern(k, a) & pattern(k, b)))),
        BinOp::BitOr => Ok(wrap(k, i128::from(pattern(k, a) | pattern(k, b)))),
        BinOp::BitXor => Ok(wrap(k, i128::from(pattern(k, a) ^ pattern(k, b)))),
        BinOp::Shl => shift_left(k, a, b),
        BinOp::Shr => shift_right(k, a, b),
        BinOp::Ushr => shift_right_zeros(k, a, b),
    }
}

/// What `op a` is in a kind (D specification, "Expressions", "Unary Expressions"): `-` and `~` are done on the whole
/// number and its two's complement in the kind's bits, and what comes out is reduced to the kind. `!` gives 1 for 0, and
/// else 0. The number may be any. It takes no memory.
#[tactic(auto, unfolding(dc_types::specs::Integers::unary))]
pub fn unary(op: UnOp, k: Kind, a: i128) -> i128
    ensures { result ≡ unary op k a }
{
    match op {
        // Of 128 bits the least number has no negative: what is lost lies above the bits of every kind.
        UnOp::Negate => wrap(k, a.wrapping_neg()),
        UnOp::Flip => wrap(k, i128::from(pattern(k, !a))),
        UnOp::Not => { if a == 0 { 1 } else { 0 } }
    }
}

/// Whether `a op b` holds (D specification, "Expressions", "Equality Expressions" and "Relational Expressions").
#[tactic(auto, unfolding(dc_types::specs::Integers::compare))]
pub fn compare(op: CmpOp, a: i128, b: i128) -> bool
    ensures { result ≡ compare op a b }
{
    match op {
        CmpOp::Equal => a == b,
        CmpOp::Differs => a != b,
        CmpOp::Less => a < b,
        CmpOp::LessEq => a <= b,
        CmpOp::Greater => b < a,
        CmpOp::GreaterEq => b <= a,
    }
}
