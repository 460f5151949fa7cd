// The ranges of operations.
ghost use Rattle.std.specs.Prelude.{◌≡◌, ◌≤◌, ℤ, pos};
ghost use Rattle.dc_candidate.specs.declared.range.Range.{Range};
ghost use Rattle.dc_types.specs.Integers.{is_signed, bits_of, InKind, FitsRight, binary};
ghost use Rattle.dc_convert.specs.Ranges.{IsRange, IsWide, Within, IsInside, hull, whole, lies, fitted, spanned, above_zero, from_zero, has_quotient, product, quotient, remainder, conjunction, disjunction, ones, shifted, range_of};

use dc_candidate::Range;
use dc_types::{BinOp, Kind};

/// All numbers of a kind.
#[tactic(auto, unfolding(crate::specs::Ranges::whole, dc_types::specs::Integers::least, dc_types::specs::Integers::greatest))]
pub fn whole(k: Kind) -> Range
    ensures { result ≡ whole k }
{
    let (lo, hi) = match k {
        Kind::Bool => (0, 1),
        Kind::I8 => (i128::from(i8::MIN), i128::from(i8::MAX)),
        Kind::U8 | Kind::Char => (0, i128::from(u8::MAX)),
        Kind::I16 => (i128::from(i16::MIN), i128::from(i16::MAX)),
        Kind::U16 => (0, i128::from(u16::MAX)),
        Kind::I32 => (i128::from(i32::MIN), i128::from(i32::MAX)),
        Kind::U32 => (0, i128::from(u32::MAX)),
        Kind::I64 => (i128::from(i64::MIN), i128::from(i64::MAX)),
        Kind::U64 => (0, i128::from(u64::MAX)),
    };
    Range { lo, hi }
}

#[tactic(auto, unfolding(dc_types::specs::Integers::is_signed))]
pub(crate) fn is_signed(k: Kind) -> bool
    ensures { result ≡ is_signed k }
{
    match k {
        Kind::I8 | Kind::I16 | Kind::I32 | Kind::I64 => true,
        Kind::Bool | Kind::U8 | Kind::U16 | Kind::U32 | Kind::U64 | Kind::Char => false,
    }
}

#[tactic(auto, unfolding(dc_types::specs::Integers::bits_of))]
pub(crate) fn bits_of(k: Kind) -> u32
    ensures value { result ≡ bits_of k }
    ensures bound { result ≤ 64 }
{
    match k {
        Kind::Bool | Kind::I8 | Kind::U8 | Kind::Char => 8,
        Kind::I16 | Kind::U16 => 16,
        Kind::I32 | Kind::U32 => 32,
        Kind::I64 | Kind::U64 => 64,
    }
}

/// Whether the range lies in that of the kind.
#[tactic(auto, unfolding(crate::specs::Ranges::lies, crate::specs::Ranges::whole))]
pub fn lies(r: &Range, k: Kind) -> bool
    ensures { result ≡ lies r.now k }
{
    let all = whole(k);
    all.lo <= r.lo && r.hi <= all.hi
}

/// The range of a value that is converted to the kind: its own where it lies in that of the kind, and else all
/// numbers of the kind. It takes no memory.
#[tactic(auto, unfolding(crate::specs::Ranges::fitted))]
pub fn range_as(k: Kind, r: &Range) -> Range
    ensures { result ≡ fitted k r.now }
{
    if lies(r, k) { *r } else { whole(k) }
}

#[tactic(auto, unfolding(crate::specs::Ranges::hull))]
fn ends_of_both(a: &Range, b: &Range) -> Range
    ensures { result ≡ hull a.now b.now }
{
    Range {
        lo: a.lo.min(b.lo),
        hi: a.hi.max(b.hi),
    }
}

/// The least range that holds both: that of `c ? a : b`. It takes no memory.
pub fn hull(a: &Range, b: &Range) -> Range
    ensures value { result ≡ hull a.now b.now }
    ensures left { IsInside a.now result }
    ensures right { IsInside b.now result }
    ensures least { (r : Range) → IsInside a.now r → IsInside b.now r → IsInside result r }
{
    ends_of_both(a, b)
}

/// The least range with these four numbers.
#[tactic(auto, unfolding(crate::specs::Ranges::spanned))]
fn spanned(w: i128, x: i128, y: i128, z: i128) -> Range
    ensures { result ≡ spanned w x y z }
{
    Range {
        lo: w.min(x).min(y.min(z)),
        hi: w.max(x).max(y.max(z)),
    }
}

/// Whether the range has numbers above 0 alone.
fn above_zero(r: &Range) -> bool
    ensures { result ≡ above_zero r.now }
{
    0 < r.lo
}

/// Whether the range has no number below 0.
fn from_zero(r: &Range) -> bool
    ensures { result ≡ from_zero r.now }
{
    0 <= r.lo
}

/// The range of `a * b`.
#[tactic(auto, unfolding(crate::specs::Ranges::product))]
fn product(k: Kind, a: &Range, b: &Range) -> Range
    ensures { result ≡ fitted k (product a.now b.now) }
{
    // A product that needs more than 128 bits lies past every kind, and so does what it becomes here.
    let w = a.lo.saturating_mul(b.lo);
    let x = a.lo.saturating_mul(b.hi);
    let y = a.hi.saturating_mul(b.lo);
    let z = a.hi.saturating_mul(b.hi);
    range_as(k, &spanned(w, x, y, z))
}

/// Whether the quotients of ends say where all quotients lie.
fn has_quotient(k: Kind, a: &Range, b: &Range) -> bool
    ensures { result ≡ has_quotient k a.now b.now }
{
    0 < b.lo && (is_signed(k) || from_zero(a))
}

/// The range of `a / b`.
#[tactic(auto, unfolding(crate::specs::Ranges::quotient))]
fn quotient(k: Kind, a: &Range, b: &Range) -> Range
    requires left { IsWide a.now }
    requires right { IsWide b.now }
    ensures { result ≡ quotient k a.now b.now }
{
    if has_quotient(k, a, b) {
        range_as(
            k,
            &spanned(a.lo / b.lo, a.lo / b.hi, a.hi / b.lo, a.hi / b.hi),
        )
    } else {
        whole(k)
    }
}

/// The range of `a % b`.
#[tactic(auto, unfolding(crate::specs::Ranges::remainder))]
fn remainder(k: Kind, a: &Range, b: &Range) -> Range
    requires left { IsWide a.now }
    requires right { IsWide b.now }
    ensures { result ≡ remainder k a.now b.now }
{
    if !above_zero(b) {
        return whole(k);
    }
    if from_zero(a) {
        range_as(
            k,
            &Range {
                lo: 0,
                hi: a.hi.min(b.hi - 1),
            },
        )
    } else {
        range_as(
            k,
            &Range {
                lo: 1 - b.hi,
                hi: b.hi - 1,
            },
        )
    }
}

/// The range of `a & b`.
#[tactic(auto, unfolding(crate::specs::Ranges::conjunction))]
fn conjunction(k: Kind, a: &Range, b: &Range) -> Range
    ensures { result ≡ conjunction k a.now b.now }
{
    match (from_zero(a), from_zero(b)) {
        (true, true) => range_as(
            k,
            &Range {
                lo: 0,
                hi: a.hi.min(b.hi),
            },
        ),
        (true, false) => range_as(k, &Range { lo: 0, hi: a.hi }),
        (false, true) => range_as(k, &Range { lo: 0, hi: b.hi }),
        (false, false) => whole(k),
    }
}

/// The least of the numbers 0, 1, 3, 7, .. that isn't below `m`.
#[tactic(auto, unfolding(crate::specs::Ranges::ones))]
fn ones(m: u64) -> i128
    ensures { result ≡ pos (ones m) }
{
    let bits = 64 - m.leading_zeros();
    (1i128 << bits) - 1
}

/// The range of `a | b`.
#[tactic(auto, unfolding(crate::specs::Ranges::disjunction))]
fn disjunction(k: Kind, a: &Range, b: &Range) -> Range
    requires left { IsWide a.now }
    requires right { IsWide b.now }
    ensures { result ≡ disjunction k a.now b.now }
{
    if from_zero(a) && from_zero(b) {
        let top = a.hi.max(b.hi);
        range_as(
            k,
            &Range {
                lo: a.lo.max(b.lo),
                hi: ones(top as u64),
            },
        )
    } else {
        whole(k)
    }
}

/// The range of `a >> b`.
#[tactic(auto, unfolding(crate::specs::Ranges::shifted, dc_types::specs::Integers::can_shift))]
fn shifted(k: Kind, a: &Range, b: &Range) -> Range
    ensures { result ≡ shifted k a.now b.now }
{
    if b.lo == b.hi && 0 <= b.lo && b.lo < i128::from(bits_of(k)) {
        let count = b.lo as u32;
        range_as(
            k,
            &Range {
                lo: a.lo >> count,
                hi: a.hi >> count,
            },
        )
    } else {
        whole(k)
    }
}

/// The range of `a op b`.
#[tactic(auto, unfolding(crate::specs::Ranges::range_of, crate::specs::Ranges::sum, crate::specs::Ranges::difference))]
fn by_operator(op: BinOp, k: Kind, a: &Range, b: &Range) -> Range
    requires left { IsRange a.now }
    requires right { IsRange b.now }
    ensures { result ≡ range_of op k a.now b.now }
{
    match op {
        BinOp::Add => range_as(
            k,
            &Range {
                lo: a.lo + b.lo,
                hi: a.hi + b.hi,
            },
        ),
        BinOp::Sub => range_as(
            k,
            &Range {
                lo: a.lo - b.hi,
                hi: a.hi - b.lo,
            },
        ),
        BinOp::Mul => product(k, a, b),
        BinOp::Div => quotient(k, a, b),
        BinOp::Rem => remainder(k, a, b),
        BinOp::BitAnd => conjunction(k, a, b),
        BinOp::BitOr => disjunction(k, a, b),
        BinOp::Shr => shifted(k, a, b),
        BinOp::BitXor | BinOp::Shl | BinOp::Ushr => whole(k),
    }
}

/// The range of `a op b` in a kind, from the ranges of `a` and `b`: it holds each result of numbers of these ranges
/// that are of the kind. A range past that of the kind becomes all numbers of the kind. It takes no memory.
pub fn range_of(op: BinOp, k: Kind, a: &Range, b: &Range) -> Range
    requires left { IsRange a.now }
    requires right { IsRange b.now }
    ensures value { result ≡ range_of op k a.now b.now }
    ensures sound { (x y z : ℤ) → Within a.now x → Within b.now y → InKind k x → FitsRight op k y → binary op k x y ≡ Ok z → Within result z }
{
    by_operator(op, k, a, b)
}
