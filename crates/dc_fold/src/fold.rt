// Arithmetic and ranges of any numbers.
ghost use Rattle.std.specs.Prelude.{◌≡◌, IsTrue};
ghost use Rattle.dc_types.specs.Integers.{InKind};
ghost use Rattle.dc_fold.specs.Seconds.{second_kind};
ghost use Rattle.dc_convert.specs.Ranges.{IsRange};

use dc_candidate::Range;
use dc_convert::{lies, range_of, whole};
use dc_num::wrap;
use dc_types::{BinOp, Kind, TrapKind};

/// A number reduced to a kind.
fn reduced(kind: Kind, n: i128) -> i128
    ensures { InKind kind result }
{
    wrap(kind, n)
}

/// The kind of an operator's second operand: the count of a shift is a `long`.
fn second_kind(op: BinOp, kind: Kind) -> Kind
    ensures { result ≡ second_kind op kind }
{
    match op {
        BinOp::Shl | BinOp::Shr | BinOp::Ushr => Kind::I64,
        _ => kind,
    }
}

/// `a op b` in a kind, where both are first reduced to it, but the count of a shift to a `long`.
///
/// # Errors
/// The trap that the operation meets.
#[tactic(auto, using(crate::proofs::Folding::fits_second))]
pub fn binary(op: BinOp, kind: Kind, a: i128, b: i128) -> Result<i128, TrapKind> {
    let left = reduced(kind, a);
    let right = reduced(second_kind(op, kind), b);
    dc_num::binary(op, kind, left, right)
}

/// Whether a range has a number and lies in that of the kind.
#[tactic(auto, using(crate::proofs::Folding::ranged))]
fn is_range_of(range: &Range, kind: Kind) -> bool
    ensures { IsTrue result → IsRange range.now }
{
    range.lo <= range.hi && lies(range, kind)
}

fn is_range(range: &Range) -> bool
    ensures { IsTrue result → IsRange range.now }
{
    is_range_of(range, Kind::I64) || is_range_of(range, Kind::U64)
}

/// The range of `a op b` in a kind; all numbers of the kind where a range is none.
pub fn joined_range(op: BinOp, kind: Kind, a: &Range, b: &Range) -> Range {
    if is_range(a) && is_range(b) {
        range_of(op, kind, a, b)
    } else {
        whole(kind)
    }
}
