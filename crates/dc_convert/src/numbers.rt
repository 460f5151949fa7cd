// The kinds and types that operands have together.
ghost use Rattle.std.specs.Prelude.{◌≡◌, map, Some, [], ◌∷◌};
ghost use Rattle.std.specs.List.{list_all};
ghost use Rattle.dc_types.specs.Same as same;
ghost use Rattle.dc_convert.specs.CommonKinds.{promoted, common_promoted, common, kind_of, may_keep, is_wide_enum, result_kind, result_type, common_of, parts_type};
ghost use Rattle.dc_convert.specs.Levels.{type_of};

use crate::ranges::{bits_of, is_signed};
use dc_candidate::Source;
use dc_types::{BinOp, Kind, Ty, same_ty};

/// The type that two operands have together.
#[derive(Clone, Copy)]
pub enum Joint {
    /// That of each, which is one.
    Same,
    /// The type of the numbers of a kind.
    Number(Kind),
}

/// The kind that a number of this one has in an operation: one of less than 32 bits becomes an `int`
/// (D specification, "Types", "Integer Promotions"). It takes no memory.
#[tactic(auto, unfolding(crate::specs::CommonKinds::promoted))]
pub fn promoted(k: Kind) -> Kind
    ensures { result ≡ promoted k }
{
    if bits_of(k) < 32 { Kind::I32 } else { k }
}

#[tactic(auto, unfolding(crate::specs::CommonKinds::common_promoted))]
fn common_promoted(a: Kind, b: Kind) -> Kind
    ensures { result ≡ common_promoted a b }
{
    match (is_signed(a), is_signed(b)) {
        (true, false) => { if bits_of(b) < bits_of(a) { a } else { b } }
        (false, true) => { if bits_of(a) < bits_of(b) { b } else { a } }
        _ => { if bits_of(a) < bits_of(b) { b } else { a } }
    }
}

/// The kind in which an operation on numbers of these kinds is done, and that of its result (D specification,
/// "Types", "Usual Arithmetic Conversions"). It takes no memory.
pub fn common(a: Kind, b: Kind) -> Kind
    ensures { result ≡ common a b }
{
    common_promoted(promoted(a), promoted(b))
}

/// The kind of a number's type, where an enum counts as its base, or nothing where the type is none of a number.
/// It takes no memory.
pub fn kind_of(ty: &Ty) -> Option<Kind>
    ensures { result ≡ kind_of ty.now }
{
    match ty {
        Ty::Int(k) => Some(*k),
        Ty::Enum(_, base) => kind_of(base.get()),
        _ => None,
    }
}

/// Whether the operator may keep the enum that both of its operands have.
fn may_keep(op: BinOp) -> bool
    ensures { result ≡ may_keep op }
{
    !matches!(op, BinOp::Shl | BinOp::Shr | BinOp::Ushr)
}

/// Whether the type is an enum whose base is at least 32 bits wide.
fn is_wide_enum(ty: &Ty) -> bool
    ensures { result ≡ is_wide_enum ty.now }
{
    match ty {
        Ty::Enum(_, base) => match kind_of(base.get()) {
            Some(k) => 32 <= bits_of(k),
            None => false,
        },
        _ => false,
    }
}

/// The kind of the result of an operation on numbers of two kinds.
fn result_kind(op: BinOp, a: Kind, b: Kind) -> Kind
    ensures { result ≡ result_kind op a b }
{
    match op {
        BinOp::Shl | BinOp::Shr | BinOp::Ushr => promoted(a),
        _ => common(a, b),
    }
}

/// The type of `a op b`, or nothing where the operands aren't both numbers (D specification, "Types", "Usual Arithmetic
/// Conversions"): two operands of one enum whose base is at least 32 bits wide keep it but in shifts, whose kind is that
/// of the left operand. It takes no memory.
#[tactic(auto, unfolding(crate::specs::CommonKinds::result_type))]
pub fn result_type(op: BinOp, a: &Ty, b: &Ty) -> Option<Joint>
    ensures { result ≡ result_type op a.now b.now }
{
    if may_keep(op) && same_ty(a, b) && is_wide_enum(a) {
        return Some(Joint::Same);
    }
    match (kind_of(a), kind_of(b)) {
        (Some(a), Some(b)) => Some(Joint::Number(result_kind(op, a, b))),
        _ => None,
    }
}

/// Whether each of the parts has the type.
fn all_have(ty: &Ty, parts: &[Source]) -> bool
    ensures { result ≡ list_all (λ u. same.ty ty.now u) (map type_of parts.now) }
{
    for part in parts {
        if !same_ty(ty, &part.ty) {
            return false;
        }
    }
    true
}

/// The common kind of a kind and those of the parts, or nothing where one is no number.
fn common_of(first: Kind, parts: &[Source]) -> Option<Kind>
    ensures { result ≡ common_of (Some first) (map kind_of (map type_of parts.now)) }
{
    let mut joined = first;
    for part in parts {
        joined = common(joined, kind_of(&part.ty)?);
    }
    Some(joined)
}

/// The type of parts that stand beside each other, as the elements of an array literal or the two sides of `c ? a : b`, or
/// nothing where they have none or there is no part (D specification, "Expressions", "Array Literals" and "Conditional
/// Expressions"): the type that all have, without promotion, or else the common kind of numbers. It takes no memory.
pub fn parts_type(parts: &[Source]) -> Option<Joint>
    ensures { result ≡ parts_type (map type_of parts.now) }
{
    let (first, rest) = parts.split_first()?;
    if all_have(&first.ty, rest) {
        return Some(Joint::Same);
    }
    let kind = common_of(kind_of(&first.ty)?, rest)?;
    Some(Joint::Number(kind))
}

/// The type of `c ? a : b` for sides of these types, or nothing where there is none. It takes no memory.
pub fn choice_type(a: &Ty, b: &Ty) -> Option<Joint>
    ensures { result ≡ parts_type (a.now ∷ b.now ∷ []) }
{
    if same_ty(a, b) {
        return Some(Joint::Same);
    }
    match (kind_of(a), kind_of(b)) {
        (Some(a), Some(b)) => Some(Joint::Number(common(a, b))),
        _ => None,
    }
}
