// How well a source fits a type.
ghost use Rattle.std.specs.Prelude.{◌≡◌, map, ℤ, IsTrue, ◌↔◌, Some};
ghost use Rattle.std.specs.List.{list_all};
ghost use Rattle.dc_convert.specs.Levels.{widens, number_goes, Keeps, goes, literal_at, type_of, fits, level};
ghost use Rattle.dc_convert.specs.CommonKinds.{kind_of};
ghost use Rattle.dc_types.specs.declared.kind.Kind.{Kind};
ghost use Rattle.dc_types.specs.declared.ty.Ty.TheViews.{out-Ty};
ghost use Rattle.dc_candidate.specs.declared.range.Source.{out-Source};
ghost use Rattle.dc_types.specs.Integers.{InKind};
ghost use Rattle.dc_convert.specs.Ranges.{Within};

use crate::ranges::{bits_of, lies};
use dc_candidate::{Level, Range, Source};
use dc_types::{Kind, Ty, same_ty};

/// Whether a kind goes to one that is at least as wide and isn't `bool`.
#[tactic(auto, unfolding(crate::specs::Levels::widens))]
fn widens(k: Kind, to: Kind) -> bool
    ensures { result ≡ widens k to }
{
    bits_of(k) <= bits_of(to) && to != Kind::Bool
}

fn widens_or_lies(k: Kind, r: &Range, to: Kind) -> bool
    ensures { result ≡ number_goes k r.now to }
{
    widens(k, to) || lies(r, to)
}

/// Whether a number of a kind, with the range, goes to another kind (D specification, "Types", "Implicit
/// Conversions"). It takes no memory.
pub fn number_goes(k: Kind, r: &Range, to: Kind) -> bool
    ensures value { result ≡ number_goes k r.now to }
    ensures keeps { (z : ℤ) → IsTrue result → InKind k z → Within r.now z → Keeps k to z }
{
    widens_or_lies(k, r, to)
}

/// Whether an expression of the type, with the range, goes to another type.
fn goes(r: &Range, place: bool, from: &Ty, to: &Ty) -> bool
    ensures { result ≡ goes r.now place from.now to.now }
{
    match (from, to) {
        (Ty::Int(k), Ty::Int(j)) => number_goes(*k, r, *j),
        (Ty::Enum(_, base), _) => same_ty(base.get(), to) || goes(r, place, base.get(), to),
        (Ty::Fixed(of, _), Ty::Slice(part)) => place && same_ty(of.get(), part.get()),
        (Ty::NullLit | Ty::EmptyLit, Ty::Slice(_) | Ty::Str) => true,
        _ => false,
    }
}

/// Whether the source has the type or converts to it.
#[cycle(fits)]
fn fits(from: &Source, to: &Ty) -> bool
    ensures { result ≡ fits from.now to.now }
{
    if same_ty(&from.ty, to) || goes(&from.range, from.place, &from.ty, to) {
        return true;
    }
    match &from.items {
        None => false,
        Some(items) => literal_fits(items.as_slice(), to),
    }
}

/// Whether an array literal with these elements converts to the type.
#[cycle(fits)]
fn literal_fits(items: &[Source], to: &Ty) -> bool
    ensures { result ≡ literal_at (Some (map fits items.now)) (out-Ty to.now) }
{
    match to {
        Ty::Slice(part) => all_fit(items, part.get()),
        Ty::Fixed(part, n) => items.len() == *n as usize && all_fit(items, part.get()),
        Ty::Str => all_fit(items, &Ty::Int(Kind::Char)),
        _ => false,
    }
}

/// Whether each of the elements converts to the type.
#[cycle(fits)]
fn all_fit(items: &[Source], to: &Ty) -> bool
    ensures { result ≡ list_all (λ s. fits s to.now) items.now }
{
    for item in items {
        if !fits(item, to) {
            return false;
        }
    }
    true
}

/// How well the source fits the type: 2 where it has the type, 1 where it converts to it implicitly, and 0 where it
/// doesn't (D specification, "Types", "Implicit Conversions"). It takes no memory.
#[tactic(auto, unfolding(crate::specs::Levels::level))]
pub fn converts(from: &Source, to: &Ty) -> Level
    ensures value { result ≡ level from.now to.now }
    ensures same { result ≡ 2 ↔ (out-Source from.now).ty ≡ to.now }
    ensures keeps { (k j : Kind) → (z : ℤ) → kind_of (type_of from.now) ≡ Some k → kind_of to.now ≡ Some j → (result ≡ 0 → ⊥) → InKind k z → Within (out-Source from.now).range z → Keeps k j z }
{
    if same_ty(&from.ty, to) {
        2
    } else if fits(from, to) {
        1
    } else {
        0
    }
}
