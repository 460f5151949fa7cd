// Types.
ghost use Rattle.std.specs.Prelude.{◌≡◌, IfOk};
ghost use Rattle.dc_types.specs.Same as same;

use crate::{Items, Kind, Place, copy_place};
use sqlite_items::Boxed;
use std::alloc::{AllocError, Global};

/// A type of a program (D specification, "Types").
#[derive(Drop)]
pub enum Ty {
    /// `void`
    Void,
    Int(Kind),
    /// `T[n]`
    Fixed(Boxed<Ty>, u32),
    /// `T[]`
    Slice(Boxed<Ty>),
    /// `string`
    Str,
    /// The struct that is declared at the place.
    Struct(Place),
    /// The enum that is declared at the place, and its base.
    Enum(Place, Boxed<Ty>),
    /// The type of `null`.
    NullLit,
    /// The type of `[]`.
    EmptyLit,
}

pub type Types = Items<Ty>;

/// Whether the two are one type.
pub fn same_ty(a: &Ty, b: &Ty) -> bool
    ensures { result ≡ same.ty a.now b.now }
{
    match (a, b) {
        (Ty::Void, Ty::Void) => true,
        (Ty::Int(a), Ty::Int(b)) => *a == *b,
        (Ty::Fixed(a, m), Ty::Fixed(b, n)) => *m == *n && same_ty(a.get(), b.get()),
        (Ty::Slice(a), Ty::Slice(b)) => same_ty(a.get(), b.get()),
        (Ty::Str, Ty::Str) => true,
        (Ty::Struct(a), Ty::Struct(b)) => a == b,
        (Ty::Enum(a, c), Ty::Enum(b, d)) => a == b && same_ty(c.get(), d.get()),
        (Ty::NullLit, Ty::NullLit) => true,
        (Ty::EmptyLit, Ty::EmptyLit) => true,
        _ => false,
    }
}

/// A copy that is equal.
pub fn copy_ty(alloc: Global, ty: &Ty) -> Result<Ty, AllocError>
    ensures { IfOk result (λ copy. copy ≡ ty.now) }
{
    match ty {
        Ty::Void => Ok(Ty::Void),
        Ty::Int(kind) => Ok(Ty::Int(*kind)),
        Ty::Fixed(of, length) => Ok(Ty::Fixed(
            Boxed::new(alloc, copy_ty(alloc, of.get())?)?,
            *length,
        )),
        Ty::Slice(of) => Ok(Ty::Slice(Boxed::new(alloc, copy_ty(alloc, of.get())?)?)),
        Ty::Str => Ok(Ty::Str),
        Ty::Struct(at) => Ok(Ty::Struct(copy_place(alloc, at)?)),
        Ty::Enum(at, base) => Ok(Ty::Enum(
            copy_place(alloc, at)?,
            Boxed::new(alloc, copy_ty(alloc, base.get())?)?,
        )),
        Ty::NullLit => Ok(Ty::NullLit),
        Ty::EmptyLit => Ok(Ty::EmptyLit),
    }
}

impl PartialEq for Ty {
    ghost use Rattle.dc_types.specs.Same as same;
    ghost use Rattle.dc_types.specs.Exact.{ty_laws};
    ghost use Rattle.std.specs.Cmp.{partial_equiv_from_equiv};

    ghost eq = { same.ty };

    ghost laws = { partial_equiv_from_equiv ty_laws };

    fn eq(&self, other: &Ty) -> bool {
        same_ty(self, other)
    }
}

impl Eq for Ty {
    ghost use Rattle.dc_types.specs.Exact.{ty_laws};

    ghost laws = { ty_laws };
}
