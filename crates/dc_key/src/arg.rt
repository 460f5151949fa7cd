// Arguments of templates.
ghost use Rattle.std.specs.Prelude.{◌≡◌, IfOk};

use dc_types::{Const, Items, Place, Text, Ty, copy_const, copy_place, copy_ty};
use std::alloc::{AllocError, Global};

/// An argument of a template (D specification, "Templates", "Template Arguments").
#[derive(Drop)]
pub enum Arg {
    OfType(Ty),
    OfValue(Const),
    /// The declaration or module at the place.
    OfSymbol(Place),
}

pub type Args = Items<Arg>;

/// The argument that a name of a parameter stands for.
#[derive(Drop)]
pub struct Binding {
    pub name: Text,
    pub arg: Arg,
}

pub type Bindings = Items<Binding>;

/// A copy that is equal.
pub fn copy_arg(alloc: Global, arg: &Arg) -> Result<Arg, AllocError>
    ensures { IfOk result (λ copy. copy ≡ arg.now) }
{
    match arg {
        Arg::OfType(ty) => Ok(Arg::OfType(copy_ty(alloc, ty)?)),
        Arg::OfValue(value) => Ok(Arg::OfValue(copy_const(alloc, value)?)),
        Arg::OfSymbol(at) => Ok(Arg::OfSymbol(copy_place(alloc, at)?)),
    }
}

/// A copy that is equal.
pub fn copy_args(alloc: Global, args: &Args) -> Result<Args, AllocError>
    ensures { IfOk result (λ copy. copy ≡ args.now) }
{
    let mut copy = Items::new(alloc);
    for arg in args.as_slice() {
        copy.push(copy_arg(alloc, arg)?)?;
    }
    Ok(copy)
}

/// A copy that is equal.
pub fn copy_binding(alloc: Global, binding: &Binding) -> Result<Binding, AllocError>
    ensures { IfOk result (λ copy. copy ≡ binding.now) }
{
    Ok(Binding {
        name: Text::copy_of(alloc, binding.name.as_slice())?,
        arg: copy_arg(alloc, &binding.arg)?,
    })
}

/// A copy that is equal.
pub fn copy_bindings(alloc: Global, bindings: &Bindings) -> Result<Bindings, AllocError>
    ensures { IfOk result (λ copy. copy ≡ bindings.now) }
{
    let mut copy = Items::new(alloc);
    for binding in bindings.as_slice() {
        copy.push(copy_binding(alloc, binding)?)?;
    }
    Ok(copy)
}
