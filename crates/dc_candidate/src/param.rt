// Parameters of templates.
ghost use Rattle.std.specs.Prelude.{◌≡◌, IfOk};

use dc_types::{Items, Text, Ty, copy_ty};
use std::alloc::{AllocError, Global};

/// What a template parameter takes.
#[derive(Drop)]
pub enum Takes {
    AType,
    /// A value of the type.
    OneValue(Ty),
    AnAlias,
}

/// A parameter of a template (D specification, "Templates", "Template Parameters").
#[derive(Drop)]
pub struct Param {
    pub name: Text,
    pub takes: Takes,
}

pub type Params = Items<Param>;

/// A copy that is equal.
pub fn copy_takes(alloc: Global, takes: &Takes) -> Result<Takes, AllocError>
    ensures { IfOk result (λ copy. copy ≡ takes.now) }
{
    match takes {
        Takes::AType => Ok(Takes::AType),
        Takes::OneValue(ty) => Ok(Takes::OneValue(copy_ty(alloc, ty)?)),
        Takes::AnAlias => Ok(Takes::AnAlias),
    }
}

/// A copy that is equal.
pub fn copy_param(alloc: Global, param: &Param) -> Result<Param, AllocError>
    ensures { IfOk result (λ copy. copy ≡ param.now) }
{
    Ok(Param {
        name: Text::copy_of(alloc, param.name.as_slice())?,
        takes: copy_takes(alloc, &param.takes)?,
    })
}

/// A copy that is equal.
pub fn copy_params(alloc: Global, params: &Params) -> Result<Params, AllocError>
    ensures { IfOk result (λ copy. copy ≡ params.now) }
{
    let mut copy = Items::new(alloc);
    for param in params.as_slice() {
        copy.push(copy_param(alloc, param)?)?;
    }
    Ok(copy)
}
