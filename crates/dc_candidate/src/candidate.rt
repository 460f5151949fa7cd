// Candidates of a call.
ghost use Rattle.std.specs.Prelude.{◌≡◌, IfOk};

use dc_types::{Items, Ty, copy_ty};
use std::alloc::{AllocError, Global};

/// A parameter of a candidate.
#[derive(Drop)]
pub struct CallParam {
    pub ty: Ty,
    /// Whether it is marked `ref`, so that it stands for its argument's place.
    pub by_ref: bool,
}

/// A function that a call may name (D specification, "Functions", "Function Overloading").
#[derive(Drop)]
pub struct Candidate {
    pub params: Items<CallParam>,
    /// Whether it is a plain function, and no instance of a template.
    pub plain: bool,
    /// For each candidate, counted through all sets, whether this one is at least as specialised.
    pub above: Items<bool>,
}

/// Functions that overload each other.
pub type OverloadSet = Items<Candidate>;

pub type Candidates = Items<OverloadSet>;

/// A copy that is equal.
pub fn copy_call_param(alloc: Global, param: &CallParam) -> Result<CallParam, AllocError>
    ensures { IfOk result (λ copy. copy ≡ param.now) }
{
    Ok(CallParam {
        ty: copy_ty(alloc, &param.ty)?,
        by_ref: param.by_ref,
    })
}

/// A copy that is equal.
pub fn copy_call_params(
    alloc: Global,
    params: &Items<CallParam>,
) -> Result<Items<CallParam>, AllocError>
    ensures { IfOk result (λ copy. copy ≡ params.now) }
{
    let mut copy = Items::new(alloc);
    for param in params.as_slice() {
        copy.push(copy_call_param(alloc, param)?)?;
    }
    Ok(copy)
}

fn copy_above(alloc: Global, above: &Items<bool>) -> Result<Items<bool>, AllocError>
    ensures { IfOk result (λ copy. copy ≡ above.now) }
{
    let mut copy = Items::new(alloc);
    for is_above in above.as_slice() {
        copy.push(*is_above)?;
    }
    Ok(copy)
}

/// A copy that is equal.
pub fn copy_candidate(alloc: Global, candidate: &Candidate) -> Result<Candidate, AllocError>
    ensures { IfOk result (λ copy. copy ≡ candidate.now) }
{
    Ok(Candidate {
        params: copy_call_params(alloc, &candidate.params)?,
        plain: candidate.plain,
        above: copy_above(alloc, &candidate.above)?,
    })
}

/// A copy that is equal.
pub fn copy_overload_set(alloc: Global, set: &OverloadSet) -> Result<OverloadSet, AllocError>
    ensures { IfOk result (λ copy. copy ≡ set.now) }
{
    let mut copy = Items::new(alloc);
    for candidate in set.as_slice() {
        copy.push(copy_candidate(alloc, candidate)?)?;
    }
    Ok(copy)
}

/// A copy that is equal.
pub fn copy_candidates(alloc: Global, sets: &Candidates) -> Result<Candidates, AllocError>
    ensures { IfOk result (λ copy. copy ≡ sets.now) }
{
    let mut copy = Items::new(alloc);
    for set in sets.as_slice() {
        copy.push(copy_overload_set(alloc, set)?)?;
    }
    Ok(copy)
}
