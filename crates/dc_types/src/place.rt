// Where something stands.
ghost use Rattle.std.specs.Prelude.{◌≡◌, IfOk};

use crate::{Items, Steps, Text};
use std::alloc::{AllocError, Global};

/// One step of a place, from the file inwards.
#[derive(Drop, PartialEq, Eq, PartialOrd, Ord)]
pub enum Step {
    /// At an offset in bytes: in the file, or in the text of the mixin at the place before it.
    At(u32),
    /// In a round of the `static foreach` at the place before it, counted from 0.
    Round(u32),
    /// In the instance of the template at the place before it whose arguments have this key text.
    With(Text),
}

/// Where something stands in a program. Places have an order: by the module's name, then step by step,
/// where a place comes before those inside it.
#[derive(Drop, PartialEq, Eq, PartialOrd, Ord)]
pub struct Place {
    /// The name of the module, as `a.b`, or nothing where the whole program is meant.
    pub module: Text,
    pub steps: Steps,
}

/// A copy that is equal.
pub fn copy_step(alloc: Global, step: &Step) -> Result<Step, AllocError>
    ensures { IfOk result (λ copy. copy ≡ step.now) }
{
    match step {
        Step::At(at) => Ok(Step::At(*at)),
        Step::Round(round) => Ok(Step::Round(*round)),
        Step::With(key) => Ok(Step::With(Text::copy_of(alloc, key.as_slice())?)),
    }
}

/// A copy that is equal.
pub fn copy_steps(alloc: Global, steps: &Steps) -> Result<Steps, AllocError>
    ensures { IfOk result (λ copy. copy ≡ steps.now) }
{
    let mut copy = Items::new(alloc);
    for step in steps.as_slice() {
        copy.push(copy_step(alloc, step)?)?;
    }
    Ok(copy)
}

/// A copy that is equal.
pub fn copy_place(alloc: Global, place: &Place) -> Result<Place, AllocError>
    ensures { IfOk result (λ copy. copy ≡ place.now) }
{
    Ok(Place {
        module: Text::copy_of(alloc, place.module.as_slice())?,
        steps: copy_steps(alloc, &place.steps)?,
    })
}
