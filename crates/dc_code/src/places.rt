// Whether numbers of 32 bits count the lists of a place.
ghost use Rattle.std.specs.Prelude.{IsTrue, ◌↔◌, All};
ghost use Rattle.dc_code.specs.Sound.{IsShort, IsShortStep, IsShortPlace};

use dc_types::{Place, Step};

pub fn is_short<T>(items: &[T]) -> bool
    ensures { IsTrue result ↔ IsShort items.now }
{
    items.len() < 4294967296
}

fn is_short_step(step: &Step) -> bool
    ensures { IsTrue result ↔ IsShortStep step.now }
{
    match step {
        Step::At(_) => true,
        Step::Round(_) => true,
        Step::With(key) => is_short(key.as_slice()),
    }
}

fn are_short_steps(steps: &[Step]) -> bool
    ensures { IsTrue result ↔ All IsShortStep steps.now }
{
    steps.iter().all(|step| is_short_step(step))
}

pub fn is_short_place(place: &Place) -> bool
    ensures { IsTrue result ↔ IsShortPlace place.now }
{
    is_short(place.module.as_slice())
        && is_short(place.steps.as_slice())
        && are_short_steps(place.steps.as_slice())
}
