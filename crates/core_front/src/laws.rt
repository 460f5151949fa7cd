// Laws of the definitions.
ghost use Rattle.core_front.specs.Refusals.{RefusalsAreOfFront};

/// Each refusal of a module is that of a form that isn't built yet, at its offset, with the token that begins it; or one by a
/// rule of names, types or flow at one offset in the module, of which only 5, 7 and 11 have a detail, and 10, 18 and 25 none;
/// or that of a program without a `main` that takes nothing, which has no place.
pub fn refusal_law()
    ensures { RefusalsAreOfFront }
{}
