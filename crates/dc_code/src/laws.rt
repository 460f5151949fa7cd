// Laws of the machine on code. Each function does nothing: what it ensures is the law.
ghost use Rattle.std.specs.Prelude.{ℕ, ◌<◌, length};
ghost use Rattle.dc_types.specs.declared.event.Limits.{Limits as Bounds};
ghost use Rattle.dc_code.specs.Sound.{IsSound};
ghost use Rattle.dc_code.specs.Laws.{RunsOnce, EndsWell, KeepsStanding};
ghost use Rattle.dc_code.specs.Ticks.{TicksBound};

use crate::Code;

/// A run has one list of events and one end.
pub fn runs_once()
    ensures { RunsOnce }
{}

/// A run in at most n ticks takes n at most, and all of them where it ends for want of one more. With more ticks its
/// events begin with the same ones, and it ends as before unless it ended for want of a tick.
pub fn ticks_bound()
    ensures { TicksBound }
{}

/// What is true of all code.
pub fn is_sound(code: &Code)
    ensures { IsSound code.now }
{
    let _ = code.as_draft();
}

/// The run of an entry, within any limits and any number of ticks, ends, and it doesn't end stuck.
pub fn ends_well(code: &Code)
    ensures { (limits : Bounds) (entry n : ℕ) → entry < length code.now.entries → EndsWell code.now entry limits n }
{
    is_sound(code);
}

/// The machine stands between two instructions, each of which lowers its rank.
pub fn keeps_standing(code: &Code)
    ensures { (limits : Bounds) (first : ℕ) → KeepsStanding code.now limits first }
{
    is_sound(code);
}
