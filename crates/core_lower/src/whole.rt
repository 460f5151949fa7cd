// The code of bodies and starts.
ghost use Rattle.std.specs.Prelude.{◌≡◌, length, IfOk, All};
ghost use Rattle.dc_code.specs.Simple.{IsSimple};
ghost use Rattle.core_tree.specs.Typed.{AreTyped};
ghost use Rattle.core_lower.specs.Lowered.{lowered};
ghost use Rattle.core_lower.specs.Runs.{Runs};

use crate::bodies::lower_functions;
use crate::names::numbers_of;
use crate::starts::lower_starts;
use core_lower_expr::Slots;
use core_tree::{Bodies, Starts, Table};
use dc_code::{Code, Draft};
use dc_types::{Items, NoMemory};
use std::alloc::Global;

/// The functions of the bodies, and behind them an entry for each start.
fn lower_all(alloc: Global, bodies: &Bodies, starts: &Starts) -> Result<Draft, NoMemory>
    requires { AreTyped bodies.now starts.now }
    ensures { IfOk result (λ draft. draft ≡ lowered bodies.now starts.now) }
{
    let mut at = Slots {
        named: Table::new(alloc),
        functions: numbers_of(alloc, bodies.as_slice())?,
        spare: 0,
    };
    let mut functions = Items::new(alloc);
    let mut instrs = Items::new(alloc);
    lower_functions(
        alloc,
        bodies.as_slice(),
        &mut at,
        &mut functions,
        &mut instrs,
    )?;
    let mut draft = Draft {
        functions,
        instrs,
        blocks: Items::new(alloc),
        globals: Items::new(alloc),
        entries: Items::new(alloc),
    };
    at.named = Table::new(alloc);
    at.spare = 0;
    lower_starts(alloc, starts.as_slice(), &at, &mut draft)?;
    Ok(draft)
}

/// The code of bodies, with one entry for each start: within all limits and for every bound of ticks, the run of an entry
/// has the events and the end of its start's meaning over the bodies (D specification, "Functions", "Statements" and
/// "Expressions"). Its instructions are those on numbers. Code with a list that no number of 32 bits counts wants too much
/// memory.
pub fn lower_bodies(alloc: Global, bodies: &Bodies, starts: &Starts) -> Result<Code, NoMemory>
    requires { AreTyped bodies.now starts.now }
    ensures runs { IfOk result (λ code. Runs bodies.now starts.now code) }
    ensures simple { IfOk result (λ code. All (λ i. IsSimple i.op) code.instrs) }
    ensures entries { IfOk result (λ code. length code.entries ≡ length starts.now) }
{
    let draft = lower_all(alloc, bodies, starts)?;
    if draft.is_short() {
        Ok(Code::of_sound(draft))
    } else {
        Err(NoMemory)
    }
}
