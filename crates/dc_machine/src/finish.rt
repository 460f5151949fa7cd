// The end of a run, as its report shows it.
ghost use Rattle.std.specs.Prelude.{◌≡◌, ◌+◌, ◌<◌, length, slice_get, Some};
ghost use Rattle.dc_types.specs.declared.kind.Kind.TheVariants as kind;
ghost use Rattle.dc_code.specs.Numbers.{number_of};
ghost use Rattle.dc_code.specs.declared.instr.Instr.{Instr as Line};
ghost use Rattle.dc_machine.specs.After.{frame_words};
ghost use Rattle.dc_machine.specs.Running.{end_at};
ghost use Rattle.dc_machine.specs.Runs.{first_of, Shows};

use crate::report::RunEnd;
use crate::state::{Halt, State, Stop};
use dc_code::{Code, Draft};
use dc_types::{Place, Trap};

/// The place of an instruction, out of the code.
fn take_place(code: Code, pc: usize) -> Place
    requires { pc < length code.instrs }
    ensures { (i : Line) → slice_get code.instrs pc ≡ Some i → result ≡ i.place }
{
    let Draft {
        functions: _,
        instrs,
        blocks: _,
        globals: _,
        entries: _,
    } = code.into_draft();
    let mut instrs = instrs.into_vec();
    instrs.swap_remove(pc).place
}

/// The first of `n` words from slot `s` on, or 0.
fn first_word(state: &State, s: u32, n: u32) -> u64
    ensures { result ≡ first_of (frame_words state.now s n) }
{
    if n == 0 {
        return 0;
    }
    match state.base.checked_add(s as usize) {
        None => 0,
        Some(at) => match state.words.as_slice().get(at) {
            None => 0,
            Some(w) => *w,
        },
    }
}

/// A word as a `long`.
fn long(w: u64) -> i64
    ensures { result ≡ number_of kind.I64 w }
{
    w.cast_signed()
}

pub fn finish(code: Code, state: &State, halt: Halt) -> RunEnd
    requires { halt.pc < length code.instrs }
    ensures { (i : Line) → slice_get code.instrs halt.pc ≡ Some i → Shows (end_at code i halt.stop state.now) result }
{
    match halt.stop {
        Stop::Returned(s, n) => RunEnd::Value(long(first_word(state, s, n))),
        Stop::Trapped(kind) => RunEnd::Trapped(Trap {
            kind,
            place: take_place(code, halt.pc),
        }),
        Stop::Bound => RunEnd::Bound,
    }
}
