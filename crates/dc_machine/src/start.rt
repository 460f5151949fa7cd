// The machine before the first instruction of an entry.
ghost use Rattle.std.specs.Prelude.{◌≡◌, ◌+◌, ◌≤◌, ◌<◌, [], length, vec_capacity};
ghost use Rattle.dc_code.specs.State.{On};
ghost use Rattle.dc_code.specs.Exec.{begin};
ghost use Rattle.dc_code.specs.Sound.{IsSound};
ghost use Rattle.dc_machine.specs.After.{machine_of};
ghost use Rattle.dc_machine.specs.Running.{Begins};

use crate::state::State;
use dc_code::{Caller, Code, Nest, keeps_standing};
use dc_types::Limits;
use std::alloc::Global;

/// The first frame is one of zeros.
pub fn first_state(
    alloc: Global,
    code: &Code,
    limits: Limits,
    entry: usize,
    words: Vec<u64>,
    callers: Vec<Caller>,
) -> State
    requires sound { IsSound code.now }
    requires entry { entry < length code.now.entries }
    requires no_words { words.items ≡ [] }
    requires no_callers { callers.items ≡ [] }
    requires words { 4194304 + limits.stack ≤ vec_capacity words }
    requires callers { limits.depth ≤ vec_capacity callers }
    ensures begins { Begins code.now limits result }
    ensures start { On (machine_of code.now result 0 []) ≡ begin code.now entry limits.ticks }
{
    keeps_standing(code);
    let number = code.entries()[entry];
    let Some(function) = code.functions().get(number as usize) else {
        unreachable!()
    };
    let mut words = words;
    let Ok(()) = words.resize(function.weight as usize, 0) else {
        unreachable!()
    };
    State {
        pc: function.first as usize,
        words,
        base: 0,
        callers,
        nest: Nest {
            depth: 0,
            weight: 0,
        },
        pending: Vec::new(alloc),
        left: limits.ticks,
    }
}
