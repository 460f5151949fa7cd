// The machine: opened on code, and run once.
ghost use Rattle.std.specs.Prelude.{◌≡◌, ◌+◌, ◌≤◌, ◌<◌, [], Some, None, length, map, vec_len, vec_capacity, IfOk, IfSome, IsSome, All};
ghost use Rattle.std.specs.Option.{ForSome};
ghost use Rattle.dc_edge.specs.Causes.{CountsFaults};
ghost use Rattle.dc_machine.specs.After.{IsSimple};
ghost use Rattle.dc_machine.specs.Runs.{RanTo};

use crate::finish::finish;
use crate::report::{RunEnd, RunReport};
use crate::run::run_on;
use crate::start::first_state;
use crate::state::Fault;
use dc_code::{Caller, Code, Op, copy_code, is_sound};
use dc_edge::{Probe, Sink};
use dc_types::{Limits, NoMemory, Text};
use std::alloc::Global;
use std::marker::Model;
use std::mem;

/// Code with its frame stack. It takes all the memory that a run takes outside instructions that take some.
#[derive(Drop)]
pub(crate) struct Loaded {
    code: Code,
    /// The code's instructions without their places.
    ops: Vec<Op>,
    limits: Limits,
    words: Vec<u64>,
    callers: Vec<Caller>,
}

impl Model for Loaded {
    ghost use Rattle.dc_machine.specs.Program.{Program};

    ghost Value = { Program };

    ghost use Rattle.dc_machine.specs.Loaded.{IsLoaded};

    ghost view = { λ m. record { code = m.code; limits = m.limits } };

    ghost invariant = { IsLoaded };
}

/// A machine, which contracts see as the code and the limits that it was opened on, or nothing once it has run.
#[derive(Drop)]
pub struct Machine {
    loaded: Option<Loaded>,
}

impl Model for Machine {
    ghost use Rattle.std.specs.Prelude.{Option};
    ghost use Rattle.dc_machine.specs.Program.{Program};

    ghost Value = { Option Program };

    ghost view = { λ m. m.loaded };
}

fn copy_ops(alloc: Global, code: &Code) -> Result<Vec<Op>, NoMemory>
    ensures { IfOk result (λ ops. ops.items ≡ map (λ i. i.op) code.now.instrs) }
{
    let mut ops = Vec::with_capacity(alloc, code.instrs().len())?;
    for i in code.instrs() {
        ops.push(i.op)?;
    }
    Ok(ops)
}

/// Room for the words of the frames: as many as the limit allows, and the first frame's.
fn room(alloc: Global, limits: Limits) -> Result<Vec<u64>, NoMemory>
    ensures empty { IfOk result (λ words. words.items ≡ []) }
    ensures room { IfOk result (λ words. 4194304 + limits.stack ≤ vec_capacity words) }
{
    match limits.stack.checked_add(4194304) {
        None => Err(NoMemory),
        Some(count) => Ok(Vec::with_capacity(alloc, count as usize)?),
    }
}

fn load(alloc: Global, code: &Code, limits: Limits) -> Result<Loaded, NoMemory>
    requires { All (λ i. IsSimple i.op) code.now.instrs }
    ensures { IfOk result (λ m. m ≡ record { code = code.now; limits = limits }) }
{
    Ok(Loaded {
        code: copy_code(alloc, code)?,
        ops: copy_ops(alloc, code)?,
        limits,
        words: room(alloc, limits)?,
        callers: Vec::with_capacity(alloc, limits.depth as usize)?,
    })
}

/// A run of the entry.
fn run_loaded<S: Sink>(loaded: Loaded, alloc: Global, entry: usize, out: &mut S) -> RunEnd
    requires { entry < length loaded.code.entries }
    ensures ran { RanTo loaded.code entry loaded.limits (S.taken out.old) (S.taken out.new) result }
    ensures cause { CountsFaults (S.faults out.old) (S.faults out.new) (result ≡ RunEnd.WriteFault) }
{
    let Loaded {
        code,
        ops,
        limits,
        words,
        callers,
    } = loaded;
    is_sound(&code);
    let mut state = first_state(alloc, &code, limits, entry, words, callers);
    match run_on(&mut state, alloc, &code, ops.as_slice(), limits, out) {
        Ok(halt) => finish(code, &state, halt),
        Err(Fault::NoMemory) => RunEnd::NoMemory,
        Err(Fault::Failed) => RunEnd::WriteFault,
    }
}

impl Machine {
    /// A machine for code of the instructions that it runs. It takes the frame stack, and a copy of the code.
    pub fn open(alloc: Global, code: &Code, limits: Limits) -> Result<Machine, NoMemory>
        requires simple { All (λ i. IsSimple i.op) code.now.instrs }
        ensures { IfOk result (λ m. m ≡ Some (record { code = code.now; limits = limits })) }
    {
        Ok(Machine {
            loaded: Some(load(alloc, code, limits)?),
        })
    }

    /// Runs the entry of that number over the sink: each print is one put.
    ///
    /// After a put that failed nothing more is put. Want of memory comes only where the run comes to an instruction
    /// that takes memory.
    pub fn run<S: Sink>(
        &mut self,
        alloc: Global,
        entry: usize,
        out: &mut S,
        probes: &mut Vec<Box<dyn Probe>>,
    ) -> RunReport
        requires fresh { IsSome self.old }
        requires entry { ForSome self.old (λ m. entry < length m.code.entries) }
        requires probes { vec_len probes.old ≡ 0 }
        ensures ran { IfSome self.old (λ m. RanTo m.code entry m.limits (S.taken out.old) (S.taken out.new) result.end) }
        ensures cause { CountsFaults (S.faults out.old) (S.faults out.new) (result.end ≡ RunEnd.WriteFault) }
        ensures lines { result.lines ≡ [] }
        ensures probes { probes.new ≡ probes.old }
    {
        let _ = probes;
        let lines = Text::new(alloc);
        let Some(loaded) = mem::replace(&mut self.loaded, None) else {
            unreachable!()
        };
        RunReport {
            end: run_loaded(loaded, alloc, entry, out),
            lines,
        }
    }
}
