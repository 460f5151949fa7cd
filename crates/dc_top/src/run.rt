// Running a program on the machine.
ghost use Rattle.std.specs.Prelude.{◌≡◌, IfOk};
ghost use Rattle.std.specs.Result.{IsErrOf};
ghost use Rattle.dc_edge.specs.Causes.{CountsFaults};
ghost use Rattle.dc_top.specs.Outcomes.{IsTypedProgram, limits_of, RanSo};
ghost use Rattle.dc_top.specs.Machines.{Holds, ending_from};

use crate::program::{Ending, Program};
use core_lower::lower_bodies;
use dc_edge::{Sink, SinkFault};
use dc_machine::{Machine, RunEnd};
use dc_types::{Items, Limits, NoMemory};
use std::alloc::Global;

/// The limits of a run in at most so many ticks: the cells of all its blocks, the calls that are open at once, and the sum
/// of their weights.
fn limits_of(ticks: u64) -> Limits
    ensures { result ≡ limits_of ticks }
{
    Limits {
        ticks,
        cells: 16_777_216,
        depth: 10_000,
        stack: 4_194_304,
    }
}

/// The machine on the program's code.
fn load(alloc: Global, program: Program, limits: Limits) -> Result<Machine, NoMemory>
    requires { IsTypedProgram program }
    ensures { IfOk result (λ m. Holds program limits m) }
{
    let Program { bodies, start } = program;
    let mut starts = Items::new(alloc);
    starts.push(start)?;
    let code = lower_bodies(alloc, &bodies, &starts)?;
    Machine::open(alloc, &code, limits)
}

fn ending_from(end: RunEnd) -> Result<Ending, SinkFault>
    ensures { result ≡ ending_from end }
{
    match end {
        RunEnd::Value(number) => Ok(Ending::Number(number)),
        RunEnd::Trapped(trap) => Ok(Ending::Trapped(trap)),
        RunEnd::Bound => Ok(Ending::Bound),
        RunEnd::WriteFault => Err(SinkFault::Failed),
        RunEnd::NoMemory => Err(SinkFault::NoMemory),
    }
}

/// Runs the program over the sink, in at most so many ticks: it does what its meaning within these ticks is, and each of
/// its prints is one put. `Failed` comes where a put failed, after which nothing more is put.
pub fn run_program<S: Sink>(
    alloc: Global,
    program: Program,
    ticks: u64,
    out: &mut S,
) -> Result<Ending, SinkFault>
    requires { IsTypedProgram program }
    ensures ran { RanSo program ticks (S.taken out.old) (S.taken out.new) result }
    ensures cause { CountsFaults (S.faults out.old) (S.faults out.new) (IsErrOf result SinkFault.Failed) }
{
    let Ok(mut machine) = load(alloc, program, limits_of(ticks)) else {
        return Err(SinkFault::NoMemory);
    };
    let mut probes = Vec::new(alloc);
    ending_from(machine.run(alloc, 0, out, &mut probes).end)
}
