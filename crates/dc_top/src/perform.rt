// Running a program, and telling how the run ended.
ghost use Rattle.std.specs.Prelude.{◌≡◌, ◌⊎◌};
ghost use Rattle.std.specs.Io.KnownBytes.{Keeps};
ghost use Rattle.dc_edge.specs.Causes.{Rose, CountsFaults};
ghost use Rattle.dc_top.specs.Outcomes.{IsTypedProgram};
ghost use Rattle.dc_top.specs.Told.{told_as};
ghost use Rattle.dc_top.specs.Answers.{Tells, Follows};

use crate::program::{Ending, Run};
use crate::run::run_program;
use crate::told::tell;
use dc_edge::{Sink, SinkFault};
use dc_types::{Status, Text};
use std::alloc::Global;

/// Tells how the run of a program ended, by one put, or by none where there is nothing to tell.
fn report_ending<R: Sink>(
    alloc: Global,
    text: &Text,
    ticks: u64,
    ending: &Ending,
    report: &mut R,
) -> Status
    ensures told { Tells (told_as text.now ticks ending.now) (R.taken report.old) (R.taken report.new) result }
    ensures cause { CountsFaults (R.faults report.old) (R.faults report.new) (result ≡ Status.WriteFault) }
{
    let Ok(told) = tell(alloc, text, ticks, ending) else {
        return Status::NoMemory;
    };
    if told.line.len() == 0 {
        return told.status;
    }
    match report.put(told.line.as_slice()) {
        Ok(()) => told.status,
        Err(SinkFault::Failed) => Status::WriteFault,
        Err(SinkFault::NoMemory) => Status::NoMemory,
    }
}

/// Runs a program, and tells how the run ended.
pub fn perform<S: Sink, R: Sink>(alloc: Global, run: Run, out: &mut S, report: &mut R) -> Status
    requires { IsTypedProgram run.program }
    ensures follows { Follows run result (S.taken out.old) (S.taken out.new) (R.taken report.old) (R.taken report.new) }
    ensures write_fault { result ≡ Status.WriteFault → Rose (S.faults out.old) (S.faults out.new) ⊎ Rose (R.faults report.old) (R.faults report.new) }
    ensures out_counted { (S.faults out.new ≡ S.faults out.old → ⊥) → result ≡ Status.WriteFault }
    ensures out_first { (S.faults out.new ≡ S.faults out.old → ⊥) → Keeps (R.taken report.old) (R.taken report.new) }
    ensures report_counted { (R.faults report.new ≡ R.faults report.old → ⊥) → result ≡ Status.WriteFault }
{
    let Run {
        program,
        text,
        ticks,
    } = run;
    match run_program(alloc, program, ticks, out) {
        Ok(ending) => report_ending(alloc, &text, ticks, &ending, report),
        Err(SinkFault::Failed) => Status::WriteFault,
        Err(SinkFault::NoMemory) => Status::NoMemory,
    }
}
