// The one call that does all.
ghost use Rattle.std.specs.Prelude.{◌≡◌, ◌⊎◌, ℕ, List, IsSome, None, vec_len};
ghost use Rattle.std.specs.Io.KnownBytes.{Keeps};
ghost use Rattle.dc_edge.specs.Causes.{Rose, CountsFaults};
ghost use Rattle.dc_top.specs.Words.{texts_of, job_of};
ghost use Rattle.dc_top.specs.Answers.{IsRun, IsRefused, LacksFile, Answers, Decides, IsOrFails, Follows, Refuses};
ghost use Rattle.dc_top.specs.declared.program.Run.{Run};

use crate::front::front;
use crate::perform::perform;
use crate::program::Run;
use crate::report::{read_fault_line, refused_line, usage_line};
use crate::words::job_of;
use dc_edge::{LibFault, Library, Probe, Sink, SinkFault};
use dc_types::{Fail, NoMemory, Status, Text};
use std::alloc::Global;
use std::slice;

/// What is to be done, decided before anything is written.
#[derive(Drop)]
pub enum Plan {
    Usage,
    /// The line that tells the fault.
    ReadFault(Text),
    /// The line that tells the refusal.
    Refused(Text),
    Run(Run),
}

/// Reads the job's file and judges its text. Nothing is written.
fn decide<L: Library>(alloc: Global, words: &Vec<String>, lib: &mut L) -> Result<Plan, NoMemory>
    ensures plan { Decides (job_of (texts_of words.now.items)) (L.told lib.old) (L.faults lib.old) (L.faults lib.new) result }
    ensures told { L.told lib.new ≡ L.told lib.old }
{
    let Some(job) = job_of(words) else {
        return Ok(Plan::Usage);
    };
    let text = match lib.read(alloc, job.file) {
        Ok(text) => text,
        Err(LibFault::NoMemory) => return Err(NoMemory),
        Err(LibFault::Failed) => return Ok(Plan::ReadFault(read_fault_line(alloc, job.file)?)),
        Err(LibFault::Missing) => return Ok(Plan::ReadFault(read_fault_line(alloc, job.file)?)),
    };
    match front(alloc, job.file, &text) {
        Ok(program) => Ok(Plan::Run(Run {
            program,
            text,
            ticks: job.ticks,
        })),
        Err(Fail::NoMemory) => Err(NoMemory),
        Err(Fail::Refused(refusal)) => {
            let line = refused_line(alloc, slice::from_ref(&text), &refusal)?;
            Ok(Plan::Refused(line))
        }
    }
}

/// Does what is decided, and writes.
#[tactic(auto, using(dc_edge::proofs::Puts::single))]
fn carry_out<L: Library, S: Sink, R: Sink>(
    alloc: Global,
    words: &Vec<String>,
    lib: &mut L,
    out: &mut S,
    report: &mut R,
) -> Status
    ensures answers { Answers (job_of (texts_of words.now.items)) (L.told lib.old) (L.faults lib.old) (L.faults lib.new) result (S.taken out.old) (S.taken out.new) (R.taken report.old) (R.taken report.new) }
    ensures read_fault { result ≡ Status.ReadFault → Rose (L.faults lib.old) (L.faults lib.new) ⊎ LacksFile (job_of (texts_of words.now.items)) (L.told lib.old) }
    ensures lib_counted { (L.faults lib.new ≡ L.faults lib.old → ⊥) → IsOrFails Status.ReadFault result }
    ensures write_fault { result ≡ Status.WriteFault → Rose (S.faults out.old) (S.faults out.new) ⊎ Rose (R.faults report.old) (R.faults report.new) }
    ensures out_counted { (S.faults out.new ≡ S.faults out.old → ⊥) → result ≡ Status.WriteFault }
    ensures out_first { (S.faults out.new ≡ S.faults out.old → ⊥) → Keeps (R.taken report.old) (R.taken report.new) }
    ensures report_counted { (R.faults report.new ≡ R.faults report.old → ⊥) → result ≡ Status.WriteFault }
    ensures told { L.told lib.new ≡ L.told lib.old }
{
    match decide(alloc, words, lib) {
        Err(NoMemory) => Status::NoMemory,
        Ok(Plan::Usage) => match report.put(usage_line()) {
            Ok(()) => Status::Usage,
            Err(SinkFault::Failed) => Status::WriteFault,
            Err(SinkFault::NoMemory) => Status::NoMemory,
        },
        Ok(Plan::ReadFault(line)) => match report.put(line.as_slice()) {
            Ok(()) => Status::ReadFault,
            Err(SinkFault::Failed) => Status::WriteFault,
            Err(SinkFault::NoMemory) => Status::NoMemory,
        },
        Ok(Plan::Refused(line)) => match report.put(line.as_slice()) {
            Ok(()) => Status::Refused,
            Err(SinkFault::Failed) => Status::WriteFault,
            Err(SinkFault::NoMemory) => Status::NoMemory,
        },
        Ok(Plan::Run(run)) => perform(alloc, run, out, report),
    }
}

/// Does what the words after the program's name say: `run FILE` runs the program in that file in at most 100,000,000
/// ticks, and `run --ticks N FILE` in at most N. A tick is taken at each function entry and at each turn of a loop.
///
/// The program's output goes to `out`, one put for each print, and what is to be said of the call goes to `report`, as
/// one put at most. After a put that failed nothing more is put. The probes are those that a run tells its events to.
pub fn dpc<L: Library, S: Sink, R: Sink>(
    alloc: Global,
    words: &Vec<String>,
    lib: &mut L,
    out: &mut S,
    report: &mut R,
    probes: &mut Vec<Box<dyn Probe>>,
) -> Status
    requires { vec_len probes.old ≡ 0 }

    // What the status says of the job's text, and what each sink took: all that the program prints and the line that
    // tells how its run ended, or the one line of the report. After a failed put or want of memory it is a front.
    ensures answers { Answers (job_of (texts_of words.now.items)) (L.told lib.old) (L.faults lib.old) (L.faults lib.new) result (S.taken out.old) (S.taken out.new) (R.taken report.old) (R.taken report.new) }

    // Where the words are no job, and only there, the status is Usage.
    ensures usage { result ≡ Status.Usage → job_of (texts_of words.now.items) ≡ None }
    ensures no_job { job_of (texts_of words.now.items) ≡ None → IsOrFails Status.Usage result }

    // A read fault comes only where a read failed in this call, or the files that are told lack the job's; and there it comes.
    ensures read_fault { result ≡ Status.ReadFault → Rose (L.faults lib.old) (L.faults lib.new) ⊎ LacksFile (job_of (texts_of words.now.items)) (L.told lib.old) }
    ensures lib_counted { (L.faults lib.new ≡ L.faults lib.old → ⊥) → IsOrFails Status.ReadFault result }
    ensures file_lacks { LacksFile (job_of (texts_of words.now.items)) (L.told lib.old) → IsOrFails Status.ReadFault result }

    // A write fault comes only where a put failed in this call, and there it comes. After a put to `out` that failed,
    // `report` takes nothing.
    ensures write_fault { result ≡ Status.WriteFault → Rose (S.faults out.old) (S.faults out.new) ⊎ Rose (R.faults report.old) (R.faults report.new) }
    ensures out_counted { (S.faults out.new ≡ S.faults out.old → ⊥) → result ≡ Status.WriteFault }
    ensures out_first { (S.faults out.new ≡ S.faults out.old → ⊥) → Keeps (R.taken report.old) (R.taken report.new) }
    ensures report_counted { (R.faults report.new ≡ R.faults report.old → ⊥) → result ≡ Status.WriteFault }

    // Where the files are told and no read failed: a file with a program is run, and the status, the output and the line
    // are those of its meaning, unless a put failed or memory was wanted. A file that is refused is refused with its line.
    ensures runs { IsSome (L.told lib.old) → (Rose (L.faults lib.old) (L.faults lib.new) → ⊥) → (run : Run) → IsRun (job_of (texts_of words.now.items)) (L.told lib.old) run → Follows run result (S.taken out.old) (S.taken out.new) (R.taken report.old) (R.taken report.new) }
    ensures refuses { IsSome (L.told lib.old) → (Rose (L.faults lib.old) (L.faults lib.new) → ⊥) → (line : List ℕ) → IsRefused (job_of (texts_of words.now.items)) (L.told lib.old) line → Refuses line result (S.taken out.old) (S.taken out.new) (R.taken report.old) (R.taken report.new) }

    ensures told { L.told lib.new ≡ L.told lib.old }
    ensures probes { probes.new ≡ probes.old }
{
    let _ = probes;
    carry_out(alloc, words, lib, out, report)
}
