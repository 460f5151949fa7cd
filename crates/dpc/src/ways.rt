// The two ways of a job.
ghost use Rattle.std.specs.Prelude.{◌≡◌, ◌⊎◌, ℕ, List, Option, Some, IfOk, IsSome};
ghost use Rattle.std.specs.FinMap.{get};
ghost use Rattle.dc_edge.specs.Causes.{CountsFaults, Rose};
ghost use Rattle.dc_edge.specs.Library.{FileMap, MayHold, file_map};
ghost use Rattle.dc_top.specs.Answers.{Follows, IsRefused, IsRun, Refuses};
ghost use Rattle.dc_top.specs.Words.{job_of, texts_of};
ghost use Rattle.dc_top.specs.Ways.{IsFileOf};
ghost use Rattle.dc_top.specs.declared.program.Run.{Run};
ghost use Rattle.dc_build.specs.Ends.{IsOrFails};

use dc_build::whole;
use dc_edge::{LibFault, Library, Sink, SinkFault, SoundLibrary};
use dc_report::read_fault_line;
use dc_top::{core_file, dpc, is_core};
use dc_types::{File, Files, NoMemory, Status, Text};
use std::alloc::Global;

/// Tells that a file can't be read.
fn report_unread<R: Sink>(alloc: Global, path: &[u8], report: &mut R) -> Status
    ensures cause { CountsFaults (R.faults report.old) (R.faults report.new) (result ≡ Status.WriteFault) }
    ensures same { IsOrFails Status.ReadFault result }
{
    let Ok(line) = read_fault_line(alloc, path) else {
        return Status::NoMemory;
    };
    match report.put(line.as_slice()) {
        Ok(()) => Status::ReadFault,
        Err(SinkFault::Failed) => Status::WriteFault,
        Err(SinkFault::NoMemory) => Status::NoMemory,
    }
}

/// A file alone.
#[tactic(auto, using(dc_edge::proofs::Files::get_file_map))]
fn one_file(alloc: Global, path: &[u8], bytes: Text) -> Result<Files, NoMemory>
    ensures { IfOk result (λ files. get (file_map files) path.now ≡ Some bytes) }
{
    let mut files = Files::new(alloc);
    files.push(File {
        path: Text::copy_of(alloc, path)?,
        bytes,
    })?;
    Ok(files)
}

/// Does a job about one file with this text: by `dpc`, of which all is proved, where it is of the
/// core, and else by the way of the whole language.
fn compile_one<S: Sink, R: Sink>(
    alloc: Global,
    words: &Vec<String>,
    path: &[u8],
    text: Text,
    out: &mut S,
    report: &mut R,
) -> Status
    ensures write_fault { result ≡ Status.WriteFault → Rose (S.faults out.old) (S.faults out.new) ⊎ Rose (R.faults report.old) (R.faults report.new) }
    ensures out_counted { (S.faults out.new ≡ S.faults out.old → ⊥) → result ≡ Status.WriteFault }
    ensures report_counted { (R.faults report.new ≡ R.faults report.old → ⊥) → result ≡ Status.WriteFault }
    // Where some files are told, and this is the job's file with its text: its program is followed,
    // and a refusal by another rule than 23 is told.
    ensures runs { (told : Option FileMap) → IsSome told
        → IsFileOf (job_of (texts_of words.now.items)) path.now → MayHold told path.now text
        → (run : Run) → IsRun (job_of (texts_of words.now.items)) told run
        → Follows run result
        (S.taken out.old) (S.taken out.new) (R.taken report.old) (R.taken report.new) }
    ensures refuses { (told : Option FileMap) → IsSome told
        → IsFileOf (job_of (texts_of words.now.items)) path.now → MayHold told path.now text
        → (line : List ℕ) → (is : IsRefused (job_of (texts_of words.now.items)) told line)
        → (is.refusal.rule ≡ 23 → ⊥)
        → Refuses line result
        (S.taken out.old) (S.taken out.new) (R.taken report.old) (R.taken report.new) }
{
    let Ok(is_core) = is_core(alloc, path, &text) else {
        return Status::NoMemory;
    };
    let Ok(files) = one_file(alloc, path, text) else {
        return Status::NoMemory;
    };
    let mut known = SoundLibrary { files };
    if is_core {
        let mut probes = Vec::new(alloc);
        dpc(alloc, words, &mut known, out, report, &mut probes)
    } else {
        whole(alloc, words.as_slice(), &mut known, out, report)
    }
}

/// Does what the words after the program's name say. A job about one file that is of the core is
/// done by `dpc`; every other job is done by the way of the whole language. A file is read once.
pub(crate) fn compile<L: Library, S: Sink, R: Sink>(
    alloc: Global,
    words: &Vec<String>,
    lib: &mut L,
    out: &mut S,
    report: &mut R,
) -> Status
    // A write fault comes only where a put failed in this call, and there it comes.
    ensures write_fault { result ≡ Status.WriteFault → Rose (S.faults out.old) (S.faults out.new) ⊎ Rose (R.faults report.old) (R.faults report.new) }
    ensures out_counted { (S.faults out.new ≡ S.faults out.old → ⊥) → result ≡ Status.WriteFault }
    ensures report_counted { (R.faults report.new ≡ R.faults report.old → ⊥) → result ≡ Status.WriteFault }
    // Where a read failed in this call, the status is that of a read fault, unless a put failed or memory was wanted.
    ensures lib_counted { (L.faults lib.new ≡ L.faults lib.old → ⊥) → IsOrFails Status.ReadFault result }
    // Where the files are told and no read failed: a file of the job that is a program of the core
    // is run, and the status, the output and the line are those of its meaning, unless a put failed
    // or memory was wanted. A file that is refused by another rule than 23, which is about forms
    // that aren't built, is refused with its line.
    ensures runs { IsSome (L.told lib.old) → (Rose (L.faults lib.old) (L.faults lib.new) → ⊥)
        → (run : Run) → IsRun (job_of (texts_of words.now.items)) (L.told lib.old) run
        → Follows run result
        (S.taken out.old) (S.taken out.new) (R.taken report.old) (R.taken report.new) }
    ensures refuses { IsSome (L.told lib.old) → (Rose (L.faults lib.old) (L.faults lib.new) → ⊥)
        → (line : List ℕ) → (is : IsRefused (job_of (texts_of words.now.items)) (L.told lib.old) line)
        → (is.refusal.rule ≡ 23 → ⊥)
        → Refuses line result
        (S.taken out.old) (S.taken out.new) (R.taken report.old) (R.taken report.new) }
{
    let Some(path) = core_file(words) else {
        return whole(alloc, words.as_slice(), lib, out, report);
    };
    match lib.read(alloc, path) {
        Ok(text) => compile_one(alloc, words, path, text, out, report),
        Err(LibFault::NoMemory) => Status::NoMemory,
        Err(LibFault::Failed | LibFault::Missing) => report_unread(alloc, path, report),
    }
}
