// Commands over programs of the whole language.
ghost use Rattle.std.specs.Prelude.{◌≡◌, ◌⊎◌, IfOk, IsSome};
ghost use Rattle.std.specs.Result.{IsErrOf};
ghost use Rattle.dc_edge.specs.Causes.{CountsFaults, Rose};
ghost use Rattle.dc_build.specs.Ends.{IsCalm, IsOrFails};

use crate::audit::audit;
use crate::load::{Ended, Reading, elaborated, new_engine, read_files};
use crate::made::{made_files, summary};
use crate::run::{Told, run};
use dc_demand::{Engine, Order};
use dc_edge::{LibFault, Library, Sink, SinkFault};
use dc_report::{read_fault_line, refused_line, usage_line};
use dc_syntax::Want;
use dc_tree::DeclId;
use dc_types::{File, Status, Text};
use dc_words::{Files, Job, job_of};
use std::alloc::Global;

/// The ticks of a program that is made.
const MADE_TICKS: u64 = 100_000_000;

/// What is done with a program that is accepted.
#[derive(Clone, Copy)]
enum Then {
    /// It runs in at most so many ticks.
    Run(u64),
    /// A summary is printed, and it runs.
    RunMade,
    Nothing,
    /// The values of evaluations are printed.
    Audit,
}

fn ended_so(status: Status, line: Text) -> Told
    ensures { result.status ≡ status }
{
    Told { status, line }
}

/// Prints the values of evaluations.
fn audited<S: Sink>(engine: &mut Engine, out: &mut S) -> Result<Told, SinkFault>
    ensures cause { CountsFaults (S.faults out.old) (S.faults out.new) (IsErrOf result SinkFault.Failed) }
    ensures calm { IfOk result (λ t. IsCalm t.status) }
{
    let Ok(lines) = audit(engine) else {
        return Err(SinkFault::NoMemory);
    };
    if lines.len() > 0 {
        out.put(lines.as_slice())?;
    }
    Ok(ended_so(Status::Done, Text::new(engine.world.alloc)))
}

/// Prints the summary of a program that is made, and runs it.
fn run_made<S: Sink>(
    engine: &mut Engine,
    main: DeclId,
    files: &[File],
    out: &mut S,
) -> Result<Told, SinkFault>
    ensures cause { CountsFaults (S.faults out.old) (S.faults out.new) (IsErrOf result SinkFault.Failed) }
    ensures calm { IfOk result (λ t. IsCalm t.status) }
{
    let alloc = engine.world.alloc;
    let Ok(lines) = summary(alloc, files) else {
        return Err(SinkFault::NoMemory);
    };
    let [modules, bytes] = &lines;
    out.put(modules.as_bytes())?;
    out.put(bytes.as_bytes())?;
    run(alloc, engine, main, MADE_TICKS, out)
}

/// What is done with a program that is accepted.
fn perform<S: Sink>(
    alloc: Global,
    engine: &mut Engine,
    main: DeclId,
    files: &[File],
    then: Then,
    out: &mut S,
) -> Result<Told, SinkFault>
    ensures cause { CountsFaults (S.faults out.old) (S.faults out.new) (IsErrOf result SinkFault.Failed) }
    ensures calm { IfOk result (λ t. IsCalm t.status) }
{
    match then {
        Then::Run(ticks) => run(alloc, engine, main, ticks, out),
        Then::RunMade => run_made(engine, main, files, out),
        Then::Nothing => Ok(ended_so(Status::Done, Text::new(alloc))),
        Then::Audit => audited(engine, out),
    }
}

/// The order of steps that the words ask for.
fn order_of(words: Option<Files>) -> Order {
    match words {
        Some(
            Files {
                order: Some(state),
                ..
            },
        ) => Order::Mixed(state),
        _ => Order::First,
    }
}

/// The `main` of a program with its engine, or how it is refused.
fn judged(
    alloc: Global,
    engine: &mut Engine,
    files: &[File],
    words: Option<Files>,
) -> Result<Result<DeclId, Text>, Want> {
    match elaborated(engine, files, order_of(words))? {
        Ended::Program(main) => Ok(Ok(main)),
        Ended::Refused(refused) => {
            let line = refused_line(&engine.world, &engine.mixed.texts, refused)?;
            Ok(Err(line))
        }
    }
}

/// What is done with a program whose files are read, by an engine that knows nothing of it.
fn perform_with<S: Sink>(
    alloc: Global,
    engine: &mut Engine,
    files: &[File],
    words: Option<Files>,
    then: Then,
    out: &mut S,
) -> Result<Told, SinkFault>
    ensures cause { CountsFaults (S.faults out.old) (S.faults out.new) (IsErrOf result SinkFault.Failed) }
    ensures calm { IfOk result (λ t. IsCalm t.status) }
{
    match judged(alloc, engine, files, words) {
        Ok(Ok(main)) => perform(alloc, engine, main, files, then, out),
        Ok(Err(line)) => Ok(ended_so(Status::Refused, line)),
        Err(Want) => Err(SinkFault::NoMemory),
    }
}

fn versions_of(words: Option<Files<'_>>) -> Option<&[u8]> {
    match words {
        Some(words) => words.versions,
        None => None,
    }
}

/// What is done with a program whose files are read.
fn perform_files<S: Sink>(
    alloc: Global,
    files: &[File],
    words: Option<Files>,
    then: Then,
    out: &mut S,
) -> Result<Told, SinkFault>
    ensures cause { CountsFaults (S.faults out.old) (S.faults out.new) (IsErrOf result SinkFault.Failed) }
    ensures calm { IfOk result (λ t. IsCalm t.status) }
{
    match new_engine(alloc, versions_of(words)) {
        Ok(mut engine) => perform_with(alloc, &mut engine, files, words, then, out),
        Err(Want) => Err(SinkFault::NoMemory),
    }
}

/// The line that tells that the file with this number can't be read.
fn unread(alloc: Global, paths: &[String], n: usize) -> Result<Told, SinkFault>
    ensures sound { IsErrOf result SinkFault.Failed → ⊥ }
    ensures read { IfOk result (λ t. t.status ≡ Status.ReadFault) }
{
    let Some(path) = paths.get(n) else {
        return Err(SinkFault::NoMemory);
    };
    match read_fault_line(alloc, path.as_bytes()) {
        Ok(line) => Ok(ended_so(Status::ReadFault, line)),
        Err(Want) => Err(SinkFault::NoMemory),
    }
}

/// What is done with a program whose files are to be read.
fn perform_read<L: Library, S: Sink>(
    alloc: Global,
    words: Files,
    then: Then,
    lib: &mut L,
    out: &mut S,
) -> Result<Told, SinkFault>
    ensures cause { CountsFaults (S.faults out.old) (S.faults out.new) (IsErrOf result SinkFault.Failed) }
    ensures write { IfOk result (λ t. t.status ≡ Status.WriteFault → ⊥) }
    ensures read { IfOk result (λ t. t.status ≡ Status.ReadFault → Rose (L.faults lib.old) (L.faults lib.new) ⊎ IsSome (L.told lib.old)) }
    ensures counted { (L.faults lib.new ≡ L.faults lib.old → ⊥) → IfOk result (λ t. t.status ≡ Status.ReadFault) }
    ensures told { L.told lib.new ≡ L.told lib.old }
{
    let Reading { files, fault } = read_files(alloc, words.paths, lib);
    match fault {
        None => perform_files(alloc, files.as_slice(), Some(words), then, out),
        Some(LibFault::NoMemory) => Err(SinkFault::NoMemory),
        Some(LibFault::Failed | LibFault::Missing) => unread(alloc, words.paths, files.len()),
    }
}

/// The program of `gen`, run.
fn perform_made<S: Sink>(alloc: Global, n: u64, out: &mut S) -> Result<Told, SinkFault>
    ensures cause { CountsFaults (S.faults out.old) (S.faults out.new) (IsErrOf result SinkFault.Failed) }
    ensures calm { IfOk result (λ t. IsCalm t.status) }
{
    match made_files(alloc, n) {
        Ok(files) => perform_files(alloc, files.as_slice(), None, Then::RunMade, out),
        Err(Want) => Err(SinkFault::NoMemory),
    }
}

fn usage(alloc: Global) -> Result<Told, SinkFault>
    ensures sound { IsErrOf result SinkFault.Failed → ⊥ }
    ensures usage { IfOk result (λ t. t.status ≡ Status.Usage) }
{
    match Text::copy_of(alloc, usage_line()) {
        Ok(line) => Ok(ended_so(Status::Usage, line)),
        Err(_) => Err(SinkFault::NoMemory),
    }
}

fn perform_job<L: Library, S: Sink>(
    alloc: Global,
    job: Option<Job>,
    lib: &mut L,
    out: &mut S,
) -> Result<Told, SinkFault>
    ensures cause { CountsFaults (S.faults out.old) (S.faults out.new) (IsErrOf result SinkFault.Failed) }
    ensures write { IfOk result (λ t. t.status ≡ Status.WriteFault → ⊥) }
    ensures read { IfOk result (λ t. t.status ≡ Status.ReadFault → Rose (L.faults lib.old) (L.faults lib.new) ⊎ IsSome (L.told lib.old)) }
    ensures counted { (L.faults lib.new ≡ L.faults lib.old → ⊥) → IfOk result (λ t. t.status ≡ Status.ReadFault) }
    ensures told { L.told lib.new ≡ L.told lib.old }
{
    match job {
        Some(Job::Run { ticks, files }) => perform_read(alloc, files, Then::Run(ticks), lib, out),
        Some(Job::Check { files }) => perform_read(alloc, files, Then::Nothing, lib, out),
        Some(Job::Audit { files }) => perform_read(alloc, files, Then::Audit, lib, out),
        Some(Job::Gen { n }) => perform_made(alloc, n, out),
        None => usage(alloc),
    }
}

/// Puts the line of a report, where there is one.
fn report_so<R: Sink>(told: Told, report: &mut R) -> Status
    requires { told.status ≡ Status.WriteFault → ⊥ }
    ensures cause { CountsFaults (R.faults report.old) (R.faults report.new) (result ≡ Status.WriteFault) }
    ensures same { IsOrFails told.status result }
{
    let Told { status, line } = told;
    if line.len() == 0 {
        return status;
    }
    match report.put(line.as_slice()) {
        Ok(()) => status,
        Err(SinkFault::Failed) => Status::WriteFault,
        Err(SinkFault::NoMemory) => Status::NoMemory,
    }
}

/// Does what the words after the program's name say. What a program prints goes to `out`, one put
/// for each print, and what is to be said of the call goes to `report`, as one put at most. After a
/// put that failed nothing more is put.
pub fn whole<L: Library, S: Sink, R: Sink>(
    alloc: Global,
    words: &[String],
    lib: &mut L,
    out: &mut S,
    report: &mut R,
) -> Status
    // A write fault comes only where a put failed in this call, and there it comes.
    ensures write_fault { result ≡ Status.WriteFault → Rose (S.faults out.old) (S.faults out.new) ⊎ Rose (R.faults report.old) (R.faults report.new) }
    ensures out_counted { (S.faults out.new ≡ S.faults out.old → ⊥) → result ≡ Status.WriteFault }
    ensures report_counted { (R.faults report.new ≡ R.faults report.old → ⊥) → result ≡ Status.WriteFault }
    // A read fault comes only where a read failed in this call, or the library tells its files; and where a read failed it comes.
    ensures read_fault { result ≡ Status.ReadFault → Rose (L.faults lib.old) (L.faults lib.new) ⊎ IsSome (L.told lib.old) }
    ensures lib_counted { (L.faults lib.new ≡ L.faults lib.old → ⊥) → IsOrFails Status.ReadFault result }
    ensures told { L.told lib.new ≡ L.told lib.old }
{
    match perform_job(alloc, job_of(words), lib, out) {
        Ok(told) => report_so(told, report),
        Err(SinkFault::Failed) => Status::WriteFault,
        Err(SinkFault::NoMemory) => Status::NoMemory,
    }
}
