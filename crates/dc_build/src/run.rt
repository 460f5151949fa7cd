// The run of a program's `main`.
ghost use Rattle.std.specs.Prelude.{IfOk};
ghost use Rattle.std.specs.Result.{IsErrOf};
ghost use Rattle.dc_edge.specs.Causes.{CountsFaults};
ghost use Rattle.dc_build.specs.Ends.{IsCalm};

use dc_decl::initial_value;
use dc_demand::Engine;
use dc_edge::{Sink, SinkFault};
use dc_lower::{lower_body, lower_global, lower_start};
use dc_report::{bound_line, ended_line, trap_line};
use dc_run::{Exit, Machine};
use dc_syntax::Want;
use dc_tree::{DeclId, TypeId, Where};
use dc_types::{Limits, Status, Text, TrapKind};
use std::alloc::Global;

/// The cells of all blocks of a run, the calls that are open at once, and the sum of their weights.
const CELLS: u64 = 16_777_216;

const DEPTH: u32 = 10_000;

const STACK: u64 = 4_194_304;

/// How a run ended.
#[derive(Clone, Copy)]
enum Ending {
    Number(i64),
    Trapped(TrapKind, Where),
    Bound,
}

/// A status, and the line of the report: nothing where it is empty.
#[derive(Drop)]
pub(crate) struct Told {
    pub status: Status,
    pub line: Text,
}

/// The code of the function with this number comes into the program.
fn add_function(engine: &mut Engine, number: u32) -> Result<(), Want> {
    let Some(decl) = engine.lowering.function_decl(number) else {
        return Err(Want);
    };
    lower_body(&mut engine.lowering, &engine.world.pool, decl)?;
    Ok(())
}

/// The start value of the module variable with this number comes into the program.
fn add_global(engine: &mut Engine, number: u32) -> Result<(), Want> {
    let Some((decl, of)) = engine.lowering.global_decl(number) else {
        return Err(Want);
    };
    let Ok(value) = initial_value(&mut engine.world, decl) else {
        return Err(Want);
    };
    lower_global(&mut engine.lowering, &engine.world.pool, number, of, value)?;
    Ok(())
}

/// Whether `main` gives a number.
fn gives_number(engine: &Engine, main: DeclId) -> bool {
    match engine.world.pool.bodies.signature(main) {
        Some(signature) => signature.result != TypeId::VOID,
        None => false,
    }
}

/// The machine before the start of `main`.
fn started(engine: &mut Engine, main: DeclId, ticks: u64) -> Result<Machine, Want> {
    let limits = Limits {
        ticks,
        cells: CELLS,
        depth: DEPTH,
        stack: STACK,
    };
    let start = lower_start(&mut engine.lowering, &engine.world.pool, main)?;
    let mut machine = Machine::open(engine.world.alloc, limits, true);
    machine.enter(start.first, start.frame)?;
    Ok(machine)
}

/// What a run that stopped has come to, where it isn't to go on. What it wants comes into the
/// program.
fn ending_of(
    engine: &mut Engine,
    machine: &Machine,
    main: DeclId,
    exit: Exit,
) -> Result<Option<Ending>, Want> {
    match exit {
        Exit::Returned if gives_number(engine, main) => {
            Ok(Some(Ending::Number(machine.word(0).cast_signed())))
        }
        Exit::Returned => Ok(Some(Ending::Number(0))),
        Exit::Trapped(kind, at) => Ok(Some(Ending::Trapped(kind, at))),
        Exit::Bound => Ok(Some(Ending::Bound)),
        Exit::Absent(function) => {
            add_function(engine, function)?;
            Ok(None)
        }
        Exit::Unset(variable) => {
            add_global(engine, variable)?;
            Ok(None)
        }
        Exit::Printing(_, _) | Exit::Shared(_, _) | Exit::NoMemory => Err(Want),
    }
}

/// Runs `main` in at most so many ticks. Code is made of a function when it is entered first.
/// `Failed` comes where a put failed, after which nothing more is put.
fn run_main<S: Sink>(
    engine: &mut Engine,
    main: DeclId,
    ticks: u64,
    out: &mut S,
) -> Result<Ending, SinkFault>
    ensures cause { CountsFaults (S.faults out.old) (S.faults out.new) (IsErrOf result SinkFault.Failed) }
{
    let Ok(mut machine) = started(engine, main, ticks) else {
        return Err(SinkFault::NoMemory);
    };
    for _ in 0..u64::MAX {
        let exit = machine.run(&engine.lowering.program, out)?;
        match ending_of(engine, &machine, main, exit) {
            Ok(None) => {}
            Ok(Some(ending)) => return Ok(ending),
            Err(Want) => return Err(SinkFault::NoMemory),
        }
    }
    Err(SinkFault::NoMemory)
}

/// Says how a run ended.
fn tell(alloc: Global, engine: &mut Engine, ticks: u64, ending: Ending) -> Result<Told, Want>
    ensures calm { IfOk result (λ t. IsCalm t.status) }
{
    Ok(match ending {
        Ending::Number(0) => Told {
            status: Status::Done,
            line: Text::new(alloc),
        },
        Ending::Number(number) => Told {
            status: Status::EndedWith,
            line: ended_line(alloc, number)?,
        },
        Ending::Trapped(kind, at) => {
            let place = engine.world.pool.places.place(at)?;
            Told {
                status: Status::Trapped,
                line: trap_line(&engine.world, &engine.mixed.texts, kind, place)?,
            }
        }
        Ending::Bound => Told {
            status: Status::Bound,
            line: bound_line(alloc, ticks)?,
        },
    })
}

/// Runs a program, and says how that ended. `Failed` comes where a put failed, after which nothing
/// more is put.
pub(crate) fn run<S: Sink>(
    alloc: Global,
    engine: &mut Engine,
    main: DeclId,
    ticks: u64,
    out: &mut S,
) -> Result<Told, SinkFault>
    ensures cause { CountsFaults (S.faults out.old) (S.faults out.new) (IsErrOf result SinkFault.Failed) }
    ensures calm { IfOk result (λ t. IsCalm t.status) }
{
    let ending = run_main(engine, main, ticks, out)?;
    match tell(alloc, engine, ticks, ending) {
        Ok(told) => Ok(told),
        Err(Want) => Err(SinkFault::NoMemory),
    }
}
