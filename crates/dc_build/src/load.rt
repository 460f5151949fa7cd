// The files of a job, and the program that they make.
ghost use Rattle.std.specs.Prelude.{◌≡◌, IsSome, Some};
ghost use Rattle.dc_edge.specs.Causes.{CountsFaults};

use dc_demand::{Engine, Order, Unfinished, elaborate};
use dc_edge::{LibFault, Library};
use dc_model::{Refused, Stop, World};
use dc_syntax::Want;
use dc_text::{Texts, read_modules};
use dc_tree::DeclId;
use dc_types::{File, Text};
use dc_words::{first_version, later_versions};
use std::alloc::Global;

/// The files that were read, up to the first that can't be, and why that can't.
#[derive(Drop)]
pub(crate) struct Reading {
    pub files: Vec<File>,
    pub fault: Option<LibFault>,
}

/// A file with its path.
fn file_of(alloc: Global, path: &[u8], bytes: Text) -> Result<File, Want> {
    Ok(File {
        path: Text::copy_of(alloc, path)?,
        bytes,
    })
}

/// Adds a file, unless memory is refused.
fn add_file(files: &mut Vec<File>, alloc: Global, path: &[u8], bytes: Text) -> Result<(), Want> {
    let file = file_of(alloc, path, bytes)?;
    files.push(file)?;
    Ok(())
}

/// Reads files in their order, up to the first that can't be read.
pub(crate) fn read_files<L: Library>(alloc: Global, paths: &[String], lib: &mut L) -> Reading
    ensures cause { CountsFaults (L.faults lib.old) (L.faults lib.new) (result.fault ≡ Some LibFault.Failed) }
    ensures missing { result.fault ≡ Some LibFault.Missing → IsSome (L.told lib.old) }
    ensures told { L.told lib.new ≡ L.told lib.old }
{
    let mut files = Vec::new(alloc);
    for path in paths {
        let fault = match lib.read(alloc, path.as_bytes()) {
            Ok(bytes) => match add_file(&mut files, alloc, path.as_bytes(), bytes) {
                Ok(()) => None,
                Err(Want) => Some(LibFault::NoMemory),
            },
            Err(fault) => Some(fault),
        };
        if fault.is_some() {
            return Reading { files, fault };
        }
    }
    Reading { files, fault: None }
}

/// What elaborating a program has come to.
#[derive(Clone, Copy)]
pub(crate) enum Ended {
    /// Its `main`.
    Program(DeclId),
    Refused(Refused),
}

/// Adds the names for which a `version` holds: `all`, and those that are given.
fn add_versions(w: &mut World, names: Option<&[u8]>) -> Result<(), Want> {
    let all = w.pool.names.number(b"all")?;
    w.versions.insert(all)?;
    let mut left = names;
    for _ in 0..u64::MAX {
        let Some(names) = left else {
            break;
        };
        let name = w.pool.names.number(first_version(names))?;
        w.versions.insert(name)?;
        left = later_versions(names);
    }
    Ok(())
}

/// An engine that knows nothing of a program but the names for which a `version` holds.
pub(crate) fn new_engine(alloc: Global, versions: Option<&[u8]>) -> Result<Engine, Want> {
    let mut world = World::new(alloc)?;
    add_versions(&mut world, versions)?;
    Ok(Engine::new(world, Texts::new(alloc)))
}

/// Reads the files as modules, with which the engine starts; or the first refusal.
fn start(engine: &mut Engine, files: &[File]) -> Result<(), Stop> {
    let modules = read_modules(&mut engine.world, &mut engine.mixed.texts, files)?;
    engine.start(modules.as_slice());
    Ok(())
}

/// Elaborates the program of these files in an order of steps. The engine keeps all that is known
/// of it.
pub(crate) fn elaborated(engine: &mut Engine, files: &[File], order: Order) -> Result<Ended, Want> {
    match start(engine, files) {
        Ok(()) => {}
        Err(Stop::Failed(refused)) => return Ok(Ended::Refused(refused)),
        Err(_) => return Err(Want),
    }
    match elaborate(engine, order) {
        Ok(main) => Ok(Ended::Program(main)),
        Err(Unfinished::Refused(refused)) => Ok(Ended::Refused(refused)),
        Err(Unfinished::NoMemory) => Err(Want),
    }
}
