// Files and sinks in memory, for tests and for programs that are made in memory.
ghost use Rattle.std.specs.Prelude.{◌≡◌, ◌≤◌, ◌+◌, ◌-◌, ◌^◌, ◌↔◌, min, IsTrue, Some};
ghost use Rattle.std.specs.Result.{IsErrOf};
ghost use Rattle.std.specs.Option.{option_copied};
ghost use Rattle.dc_edge.specs.Causes.{CountsFaults};
ghost use Rattle.dc_edge.specs.Library.{file_map, Reads};
ghost use Rattle.dc_edge.specs.Sink.{Takes};
ghost use Rattle.dc_edge.specs.Memory.{find_file, bytes_of, FailsNext};

use crate::{LibFault, Library, Sink, SinkFault};
use dc_types::{File, Files, Text};
use std::alloc::Global;

/// Files in memory, of which the first with a path counts. The reads whose numbers stand in `fails`, counted from
/// 1, fail, whatever their path is.
#[derive(Drop)]
pub struct MemLibrary {
    pub files: Files,
    pub fails: Vec<u64>,
    /// How many reads there were. At its type's end reads are no longer counted and don't fail.
    pub calls: u64,
    pub faults: u64,
    ghost counted: { faults ≤ calls },
}

/// A sink in memory. The puts whose numbers stand in `fails`, counted from 1, fail and take nothing.
#[derive(Drop)]
pub struct MemSink {
    pub bytes: Text,
    pub fails: Vec<u64>,
    /// How many puts there were. At its type's end puts are no longer counted and don't fail.
    pub calls: u64,
    pub faults: u64,
    ghost counted: { faults ≤ calls },
}

/// Files in memory whose reads don't fail. The first with a path counts.
#[derive(Drop)]
pub struct SoundLibrary {
    pub files: Files,
}

/// A sink in memory whose puts don't fail.
#[derive(Drop)]
pub struct SoundSink {
    pub bytes: Text,
}

/// The first file with that path.
fn find<'a>(files: &'a [File], path: &[u8]) -> Option<&'a File>
    ensures { bytes_of (option_copied result) ≡ find_file path.now files.now }
{
    for file in files {
        if path == file.path.as_slice() {
            return Some(file);
        }
    }
    None
}

#[tactic(auto, using(crate::proofs::Files::get_file_map))]
fn read_from(alloc: Global, files: &Files, path: &[u8]) -> Result<Text, LibFault>
    ensures content { Reads (Some (file_map files.now)) path.now result }
    ensures sound { IsErrOf result LibFault.Failed → ⊥ }
{
    match find(files.as_slice(), path) {
        Some(file) => match Text::copy_of(alloc, file.bytes.as_slice()) {
            Ok(text) => Ok(text),
            Err(_) => Err(LibFault::NoMemory),
        },
        None => Err(LibFault::Missing),
    }
}

/// Counts a call, and a fault where it is one that fails.
fn fails_next(fails: &Vec<u64>, calls: &mut u64, faults: &mut u64) -> bool
    requires { faults.old ≤ calls.old }
    ensures listed { IsTrue result ↔ FailsNext fails.now.items calls.old }
    ensures counted { calls.new ≡ min (calls.old + 1) (2 ^ 64 - 1) }
    ensures within { faults.new ≤ calls.new }
    ensures cause { CountsFaults faults.old faults.new (IsTrue result) }
{
    if *calls == u64::MAX {
        return false;
    }
    *calls += 1;
    if !fails.contains(calls) {
        return false;
    }
    *faults += 1;
    true
}

impl Library for MemLibrary {
    ghost told = { λ l. Some (file_map l.files) };

    ghost faults = { λ l. l.faults };

    fn read(&mut self, alloc: Global, path: &[u8]) -> Result<Text, LibFault>
        ensures same { self.new.files ≡ self.old.files }
        ensures content { Reads (Some (file_map self.old.files)) path.now result }
        ensures cause { CountsFaults self.old.faults self.new.faults (IsErrOf result LibFault.Failed) }
        ensures listed { IsErrOf result LibFault.Failed ↔ FailsNext self.old.fails.items self.old.calls }
        ensures counted { self.new.calls ≡ min (self.old.calls + 1) (2 ^ 64 - 1) }
        ensures list { self.new.fails ≡ self.old.fails }
    {
        if fails_next(&self.fails, &mut self.calls, &mut self.faults) {
            return Err(LibFault::Failed);
        }
        read_from(alloc, &self.files, path)
    }
}

impl Library for SoundLibrary {
    ghost told = { λ l. Some (file_map l.files) };

    ghost faults = { λ l. 0 };

    fn read(&mut self, alloc: Global, path: &[u8]) -> Result<Text, LibFault> {
        read_from(alloc, &self.files, path)
    }
}

fn append(bytes: &mut Text, piece: &[u8]) -> Result<(), SinkFault>
    ensures content { Takes (Some bytes.old) (Some bytes.new) piece.now result }
    ensures sound { IsErrOf result SinkFault.Failed → ⊥ }
{
    match bytes.append(piece) {
        Ok(()) => Ok(()),
        Err(_) => Err(SinkFault::NoMemory),
    }
}

impl Sink for MemSink {
    ghost taken = { λ s. Some s.bytes };

    ghost faults = { λ s. s.faults };

    fn put(&mut self, piece: &[u8]) -> Result<(), SinkFault>
        ensures content { Takes (Some self.old.bytes) (Some self.new.bytes) piece.now result }
        ensures cause { CountsFaults self.old.faults self.new.faults (IsErrOf result SinkFault.Failed) }
        ensures listed { IsErrOf result SinkFault.Failed ↔ FailsNext self.old.fails.items self.old.calls }
        ensures nothing { IsErrOf result SinkFault.Failed → self.new.bytes ≡ self.old.bytes }
        ensures counted { self.new.calls ≡ min (self.old.calls + 1) (2 ^ 64 - 1) }
        ensures list { self.new.fails ≡ self.old.fails }
    {
        if fails_next(&self.fails, &mut self.calls, &mut self.faults) {
            return Err(SinkFault::Failed);
        }
        append(&mut self.bytes, piece)
    }
}

impl Sink for SoundSink {
    ghost taken = { λ s. Some s.bytes };

    ghost faults = { λ s. 0 };

    fn put(&mut self, piece: &[u8]) -> Result<(), SinkFault> {
        append(&mut self.bytes, piece)
    }
}
