//! What the compiler meets of the outside: files to read, places to write to, and watchers of a run.
//!
//! Each trait says what its objects mean to a contract: the files that a library tells, the bytes that a sink
//! has taken, and how often each has failed. So a caller's contract can say that a fault has its cause outside.
#![tactic(auto)]

mod library;
mod memory;
mod probe;
mod sink;

pub use library::{LibFault, Library};
pub use memory::{MemLibrary, MemSink, SoundLibrary, SoundSink};
pub use probe::{Probe, ProbeKind, Wish};
pub use sink::{Sink, SinkFault};

#[cfg(test)]
mod tests;
