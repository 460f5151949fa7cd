// How a command ends, and want of memory.
use std::alloc::{AllocError, AllocFailed};

/// How a command ended. The program's exit status is a number of its own for each.
#[derive(Clone, Copy)]
pub enum Status {
    /// The command did all that it was to do.
    Done,
    /// The words are no command.
    Usage,
    /// The program breaks a rule.
    Refused,
    /// The program met a trap.
    Trapped,
    /// The program would have taken more ticks than it may.
    Bound,
    /// `main` gave a number other than 0.
    EndedWith,
    /// A file could not be read.
    ReadFault,
    /// Something could not be written.
    WriteFault,
    NoMemory,
}

/// Memory was wanted and refused.
#[derive(Clone, Copy)]
pub struct NoMemory;

impl From<AllocError> for NoMemory {
    fn from(_: AllocError) -> Self {
        NoMemory
    }
}

impl<T: Drop> From<AllocFailed<T>> for NoMemory {
    fn from(_: AllocFailed<T>) -> Self {
        NoMemory
    }
}
