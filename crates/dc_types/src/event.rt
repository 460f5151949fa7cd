// What happens in a run, and what ends it.
use crate::{Items, Place, Places, Text};

/// What stops a program at an operation that has no result.
#[derive(Clone, Copy)]
pub enum TrapKind {
    Divide,
    Shift,
    Bounds,
    Length,
    Overlap,
    Assert,
    Heap,
    Depth,
}

/// A trap, at the operation that met it.
#[derive(Drop)]
pub struct Trap {
    pub kind: TrapKind,
    pub place: Place,
}

/// One thing that a run does.
#[derive(Drop)]
pub enum Event {
    /// A function is entered. It takes one tick.
    Enter(Place),
    /// A turn of a loop begins. It takes one tick.
    Turn(Place),
    /// Bytes are printed.
    Print(Text),
}

/// How far a run may go.
#[derive(Clone, Copy)]
pub struct Limits {
    /// The most function entries and loop turns together.
    pub ticks: u64,
    /// The most cells in all array blocks together.
    pub cells: u64,
    /// The most calls that are open at once.
    pub depth: u32,
    /// The most that the weights of the open calls come to.
    pub stack: u64,
}

/// How often a function was called.
#[derive(Drop)]
pub struct CallCount {
    pub place: Place,
    pub number: u64,
}

/// What a probe has been told so far.
#[derive(Drop)]
pub enum ProbeState {
    /// The functions that were entered and the loops that were turned, each once.
    Covered { entered: Places, turned: Places },
    Called(Items<CallCount>),
    /// The functions that were entered first, up to a limit.
    First { limit: u32, places: Places },
}
