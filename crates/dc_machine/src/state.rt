// What the machine keeps between two instructions, and what an instruction leads to.
use dc_code::{Caller, Nest};
use dc_types::TrapKind;

/// The machine between two instructions. The events and what doesn't change in a run aren't kept.
#[derive(Drop)]
pub struct State {
    pub pc: usize,
    /// The words of the open frames.
    pub words: Vec<u64>,
    /// Where the words of the last frame begin.
    pub base: usize,
    /// The waiting calls, the last one at the end.
    pub callers: Vec<Caller>,
    pub nest: Nest,
    /// The text of the next print.
    pub pending: Vec<u8>,
    /// The ticks that are left.
    pub left: u64,
}

/// Why a run stops.
#[derive(Clone, Copy)]
pub enum Stop {
    /// So many words, from a slot on, are the result.
    Returned(u32, u32),
    Trapped(TrapKind),
    Bound,
}

/// What an instruction leads to.
#[derive(Clone, Copy)]
pub enum Next {
    /// The next instruction.
    Goes,
    /// The same, after a turn.
    Turns,
    /// The same, in the function of that number, which was entered.
    Enters(u32),
    /// The same, after an instruction that takes memory.
    Takes,
    /// The pending text is to be printed.
    Prints,
    Stops(Stop),
    /// The function of that number is entered, and that is too deep.
    TooDeep(u32),
}

/// Why and at which instruction a run stops.
#[derive(Clone, Copy)]
pub struct Halt {
    pub pc: usize,
    pub stop: Stop,
}

/// Why a run breaks off.
#[derive(Clone, Copy)]
pub enum Fault {
    NoMemory,
    Failed,
}
