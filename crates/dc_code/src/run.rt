// What the machine keeps while code runs.
use crate::Words;

/// The calls that are open: their number, and the sum of their weights. An entry's frame counts to neither.
#[derive(Clone, Copy)]
pub struct Nest {
    pub depth: u64,
    pub weight: u64,
}

/// Where a call goes on in its caller: the next instruction, the frame's first word, the first slot of the result,
/// and the open calls there.
#[derive(Clone, Copy)]
pub struct Caller {
    pub pc: usize,
    pub base: usize,
    pub slot: u32,
    pub nest: Nest,
}

/// Words of an array, a module variable or data, and whether an append may lengthen them in place.
#[derive(Drop)]
pub struct Block {
    pub words: Words,
    pub growable: bool,
}
