// Where words lie.
use crate::program::{DATA, DataCode};

/// A block of the heap: `len` words from `start` on, in a room that may be greater.
#[derive(Clone, Copy)]
pub(crate) struct Block {
    pub start: usize,
    pub len: usize,
    pub room: usize,
    pub grows: bool,
}

/// A waiting call: where it goes on, its frame, the slot of the result, and the weight that ends with it.
#[derive(Clone, Copy)]
pub(crate) struct Caller {
    pub pc: u32,
    pub base: usize,
    pub to: u32,
    pub weight: u32,
}

/// What a run has beside its frames and its heap.
#[derive(Clone, Copy)]
pub(crate) struct Store<'a> {
    pub blocks: &'a [Block],
    /// For each data that was written, the block that it lies in since then; 0 for others.
    pub moved: &'a [u64],
    pub data: &'a [DataCode],
    pub words: &'a [u64],
}

#[inline(always)]
pub(crate) fn get(stack: &[u64], base: usize, s: u32) -> u64 {
    match stack.get(base.wrapping_add(s as usize)) {
        Some(w) => *w,
        None => 0,
    }
}

#[inline(always)]
pub(crate) fn set(stack: &mut [u64], base: usize, s: u32, w: u64) {
    if let Some(word) = stack.get_mut(base.wrapping_add(s as usize)) {
        *word = w;
    }
}

/// The block in which the words of a block lie since they were written.
#[inline(always)]
pub(crate) fn real_block(moved: &[u64], block: u64) -> u64 {
    if block < DATA {
        return block;
    }
    match moved.get((block - DATA) as usize) {
        Some(0) | None => block,
        Some(other) => *other,
    }
}

/// The word at an address.
#[inline(always)]
pub(crate) fn load(
    stack: &[u64],
    heap: &[u64],
    store: Store,
    block: u64,
    offset: u64,
) -> Option<u64> {
    if block == 0 {
        return stack.get(offset as usize).copied();
    }
    let lies = real_block(store.moved, block);
    if lies >= DATA {
        let data = store.data.get((lies - DATA) as usize)?;
        if offset >= u64::from(data.len) {
            return None;
        }
        return store
            .words
            .get((data.from as usize).wrapping_add(offset as usize))
            .copied();
    }
    let known = store.blocks.get((lies as usize).wrapping_sub(1))?;
    if offset as usize >= known.len {
        return None;
    }
    heap.get(known.start.wrapping_add(offset as usize)).copied()
}

/// How a write went.
#[derive(Clone, Copy)]
pub(crate) enum Written {
    Done,
    /// The data has no block yet.
    Shared,
    Outside,
}

/// Writes the word at an address.
#[inline(always)]
pub(crate) fn put(
    stack: &mut [u64],
    heap: &mut [u64],
    store: Store,
    block: u64,
    offset: u64,
    w: u64,
) -> Written {
    if block == 0 {
        return place(stack, offset as usize, w);
    }
    let lies = real_block(store.moved, block);
    if lies >= DATA {
        return Written::Shared;
    }
    match store.blocks.get((lies as usize).wrapping_sub(1)) {
        Some(known) if (offset as usize) < known.len => {
            place(heap, known.start.wrapping_add(offset as usize), w)
        }
        _ => Written::Outside,
    }
}

#[inline(always)]
fn place(words: &mut [u64], n: usize, w: u64) -> Written {
    match words.get_mut(n) {
        Some(word) => {
            *word = w;
            Written::Done
        }
        None => Written::Outside,
    }
}

/// Copies words within the frames, from the first to the last.
#[inline(always)]
pub(crate) fn shift(stack: &mut [u64], to: usize, from: usize, n: u32) {
    for k in 0..n {
        if let Some(w) = stack.get(from.wrapping_add(k as usize)).copied() {
            if let Some(word) = stack.get_mut(to.wrapping_add(k as usize)) {
                *word = w;
            }
        }
    }
}
