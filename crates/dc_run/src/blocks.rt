// Blocks of the heap.
use crate::machine::Machine;
use crate::memory::{Block, real_block};
use crate::program::{DATA, Program};
use dc_syntax::Want;

/// What an instruction meets that wants memory or has no result.
#[derive(Clone, Copy)]
pub(crate) enum Fault {
    Want,
    Trap(dc_types::TrapKind),
}

impl From<Want> for Fault {
    fn from(_: Want) -> Fault {
        Fault::Want
    }
}

impl From<std::alloc::AllocError> for Fault {
    fn from(_: std::alloc::AllocError) -> Fault {
        Fault::Want
    }
}

impl<T: Drop> From<std::alloc::AllocFailed<T>> for Fault {
    fn from(_: std::alloc::AllocFailed<T>) -> Fault {
        Fault::Want
    }
}

pub(crate) const HEAP: Fault = Fault::Trap(dc_types::TrapKind::Heap);

pub(crate) const BOUNDS: Fault = Fault::Trap(dc_types::TrapKind::Bounds);

/// A slice: its block, the first word, and the number of elements.
#[derive(Clone, Copy)]
pub(crate) struct Span {
    pub block: u64,
    pub from: u64,
    pub len: u64,
}

impl Machine {
    pub(crate) fn span(&self, v: u32) -> Span {
        Span {
            block: self.word(v),
            from: self.word(v.wrapping_add(1)),
            len: self.word(v.wrapping_add(2)),
        }
    }

    pub(crate) fn set_span(&mut self, d: u32, span: Span) {
        self.set_word(d, span.block);
        self.set_word(d.wrapping_add(1), span.from);
        self.set_word(d.wrapping_add(2), span.len);
    }

    /// The words of a block from one on, where it has so many.
    pub(crate) fn part<'a>(
        &'a self,
        program: &'a Program,
        block: u64,
        from: u64,
        n: u64,
    ) -> Option<&'a [u64]> {
        let end = from.checked_add(n)?;
        if block == 0 {
            return self.stack.get(from as usize..end as usize);
        }
        let lies = real_block(self.moved.as_slice(), block);
        if lies >= DATA {
            let words = program.data(u32::try_from(lies - DATA).ok()?);
            return words.get(from as usize..end as usize);
        }
        let known = self.blocks.get((lies as usize).wrapping_sub(1)).copied()?;
        if end as usize > known.len {
            return None;
        }
        let start = known.start.checked_add(from as usize)?;
        let stop = known.start.checked_add(end as usize)?;
        self.heap.get(start..stop)
    }

    /// The words of a slice of elements with so many cells each.
    pub(crate) fn span_words<'a>(
        &'a self,
        program: &'a Program,
        span: Span,
        c: u32,
    ) -> Result<&'a [u64], Fault> {
        let Some(n) = span.len.checked_mul(u64::from(c)) else {
            return Err(BOUNDS);
        };
        match self.part(program, span.block, span.from, n) {
            Some(words) => Ok(words),
            None => Err(BOUNDS),
        }
    }

    /// Takes cells, where there are so many left.
    pub(crate) fn take(&mut self, cells: u64) -> Result<(), Fault> {
        match self.cells.checked_sub(cells) {
            Some(left) => {
                self.cells = left;
                Ok(())
            }
            None => Err(HEAP),
        }
    }

    /// A new block of words, which costs nothing itself.
    pub(crate) fn add_block(&mut self, words: &[u64], grows: bool) -> Result<u64, Fault> {
        let start = self.heap.len();
        self.heap.extend_from_slice(words)?;
        self.blocks.push(Block {
            start,
            len: words.len(),
            room: words.len(),
            grows,
        })?;
        Ok(self.blocks.len() as u64)
    }

    /// Gives data a block of the heap, since it is to be written.
    pub(crate) fn own_data(&mut self, program: &Program, block: u64) -> Result<(), Fault> {
        if block < DATA {
            return Ok(());
        }
        let Ok(n) = u32::try_from(block - DATA) else {
            return Err(BOUNDS);
        };
        if real_block(self.moved.as_slice(), block) < DATA {
            return Ok(());
        }
        if program.data.len() <= n as usize {
            return Err(BOUNDS);
        }
        let own = self.add_block(program.data(n), false)?;
        if self.moved.len() <= n as usize {
            self.moved.resize(program.data.len(), 0)?;
        }
        if let Some(slot) = self.moved.get_mut(n as usize) {
            *slot = own;
        }
        Ok(())
    }

    /// Writes words into a block from one on.
    pub(crate) fn write(
        &mut self,
        program: &Program,
        block: u64,
        from: u64,
        words: &[u64],
    ) -> Result<(), Fault> {
        self.own_data(program, block)?;
        let Some(end) = from.checked_add(words.len() as u64) else {
            return Err(BOUNDS);
        };
        let lies = real_block(self.moved.as_slice(), block);
        let at = if block == 0 {
            from as usize
        } else {
            match self.blocks.get((lies as usize).wrapping_sub(1)) {
                Some(known) if end as usize <= known.len => known.start.wrapping_add(from as usize),
                _ => return Err(BOUNDS),
            }
        };
        let target = if block == 0 {
            &mut self.stack
        } else {
            &mut self.heap
        };
        for (k, w) in words.iter().enumerate() {
            match target.get_mut(at.wrapping_add(k)) {
                Some(word) => *word = *w,
                None => return Err(BOUNDS),
            }
        }
        Ok(())
    }

    /// A copy of the words of the frame from a slot on.
    pub(crate) fn frame_words(&self, s: u32, n: u64) -> Result<Vec<u64>, Fault> {
        let mut words = Vec::new(self.alloc);
        let from = self.at.base.wrapping_add(s as usize);
        let Some(end) = from.checked_add(n as usize) else {
            return Err(BOUNDS);
        };
        match self.stack.get(from..end) {
            Some(found) => words.extend_from_slice(found)?,
            None => return Err(BOUNDS),
        }
        Ok(words)
    }
}
