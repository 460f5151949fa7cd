// Arrays that are made, joined and extended.
use crate::blocks::{BOUNDS, Fault, HEAP, Span};
use crate::machine::Machine;
use crate::memory::{Block, real_block};
use crate::program::{DATA, Program};
use dc_types::TrapKind;

/// The cells of so many elements.
fn cells(len: u64, c: u32) -> Result<u64, Fault> {
    match len.checked_mul(u64::from(c)) {
        Some(n) => Ok(n),
        None => Err(HEAP),
    }
}

impl Machine {
    /// A new block of words, which costs its cells.
    fn paid_block(&mut self, words: &[u64], len: u64, grows: bool) -> Result<Span, Fault> {
        self.take(words.len() as u64)?;
        let block = self.add_block(words, grows)?;
        Ok(Span {
            block,
            from: 0,
            len,
        })
    }

    /// A new block of words for a place.
    pub(crate) fn own(&mut self, d: u32, c: u32) -> Result<(), Fault> {
        self.take(u64::from(c))?;
        let start = self.heap.len();
        self.heap.resize(start.saturating_add(c as usize), 0)?;
        self.blocks.push(Block {
            start,
            len: c as usize,
            room: c as usize,
            grows: false,
        })?;
        let block = self.blocks.len() as u64;
        self.set_word(d, block);
        self.set_word(d.wrapping_add(1), 0);
        Ok(())
    }

    /// A new block of copies of an element.
    pub(crate) fn make(
        &mut self,
        program: &Program,
        d: u32,
        len: u64,
        e: u32,
        c: u32,
        grows: bool,
    ) -> Result<(), Fault> {
        let n = cells(len, c)?;
        self.take(n)?;
        let start = self.heap.len();
        let words = program.data(e);
        if let [only] = words {
            self.heap.resize(start.saturating_add(n as usize), *only)?;
        } else {
            for _ in 0..len {
                self.heap.extend_from_slice(words)?;
            }
        }
        let held = self.heap.len().saturating_sub(start);
        self.blocks.push(Block {
            start,
            len: held,
            room: held,
            grows,
        })?;
        let block = self.blocks.len() as u64;
        self.set_span(
            d,
            Span {
                block,
                from: 0,
                len,
            },
        );
        Ok(())
    }

    /// A new block of elements that stand in the frame.
    pub(crate) fn list(
        &mut self,
        d: u32,
        s: u32,
        n: u32,
        c: u32,
        grows: bool,
    ) -> Result<(), Fault> {
        let count = cells(u64::from(n), c)?;
        let words = self.frame_words(s, count)?;
        let span = self.paid_block(words.as_slice(), u64::from(n), grows)?;
        self.set_span(d, span);
        Ok(())
    }

    /// A new block of the elements of two slices.
    pub(crate) fn join(
        &mut self,
        program: &Program,
        d: u32,
        a: Span,
        b: Span,
        c: u32,
        grows: bool,
    ) -> Result<(), Fault> {
        let Some(len) = a.len.checked_add(b.len) else {
            return Err(HEAP);
        };
        let n = cells(len, c)?;
        if n > self.cells {
            return Err(HEAP);
        }
        let mut words = Vec::new(self.alloc);
        words.extend_from_slice(self.span_words(program, a, c)?)?;
        words.extend_from_slice(self.span_words(program, b, c)?)?;
        let span = self.paid_block(words.as_slice(), len, grows)?;
        self.set_span(d, span);
        Ok(())
    }

    /// The block of a slice that may be extended in place.
    fn extensible(&self, a: Span, n: u64) -> Option<Block> {
        if a.block == 0 || a.block >= DATA {
            return None;
        }
        let known = self
            .blocks
            .get((a.block as usize).wrapping_sub(1))
            .copied()?;
        if known.grows && a.from.checked_add(n)? as usize == known.len {
            Some(known)
        } else {
            None
        }
    }

    /// Moves a block to the end of the heap, with room for as many words again and more.
    fn move_block(&mut self, block: u64, known: Block, more: usize) -> Result<Block, Fault> {
        let start = self.heap.len();
        let room = known.len.saturating_add(more).saturating_mul(2);
        self.heap.resize(start.saturating_add(room), 0)?;
        for k in 0..known.len {
            if let Some(w) = self.heap.get(known.start.wrapping_add(k)).copied() {
                if let Some(word) = self.heap.get_mut(start.wrapping_add(k)) {
                    *word = w;
                }
            }
        }
        let moved = Block {
            start,
            room,
            ..known
        };
        if let Some(slot) = self.blocks.get_mut((block as usize).wrapping_sub(1)) {
            *slot = moved;
        }
        Ok(moved)
    }

    /// Writes words behind those of a block.
    fn extend(&mut self, block: u64, known: Block, words: &[u64]) -> Result<(), Fault> {
        let end = known.len.saturating_add(words.len());
        let home = if end <= known.room {
            known
        } else {
            self.move_block(block, known, words.len())?
        };
        for (k, w) in words.iter().enumerate() {
            let at = home.start.wrapping_add(home.len).wrapping_add(k);
            if let Some(word) = self.heap.get_mut(at) {
                *word = *w;
            }
        }
        if let Some(slot) = self.blocks.get_mut((block as usize).wrapping_sub(1)) {
            slot.len = end;
        }
        Ok(())
    }

    /// The slice with the elements of another behind it.
    pub(crate) fn append(
        &mut self,
        program: &Program,
        d: u32,
        a: Span,
        b: Span,
        c: u32,
        grows: bool,
    ) -> Result<(), Fault> {
        let held = cells(a.len, c)?;
        let more = cells(b.len, c)?;
        match self.extensible(a, held) {
            None => self.join(program, d, a, b, c, grows),
            Some(known) => {
                if more > self.cells {
                    return Err(HEAP);
                }
                let mut words = Vec::new(self.alloc);
                words.extend_from_slice(self.span_words(program, b, c)?)?;
                self.extend(a.block, known, words.as_slice())?;
                self.take(more)?;
                let len = a.len.saturating_add(b.len);
                self.set_span(d, Span { len, ..a });
                Ok(())
            }
        }
    }

    /// Copies the elements of a slice over those of another.
    pub(crate) fn copy_part(
        &mut self,
        program: &Program,
        a: Span,
        b: Span,
        c: u32,
    ) -> Result<(), Fault> {
        if a.len != b.len {
            return Err(Fault::Trap(TrapKind::Length));
        }
        let n = cells(a.len, c)?;
        let below = a.from < b.from.saturating_add(n);
        let above = b.from < a.from.saturating_add(n);
        if a.block == b.block && n > 0 && below && above {
            return Err(Fault::Trap(TrapKind::Overlap));
        }
        let mut words = Vec::new(self.alloc);
        words.extend_from_slice(self.span_words(program, b, c)?)?;
        self.write(program, a.block, a.from, words.as_slice())
    }

    /// Writes an element over each of a slice.
    pub(crate) fn fill(&mut self, program: &Program, a: Span, s: u32, c: u32) -> Result<(), Fault> {
        let words = self.frame_words(s, u64::from(c))?;
        let mut from = a.from;
        for _ in 0..a.len {
            self.write(program, a.block, from, words.as_slice())?;
            match from.checked_add(u64::from(c)) {
                Some(next) => from = next,
                None => return Err(BOUNDS),
            }
        }
        Ok(())
    }

    /// Whether two slices have equal words.
    pub(crate) fn same(&self, program: &Program, a: Span, b: Span, c: u32) -> Result<bool, Fault> {
        if a.len != b.len {
            return Ok(false);
        }
        let left = self.span_words(program, a, c)?;
        let right = self.span_words(program, b, c)?;
        for (x, y) in left.iter().zip(right.iter()) {
            if *x != *y {
                return Ok(false);
            }
        }
        Ok(true)
    }

    /// Whether a block is one of data that has no block of the heap.
    pub(crate) fn is_shared(&self, block: u64) -> bool {
        real_block(self.moved.as_slice(), block) >= DATA
    }
}
