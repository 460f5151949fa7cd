// Instructions outside of the loop.
use crate::blocks::Fault;
use crate::machine::{Exit, Machine};
use crate::print::{push_bytes, push_number};
use crate::program::Program;
use dc_code::Op;
use dc_types::{Kind, TrapKind};

/// How a run goes on.
#[derive(Clone, Copy)]
pub(crate) enum Next {
    Goes,
    /// The pending text goes out.
    Puts,
    Leaves(Exit),
}

impl Machine {
    /// Makes, joins and extends arrays.
    fn array(&mut self, program: &Program, op: Op) -> Result<bool, Fault> {
        match op {
            Op::Own(d, c) => self.own(d, c)?,
            Op::Make(d, s, e, c, grows) => {
                let len = self.word(s);
                self.make(program, d, len, e, c, grows)?;
            }
            Op::List(d, s, n, c, grows) => self.list(d, s, n, c, grows)?,
            Op::Join(d, a, b, c, grows) => {
                let left = self.span(a);
                let right = self.span(b);
                self.join(program, d, left, right, c, grows)?;
            }
            Op::Append(d, a, b, c, grows) => {
                let left = self.span(a);
                let right = self.span(b);
                self.append(program, d, left, right, c, grows)?;
            }
            Op::CopyPart(a, b, c) => {
                let left = self.span(a);
                let right = self.span(b);
                self.copy_part(program, left, right, c)?;
            }
            _ => return Ok(false),
        }
        Ok(true)
    }

    /// What else is done on words.
    fn words_done(&mut self, program: &Program, op: Op) -> Result<bool, Fault> {
        match op {
            Op::Fill(a, s, c) => {
                let span = self.span(a);
                self.fill(program, span, s, c)?;
            }
            Op::Same(d, a, b, c) => {
                let left = self.span(a);
                let right = self.span(b);
                let same = self.same(program, left, right, c)?;
                self.set_word(d, if same { 1 } else { 0 });
            }
            Op::FixedPart(d, p, a, b, m, c) => self.fixed_part(d, p, a, b, m, c)?,
            Op::Store(p, s, n) => {
                let block = self.word(p);
                let from = self.word(p.wrapping_add(1));
                let words = self.frame_words(s, u64::from(n))?;
                self.write(program, block, from, words.as_slice())?;
            }
            Op::Check(s, trap) => {
                if self.word(s) == 0 {
                    return Err(Fault::Trap(trap));
                }
            }
            _ => return Ok(false),
        }
        Ok(true)
    }

    fn fixed_part(&mut self, d: u32, p: u32, a: u32, b: u32, m: u32, c: u32) -> Result<(), Fault> {
        let block = self.word(p);
        let from = self.word(p.wrapping_add(1));
        let lo = self.word(a);
        let hi = self.word(b);
        if lo > hi || hi > u64::from(m) {
            return Err(Fault::Trap(TrapKind::Bounds));
        }
        let start = from.wrapping_add(lo.wrapping_mul(u64::from(c)));
        self.set_word(d, block);
        self.set_word(d.wrapping_add(1), start);
        self.set_word(d.wrapping_add(2), hi.wrapping_sub(lo));
        Ok(())
    }

    fn put_int(&mut self, kind: Kind, s: u32) -> Result<(), Fault> {
        let w = self.word(s);
        push_number(&mut self.pending, kind, w)
    }

    /// Adds to the pending text.
    fn text(&mut self, program: &Program, op: Op) -> Result<bool, Fault> {
        match op {
            Op::Number(d, kind, s) => {
                let w = self.word(s);
                self.number_text(d, kind, w)?;
            }
            Op::PutInt(kind, s) => self.put_int(kind, s)?,
            Op::PutText(v) => {
                let span = self.span(v);
                self.put_text(program, span)?;
            }
            Op::PutList(kind, v) => {
                let span = self.span(v);
                self.put_list(program, kind, span)?;
            }
            Op::PutData(g) => push_bytes(&mut self.pending, program.data(g))?,
            _ => return Ok(false),
        }
        Ok(true)
    }

    fn do_slow(&mut self, program: &Program, op: Op) -> Result<(), Fault> {
        if !self.array(program, op)? && !self.words_done(program, op)? {
            self.text(program, op)?;
        }
        Ok(())
    }

    /// Does the instruction at which the loop was left.
    pub(crate) fn slow(&mut self, program: &Program) -> Next {
        let pc = (self.at.pc % 4294967296) as u32;
        let place = program.place(pc);
        match program.op(pc) {
            None => Next::Leaves(Exit::NoMemory),
            Some(Op::GlobalAt(_, g)) => match program.global(g) {
                Some(known) if !self.whole && !known.is_const => {
                    Next::Leaves(Exit::Shared(place, g))
                }
                _ => Next::Leaves(Exit::Unset(g)),
            },
            Some(Op::Flush) => {
                if self.whole {
                    Next::Puts
                } else {
                    Next::Leaves(Exit::Printing(place, pc))
                }
            }
            Some(op) => match self.do_slow(program, op) {
                Ok(()) => {
                    self.at.pc = self.at.pc.wrapping_add(1);
                    Next::Goes
                }
                Err(Fault::Trap(trap)) => Next::Leaves(Exit::Trapped(trap, place)),
                Err(Fault::Want) => Next::Leaves(Exit::NoMemory),
            },
        }
    }
}
