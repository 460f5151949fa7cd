// The text of what is printed.
use crate::blocks::{Fault, Span};
use crate::machine::Machine;
use crate::program::Program;
use dc_types::Kind;

/// Adds a number in decimal.
fn push_digits(text: &mut Vec<u8>, n: u64) -> Result<(), Fault> {
    let mut digits = [b'0'; 20];
    let mut rest = n;
    let mut count: usize = 0;
    for digit in digits.iter_mut() {
        *digit = b'0' + (rest % 10) as u8;
        rest /= 10;
        count = count.wrapping_add(1);
        if rest == 0 {
            break;
        }
    }
    for k in 0..20usize {
        if let Some(digit) = digits.get(19 - k).copied() {
            if 19 - k < count {
                text.push(digit)?;
            }
        }
    }
    Ok(())
}

/// Adds the text of a number of a kind.
pub(crate) fn push_number(text: &mut Vec<u8>, kind: Kind, w: u64) -> Result<(), Fault> {
    match kind {
        Kind::Bool => {
            let word: &[u8] = if w == 0 { b"false" } else { b"true" };
            text.extend_from_slice(word)?;
        }
        Kind::Char => text.push((w % 256) as u8)?,
        Kind::I8 | Kind::I16 | Kind::I32 | Kind::I64 => {
            let n = w.cast_signed();
            if n < 0 {
                text.push(b'-')?;
            }
            push_digits(text, n.unsigned_abs())?;
        }
        Kind::U8 | Kind::U16 | Kind::U32 | Kind::U64 => push_digits(text, w)?,
    }
    Ok(())
}

/// Adds the bytes that words hold.
pub(crate) fn push_bytes(text: &mut Vec<u8>, words: &[u64]) -> Result<(), Fault> {
    for w in words {
        text.push((*w % 256) as u8)?;
    }
    Ok(())
}

/// Adds numbers as `[1, 2]`.
fn push_list(text: &mut Vec<u8>, kind: Kind, words: &[u64]) -> Result<(), Fault> {
    text.push(b'[')?;
    for (k, w) in words.iter().enumerate() {
        if k > 0 {
            text.extend_from_slice(b", ")?;
        }
        push_number(text, kind, *w)?;
    }
    text.push(b']')?;
    Ok(())
}

impl Machine {
    /// A new block of the text of a number.
    pub(crate) fn number_text(&mut self, d: u32, kind: Kind, w: u64) -> Result<(), Fault> {
        let mut text = Vec::new(self.alloc);
        push_number(&mut text, kind, w)?;
        let mut words = Vec::new(self.alloc);
        for byte in text.as_slice() {
            words.push(u64::from(*byte))?;
        }
        let len = words.len() as u64;
        self.take(len)?;
        let block = self.add_block(words.as_slice(), false)?;
        self.set_span(
            d,
            Span {
                block,
                from: 0,
                len,
            },
        );
        Ok(())
    }

    pub(crate) fn put_text(&mut self, program: &Program, span: Span) -> Result<(), Fault> {
        let mut text = Vec::new(self.alloc);
        push_bytes(&mut text, self.span_words(program, span, 1)?)?;
        self.pending.extend_from_slice(text.as_slice())?;
        Ok(())
    }

    pub(crate) fn put_list(
        &mut self,
        program: &Program,
        kind: Kind,
        span: Span,
    ) -> Result<(), Fault> {
        let mut text = Vec::new(self.alloc);
        push_list(&mut text, kind, self.span_words(program, span, 1)?)?;
        self.pending.extend_from_slice(text.as_slice())?;
        Ok(())
    }
}
