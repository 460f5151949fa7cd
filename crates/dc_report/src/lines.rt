// The lines of a report, each with its line feed.
use crate::number::append_number;
use crate::shown::append_place;
use crate::words::{rule_name, trap_name};
use dc_model::{Refused, World};
use dc_syntax::{NameId, Want};
use dc_text::Texts;
use dc_tree::PlaceId;
use dc_types::{Text, TrapKind};
use std::alloc::Global;

/// Appends the detail of a refusal behind a colon, where there is one.
fn append_detail(line: &mut Text, w: &World, detail: Option<NameId>) -> Result<(), Want> {
    let Some(name) = detail else {
        return Ok(());
    };
    let bytes = w.pool.names.bytes(name);
    if !bytes.is_empty() {
        line.append(b": ")?;
        line.append(bytes)?;
    }
    Ok(())
}

/// The line that tells a refusal. The texts are those of the program, which its places count in.
pub fn refused_line(w: &World, texts: &Texts, refused: Refused) -> Result<Text, Want> {
    let mut line = Text::copy_of(w.alloc, b"refused: rule ")?;
    append_number(&mut line, w.alloc, u64::from(refused.rule))?;
    line.append(b" ")?;
    line.append(rule_name(refused.rule))?;
    line.append(b" at ")?;
    append_place(&mut line, w, texts, refused.place)?;
    append_detail(&mut line, w, refused.detail)?;
    line.append(b"\n")?;
    Ok(line)
}

/// The line that tells a trap. The texts are those of the program, which its places count in.
pub fn trap_line(w: &World, texts: &Texts, kind: TrapKind, place: PlaceId) -> Result<Text, Want> {
    let mut line = Text::copy_of(w.alloc, b"trap: ")?;
    line.append(trap_name(kind))?;
    line.append(b" at ")?;
    append_place(&mut line, w, texts, place)?;
    line.append(b"\n")?;
    Ok(line)
}

/// The line that tells that a run would have taken more ticks than it may.
pub fn bound_line(alloc: Global, ticks: u64) -> Result<Text, Want> {
    let mut line = Text::copy_of(alloc, b"bound: ")?;
    append_number(&mut line, alloc, ticks)?;
    line.append(b" ticks\n")?;
    Ok(line)
}

/// The line that tells the number that `main` gave.
pub fn ended_line(alloc: Global, number: i64) -> Result<Text, Want> {
    let digits = format!(in alloc; "{number}")?;
    let mut line = Text::copy_of(alloc, b"ended: ")?;
    line.append(digits.as_bytes())?;
    line.append(b"\n")?;
    Ok(line)
}

/// The line that tells a file that could not be read.
pub fn read_fault_line(alloc: Global, file: &[u8]) -> Result<Text, Want> {
    let mut line = Text::copy_of(alloc, b"read fault: ")?;
    line.append(file)?;
    line.append(b"\n")?;
    Ok(line)
}

/// What is printed where the words are no job.
pub fn usage_line() -> &'static [u8] {
    b"usage: dpc run|check|audit|gen\n"
}
