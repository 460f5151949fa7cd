// The lines of a report.
ghost use Rattle.std.specs.Prelude.{◌≡◌, ◌++◌, ◌∷◌, List, take, IfOk, OnOk, codes};
ghost use Rattle.std.specs.Fmt.{decimal, signed_decimal};
ghost use Rattle.dc_types.specs.declared.place.Step.{Step};
ghost use Rattle.dc_top.specs.Reports.{line_of, column_of, point_text, first_text, other_texts, steps_text, place_text, rule_name, detail_text, refused_line, read_fault_line, usage_line, trap_name, trap_line, bound_line, ended_line};

use crate::names::behind_last;
use dc_types::{Place, Refusal, Step, Text, Trap, TrapKind};
use std::alloc::{AllocError, Global};

/// What is printed where the words are no job.
#[tactic(auto, unfolding(crate::specs::Reports::usage_line))]
pub fn usage_line() -> &'static [u8]
    ensures { result.now ≡ usage_line }
{
    b"usage: dpc run|check|audit|gen\n"
}

fn append_number(line: &mut Text, alloc: Global, number: u64) -> Result<(), AllocError>
    ensures { OnOk result (line.new ≡ line.old ++ decimal number) }
{
    let digits = format!(in alloc; "{number}")?;
    line.append(digits.as_bytes())
}

/// The text up to an offset, or all where it is shorter.
fn before(text: &[u8], offset: u32) -> &[u8]
    ensures { result.now ≡ take offset text.now }
{
    let end = text.len().min(offset as usize);
    &text[..end]
}

#[tactic(auto, unfolding(crate::specs::Reports::line_of))]
fn line_of(text: &[u8], offset: u32) -> u64
    ensures { result ≡ line_of text.now offset }
{
    let feeds = before(text, offset)
        .iter()
        .filter(|byte| **byte == b'\n')
        .count();
    1 + feeds as u64
}

#[tactic(auto, unfolding(crate::specs::Reports::column_of))]
fn column_of(text: &[u8], offset: u32) -> u64
    ensures { result ≡ column_of text.now offset }
{
    1 + behind_last(b'\n', before(text, offset)).len() as u64
}

/// Appends `LINE:COLUMN`.
#[tactic(auto, unfolding(crate::specs::Reports::point_text))]
fn append_point(line: &mut Text, alloc: Global, text: &[u8], offset: u32) -> Result<(), AllocError>
    ensures { OnOk result (line.new ≡ line.old ++ point_text text.now offset) }
{
    append_number(line, alloc, line_of(text, offset))?;
    line.append(b":")?;
    append_number(line, alloc, column_of(text, offset))
}

/// What stands before the next offset of a place, and the texts that this and later ones count in.
#[derive(Clone, Copy)]
struct Ahead<'a> {
    front: &'a [u8],
    texts: &'a [Text],
}

fn first_text(texts: &[Text]) -> &[u8]
    ensures { result.now ≡ first_text texts.now }
{
    match texts.split_first() {
        Some((text, _)) => text.as_slice(),
        None => b"",
    }
}

fn other_texts(texts: &[Text]) -> &[Text]
    ensures { result.now ≡ other_texts texts.now }
{
    match texts.split_first() {
        Some((_, others)) => others,
        None => texts,
    }
}

fn append_step<'a>(
    line: &mut Text,
    alloc: Global,
    ahead: Ahead<'a>,
    step: &Step,
) -> Result<Ahead<'a>, AllocError>
    ensures { IfOk result (λ next. (rest : List Step) → line.new ++ steps_text next.front.now next.texts.now rest ≡ line.old ++ steps_text ahead.entry.front.now ahead.entry.texts.now (step.now ∷ rest)) }
{
    match step {
        Step::At(offset) => {
            line.append(ahead.front)?;
            append_point(line, alloc, first_text(ahead.texts), *offset)?;
            Ok(Ahead {
                front: b", mixin ",
                texts: other_texts(ahead.texts),
            })
        }
        Step::Round(number) => {
            line.append(b", round ")?;
            append_number(line, alloc, u64::from(*number))?;
            Ok(ahead)
        }
        Step::With(key) => {
            line.append(b", with ")?;
            line.append(key.as_slice())?;
            Ok(ahead)
        }
    }
}

/// The name of a rule, by its number from 1 to 25.
#[tactic(auto, unfolding(crate::specs::Reports::rule_name))]
fn rule_name(rule: u8) -> &'static [u8]
    ensures { result.now ≡ rule_name rule }
{
    match rule {
        1 => b"text",
        2 => b"grammar",
        3 => b"module twice",
        4 => b"no such module",
        5 => b"not found",
        6 => b"name conflict",
        7 => b"declared twice",
        8 => b"circular",
        9 => b"late declaration",
        10 => b"types",
        11 => b"no match",
        12 => b"ambiguous",
        13 => b"template",
        14 => b"static assert",
        15 => b"not constant",
        16 => b"compile-time trap",
        17 => b"compile-time ticks",
        18 => b"count",
        19 => b"mixin bytes",
        20 => b"no main",
        21 => b"mixin text",
        22 => b"not assignable",
        23 => b"outside profile",
        24 => b"size",
        25 => b"flow",
        _ => b"",
    }
}

/// Appends the steps of a place: an offset as line and column in its text, a round by its number, an instance by its
/// key text.
fn append_steps(
    line: &mut Text,
    alloc: Global,
    texts: &[Text],
    steps: &[Step],
) -> Result<(), AllocError>
    ensures { OnOk result (line.new ≡ line.old ++ steps_text (codes ":") texts.now steps.now) }
{
    let mut ahead = Ahead { front: b":", texts };
    for step in steps {
        ahead = append_step(line, alloc, ahead, step)?;
    }
    Ok(())
}

/// Appends `MODULE:LINE:COLUMN` and the further steps, or `-` for the whole program. The texts are the file's, and then
/// that of each mixin that the place is in.
#[tactic(auto, unfolding(crate::specs::Reports::place_text))]
fn append_place(
    line: &mut Text,
    alloc: Global,
    texts: &[Text],
    place: &Place,
) -> Result<(), AllocError>
    ensures { OnOk result (line.new ≡ line.old ++ place_text texts.now place.now) }
{
    if place.module.len() == 0 && place.steps.len() == 0 {
        return line.append(b"-");
    }
    line.append(place.module.as_slice())?;
    append_steps(line, alloc, texts, place.steps.as_slice())
}

/// Appends the detail of a refusal behind a colon, where there is one.
#[tactic(auto, unfolding(crate::specs::Reports::detail_text))]
fn append_detail(line: &mut Text, detail: &[u8]) -> Result<(), AllocError>
    ensures { OnOk result (line.new ≡ line.old ++ detail_text detail.now) }
{
    match detail.split_first() {
        None => Ok(()),
        Some(_) => {
            line.append(b": ")?;
            line.append(detail)
        }
    }
}

/// The line that tells a refusal. The texts are those that the offsets of its place count in.
#[tactic(auto, unfolding(crate::specs::Reports::refused_line))]
pub fn refused_line(alloc: Global, texts: &[Text], refusal: &Refusal) -> Result<Text, AllocError>
    ensures { IfOk result (λ line. line ≡ refused_line texts.now refusal.now) }
{
    let mut line = Text::copy_of(alloc, b"refused: rule ")?;
    append_number(&mut line, alloc, u64::from(refusal.rule))?;
    line.append(b" ")?;
    line.append(rule_name(refusal.rule))?;
    line.append(b" at ")?;
    append_place(&mut line, alloc, texts, &refusal.place)?;
    append_detail(&mut line, refusal.detail.as_slice())?;
    line.append(b"\n")?;
    Ok(line)
}

/// The line that tells a file that could not be read.
#[tactic(auto, unfolding(crate::specs::Reports::read_fault_line))]
pub fn read_fault_line(alloc: Global, file: &[u8]) -> Result<Text, AllocError>
    ensures { IfOk result (λ line. line ≡ read_fault_line file.now) }
{
    let mut line = Text::copy_of(alloc, b"read fault: ")?;
    line.append(file)?;
    line.append(b"\n")?;
    Ok(line)
}

/// The name of a trap.
fn trap_name(kind: TrapKind) -> &'static [u8]
    ensures { result.now ≡ trap_name kind }
{
    match kind {
        TrapKind::Divide => b"Divide",
        TrapKind::Shift => b"Shift",
        TrapKind::Bounds => b"Bounds",
        TrapKind::Length => b"Length",
        TrapKind::Overlap => b"Overlap",
        TrapKind::Assert => b"Assert",
        TrapKind::Heap => b"Heap",
        TrapKind::Depth => b"Depth",
    }
}

/// The line that tells a trap. The texts are those that the offsets of its place count in.
#[tactic(auto, unfolding(crate::specs::Reports::trap_line))]
pub fn trap_line(alloc: Global, texts: &[Text], trap: &Trap) -> Result<Text, AllocError>
    ensures { IfOk result (λ line. line ≡ trap_line texts.now trap.now) }
{
    let mut line = Text::copy_of(alloc, b"trap: ")?;
    line.append(trap_name(trap.kind))?;
    line.append(b" at ")?;
    append_place(&mut line, alloc, texts, &trap.place)?;
    line.append(b"\n")?;
    Ok(line)
}

/// The line that tells that a run would have taken more ticks than it may.
#[tactic(auto, unfolding(crate::specs::Reports::bound_line))]
pub fn bound_line(alloc: Global, ticks: u64) -> Result<Text, AllocError>
    ensures { IfOk result (λ line. line ≡ bound_line ticks) }
{
    let mut line = Text::copy_of(alloc, b"bound: ")?;
    append_number(&mut line, alloc, ticks)?;
    line.append(b" ticks\n")?;
    Ok(line)
}

/// The line that tells the number that `main` gave.
#[tactic(auto, unfolding(crate::specs::Reports::ended_line))]
pub fn ended_line(alloc: Global, number: i64) -> Result<Text, AllocError>
    ensures { IfOk result (λ line. line ≡ ended_line number) }
{
    let digits = format!(in alloc; "{number}")?;
    let mut line = Text::copy_of(alloc, b"ended: ")?;
    line.append(digits.as_bytes())?;
    line.append(b"\n")?;
    Ok(line)
}
