// The test whether a draft is sound code.
ghost use Rattle.std.specs.Prelude.{◌≡◌, ℕ, ◌+◌, ◌<◌, ◌≤◌, length, slice_get, Some, All, IsTrue, ◌↔◌};
ghost use Rattle.dc_code.specs.Sound.{IsShort, IsShortPlace, IsShortCode, IsThere, IsTurn, JumpFits, JumpsFit, CalleeFits, CallsFit, ReturnsFit, NamesFit, InstrFits, IsLast, FunctionFits, first_of, end_of, IsSound};
ghost use Rattle.dc_code.specs.declared.instr.Function.{Function as Part};
ghost use Rattle.dc_code.specs.declared.instr.Instr.{Instr as Line};

use crate::places::{is_short, is_short_place};
use crate::slots::{address_slots_fit, block_slots_fit, number_slots_fit};
use crate::{Draft, Function, Instr, Op, Words};

// ---- lists that a number of 32 bits counts

fn are_short(blocks: &[Words]) -> bool
    ensures { IsTrue result ↔ All (λ words. IsShort words) blocks.now }
{
    blocks.iter().all(|words| is_short(words.as_slice()))
}

fn have_short_places(functions: &[Function]) -> bool
    ensures { IsTrue result ↔ All (λ f. IsShortPlace f.place) functions.now }
{
    functions.iter().all(|f| is_short_place(&f.place))
}

fn stand_at_short_places(instrs: &[Instr]) -> bool
    ensures { IsTrue result ↔ All (λ i. IsShortPlace i.place) instrs.now }
{
    instrs.iter().all(|i| is_short_place(&i.place))
}

/// Whether a number of 32 bits counts each list of the draft.
pub fn is_short_code(draft: &Draft) -> bool
    ensures { IsTrue result ↔ IsShortCode draft.now }
{
    is_short(draft.functions.as_slice())
        && is_short(draft.instrs.as_slice())
        && is_short(draft.blocks.as_slice())
        && is_short(draft.globals.as_slice())
        && is_short(draft.entries.as_slice())
        && are_short(draft.blocks.as_slice())
        && are_short(draft.globals.as_slice())
        && have_short_places(draft.functions.as_slice())
        && stand_at_short_places(draft.instrs.as_slice())
}

// ---- an instruction

fn is_turn_at(instrs: &[Instr], t: u32) -> bool
    ensures { IsTrue result ↔ IsThere (slice_get instrs.now t) (λ i. IsTurn i.op) }
{
    match instrs.get(t as usize) {
        None => false,
        Some(i) => match i.op {
            Op::Turn => true,
            _ => false,
        },
    }
}

/// Whether a jump from `pc` to `t` fits the function that goes from `first` to `end`.
fn jump_fits(instrs: &[Instr], first: u32, end: usize, pc: usize, t: u32) -> bool
    ensures { IsTrue result ↔ JumpFits instrs.now first end pc t }
{
    first <= t && (t as usize) < end && (pc < t as usize || is_turn_at(instrs, t))
}

fn jumps_fit(instrs: &[Instr], first: u32, end: usize, pc: usize, op: Op) -> bool
    ensures { IsTrue result ↔ JumpsFit instrs.now first end pc op }
{
    match op {
        Op::Jump(t) => jump_fits(instrs, first, end, pc, t),
        Op::JumpZero(_, t) => jump_fits(instrs, first, end, pc, t),
        Op::JumpOther(_, t) => jump_fits(instrs, first, end, pc, t),
        _ => true,
    }
}

fn callee_fits(weight: u32, a: u32, d: u32, f: &Function) -> bool
    ensures { IsTrue result ↔ CalleeFits weight a d f.now }
{
    f.params <= f.weight
        && f.result <= f.weight
        && a as u64 + f.params as u64 <= weight as u64
        && d as u64 + f.result as u64 <= weight as u64
}

fn calls_fit(functions: &[Function], weight: u32, op: Op) -> bool
    ensures { IsTrue result ↔ CallsFit functions.now weight op }
{
    match op {
        Op::Call(f, a, d) => match functions.get(f as usize) {
            None => false,
            Some(f) => callee_fits(weight, a, d, f),
        },
        _ => true,
    }
}

fn returns_fit(result_words: u32, op: Op) -> bool
    ensures { IsTrue result ↔ ReturnsFit result_words op }
{
    match op {
        Op::Return(_, n) => n == result_words,
        _ => true,
    }
}

fn has_words(blocks: &[Words], e: u32, c: u32) -> bool
    ensures { IsTrue result ↔ IsThere (slice_get blocks.now e) (λ words. length words ≡ c) }
{
    match blocks.get(e as usize) {
        None => false,
        Some(words) => words.len() == c as usize,
    }
}

fn names_fit(draft: &Draft, op: Op) -> bool
    ensures { IsTrue result ↔ NamesFit draft.now op }
{
    match op {
        Op::GlobalAt(_, g) => (g as usize) < draft.globals.len(),
        Op::Data(_, g) => (g as usize) < draft.blocks.len(),
        Op::Make(_, _, e, c, _) => has_words(draft.blocks.as_slice(), e, c),
        Op::PutData(g) => (g as usize) < draft.blocks.len(),
        _ => true,
    }
}

fn instr_fits(draft: &Draft, f: &Function, end: usize, pc: usize, op: Op) -> bool
    ensures { IsTrue result ↔ InstrFits draft.now f.now end pc op }
{
    jumps_fit(draft.instrs.as_slice(), f.first, end, pc, op)
        && number_slots_fit(f.weight, op)
        && address_slots_fit(f.weight, op)
        && block_slots_fit(f.weight, op)
        && calls_fit(draft.functions.as_slice(), f.weight, op)
        && returns_fit(f.result, op)
        && names_fit(draft, op)
}

// ---- a function

fn is_last_at(instrs: &[Instr], pc: usize) -> bool
    ensures { IsTrue result ↔ IsThere (slice_get instrs.now pc) (λ i. IsLast i.op) }
{
    match instrs.get(pc) {
        None => false,
        Some(i) => match i.op {
            Op::Jump(_) => true,
            Op::Return(_, _) => true,
            _ => false,
        },
    }
}

fn instrs_fit(draft: &Draft, f: &Function, end: usize) -> bool
    requires { end ≤ length draft.now.instrs }
    ensures { IsTrue result ↔ ((pc : ℕ) (i : Line) → f.now.first ≤ pc → pc < end → slice_get draft.now.instrs pc ≡ Some i → InstrFits draft.now f.now end pc i.op) }
{
    let instrs = draft.instrs.as_slice();
    for pc in f.first as usize..end {
        if !instr_fits(draft, f, end, pc, instrs[pc].op) {
            return false;
        }
    }
    true
}

fn function_fits(draft: &Draft, f: &Function, end: usize) -> bool
    ensures { IsTrue result ↔ FunctionFits draft.now f.now end }
{
    (f.first as usize) < end
        && end <= draft.instrs.len()
        && f.weight <= 4194304
        && is_last_at(draft.instrs.as_slice(), end - 1)
        && instrs_fit(draft, f, end)
}

// ---- the whole

/// Where the function before that number ends.
fn first_at(draft: &Draft, n: usize) -> usize
    ensures { result ≡ first_of (slice_get draft.now.functions n) (length draft.now.instrs) }
{
    match draft.functions.as_slice().get(n) {
        None => draft.instrs.len(),
        Some(f) => f.first as usize,
    }
}

fn functions_fit(draft: &Draft) -> bool
    requires { IsShort draft.now.functions }
    ensures { IsTrue result ↔ ((n : ℕ) (f : Part) → slice_get draft.now.functions n ≡ Some f → FunctionFits draft.now f (end_of draft.now n)) }
{
    let functions = draft.functions.as_slice();
    for n in 0..functions.len() {
        if !function_fits(draft, &functions[n], first_at(draft, n + 1)) {
            return false;
        }
    }
    true
}

fn is_entry(functions: &[Function], n: u32) -> bool
    ensures { IsTrue result ↔ IsThere (slice_get functions.now n) (λ f. f.params ≡ 0) }
{
    match functions.get(n as usize) {
        None => false,
        Some(f) => f.params == 0,
    }
}

fn entries_fit(draft: &Draft) -> bool
    ensures { IsTrue result ↔ All (λ n. IsThere (slice_get draft.now.functions n) (λ f. f.params ≡ 0)) draft.now.entries }
{
    let functions = draft.functions.as_slice();
    draft
        .entries
        .as_slice()
        .iter()
        .all(|n| is_entry(functions, *n))
}

/// Whether the draft is sound code, in time linear in the draft.
pub fn is_sound_draft(draft: &Draft) -> bool
    ensures { IsTrue result ↔ IsSound draft.now }
{
    is_short_code(draft) && first_at(draft, 0) == 0 && functions_fit(draft) && entries_fit(draft)
}
