// A rule that a text breaks, as one that the program breaks.
use dc_model::{Stop, World};
use dc_tree::{SpotId, Where};
use dc_types::{Fail, Refusal, Step};

/// The offset in its text at which a rule is broken.
fn offset_of(refusal: &Refusal) -> u32 {
    match refusal.place.steps.as_slice().last() {
        Some(Step::At(offset)) => *offset,
        _ => 0,
    }
}

/// Refuses the program for what was refused in the text at a spot, by the rule that this makes of
/// it.
fn refuse<T>(w: &mut World, spot: SpotId, rule: u8, refusal: &Refusal) -> Result<T, Stop> {
    let at = Where {
        spot,
        at: offset_of(refusal),
    };
    let detail = refusal.detail.as_slice();
    if detail.is_empty() {
        return w.refuse(rule, at, None);
    }
    let name = w.pool.names.number(detail)?;
    w.refuse(rule, at, Some(name))
}

/// Refuses the program for what was refused in a file.
pub(crate) fn refuse_file<T>(w: &mut World, spot: SpotId, fail: &Fail) -> Result<T, Stop> {
    match fail {
        Fail::Refused(refusal) => refuse(w, spot, refusal.rule, refusal),
        Fail::NoMemory => Err(Stop::NoMemory),
    }
}

/// The rule that a mixin's text breaks where a file with that text would break this one.
fn rule_in_mixin(rule: u8) -> u8 {
    match rule {
        1 | 2 => 21,
        _ => rule,
    }
}

/// Refuses the program for what was refused in a mixin's text.
pub(crate) fn refuse_mixin<T>(w: &mut World, spot: SpotId, fail: &Fail) -> Result<T, Stop> {
    match fail {
        Fail::Refused(refusal) => refuse(w, spot, rule_in_mixin(refusal.rule), refusal),
        Fail::NoMemory => Err(Stop::NoMemory),
    }
}
