// What imports give (D specification, "Modules", "Import Declaration").
use crate::lookup::{Patience, rows_named};
use dc_model::{Ask, Env, Import, ImportForm, Question, Row, RowId, Stop, Work, World};
use dc_syntax::NameId;
use dc_tree::UnitId;
use std::cmp::Ordering;

/// A module into which a lookup goes, and the name that it looks for there.
#[derive(Clone, Copy, PartialEq, Eq)]
pub(crate) struct Step {
    pub unit: UnitId,
    pub name: NameId,
}

/// Where an import leads a name.
fn step_of(w: &World, import: Import, name: NameId) -> Option<Step> {
    let unit = w.modules.get(&import.path).copied();
    match (import.form, unit) {
        (ImportForm::Plain, Some(unit)) => Some(Step { unit, name }),
        (ImportForm::Selected(own, original), Some(unit)) if own == name => Some(Step {
            unit,
            name: original,
        }),
        _ => None,
    }
}

/// Adds where a chain of imports leads a name, each step once.
fn add_steps(
    w: &World,
    last: Option<RowId>,
    name: NameId,
    only_public: bool,
    steps: &mut Vec<Step>,
) -> Result<(), Stop> {
    let mut at = last;
    for _ in 0..u64::MAX {
        let Some(row) = at.and_then(|id| w.rows.get(id)) else {
            break;
        };
        at = row.before;
        let Some(import) = row.import else {
            continue;
        };
        if only_public && !import.is_public {
            continue;
        }
        if let Some(step) = step_of(w, import, name) {
            if !steps.contains(&step) {
                steps.push(step)?;
            }
        }
    }
    Ok(())
}

/// Whether code in a unit stands in another.
pub(crate) fn stands_in(w: &World, unit: UnitId, other: UnitId) -> Result<bool, Stop> {
    let mut at = Some(unit);
    for _ in 0..u64::MAX {
        let Some(id) = at else {
            break;
        };
        if id == other {
            return Ok(true);
        }
        at = w.unit(id)?.outer;
    }
    Ok(false)
}

/// The need for the first conditional of a unit that isn't settled, where the code doesn't stand in
/// it.
pub(crate) fn wait(w: &mut World, env: Env, unit: UnitId) -> Result<(), Stop> {
    let Some(cond) = w.unit(unit)?.pending else {
        return Ok(());
    };
    if stands_in(w, env.unit, unit)? {
        return Ok(());
    }
    let stands_at = w.cond(cond)?.at;
    let at = w.pool.places.place(stands_at)?;
    w.ask(
        Question {
            ask: Ask::Settle,
            at,
        },
        Work::Settle(cond),
    )?;
    Ok(())
}

/// Waits for all units of a level, the first in the order of places first.
fn wait_all(w: &mut World, env: Env, steps: &[Step]) -> Result<(), Stop> {
    let mut first: Option<UnitId> = None;
    for step in steps {
        if w.unit(step.unit)?.pending.is_none() || stands_in(w, env.unit, step.unit)? {
            continue;
        }
        let place = w.place_of(step.unit)?;
        let is_first = match first {
            None => true,
            Some(other) => {
                let known = w.place_of(other)?;
                w.pool.places.compare(&w.pool.names, place, known)? == Ordering::Less
            }
        };
        if is_first {
            first = Some(step.unit);
        }
    }
    match first {
        Some(unit) => wait(w, env, unit),
        None => Ok(()),
    }
}

/// Whether a module gives a row to those who import it.
fn is_given(row: Row) -> bool {
    match row.import {
        None => !row.hidden,
        Some(import) => import.form == ImportForm::Renamed && import.is_public,
    }
}

/// Adds the rows that a module itself gives for a name. Answers whether there are any.
fn own_rows(w: &World, step: Step, hits: &mut Vec<RowId>) -> Result<bool, Stop> {
    let mut rows = Vec::new(w.alloc);
    rows_named(w, step.unit, step.name, &mut rows)?;
    let mut gives = false;
    for id in rows.as_slice() {
        if let Some(row) = w.rows.get(*id) {
            if is_given(row) {
                gives = true;
                if !hits.contains(id) {
                    hits.push(*id)?;
                }
            }
        }
    }
    Ok(gives)
}

/// Adds the rows that a chain of imports gives for a name: of each module its own rows, or where it
/// has none those that it imports publicly, each looked into once.
pub(crate) fn through(
    w: &mut World,
    env: Env,
    last: Option<RowId>,
    name: NameId,
    patience: Patience,
    hits: &mut Vec<RowId>,
) -> Result<(), Stop> {
    let mut steps = Vec::new(w.alloc);
    add_steps(w, last, name, false, &mut steps)?;
    go_through(w, env, steps, patience, hits)
}

/// The same of the public imports of a module alone.
pub(crate) fn through_public(
    w: &mut World,
    env: Env,
    unit: UnitId,
    name: NameId,
    patience: Patience,
    hits: &mut Vec<RowId>,
) -> Result<(), Stop> {
    let mut steps = Vec::new(w.alloc);
    add_steps(w, w.rows.last_import(unit), name, true, &mut steps)?;
    go_through(w, env, steps, patience, hits)
}

fn go_through(
    w: &mut World,
    env: Env,
    first: Vec<Step>,
    patience: Patience,
    hits: &mut Vec<RowId>,
) -> Result<(), Stop> {
    let mut steps = first;
    let mut done = 0;
    for _ in 0..u64::MAX {
        let level = steps.len();
        if level <= done {
            break;
        }
        if patience == Patience::Waits {
            wait_all(w, env, steps.as_slice())?;
        }
        for k in done..level {
            let Some(step) = steps.get(k).copied() else {
                break;
            };
            if !own_rows(w, step, hits)? {
                let imports = w.rows.last_import(step.unit);
                add_steps(w, imports, step.name, true, &mut steps)?;
            }
        }
        done = level;
    }
    sort_hits(w, hits)
}

/// Puts rows in the order of places.
pub(crate) fn sort_hits(w: &mut World, hits: &mut Vec<RowId>) -> Result<(), Stop> {
    for end in 1..hits.len() {
        for back in 0..end {
            let k = end - back;
            let (Some(a), Some(b)) = (hits.get(k - 1).copied(), hits.get(k).copied()) else {
                break;
            };
            if !is_before(w, b, a)? {
                break;
            }
            if let Some(slot) = hits.get_mut(k - 1) {
                *slot = b;
            }
            if let Some(slot) = hits.get_mut(k) {
                *slot = a;
            }
        }
    }
    Ok(())
}

fn is_before(w: &mut World, a: RowId, b: RowId) -> Result<bool, Stop> {
    let (Some(left), Some(right)) = (w.rows.get(a), w.rows.get(b)) else {
        return Ok(false);
    };
    let x = w.pool.places.place(left.at)?;
    let y = w.pool.places.place(right.at)?;
    Ok(w.pool.places.compare(&w.pool.names, x, y)? == Ordering::Less)
}
