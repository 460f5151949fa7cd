// Looking for a name in one unit.
use crate::imports::{stands_in, through_public, wait};
use crate::lookup::{Patience, rows_named};
use dc_model::{Env, RowId, Stop, UnitKind, World};
use dc_syntax::NameId;
use dc_tree::UnitId;

/// The rows of a unit that code of a module sees: its own, else of a module those that it imports
/// publicly.
pub(crate) fn rows_within(
    w: &mut World,
    env: Env,
    unit: UnitId,
    name: NameId,
    patience: Patience,
    hits: &mut Vec<RowId>,
) -> Result<(), Stop> {
    let mut rows = Vec::new(w.alloc);
    rows_named(w, unit, name, &mut rows)?;
    let module = w.module_of(env.spot);
    for id in rows.as_slice() {
        if let Some(row) = w.rows.get(*id) {
            if row.import.is_none() && (!row.hidden || w.module_of(row.at.spot) == module) {
                hits.push(*id)?;
            }
        }
    }
    if hits.is_empty() && w.unit(unit)?.kind == UnitKind::Module {
        through_public(w, env, unit, name, patience, hits)?;
    }
    Ok(())
}

/// Looks for a name in a unit; from outside it waits for the unit's conditionals.
pub fn find_within(
    w: &mut World,
    env: Env,
    unit: UnitId,
    name: NameId,
    hits: &mut Vec<RowId>,
) -> Result<(), Stop> {
    hits.clear();
    if !stands_in(w, env.unit, unit)? {
        wait(w, env, unit)?;
    }
    rows_within(w, env, unit, name, Patience::Waits, hits)
}
