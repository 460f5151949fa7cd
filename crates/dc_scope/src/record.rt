// Lookups that are kept, and whether later rows change them.
use crate::lookup::{Found, Patience, find};
use crate::within::rows_within;
use dc_model::{Env, Lookup, Noted, Refused, RowId, Stop, World};
use dc_syntax::NameId;
use dc_tree::Where;

/// Whether a unit around the code has conditionals that aren't settled.
fn may_change(w: &World, env: Env) -> Result<bool, Stop> {
    let mut at = Some(env.unit);
    for _ in 0..u64::MAX {
        let Some(id) = at else {
            break;
        };
        let unit = w.unit(id)?;
        if unit.pending.is_some() {
            return Ok(true);
        }
        at = unit.outer;
    }
    Ok(false)
}

/// Keeps a lookup whose answer later rows may change.
pub fn note(
    w: &mut World,
    env: Env,
    name: NameId,
    at: Where,
    lookup: Lookup,
    hits: &[RowId],
    other: bool,
) -> Result<(), Stop> {
    if !may_change(w, env)? {
        return Ok(());
    }
    let place = w.pool.places.place(at)?;
    w.note(
        Noted {
            unit: env.unit,
            spot: env.spot,
            name,
            place,
            lookup,
            from: 0,
            len: 0,
            other,
        },
        hits,
    )?;
    Ok(())
}

fn env_of(noted: Noted) -> Env {
    let block = match noted.lookup {
        Lookup::Plain(block) | Lookup::Free(block) => block,
        Lookup::Within(_) => None,
    };
    Env {
        unit: noted.unit,
        spot: noted.spot,
        block,
        this: None,
        flow: None,
        in_typeof: false,
        in_trial: false,
        guards: 0,
    }
}

/// Whether a lookup finds now what it found then.
fn is_unchanged(w: &mut World, noted: Noted, hits: &mut Vec<RowId>) -> Result<bool, Stop> {
    let env = env_of(noted);
    hits.clear();
    let other = match noted.lookup {
        Lookup::Within(unit) => {
            rows_within(w, env, unit, noted.name, Patience::Looks, hits)?;
            false
        }
        Lookup::Plain(_) | Lookup::Free(_) => {
            match find(w, env, noted.name, noted.lookup, Patience::Looks, hits)? {
                Found::Absent | Found::Rows => false,
                Found::Symbol(_) | Found::Own(_) => true,
            }
        }
    };
    let from = noted.from as usize;
    let found = match w.trace.found.get(from..from + noted.len as usize) {
        Some(found) => found,
        None => &[],
    };
    Ok(
        other == noted.other
            && found.len() == hits.len()
            && hits.iter().all(|row| found.contains(row)),
    )
}

/// The first lookup that later rows have changed, as the rule that it breaks.
pub fn first_contradiction(w: &mut World) -> Result<Option<Refused>, Stop> {
    let mut hits = Vec::new(w.alloc);
    for k in 0..w.trace.noted.len() {
        let Some(noted) = w.trace.noted.get(k).copied() else {
            break;
        };
        if !is_unchanged(w, noted, &mut hits)? {
            return Ok(Some(Refused {
                rule: 9,
                place: noted.place,
                detail: Some(noted.name),
            }));
        }
    }
    Ok(None)
}
