// Rules that rows break together: the one with the least place counts.
use dc_model::{Refused, Row, Stop, World};
use dc_syntax::NameId;
use dc_tree::Where;
use std::cmp::Ordering;

/// The first of the rules that rows break, in the order of places.
#[derive(Clone, Copy)]
pub(crate) struct Breaks {
    pub first: Option<Refused>,
}

impl Breaks {
    pub const NONE: Breaks = Breaks { first: None };

    /// The refusal, where a rule is broken.
    pub fn check(self) -> Result<(), Stop> {
        match self.first {
            Some(refused) => Err(Stop::Failed(refused)),
            None => Ok(()),
        }
    }
}

/// Notes a broken rule.
pub(crate) fn add_break(
    w: &mut World,
    breaks: &mut Breaks,
    rule: u8,
    at: Where,
    detail: Option<NameId>,
) -> Result<(), Stop> {
    let place = w.pool.places.place(at)?;
    let new = Refused {
        rule,
        place,
        detail,
    };
    let is_first = match breaks.first {
        None => true,
        Some(known) => match w.pool.places.compare(&w.pool.names, place, known.place)? {
            Ordering::Less => true,
            Ordering::Equal => rule < known.rule,
            Ordering::Greater => false,
        },
    };
    if is_first {
        breaks.first = Some(new);
    }
    Ok(())
}

/// Adds a row of a name; rule 7 where another one of its unit and name isn't that of a function as well.
pub(crate) fn add_row(
    w: &mut World,
    breaks: &mut Breaks,
    name: NameId,
    row: Row,
) -> Result<(), Stop> {
    let mut at = w.rows.last_named(row.unit, name);
    for _ in 0..u64::MAX {
        let Some(other) = at.and_then(|id| w.rows.get(id)) else {
            break;
        };
        if !(other.callable && row.callable) {
            let later = later_of(w, other.at, row.at)?;
            add_break(w, breaks, 7, later, Some(name))?;
            break;
        }
        at = other.before;
    }
    w.rows.add_named(name, row)?;
    Ok(())
}

fn later_of(w: &mut World, a: Where, b: Where) -> Result<Where, Stop> {
    let x = w.pool.places.place(a)?;
    let y = w.pool.places.place(b)?;
    let order = w.pool.places.compare(&w.pool.names, x, y)?;
    Ok(if order == Ordering::Less { b } else { a })
}
