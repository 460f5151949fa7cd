// The order in which questions are begun.
use crate::due::Due;
use dc_model::{Ask, Stop, World};
use dc_tree::PlaceId;
use std::cmp::Ordering;

fn rank(ask: Ask) -> u8 {
    match ask {
        Ask::Symbol => 0,
        Ask::Layout => 1,
        Ask::Signature => 2,
        Ask::BodyOf => 3,
        Ask::Eval => 4,
        Ask::Settle => 5,
    }
}

/// The order of two questions: by their places, and at one place by what is asked.
fn compare(w: &World, a: Due, b: Due) -> Result<Ordering, Stop> {
    let places = compare_places(w, a.question.at, b.question.at)?;
    Ok(if places == Ordering::Equal {
        rank(a.question.ask).cmp(&rank(b.question.ask))
    } else {
        places
    })
}

fn compare_places(w: &World, a: PlaceId, b: PlaceId) -> Result<Ordering, Stop> {
    Ok(w.pool.places.compare(&w.pool.names, a, b)?)
}

/// Whether questions stand in order already, as those of a text do.
fn is_sorted(w: &World, all: &[Due]) -> Result<bool, Stop> {
    let mut before: Option<Due> = None;
    for due in all {
        if let Some(last) = before {
            if compare(w, last, *due)? == Ordering::Greater {
                return Ok(false);
            }
        }
        before = Some(*due);
    }
    Ok(true)
}

/// One of the first list or of the second, the lesser first.
fn merge(w: &World, left: &[Due], right: &[Due]) -> Result<Vec<Due>, Stop> {
    let mut all = Vec::new(w.alloc);
    let mut a = 0;
    let mut b = 0;
    for _ in 0..u64::MAX {
        match (left.get(a), right.get(b)) {
            (Some(x), Some(y)) => {
                if compare(w, *x, *y)? == Ordering::Greater {
                    all.push(*y)?;
                    b = b.saturating_add(1);
                } else {
                    all.push(*x)?;
                    a = a.saturating_add(1);
                }
            }
            (Some(x), None) => {
                all.push(*x)?;
                a = a.saturating_add(1);
            }
            (None, Some(y)) => {
                all.push(*y)?;
                b = b.saturating_add(1);
            }
            (None, None) => break,
        }
    }
    Ok(all)
}

/// Sorts questions: runs of doubling length are merged.
pub(crate) fn sort_due(w: &World, all: &mut Vec<Due>) -> Result<(), Stop> {
    if is_sorted(w, all.as_slice())? {
        return Ok(());
    }
    let mut width = 1;
    for _ in 0..64 {
        if width >= all.len() {
            break;
        }
        let mut next: Vec<Due> = Vec::new(w.alloc);
        for _ in 0..all.len() {
            let from = next.len();
            if from >= all.len() {
                break;
            }
            let left = part(all.as_slice(), from, width);
            let right = part(all.as_slice(), from.saturating_add(width), width);
            let merged = merge(w, left, right)?;
            next.extend_from_slice(merged.as_slice())?;
        }
        *all = next;
        width = width.saturating_mul(2);
    }
    Ok(())
}

fn part(all: &[Due], from: usize, width: usize) -> &[Due] {
    let end = from.saturating_add(width).min(all.len());
    match all.get(from..end) {
        Some(part) => part,
        None => &[],
    }
}
