// Conditionals of units: what they come to, and what they introduce.
use crate::breaks::Breaks;
use crate::introduce::{Into, Introduced, NESTED, introduce, link_conds, link_items};
use dc_decl::{holds_condition, rounds_of};
use dc_facts::unit_env;
use dc_model::{Answer, Ask, Bind, Cond, CondId, ItemKind, Question, Stop, Symbol, Work, World};
use dc_names::settled;
use dc_syntax::{Form, List, StaticForeachNode};
use dc_tree::{PlaceStep, SpotId, ValueId};
use dc_typing::mixin_text;

/// What a conditional comes to; a mixin needs its text read.
#[derive(Clone, Copy)]
pub(crate) enum Settled {
    Branch(bool),
    /// A stretch of the table of rounds.
    Rounds(u32, u32),
    Text(ValueId),
}

/// Keeps the symbols of rounds in their table.
fn kept_rounds(w: &mut World, symbols: &[Symbol]) -> Result<Settled, Stop> {
    match (u32::try_from(w.rounds.len()), u32::try_from(symbols.len())) {
        (Ok(from), Ok(len)) => {
            w.rounds.extend_from_slice(symbols)?;
            Ok(Settled::Rounds(from, len))
        }
        _ => Err(Stop::NoMemory),
    }
}

/// Judges a conditional of a unit; the one before it in its unit is asked first.
pub(crate) fn judge_cond(w: &mut World, id: CondId, left: u64) -> Result<Settled, Stop> {
    let cond = w.cond(id)?;
    if w.unit(cond.unit)?.pending != Some(id) {
        settled(w, cond.unit)?;
        return Err(Stop::NoMemory);
    }
    let env = unit_env(w, cond.unit, cond.at.spot)?;
    match w.pool.syntax.node(cond.node).form {
        Form::StaticIf(c, _, _) => Ok(Settled::Branch(holds_condition(w, env, c)?)),
        Form::StaticForeach(m) => {
            let node = rounds_node(w, m)?;
            let symbols = rounds_of(w, env, node, cond.at, left)?;
            kept_rounds(w, symbols.as_slice())
        }
        Form::MixinHere(e) => Ok(Settled::Text(mixin_text(w, env, e, dc_decl::DEEP)?)),
        _ => Err(Stop::NoMemory),
    }
}

fn rounds_node(w: &World, m: u32) -> Result<StaticForeachNode, Stop> {
    match w.pool.syntax.rounds.get(m as usize).copied() {
        Some(node) => Ok(node),
        None => Err(Stop::NoMemory),
    }
}

/// Where a conditional introduces its declarations.
fn into_of(cond: Cond, id: CondId, spot: SpotId) -> Into {
    Into {
        unit: cond.unit,
        spot,
        view: cond.view,
        by: Some(id),
    }
}

/// Introduces what a branch holds.
fn branch(
    w: &mut World,
    id: CondId,
    holds: bool,
    own: &mut Introduced,
    breaks: &mut Breaks,
) -> Result<(), Stop> {
    let cond = w.cond(id)?;
    let Form::StaticIf(_, then, other) = w.pool.syntax.node(cond.node).form else {
        return Err(Stop::NoMemory);
    };
    let taken = if holds { then } else { other };
    let into = into_of(cond, id, cond.at.spot);
    introduce(w, into, taken, own, breaks, NESTED)
}

/// Introduces the rounds of a `static foreach`.
fn rounds(
    w: &mut World,
    id: CondId,
    from: u32,
    len: u32,
    own: &mut Introduced,
    breaks: &mut Breaks,
) -> Result<(), Stop> {
    let cond = w.cond(id)?;
    let Form::StaticForeach(m) = w.pool.syntax.node(cond.node).form else {
        return Err(Stop::NoMemory);
    };
    let node = rounds_node(w, m)?;
    for round in 0..len {
        let Some(symbol) = w.rounds.get(from.saturating_add(round) as usize).copied() else {
            break;
        };
        let spot = w
            .pool
            .places
            .entered(cond.at.spot, PlaceStep::Round(round), cond.at.at)?;
        let outer = w.bind_of(cond.at.spot);
        w.add_bind(
            spot,
            Bind {
                unit: cond.unit,
                name: node.name,
                symbol,
                outer,
            },
        )?;
        introduce(w, into_of(cond, id, spot), node.body, own, breaks, NESTED)?;
    }
    Ok(())
}

/// The outcome of a conditional with what it introduced in its place.
fn place_outcome(w: &mut World, id: CondId, own: &Introduced) -> Result<(), Stop> {
    let cond = w.cond(id)?;
    let inner = link_items(w, own.items.as_slice())?;
    if let Some(slot) = w.items.get_mut(cond.item.0 as usize) {
        slot.kind = ItemKind::Cond(id, inner);
    }
    let pending = link_conds(w, own.conds.as_slice(), cond.next);
    if let Some(slot) = w.units.get_mut(cond.unit.0 as usize) {
        slot.pending = pending;
    }
    Ok(())
}

/// Introduces the outcome of a `static if` or a `static foreach`; gives the answer.
pub(crate) fn introduce_outcome(
    w: &mut World,
    id: CondId,
    outcome: Settled,
) -> Result<Answer, Stop> {
    let mut own = Introduced {
        items: Vec::new(w.alloc),
        conds: Vec::new(w.alloc),
    };
    let mut breaks = Breaks::NONE;
    let answer = match outcome {
        Settled::Branch(holds) => {
            branch(w, id, holds, &mut own, &mut breaks)?;
            Answer::Branch(holds)
        }
        Settled::Rounds(from, len) => {
            rounds(w, id, from, len, &mut own, &mut breaks)?;
            Answer::Rounds(from, len)
        }
        Settled::Text(_) => return Err(Stop::NoMemory),
    };
    place_outcome(w, id, &own)?;
    breaks.check()?;
    Ok(answer)
}

/// Introduces the declarations of a mixin's text.
pub(crate) fn introduce_mixed(
    w: &mut World,
    id: CondId,
    list: List,
    spot: SpotId,
) -> Result<Answer, Stop> {
    let mut own = Introduced {
        items: Vec::new(w.alloc),
        conds: Vec::new(w.alloc),
    };
    let mut breaks = Breaks::NONE;
    let cond = w.cond(id)?;
    w.inherit_binds(cond.at.spot, spot)?;
    introduce(
        w,
        into_of(cond, id, spot),
        list,
        &mut own,
        &mut breaks,
        NESTED,
    )?;
    place_outcome(w, id, &own)?;
    breaks.check()?;
    Ok(Answer::Mixed(list, spot))
}

/// The question that settles the first conditional of a unit that isn't settled.
pub(crate) fn pending_question(
    w: &mut World,
    unit: dc_tree::UnitId,
) -> Result<Option<(Question, Work)>, Stop> {
    let Some(id) = w.unit(unit)?.pending else {
        return Ok(None);
    };
    let stands = w.cond(id)?.at;
    let at = w.pool.places.place(stands)?;
    let question = Question {
        ask: Ask::Settle,
        at,
    };
    Ok(Some((question, Work::Settle(id))))
}
