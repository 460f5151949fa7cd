// Which questions are due (what stands in a unit waits for the conditionals of the units around it).
use crate::instances::inner_units;
use crate::order::sort_due;
use crate::settling::pending_question;
use dc_model::{Arg, Ask, Decl, DeclKind, Question, Stop, Symbol, Work, World};
use dc_syntax::{Form, NodeId};
use dc_tree::{DeclId, PlaceId, Type, TypeId, UnitId, Where};

/// A question that is due, and how it is judged.
#[derive(Clone, Copy)]
pub(crate) struct Due {
    pub question: Question,
    pub work: Work,
}

/// Adds the units in which the types of an argument stand.
fn push_type_units(w: &World, of: TypeId, units: &mut Vec<UnitId>) -> Result<(), Stop> {
    let mut at = of;
    for _ in 0..u32::MAX {
        match w.pool.types.get(at) {
            Type::Slice(item) | Type::Fixed(item, _) => at = item,
            Type::Struct(unit) => {
                units.push(unit)?;
                break;
            }
            Type::Enum(decl, base) => {
                let unit = w.decl(decl)?.unit;
                units.push(unit)?;
                at = base;
            }
            _ => break,
        }
    }
    Ok(())
}

/// Adds the units that an instance's arguments lead to.
fn push_arg_units(w: &World, unit: UnitId, units: &mut Vec<UnitId>) -> Result<(), Stop> {
    let Some(args) = w.unit(unit)?.args else {
        return Ok(());
    };
    for arg in w.args_of(args) {
        match arg {
            Arg::OfType(of) | Arg::OfValue(of, _) => push_type_units(w, *of, units)?,
            Arg::OfSymbol(Symbol::Template(decl), _)
            | Arg::OfSymbol(Symbol::Variable(decl), _)
            | Arg::Written(decl, _) => {
                let unit = w.decl(*decl)?.unit;
                units.push(unit)?;
            }
            Arg::OfSymbol(Symbol::Module(other), _) | Arg::OfSymbol(Symbol::Instance(other), _) => {
                units.push(*other)?;
            }
            _ => {}
        }
    }
    Ok(())
}

/// Whether all conditionals of the units around one are settled, its own among them or not.
fn is_free(w: &World, unit: UnitId, with_own: bool) -> Result<bool, Stop> {
    let mut seen: Vec<UnitId> = Vec::new(w.alloc);
    let mut work = Vec::new(w.alloc);
    work.push(unit)?;
    for _ in 0..u64::MAX {
        let Some(next) = work.pop() else {
            break;
        };
        if seen.contains(&next) {
            continue;
        }
        seen.push(next)?;
        let known = w.unit(next)?;
        if known.pending.is_some() && (with_own || next != unit) {
            return Ok(false);
        }
        if let Some(outer) = known.outer {
            work.push(outer)?;
        }
        push_arg_units(w, next, &mut work)?;
    }
    Ok(true)
}

/// A question about a declaration at its place.
fn at_place(at: PlaceId, ask: Ask, work: Work) -> Due {
    Due {
        question: Question { ask, at },
        work,
    }
}

/// The initialiser of a declaration.
fn initialiser(w: &World, decl: Decl) -> Option<NodeId> {
    let syntax = &w.pool.syntax;
    match (decl.kind, syntax.node(decl.node).form) {
        (DeclKind::Constant, Form::Constant(n)) => syntax
            .constants
            .get(n as usize)
            .map(|c| c.value),
        (DeclKind::Variable, Form::Variable(n)) => {
            let variable = syntax.variables.get(n as usize)?;
            match syntax
                .node(syntax.item(variable.variables, decl.index))
                .form
            {
                Form::One(_, _, value) => value,
                _ => None,
            }
        }
        (DeclKind::Member, Form::Enum(n)) => {
            let node = syntax.enums.get(n as usize)?;
            match syntax.node(syntax.item(node.members, decl.index)).form {
                Form::EnumMember(_, value) => value,
                _ => None,
            }
        }
        _ => None,
    }
}

/// Adds the questions about one declaration.
fn push_questions(w: &mut World, id: DeclId, all: &mut Vec<Due>) -> Result<(), Stop> {
    let decl = w.decl(id)?;
    let at = w.pool.places.place(decl.at)?;
    if decl.kind == DeclKind::StaticAssert {
        all.push(at_place(at, Ask::Settle, Work::Assert(id)))?;
        return Ok(());
    }
    if decl.name.is_some() {
        all.push(at_place(at, Ask::Symbol, Work::Symbol(id)))?;
    }
    if decl.is_template {
        return Ok(());
    }
    match decl.kind {
        DeclKind::Function => {
            all.push(at_place(at, Ask::Signature, Work::Signature(id)))?;
            all.push(at_place(at, Ask::BodyOf, Work::BodyOf(id)))?;
        }
        DeclKind::Struct => {
            if let Some(unit) = decl.inner {
                all.push(at_place(at, Ask::Layout, Work::Layout(unit)))?;
            }
        }
        DeclKind::Variable => {
            if initialiser(w, decl).is_none() {
                all.push(at_place(at, Ask::Eval, Work::Initial(id)))?;
            }
        }
        _ => {}
    }
    if let Some(value) = initialiser(w, decl) {
        let stands = Where {
            spot: decl.at.spot,
            at: w.pool.syntax.node(value).at,
        };
        let place = w.pool.places.place(stands)?;
        all.push(at_place(place, Ask::Eval, Work::Initial(id)))?;
    }
    Ok(())
}

/// Adds the questions about the members of an enum.
fn push_members(w: &mut World, id: DeclId, all: &mut Vec<Due>) -> Result<(), Stop> {
    let mut at = w.decl(id)?.other;
    for _ in 0..u64::MAX {
        let Some(member) = at else {
            break;
        };
        push_questions(w, member, all)?;
        at = w.decl(member)?.other;
    }
    Ok(())
}

/// What is due in a unit, in the order of places: its next conditional, or the questions about its declarations. In
/// the second case nothing of it is due any more.
pub(crate) fn due_in(w: &mut World, unit: UnitId) -> Result<(Vec<Due>, bool), Stop> {
    let mut all = Vec::new(w.alloc);
    if let Some((question, work)) = pending_question(w, unit)? {
        if is_free(w, unit, false)? {
            all.push(Due { question, work })?;
        }
        return Ok((all, false));
    }
    if !is_free(w, unit, true)? {
        return Ok((all, false));
    }
    for id in w.declarations(unit)?.as_slice() {
        push_questions(w, *id, &mut all)?;
        if w.decl(*id)?.kind == DeclKind::Enum {
            push_members(w, *id, &mut all)?;
        }
    }
    push_own(w, unit, &mut all)?;
    sort_due(w, &mut all)?;
    Ok((all, true))
}

/// The questions about the struct that an instance itself is.
fn push_own(w: &mut World, unit: UnitId, all: &mut Vec<Due>) -> Result<(), Stop> {
    let known = w.unit(unit)?;
    if known.args.is_none() {
        return Ok(());
    }
    if let Some(own) = known.own {
        if w.decl(own)?.kind == DeclKind::Struct {
            push_questions(w, own, all)?;
        }
    }
    Ok(())
}

/// The units that become questions with a unit: those of the structs in it.
pub(crate) fn with_inner(w: &World, unit: UnitId) -> Result<Vec<UnitId>, Stop> {
    let mut all = Vec::new(w.alloc);
    let mut work = Vec::new(w.alloc);
    work.push(unit)?;
    for _ in 0..u64::MAX {
        let Some(next) = work.pop() else {
            break;
        };
        all.push(next)?;
        for inner in inner_units(w, next)?.as_slice() {
            work.push(*inner)?;
        }
    }
    Ok(all)
}
