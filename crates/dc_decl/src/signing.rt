// What functions take and give (D specification, "Functions").
use crate::DEEP;
use crate::standing::at_node;
use dc_facts::{decl_env, place_of};
use dc_model::{Answer, Ask, DeclKind, Question, Stop, Work, World};
use dc_syntax::{Form, FunctionNode};
use dc_tree::{DeclId, Signature, Taken, TypeId};
use dc_typing::{judge_type, parameters};

fn function_of(w: &World, id: DeclId) -> Result<FunctionNode, Stop> {
    match w.pool.syntax.node(w.decl(id)?.node).form {
        Form::Function(n) => match w.pool.syntax.function(n) {
            Some(function) => Ok(function),
            None => Err(Stop::NoMemory),
        },
        _ => Err(Stop::NoMemory),
    }
}

/// Refuses two parameters of one name.
fn check_names(w: &mut World, taken: &[Taken]) -> Result<(), Stop> {
    for (k, later) in taken.iter().enumerate() {
        for earlier in taken.get(..k).unwrap_or(&[]) {
            if earlier.name == later.name {
                return w.refuse(7, later.at, Some(later.name));
            }
        }
    }
    Ok(())
}

/// Judges what a function takes and gives; of an `auto` function the result is that of its body.
pub fn judge_signature(w: &mut World, id: DeclId) -> Result<(), Stop> {
    let decl = w.decl(id)?;
    let function = function_of(w, id)?;
    let env = decl_env(w, decl)?;
    let taken = parameters(w, env, decl, DEEP)?;
    check_names(w, taken.as_slice())?;
    if let Some(constraint) = function.constraint {
        if function.template_parameters.is_none() {
            let at = at_node(w, env, constraint);
            return w.refuse(10, at, None);
        }
    }
    let result_type = match function.result {
        Some(of) => judge_type(w, env, of, DEEP)?,
        None => body_result(w, id)?,
    };
    w.pool
        .bodies
        .add_signature(id, taken.as_slice(), result_type)?;
    check_twice(w, id, taken.as_slice())
}

/// The result of a function's body.
fn body_result(w: &mut World, id: DeclId) -> Result<TypeId, Stop> {
    let at = place_of(w, id)?;
    let question = Question {
        ask: Ask::BodyOf,
        at,
    };
    match w.ask(question, Work::BodyOf(id))? {
        Answer::Known => match w.pool.bodies.body(id) {
            Some(body) => Ok(body.result),
            None => Err(Stop::NoMemory),
        },
        _ => Err(Stop::NoMemory),
    }
}

/// The signature of a function that has one.
pub fn signed(w: &World, id: DeclId) -> Option<Signature> {
    w.pool.bodies.signature(id)
}

fn same_types(left: &[Taken], right: &[Taken]) -> bool {
    left.len() == right.len() && left.iter().zip(right.iter()).all(|(a, b)| a.of == b.of)
}

/// Refuses a second plain function of one scope, name and parameter types (the later one in the order of places).
fn check_twice(w: &mut World, id: DeclId, taken: &[Taken]) -> Result<(), Stop> {
    let decl = w.decl(id)?;
    let Some(name) = decl.name else {
        return Ok(());
    };
    if decl.inner.is_some() {
        return Ok(());
    }
    let mut at = w.rows.last_named(decl.unit, name);
    for _ in 0..u64::MAX {
        let Some(row) = at.and_then(|row| w.rows.get(row)) else {
            break;
        };
        at = row.before;
        let Some(other) = row.decl else {
            continue;
        };
        let known = w.decl(other)?;
        if other == id || known.kind != DeclKind::Function || known.is_template {
            continue;
        }
        if let Some(signature) = w.pool.bodies.signature(other) {
            if same_types(w.pool.bodies.taken(signature), taken) {
                return refuse_later(w, id, other);
            }
        }
    }
    Ok(())
}

fn refuse_later(w: &mut World, a: DeclId, b: DeclId) -> Result<(), Stop> {
    let left = w.decl(a)?;
    let right = w.decl(b)?;
    let x = w.pool.places.place(left.at)?;
    let y = w.pool.places.place(right.at)?;
    let order = w.pool.places.compare(&w.pool.names, x, y)?;
    let later = match order {
        std::cmp::Ordering::Less => right,
        _ => left,
    };
    w.refuse(7, later.at, later.name)
}
