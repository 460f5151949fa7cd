// Assignments (D specification, "Expressions", "Assign Expressions"; "Arrays", "Array Copying").
use crate::expression::{judge, judge_to};
use dc_ast::AssignOperator;
use dc_facts::deeper;
use dc_form::{NONE, Source, add, convert, level};
use dc_model::{Env, Stop, World};
use dc_names::here;
use dc_operators::{
    Update, appended, arithmetic, check_writable, element_start, filled, is_literal, is_part,
    length_place, updated,
};
use dc_syntax::NodeId;
use dc_tree::{TreeForm, TreeId, TypeId, Where};

/// `a op= b`
#[cycle(judging)]
pub(crate) fn assign_operator(
    w: &mut World,
    env: Env,
    a: NodeId,
    operator: AssignOperator,
    b: NodeId,
    at: Where,
    depth: u32,
) -> Result<TreeId, Stop> {
    let less = deeper(depth)?;
    let place = judge(w, env, a, None, less)?;
    let by = judge(w, env, b, None, less)?;
    let place_at = here(env, w.pool.syntax.node(a).at);
    match arithmetic(operator) {
        Some(op) => {
            let update = Update {
                op,
                is_step: false,
                gives_old: false,
            };
            updated(w, update, place, by, at, place_at)
        }
        None => appended(w, place, by, at, place_at),
    }
}

/// `a = b`
#[cycle(judging)]
pub(crate) fn assign(
    w: &mut World,
    env: Env,
    a: NodeId,
    b: NodeId,
    at: Where,
    depth: u32,
) -> Result<TreeId, Stop> {
    let less = deeper(depth)?;
    let place = judge(w, env, a, None, less)?;
    let place_at = here(env, w.pool.syntax.node(a).at);
    let of = w.pool.trees.get(place).of;
    if is_part(w, a) {
        return assign_part(w, env, place, b, at, less);
    }
    if let Some(array) = length_place(w, place) {
        check_writable(w, array, place_at)?;
        let length = judge_to(w, env, b, TypeId::ULONG, less)?;
        let start = element_start(w, array)?;
        return add(
            w,
            TreeForm::SetLength(array, length, start),
            TypeId::ULONG,
            at,
        );
    }
    if let TreeForm::FixedLength(_, _) = w.pool.trees.get(place).form {
        return w.refuse(22, place_at, None);
    }
    let right = judge(w, env, b, Some(of), less)?;
    check_writable(w, place, place_at)?;
    let right_at = here(env, w.pool.syntax.node(b).at);
    let value = convert(w, right, of, right_at)?;
    add(w, TreeForm::Assign(place, value), of, at)
}

/// `a[] = b`: it fills where b goes to an element, and else copies.
#[cycle(judging)]
fn assign_part(
    w: &mut World,
    env: Env,
    part: TreeId,
    b: NodeId,
    at: Where,
    depth: u32,
) -> Result<TreeId, Stop> {
    let less = deeper(depth)?;
    let known = w.pool.trees.get(part);
    if known.read_only {
        return w.refuse(22, known.at, None);
    }
    let Some(element) = w.pool.types.element(known.of) else {
        return w.refuse(10, at, None);
    };
    let right = if !is_literal(w, b) {
        judge(w, env, b, None, less)?
    } else if w.pool.types.element(element).is_some() {
        let first = judge(w, env, b, Some(element), less)?;
        if level(w, Source::Tree(first), element) > NONE {
            first
        } else {
            judge(w, env, b, Some(known.of), less)?
        }
    } else {
        judge(w, env, b, Some(known.of), less)?
    };
    let right_at = here(env, w.pool.syntax.node(b).at);
    filled(w, part, right, element, at, right_at)
}
