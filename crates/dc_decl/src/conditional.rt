// What conditionals come to (D specification, "Conditional Compilation", "Static If Condition" and "Static Foreach").
use crate::DEEP;
use crate::standing::at_node;
use dc_convert::common;
use dc_model::{Env, Stop, Symbol, World};
use dc_names::Want;
use dc_syntax::{Form, NodeId, StaticForeachNode};
use dc_tree::{Type, TypeId, Value, ValueId, Where};
use dc_typing::{all_members, evaluate};

/// Whether a condition holds.
pub fn holds_condition(w: &mut World, env: Env, n: NodeId) -> Result<bool, Stop> {
    let (_, value) = evaluate(w, env, n, Want::Condition, DEEP)?;
    Ok(w.pool.values.as_number(value) != 0)
}

/// What the name of a `static foreach` stands for in each of its rounds; rule 18 where there are more than are left.
pub fn rounds_of(
    w: &mut World,
    env: Env,
    node: StaticForeachNode,
    at: Where,
    left: u64,
) -> Result<Vec<Symbol>, Stop> {
    match (node.end, w.pool.syntax.node(node.over).form) {
        (Some(end), _) => count_rounds(w, env, node.over, end, at, left),
        (None, Form::Traits(name, _, _)) if w.pool.names.bytes(name) == b"allMembers".as_slice() =>
            {
                let names = all_members(w, env, node.over, DEEP)?;
                let mut rounds = Vec::new(w.alloc);
                for name in names.as_slice() {
                    let value = w.pool.values.add(Value::Bytes(*name))?;
                    rounds.push(Symbol::Value(TypeId::STRING, value))?;
                }
                Ok(rounds)
            }
        (None, _) => item_rounds(w, env, node.over),
    }
}

/// A bound of a `static foreach`, which is a number.
fn bound(w: &mut World, env: Env, n: NodeId) -> Result<(TypeId, i128), Stop> {
    let (of, value) = evaluate(w, env, n, Want::Any, DEEP)?;
    Ok((of, w.pool.values.as_number(value)))
}

fn check_number(w: &mut World, env: Env, of: TypeId, n: NodeId) -> Result<dc_types::Kind, Stop> {
    match w.pool.types.kind(of) {
        Some(kind) => Ok(kind),
        None => {
            let at = at_node(w, env, n);
            w.refuse(10, at, None)
        }
    }
}

fn count_rounds(
    w: &mut World,
    env: Env,
    from: NodeId,
    end: NodeId,
    at: Where,
    left: u64,
) -> Result<Vec<Symbol>, Stop> {
    let (a, low) = bound(w, env, from)?;
    let (b, high) = bound(w, env, end)?;
    let x = check_number(w, env, a, from)?;
    let y = check_number(w, env, b, end)?;
    let (of, kind) = if a == b {
        (a, x)
    } else {
        let kind = common(x, y);
        (TypeId::of_kind(kind), kind)
    };
    let first = dc_num::wrap(kind, low);
    let last = dc_num::wrap(kind, high);
    let count = last.saturating_sub(first).max(0);
    if count > i128::from(left) {
        return w.refuse(18, at, None);
    }
    let mut rounds = Vec::new(w.alloc);
    let mut n = first;
    for _ in 0..u64::try_from(count).unwrap_or(0) {
        let value = w.pool.values.number(n)?;
        rounds.push(Symbol::Value(of, value))?;
        n = n.saturating_add(1);
    }
    Ok(rounds)
}

/// The elements of an array.
fn item_rounds(w: &mut World, env: Env, over: NodeId) -> Result<Vec<Symbol>, Stop> {
    let (of, value) = evaluate(w, env, over, Want::Any, DEEP)?;
    let element = match (w.pool.types.get(of), w.pool.types.element(of)) {
        (_, Some(element)) => element,
        (Type::Empty, None) => TypeId::INT,
        _ => {
            let at = at_node(w, env, over);
            return w.refuse(10, at, None);
        }
    };
    let items = items_of(w, value)?;
    let mut rounds = Vec::new(w.alloc);
    for item in items.as_slice() {
        rounds.push(Symbol::Value(element, *item))?;
    }
    Ok(rounds)
}

/// The elements of a value that is an array; of a string its bytes.
fn items_of(w: &mut World, value: ValueId) -> Result<Vec<ValueId>, Stop> {
    let mut items = Vec::new(w.alloc);
    match w.pool.values.get(value) {
        Value::Bytes(name) => {
            let bytes = Vec::from_slice(w.alloc, w.pool.names.bytes(name))?;
            for b in bytes.as_slice() {
                let item = w.pool.values.number(i128::from(*b))?;
                items.push(item)?;
            }
        }
        _ => items.extend_from_slice(w.pool.values.items(value))?,
    }
    Ok(items)
}
