// Array literals, `?:`, and the type that parts have together (D specification, "Expressions", "Array Literals").
use crate::expression::judge;
use crate::guards::all_members;
use dc_facts::deeper;
use dc_form::constant;
use dc_model::{Env, Stop, World};
use dc_operators::{literal, members_node};
use dc_syntax::List;
use dc_tree::{TreeId, TypeId, Value, Where};

/// `[a, b]`
#[cycle(judging)]
pub(crate) fn array(
    w: &mut World,
    env: Env,
    items: List,
    hint: Option<TypeId>,
    at: Where,
    depth: u32,
) -> Result<TreeId, Stop> {
    let less = deeper(depth)?;
    let mut parts = Vec::new(w.alloc);
    if let Some(node) = members_node(w, items) {
        let names = all_members(w, env, node, less)?;
        for name in names.as_slice() {
            let value = w.pool.values.add(Value::Bytes(*name))?;
            let part = constant(w, TypeId::STRING, value, at)?;
            parts.push(part)?;
        }
        return literal(w, parts.as_slice(), None, at);
    }
    let element = match hint {
        Some(of) => w.pool.types.element(of),
        None => None,
    };
    for k in 0..items.len {
        let item = w.pool.syntax.item(items, k);
        let part = judge(w, env, item, element, less)?;
        parts.push(part)?;
    }
    literal(w, parts.as_slice(), hint, at)
}
