// Array literals and conditionals over judged parts.
use dc_convert::{common, promoted};
use dc_form::{
    NONE, Source, add, add_number, aggregate, at_of, coerce, constant, known, level, range,
};
use dc_model::{Stop, World};
use dc_syntax::{Form, List, NodeId};
use dc_tree::{Range, TreeForm, TreeId, Type, TypeId, Where};

/// The type of parts that stand beside each other, or rule 10: the type that all have, without
/// promotion, or else the common type of numbers.
fn one_type(w: &mut World, parts: &[TreeId], at: Where) -> Result<TypeId, Stop> {
    let Some(first) = parts.first().copied() else {
        return w.refuse(10, at, None);
    };
    let of = w.pool.trees.get(first).of;
    if parts.iter().all(|part| w.pool.trees.get(*part).of == of) {
        return Ok(of);
    }
    let mut joined = match w.pool.types.get(of) {
        Type::Int(kind) => kind,
        _ => return w.refuse(10, at, None),
    };
    for part in parts {
        match w.pool.types.get(w.pool.trees.get(*part).of) {
            Type::Int(kind) => {
                if kind != joined {
                    joined = common(joined, kind);
                }
            }
            _ => return w.refuse(10, at, None),
        }
    }
    Ok(TypeId::of_kind(promoted(joined)))
}

/// `c ? a : b` of judged parts.
pub fn conditional(
    w: &mut World,
    c: TreeId,
    a: TreeId,
    b: TreeId,
    at: Where,
) -> Result<TreeId, Stop> {
    let left = w.pool.trees.get(a).of;
    let right = w.pool.trees.get(b).of;
    if left == TypeId::VOID && right == TypeId::VOID {
        return add(w, TreeForm::Conditional(c, a, b), TypeId::VOID, at);
    }
    let of = one_type(w, &[a, b], at)?;
    let left_at = at_of(w, a);
    let right_at = at_of(w, b);
    let x = coerce(w, a, of, left_at)?;
    let y = coerce(w, b, of, right_at)?;
    if w.pool.types.kind(of).is_none() {
        return add(w, TreeForm::Conditional(c, x, y), of, at);
    }
    let (p, q) = (range(w, x), range(w, y));
    let value = match known(w, c) {
        Some(0) => known(w, y),
        Some(_) => known(w, x),
        None => None,
    };
    let hull = Range {
        lo: p.lo.min(q.lo),
        hi: p.hi.max(q.hi),
    };
    add_number(w, TreeForm::Conditional(c, x, y), of, at, hull, value)
}

/// The struct whose members are listed, where the only element of a literal asks for them.
pub fn members_node(w: &World, items: List) -> Option<NodeId> {
    if items.len != 1 {
        return None;
    }
    let only = w.pool.syntax.item(items, 0);
    match w.pool.syntax.node(only).form {
        Form::Traits(name, _, _) if w.pool.names.bytes(name) == b"allMembers".as_slice() => Some(
            only,
        ),
        _ => None,
    }
}

fn list(w: &mut World, parts: &[TreeId]) -> Result<List, Stop> {
    let mut numbers = Vec::new(w.alloc);
    for part in parts {
        numbers.push(part.0)?;
    }
    Ok(w.pool.trees.list(numbers.as_slice())?)
}

/// The parts as elements of a type.
fn elements(w: &mut World, parts: &[TreeId], of: TypeId) -> Result<List, Stop> {
    let mut all = Vec::new(w.alloc);
    for part in parts {
        let at = at_of(w, *part);
        let element = coerce(w, *part, of, at)?;
        all.push(element)?;
    }
    list(w, all.as_slice())
}

/// Whether parts go to the elements of a wanted array type.
fn go_to(w: &World, parts: &[TreeId], hint: TypeId) -> bool {
    let Some(element) = w.pool.types.element(hint) else {
        return false;
    };
    if let Some(len) = w.pool.types.fixed_length(hint) {
        if len as usize != parts.len() {
            return false;
        }
    }
    parts
        .iter()
        .all(|part| level(w, Source::Tree(*part), element) > NONE)
}

/// An array literal of judged parts.
pub fn literal(
    w: &mut World,
    parts: &[TreeId],
    hint: Option<TypeId>,
    at: Where,
) -> Result<TreeId, Stop> {
    if let Some(wanted) = hint {
        if go_to(w, parts, wanted) {
            return wanted_literal(w, parts, wanted, at);
        }
    }
    if parts.is_empty() {
        let value = w.pool.values.list(&[])?;
        return constant(w, TypeId::EMPTY, value, at);
    }
    let of = one_type(w, parts, at)?;
    if of == TypeId::VOID {
        return w.refuse(10, at, None);
    }
    let items = elements(w, parts, of)?;
    let originals = list(w, parts)?;
    let slice = w.pool.types.number(Type::Slice(of))?;
    aggregate(w, TreeForm::Array(items, originals), items, slice, at)
}

/// A literal of a wanted type to which its parts go.
fn wanted_literal(
    w: &mut World,
    parts: &[TreeId],
    wanted: TypeId,
    at: Where,
) -> Result<TreeId, Stop> {
    if parts.is_empty() && w.pool.types.is_slice(wanted) {
        let value = dc_facts::start_value(w, wanted)?;
        return constant(w, wanted, value, at);
    }
    let Some(element) = w.pool.types.element(wanted) else {
        return Err(Stop::NoMemory);
    };
    let items = elements(w, parts, element)?;
    let made = aggregate(w, TreeForm::Array(items, items), items, wanted, at)?;
    if wanted == TypeId::STRING {
        return dc_form::as_text(w, made);
    }
    Ok(made)
}
