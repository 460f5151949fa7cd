// What an assignment to an array copies, and what it fills.
use dc_form::{NONE, Source, add, coerce, level};
use dc_model::{Stop, World};
use dc_syntax::{Form, NodeId};
use dc_tree::{TreeForm, TreeId, Type, TypeId, Where};

/// Whether an expression is written as `a[]` or `a[i .. j]`.
pub fn is_part(w: &World, n: NodeId) -> bool {
    match w.pool.syntax.node(bare_node(w, n)).form {
        Form::Postfix(_, suffixes) => {
            let last = w.pool.syntax.item(suffixes, suffixes.len.saturating_sub(1));
            match w.pool.syntax.node(last).form {
                Form::All | Form::Slice(_, _) => true,
                _ => false,
            }
        }
        _ => false,
    }
}

/// Whether an expression is an array literal with elements.
pub fn is_literal(w: &World, n: NodeId) -> bool {
    match w.pool.syntax.node(bare_node(w, n)).form {
        Form::Array(items) => items.len > 0,
        _ => false,
    }
}

/// Whether an expression of a type is copied into a slice of another.
fn is_copied(w: &World, right: TreeId, of: TypeId, element: TypeId) -> bool {
    let known = w.pool.trees.get(right);
    let goes = level(w, Source::Tree(right), of) > NONE;
    let is_literal = match known.form {
        TreeForm::Array(_, _) => true,
        _ => false,
    };
    let types = &w.pool.types;
    known.of == of
        || (types.is_text(known.of) && types.is_text(of))
        || (is_literal && goes)
        || known.of == TypeId::EMPTY
        || (known.of == TypeId::NULL && !types.is_slice(element))
        || (types.fixed_length(known.of).is_some() && known.is_place && goes)
}

/// A part of an array that is filled with a judged element or takes the elements of a judged array.
pub fn filled(
    w: &mut World,
    part: TreeId,
    right: TreeId,
    element: TypeId,
    at: Where,
    right_at: Where,
) -> Result<TreeId, Stop> {
    let of = w.pool.trees.get(part).of;
    if level(w, Source::Tree(right), element) > NONE {
        let one = coerce(w, right, element, right_at)?;
        return add(w, TreeForm::Fill(part, one), of, at);
    }
    if !is_copied(w, right, of, element) {
        return w.refuse(10, right_at, None);
    }
    let known = w.pool.trees.get(right);
    let is_slice = match w.pool.types.get(known.of) {
        Type::Slice(_) | Type::Str => true,
        _ => false,
    };
    let source = match known.form {
        TreeForm::Array(_, _) => coerce(w, right, of, right_at)?,
        _ if is_slice => right,
        _ => coerce(w, right, of, right_at)?,
    };
    add(w, TreeForm::CopyPart(part, source), of, at)
}

/// The node inside parentheses.
pub fn bare_node(w: &World, n: NodeId) -> NodeId {
    let mut at = n;
    for _ in 0..u64::MAX {
        match w.pool.syntax.node(at).form {
            Form::Paren(inner) => at = inner,
            _ => break,
        }
    }
    at
}
