// Going over the parts of a resolved expression.
use crate::facts::cells;
use dc_model::{Stop, World};
use dc_syntax::{List, NameId};
use dc_tree::{TreeForm, TreeId, Where};
use std::cmp::Ordering;

/// The greatest weight of an evaluated expression.
pub const WEIGHT: u64 = 4_194_304;

fn push_list(w: &World, list: List, parts: &mut Vec<TreeId>) -> Result<(), Stop> {
    for n in w.pool.trees.numbers(list) {
        parts.push(TreeId(*n))?;
    }
    Ok(())
}

/// Adds the parts of an expression.
pub fn push_parts(w: &World, tree: TreeId, parts: &mut Vec<TreeId>) -> Result<(), Stop> {
    match w.pool.trees.get(tree).form {
        TreeForm::Const(_)
        | TreeForm::Start(_)
        | TreeForm::Local(_)
        | TreeForm::This
        | TreeForm::Global(_)
        | TreeForm::Dollar(_) => {}
        TreeForm::Field(a, _)
        | TreeForm::Not(a)
        | TreeForm::Unary(_, a)
        | TreeForm::Convert(a)
        | TreeForm::As(a)
        | TreeForm::Assert(a)
        | TreeForm::New(a, _)
        | TreeForm::Whole(a)
        | TreeForm::Length(a)
        | TreeForm::FixedLength(a, _)
        | TreeForm::Duplicate(a, _)
        | TreeForm::All(a)
        | TreeForm::Address(a)
        | TreeForm::ToText(a) => parts.push(a)?,
        TreeForm::Binary(_, _, a, b)
        | TreeForm::Compare(_, _, a, b)
        | TreeForm::Same(_, a, b)
        | TreeForm::And(a, b)
        | TreeForm::Or(a, b)
        | TreeForm::Index(a, b, _)
        | TreeForm::FixedIndex(a, b, _, _)
        | TreeForm::Join(a, b, _, _)
        | TreeForm::Assign(a, b)
        | TreeForm::Update(_, _, a, b, _)
        | TreeForm::Append(a, b, _)
        | TreeForm::SetLength(a, b, _)
        | TreeForm::Fill(a, b)
        | TreeForm::CopyPart(a, b) => {
            parts.push(a)?;
            parts.push(b)?;
        }
        TreeForm::Conditional(a, b, c) | TreeForm::Part(a, b, c, _) => {
            parts.push(a)?;
            parts.push(b)?;
            parts.push(c)?;
        }
        TreeForm::Array(items, _)
        | TreeForm::Struct(items)
        | TreeForm::Print(_, items)
        | TreeForm::JoinTexts(items) => push_list(w, items, parts)?,
        TreeForm::UpdateLength(n) => {
            if let Some(length) = w.pool.trees.length(n) {
                parts.push(length.place)?;
                parts.push(length.by)?;
            }
        }
        TreeForm::Call(n) => {
            if let Some(call) = w.pool.trees.call(n) {
                if let Some(this) = call.this {
                    parts.push(this)?;
                }
                push_list(w, call.arguments, parts)?;
            }
        }
    }
    Ok(())
}

/// The first local variable, parameter or `this` that an expression names, in text order.
pub fn first_local(w: &mut World, tree: TreeId) -> Result<Option<(Where, NameId)>, Stop> {
    let mut work = Vec::new(w.alloc);
    work.push(tree)?;
    let mut first: Option<(Where, NameId)> = None;
    for _ in 0..u64::MAX {
        let Some(next) = work.pop() else {
            break;
        };
        let known = w.pool.trees.get(next);
        let name = match known.form {
            TreeForm::Local(variable) => match w.pool.variables.get(variable) {
                Some(variable) => Some(variable.name),
                None => None,
            },
            TreeForm::This => Some(w.pool.names.number(b"this")?),
            _ => None,
        };
        if let Some(name) = name {
            if is_earlier(w, known.at, first)? {
                first = Some((known.at, name));
            }
        }
        push_parts(w, next, &mut work)?;
    }
    Ok(first)
}

fn is_earlier(w: &mut World, at: Where, than: Option<(Where, NameId)>) -> Result<bool, Stop> {
    let Some((other, _)) = than else {
        return Ok(true);
    };
    let a = w.pool.places.place(at)?;
    let b = w.pool.places.place(other)?;
    Ok(w.pool.places.compare(&w.pool.names, a, b)? == Ordering::Less)
}

/// The weight of an evaluated expression: the cells of each of its nodes, and 4 more for each.
pub fn weight(w: &mut World, tree: TreeId) -> Result<u64, Stop> {
    let mut work = Vec::new(w.alloc);
    work.push(tree)?;
    let mut sum: u64 = 0;
    for _ in 0..u64::MAX {
        let Some(next) = work.pop() else {
            break;
        };
        let of = w.pool.trees.get(next).of;
        let node = match w.pool.trees.get(next).form {
            // an address is no node of its own
            TreeForm::Address(_) => 0,
            _ => cells(w, of)?.saturating_add(4),
        };
        sum = sum.saturating_add(node);
        if sum > crate::parts::WEIGHT {
            break;
        }
        push_parts(w, next, &mut work)?;
    }
    Ok(sum)
}
