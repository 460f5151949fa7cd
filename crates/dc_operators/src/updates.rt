// `op=`, `++` and `--` on judged places (D specification, "Expressions", "Assign Expressions").
use crate::operators::{is_shift, place_slice};
use dc_ast::AssignOperator;
use dc_convert::{common, promoted};
use dc_facts::start_value;
use dc_form::{NONE, Source, add, as_kind, coerce, level};
use dc_model::{Stop, World};
use dc_tree::{LengthNode, TreeForm, TreeId, TypeId, Where};
use dc_types::{BinOp, Kind};

/// An operation that is done on a place.
#[derive(Clone, Copy)]
pub struct Update {
    pub op: BinOp,
    /// Whether it is `++` or `--`.
    pub is_step: bool,
    /// Whether the value is that of the place before.
    pub gives_old: bool,
}

/// The arithmetic of an operator that assigns; nothing for `=` and `~=`.
pub fn arithmetic(operator: AssignOperator) -> Option<BinOp> {
    match operator {
        AssignOperator::Assign | AssignOperator::Concatenate => None,
        AssignOperator::Add => Some(BinOp::Add),
        AssignOperator::Subtract => Some(BinOp::Sub),
        AssignOperator::Multiply => Some(BinOp::Mul),
        AssignOperator::Divide => Some(BinOp::Div),
        AssignOperator::Remainder => Some(BinOp::Rem),
        AssignOperator::BitAnd => Some(BinOp::BitAnd),
        AssignOperator::BitOr => Some(BinOp::BitOr),
        AssignOperator::BitXor => Some(BinOp::BitXor),
        AssignOperator::ShiftLeft => Some(BinOp::Shl),
        AssignOperator::ShiftRight => Some(BinOp::Shr),
        AssignOperator::ShiftRightZeros => Some(BinOp::Ushr),
    }
}

/// Refuses what can't be written: what is no place, or one that is read only.
pub fn check_writable(w: &mut World, tree: TreeId, at: Where) -> Result<(), Stop> {
    let known = w.pool.trees.get(tree);
    if !known.is_place || known.read_only {
        return w.refuse(22, at, None);
    }
    Ok(())
}

/// The array whose length a tree names, where that is a place whose length can be written.
pub fn length_place(w: &World, tree: TreeId) -> Option<TreeId> {
    match w.pool.trees.get(tree).form {
        TreeForm::Length(array) if w.pool.trees.get(array).is_place => Some(array),
        _ => None,
    }
}

/// `place op= by`
pub fn updated(
    w: &mut World,
    update: Update,
    place: TreeId,
    by: TreeId,
    at: Where,
    place_at: Where,
) -> Result<TreeId, Stop> {
    if let Some(array) = length_place(w, place) {
        return length_updated(w, update, array, by, at, place_at);
    }
    let of = w.pool.trees.get(place).of;
    let other = w.pool.trees.get(by).of;
    let (Some(x), Some(y)) = (w.pool.types.kind(of), w.pool.types.kind(other)) else {
        return w.refuse(10, at, None);
    };
    let is_bitwise = match update.op {
        BinOp::BitAnd | BinOp::BitOr | BinOp::BitXor => true,
        _ => false,
    };
    if x == Kind::Bool && (update.is_step || !is_bitwise) {
        return w.refuse(10, at, None);
    }
    check_writable(w, place, place_at)?;
    let (kind, right) = if is_shift(update.op) {
        (promoted(x), as_kind(w, by, y)?)
    } else {
        let kind = common(x, y);
        (kind, as_kind(w, by, kind)?)
    };
    let form = TreeForm::Update(update.op, kind, place, right, update.gives_old);
    add(w, form, of, at)
}

/// `array.length op= by`
fn length_updated(
    w: &mut World,
    update: Update,
    array: TreeId,
    by: TreeId,
    at: Where,
    place_at: Where,
) -> Result<TreeId, Stop> {
    check_writable(w, array, place_at)?;
    let Some(y) = w.pool.types.kind(w.pool.trees.get(by).of) else {
        return w.refuse(10, at, None);
    };
    let (kind, right) = if is_shift(update.op) {
        (Kind::U64, as_kind(w, by, y)?)
    } else {
        let kind = common(Kind::U64, y);
        (kind, as_kind(w, by, kind)?)
    };
    let start = element_start(w, array)?;
    let n = w.pool.trees.add_length(LengthNode {
        place: array,
        by: right,
        operator: update.op,
        kind,
        start,
        gives_old: update.gives_old,
    })?;
    add(w, TreeForm::UpdateLength(n), TypeId::ULONG, at)
}

/// The start value of an array's elements.
pub fn element_start(w: &mut World, array: TreeId) -> Result<dc_tree::ValueId, Stop> {
    match w.pool.types.element(w.pool.trees.get(array).of) {
        Some(element) => start_value(w, element),
        None => Err(Stop::NoMemory),
    }
}

/// `place ~= by`
pub fn appended(
    w: &mut World,
    place: TreeId,
    by: TreeId,
    at: Where,
    place_at: Where,
) -> Result<TreeId, Stop> {
    if let Some(array) = length_place(w, place) {
        check_writable(w, array, place_at)?;
        return w.refuse(10, at, None);
    }
    let of = w.pool.trees.get(place).of;
    let element = match w.pool.types.element(of) {
        Some(element) if w.pool.types.is_slice(of) => element,
        _ => return w.refuse(10, at, None),
    };
    check_writable(w, place, place_at)?;
    let slice = place_slice(w, by)?;
    let other = w.pool.trees.get(slice).of;
    if other == of || (w.pool.types.is_text(of) && w.pool.types.is_text(other)) {
        return add(w, TreeForm::Append(place, slice, true), of, at);
    }
    if level(w, Source::Tree(slice), of) > NONE {
        let whole = coerce(w, slice, of, at)?;
        return add(w, TreeForm::Append(place, whole, true), of, at);
    }
    if level(w, Source::Tree(by), element) > NONE {
        let one = coerce(w, by, element, at)?;
        return add(w, TreeForm::Append(place, one, false), of, at);
    }
    w.refuse(10, at, None)
}
