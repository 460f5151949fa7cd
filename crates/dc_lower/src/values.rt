// Values of expressions.
use crate::conditions::decide;
use crate::constants::constant;
use crate::lowering::{Home, Lowering, Pending};
use crate::places::{address, load, place, store};
use crate::sizes::{NESTED, cells, element_cells, grows, result_cells};
use crate::slots::{
    is_calm, is_flat, is_still, keeps_word, keeps_words, kind_of, known_slot, own_slot,
};
use dc_code::Op;
use dc_syntax::Want;
use dc_tree::{CallNode, Pool, Tree, TreeForm, TreeId};
use dc_types::{BinOp, CmpOp, Kind, TrapKind, UnOp};

/// The slots that hold the value: those in which it stands, or others.
#[cycle(value)]
pub(crate) fn operand(l: &mut Lowering, pool: &Pool, id: TreeId, depth: u32) -> Result<u32, Want> {
    if depth == 0 {
        return Err(Want);
    }
    if let Some(s) = known_slot(l, pool, id) {
        return Ok(s);
    }
    let t = l.temp(cells(pool, pool.trees.get(id).of));
    value(l, pool, id, t, depth - 1)?;
    Ok(t)
}

/// Slots that hold the value while another is evaluated.
#[cycle(value)]
fn kept(l: &mut Lowering, pool: &Pool, id: TreeId, other: TreeId, depth: u32) -> Result<u32, Want> {
    if depth == 0 {
        return Err(Want);
    }
    if is_still(pool, other) {
        return operand(l, pool, id, depth - 1);
    }
    let t = l.temp(cells(pool, pool.trees.get(id).of));
    value(l, pool, id, t, depth - 1)?;
    Ok(t)
}

/// An expression that is evaluated for its effects.
pub(crate) fn effect(l: &mut Lowering, pool: &Pool, id: TreeId, depth: u32) -> Result<(), Want> {
    if depth == 0 {
        return Err(Want);
    }
    let top = l.top;
    let tree = pool.trees.get(id);
    match tree.form {
        TreeForm::Assign(a, b) => {
            assign(l, pool, a, b, depth - 1)?;
        }
        TreeForm::Update(op, kind, a, b, _) => {
            update(l, pool, tree, op, kind, a, b, None, depth - 1)?;
        }
        _ => {
            let t = l.temp(cells(pool, tree.of));
            value(l, pool, id, t, depth - 1)?;
        }
    }
    l.top = top;
    Ok(())
}

/// Writes the value of an expression into slots.
#[cycle(value)]
pub(crate) fn value(
    l: &mut Lowering,
    pool: &Pool,
    id: TreeId,
    d: u32,
    depth: u32,
) -> Result<(), Want> {
    if depth == 0 {
        return Err(Want);
    }
    let top = l.top;
    let tree = pool.trees.get(id);
    l.at = tree.at;
    let n = cells(pool, tree.of);
    match tree.form {
        TreeForm::Const(v) | TreeForm::Start(v) => constant(l, pool, tree.of, v, d, NESTED)?,
        TreeForm::Local(_)
        | TreeForm::This
        | TreeForm::Global(_)
        | TreeForm::Field(_, _)
        | TreeForm::Dollar(_)
        | TreeForm::Index(_, _, _)
        | TreeForm::FixedIndex(_, _, _, _) => {
            let spot = place(l, pool, id, depth - 1)?;
            load(l, spot, d, n)?;
        }
        TreeForm::As(a) => value(l, pool, a, d, depth - 1)?,
        TreeForm::Binary(_, _, _, _) | TreeForm::Convert(_) | TreeForm::Unary(_, _) => {
            chain(l, pool, id, d, depth - 1)?;
        }
        TreeForm::And(_, _) | TreeForm::Or(_, _) => choices(l, pool, id, d, depth - 1)?,
        // a temporary stays until the call that takes its address
        TreeForm::Address(_) => return other_value(l, pool, tree, d, depth - 1),
        _ => other_value(l, pool, tree, d, depth - 1)?,
    }
    l.top = top;
    Ok(())
}

#[cycle(value)]
fn other_value(l: &mut Lowering, pool: &Pool, tree: Tree, d: u32, depth: u32) -> Result<(), Want> {
    if depth == 0 {
        return Err(Want);
    }
    match tree.form {
        TreeForm::Not(a) => {
            let s = operand(l, pool, a, depth - 1)?;
            l.at = tree.at;
            l.emit(Op::Unary(UnOp::Not, Kind::Bool, d, s))?;
        }
        TreeForm::Compare(op, kind, a, b) => {
            compare(l, pool, tree, op, kind, a, b, d, depth - 1)?;
        }
        TreeForm::Conditional(c, a, b) => conditional(l, pool, c, a, b, d, depth - 1)?,
        TreeForm::Assert(a) => {
            let s = operand(l, pool, a, depth - 1)?;
            l.at = tree.at;
            l.emit(Op::Check(s, TrapKind::Assert))?;
            l.zeros(d, 1)?;
        }
        TreeForm::Assign(a, b) => {
            let s = assign(l, pool, a, b, depth - 1)?;
            l.copy(d, s, cells(pool, tree.of))?;
        }
        TreeForm::Update(op, kind, a, b, gives_old) => {
            update(
                l,
                pool,
                tree,
                op,
                kind,
                a,
                b,
                Some((d, gives_old)),
                depth - 1,
            )?;
        }
        TreeForm::Call(n) => match pool.trees.call(n) {
            Some(node) => call(l, pool, tree, node, d, depth - 1)?,
            None => return Err(Want),
        },
        _ => compound(l, pool, tree, d, depth - 1)?,
    }
    Ok(())
}

#[cycle(value)]
fn compound(l: &mut Lowering, pool: &Pool, tree: Tree, d: u32, depth: u32) -> Result<(), Want> {
    if depth == 0 {
        return Err(Want);
    }
    match tree.form {
        TreeForm::Print(ends, items) => {
            crate::prints::print(l, pool, tree, ends, items, depth - 1)?;
        }
        TreeForm::Address(a) => {
            let spot = place(l, pool, a, depth - 1)?;
            let p = address(l, spot)?;
            l.copy(d, p, 2)?;
        }
        TreeForm::Struct(items) => parts(l, pool, items, d, depth - 1)?,
        TreeForm::Length(a) => {
            let s = operand(l, pool, a, depth - 1)?;
            l.copy(d, s.saturating_add(2), 1)?;
        }
        TreeForm::FixedLength(a, n) => {
            place(l, pool, a, depth - 1)?;
            l.emit(Op::Const(d, u64::from(n)))?;
        }
        TreeForm::All(a) => value(l, pool, a, d, depth - 1)?,
        TreeForm::Whole(a) => {
            let n = pool
                .types
                .fixed_length(pool.types.base(pool.trees.get(a).of));
            let spot = place(l, pool, a, depth - 1)?;
            let p = address(l, spot)?;
            l.copy(d, p, 2)?;
            l.emit(Op::Const(d.saturating_add(2), u64::from(n.unwrap_or(0))))?;
        }
        _ => array_value(l, pool, tree, d, depth - 1)?,
    }
    Ok(())
}

#[cycle(value)]
fn array_value(l: &mut Lowering, pool: &Pool, tree: Tree, d: u32, depth: u32) -> Result<(), Want> {
    if depth == 0 {
        return Err(Want);
    }
    let c = element_cells(pool, tree.of);
    match tree.form {
        TreeForm::Array(items, _) => {
            let n = items.len;
            if pool.types.fixed_length(pool.types.base(tree.of)).is_some() {
                return parts(l, pool, items, d, depth - 1);
            }
            let area = l.temp(n.saturating_mul(c));
            parts(l, pool, items, area, depth - 1)?;
            l.at = tree.at;
            l.emit(Op::List(d, area, n, c, grows(pool, tree.of)))?;
        }
        TreeForm::Part(a, lo, hi, v) => {
            let s = l.temp(3);
            value(l, pool, a, s, depth - 1)?;
            l.set_home(v, Home::Slot(s.saturating_add(2)))?;
            let from = kept(l, pool, lo, hi, depth - 1)?;
            let to = operand(l, pool, hi, depth - 1)?;
            l.at = tree.at;
            l.emit(Op::Part(d, s, from, to, c))?;
        }
        TreeForm::Duplicate(a, is_dup) => {
            let s = operand(l, pool, a, depth - 1)?;
            let none = l.temp(3);
            l.zeros(none, 3)?;
            l.at = tree.at;
            l.emit(Op::Join(d, s, none, c, is_dup && grows(pool, tree.of)))?;
        }
        _ => crate::arrays::made(l, pool, tree, d, depth - 1)?,
    }
    Ok(())
}

/// The values of a list one after another.
#[cycle(value)]
fn parts(
    l: &mut Lowering,
    pool: &Pool,
    items: dc_syntax::List,
    d: u32,
    depth: u32,
) -> Result<(), Want> {
    if depth == 0 {
        return Err(Want);
    }
    let mut slot = d;
    for n in pool.trees.numbers(items) {
        let item = TreeId(*n);
        value(l, pool, item, slot, depth - 1)?;
        slot = slot.saturating_add(cells(pool, pool.trees.get(item).of));
    }
    if items.len == 0 {
        l.zeros(d, 1)?;
    }
    Ok(())
}

/// The operations on numbers that stand one in the left operand of the other. The last alone writes
/// the slot.
#[cycle(value)]
fn chain(l: &mut Lowering, pool: &Pool, id: TreeId, d: u32, depth: u32) -> Result<(), Want> {
    if depth == 0 {
        return Err(Want);
    }
    let mut spine = Vec::new(l.alloc);
    let mut at = id;
    for _ in 0..u64::MAX {
        let tree = pool.trees.get(at);
        let next = match tree.form {
            TreeForm::Convert(a) if keeps_words(pool, tree, a) => {
                at = a;
                continue;
            }
            TreeForm::Binary(_, _, a, _) | TreeForm::Convert(a) | TreeForm::Unary(_, a) => a,
            _ => break,
        };
        spine.push(at)?;
        at = next;
    }
    let Some(first) = spine.last().copied() else {
        return value(l, pool, at, d, depth - 1);
    };
    let part = if spine.len() > 1 { l.temp(1) } else { d };
    let mut slot = first_operand(l, pool, at, first, depth - 1)?;
    for _ in 0..u64::MAX {
        let Some(step) = spine.pop() else {
            break;
        };
        let to = if spine.is_empty() { d } else { part };
        link(l, pool, step, slot, to, depth - 1)?;
        slot = to;
    }
    Ok(())
}

/// The slot of what a chain begins with.
#[cycle(value)]
fn first_operand(
    l: &mut Lowering,
    pool: &Pool,
    at: TreeId,
    first: TreeId,
    depth: u32,
) -> Result<u32, Want> {
    if depth == 0 {
        return Err(Want);
    }
    match pool.trees.get(first).form {
        TreeForm::Binary(_, _, _, b) => kept(l, pool, at, b, depth - 1),
        _ => operand(l, pool, at, depth - 1),
    }
}

/// One operation of a chain, on what is in a slot.
#[cycle(value)]
fn link(
    l: &mut Lowering,
    pool: &Pool,
    step: TreeId,
    slot: u32,
    d: u32,
    depth: u32,
) -> Result<(), Want> {
    if depth == 0 {
        return Err(Want);
    }
    let top = l.top;
    let tree = pool.trees.get(step);
    match tree.form {
        TreeForm::Binary(op, kind, _, b) => {
            let right = operand(l, pool, b, depth - 1)?;
            l.at = tree.at;
            l.emit(Op::Binary(op, kind, d, slot, right))?;
        }
        TreeForm::Unary(op, _) => {
            l.at = tree.at;
            l.emit(Op::Unary(op, kind_of(pool, tree), d, slot))?;
        }
        _ => {
            l.at = tree.at;
            l.emit(Op::Cast(kind_of(pool, tree), d, slot))?;
        }
    }
    l.top = top;
    Ok(())
}

#[cycle(value)]
fn compare(
    l: &mut Lowering,
    pool: &Pool,
    tree: Tree,
    op: CmpOp,
    kind: Kind,
    a: TreeId,
    b: TreeId,
    d: u32,
    depth: u32,
) -> Result<(), Want> {
    if depth == 0 {
        return Err(Want);
    }
    let left = kept(l, pool, a, b, depth - 1)?;
    let right = operand(l, pool, b, depth - 1)?;
    l.at = tree.at;
    l.emit(Op::Compare(op, kind, d, left, right))?;
    Ok(())
}

/// The truth of `&&` or `||`.
#[cycle(value)]
fn choices(l: &mut Lowering, pool: &Pool, id: TreeId, d: u32, depth: u32) -> Result<(), Want> {
    if depth == 0 {
        return Err(Want);
    }
    let waiting = l.waiting(Pending::Branch);
    decide(l, pool, id, false, Pending::Branch, depth - 1)?;
    l.emit(Op::Const(d, 1))?;
    let end = l.emit(Op::Jump(0))?;
    l.settle(Pending::Branch, waiting)?;
    l.emit(Op::Const(d, 0))?;
    l.land(end)
}

#[cycle(value)]
fn conditional(
    l: &mut Lowering,
    pool: &Pool,
    c: TreeId,
    a: TreeId,
    b: TreeId,
    d: u32,
    depth: u32,
) -> Result<(), Want> {
    if depth == 0 {
        return Err(Want);
    }
    let waiting = l.waiting(Pending::Branch);
    decide(l, pool, c, false, Pending::Branch, depth - 1)?;
    value(l, pool, a, d, depth - 1)?;
    let end = l.emit(Op::Jump(0))?;
    l.settle(Pending::Branch, waiting)?;
    value(l, pool, b, d, depth - 1)?;
    l.land(end)
}

/// An assignment. Gives the slots of the value.
#[cycle(value)]
fn assign(l: &mut Lowering, pool: &Pool, a: TreeId, b: TreeId, depth: u32) -> Result<u32, Want> {
    if depth == 0 {
        return Err(Want);
    }
    let n = cells(pool, pool.trees.get(a).of);
    if let Some(s) = own_slot(l, pool, a) {
        if is_flat(pool, b) {
            value(l, pool, b, s, depth - 1)?;
            return Ok(s);
        }
        let t = l.temp(n);
        value(l, pool, b, t, depth - 1)?;
        l.copy(s, t, n)?;
        return Ok(t);
    }
    // a value that can't stop the run may come before the place, whose address is then used at once
    if is_calm(pool, b) && is_still(pool, a) {
        let t = operand(l, pool, b, depth - 1)?;
        let spot = place(l, pool, a, depth - 1)?;
        l.at = pool.trees.get(a).at;
        store(l, spot, t, n)?;
        return Ok(t);
    }
    let spot = place(l, pool, a, depth - 1)?;
    let t = operand(l, pool, b, depth - 1)?;
    l.at = pool.trees.get(a).at;
    store(l, spot, t, n)?;
    Ok(t)
}

/// `a op= b`, whose value goes into a slot where one is given: that before where the flag is set.
#[cycle(value)]
fn update(
    l: &mut Lowering,
    pool: &Pool,
    tree: Tree,
    op: BinOp,
    kind: Kind,
    a: TreeId,
    b: TreeId,
    gives: Option<(u32, bool)>,
    depth: u32,
) -> Result<(), Want> {
    if depth == 0 {
        return Err(Want);
    }
    let to = kind_of(pool, tree);
    if let Some(s) = own_slot(l, pool, a) {
        if is_still(pool, b) {
            let right = operand(l, pool, b, depth - 1)?;
            l.at = tree.at;
            if let Some((d, true)) = gives {
                l.copy(d, s, 1)?;
            }
            operate(l, op, kind, to, s, s, right)?;
            return match gives {
                Some((d, false)) => l.copy(d, s, 1),
                _ => Ok(()),
            };
        }
    }
    let spot = place(l, pool, a, depth - 1)?;
    let old = l.temp(2);
    load(l, spot, old, 1)?;
    let right = operand(l, pool, b, depth - 1)?;
    l.at = tree.at;
    let next = old.saturating_add(1);
    operate(l, op, kind, to, next, old, right)?;
    store(l, spot, next, 1)?;
    match gives {
        Some((d, true)) => l.copy(d, old, 1),
        Some((d, false)) => l.copy(d, next, 1),
        None => Ok(()),
    }
}

/// `a op b` in a kind, of a number of another kind and as one of that.
fn operate(
    l: &mut Lowering,
    op: BinOp,
    kind: Kind,
    to: Kind,
    d: u32,
    a: u32,
    b: u32,
) -> Result<(), Want> {
    let mut left = a;
    if !keeps_word(to, kind) {
        left = l.temp(1);
        l.emit(Op::Cast(kind, left, a))?;
    }
    if keeps_word(kind, to) {
        l.emit(Op::Binary(op, kind, d, left, b))?;
    } else {
        let t = l.temp(1);
        l.emit(Op::Binary(op, kind, t, left, b))?;
        l.emit(Op::Cast(to, d, t))?;
    }
    Ok(())
}

/// The words that a call hands a function for an argument.
fn argument_cells(pool: &Pool, id: TreeId) -> u32 {
    let tree = pool.trees.get(id);
    match tree.form {
        TreeForm::Address(_) => 2,
        _ => cells(pool, tree.of),
    }
}

#[cycle(value)]
fn call(
    l: &mut Lowering,
    pool: &Pool,
    tree: Tree,
    node: CallNode,
    d: u32,
    depth: u32,
) -> Result<(), Want> {
    if depth == 0 {
        return Err(Want);
    }
    let f = l.function(node.function)?;
    let mut size: u32 = match node.this {
        Some(_) => 2,
        None => 0,
    };
    for n in pool.trees.numbers(node.arguments) {
        size = size.saturating_add(argument_cells(pool, TreeId(*n)));
    }
    let area = l.temp(size.max(result_cells(pool, tree.of)));
    let mut slot = area;
    if let Some(this) = node.this {
        value(l, pool, this, slot, depth - 1)?;
        slot = slot.saturating_add(2);
    }
    for n in pool.trees.numbers(node.arguments) {
        value(l, pool, TreeId(*n), slot, depth - 1)?;
        slot = slot.saturating_add(argument_cells(pool, TreeId(*n)));
    }
    l.at = tree.at;
    l.emit(Op::Call(f, area, d))?;
    Ok(())
}
