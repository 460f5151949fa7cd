// Arrays that are made, joined, extended and compared.
use crate::lowering::Lowering;
use crate::places::{Spot, load, place, store};
use crate::sizes::{NESTED, cells, element_cells, grows};
use crate::values::{operand, value};
use dc_code::Op;
use dc_syntax::{List, Want};
use dc_tree::{LengthNode, Pool, Tree, TreeForm, TreeId, Type, TypeId, ValueId};
use dc_types::{BinOp, CmpOp, Kind, UnOp};

/// Words of the frame as a slice of so many elements.
pub(crate) fn frame_slice(l: &mut Lowering, s: u32, n: u32) -> Result<u32, Want> {
    let t = l.temp(3);
    l.emit(Op::FrameAt(t, s))?;
    l.emit(Op::Const(t.saturating_add(2), u64::from(n)))?;
    Ok(t)
}

/// The data that is the start words of an element.
fn start_data(l: &mut Lowering, pool: &Pool, array: TypeId, start: ValueId) -> Result<u32, Want> {
    let mut words = Vec::new(l.alloc);
    if let Some(item) = pool.types.element(pool.types.base(array)) {
        crate::constants::program_words(l, pool, item, start, &mut words, NESTED)?;
    }
    l.program.add_data(words.as_slice())
}

/// An operand of `~` as a slice of its own slots.
#[cycle(value)]
fn joined(l: &mut Lowering, pool: &Pool, id: TreeId, whole: bool, depth: u32) -> Result<u32, Want> {
    if depth == 0 {
        return Err(Want);
    }
    let t = l.temp(cells(pool, pool.trees.get(id).of).max(3));
    value(l, pool, id, t, depth - 1)?;
    if whole { Ok(t) } else { frame_slice(l, t, 1) }
}

/// Arrays joined that stand one in the left operand of the other.
#[cycle(value)]
fn joins(
    l: &mut Lowering,
    pool: &Pool,
    id: TreeId,
    tree: Tree,
    d: u32,
    depth: u32,
) -> Result<(), Want> {
    if depth == 0 {
        return Err(Want);
    }
    let mut spine = Vec::new(l.alloc);
    let mut at = id;
    let mut is_whole = true;
    for _ in 0..u64::MAX {
        match pool.trees.get(at).form {
            TreeForm::Join(a, _, whole, _) if is_whole => {
                spine.push(at)?;
                at = a;
                is_whole = whole;
            }
            _ => break,
        }
    }
    let mut left = joined(l, pool, at, is_whole, depth - 1)?;
    let made = l.temp(3);
    let c = element_cells(pool, tree.of);
    for _ in 0..u64::MAX {
        let Some(step) = spine.pop() else {
            break;
        };
        let top = l.top;
        let known = pool.trees.get(step);
        if let TreeForm::Join(_, b, _, whole) = known.form {
            let right = joined(l, pool, b, whole, depth - 1)?;
            l.at = known.at;
            l.emit(Op::Join(made, left, right, c, grows(pool, tree.of)))?;
        }
        left = made;
        l.top = top;
    }
    l.copy(d, left, 3)
}

#[cycle(value)]
pub(crate) fn made(
    l: &mut Lowering,
    pool: &Pool,
    tree: Tree,
    d: u32,
    depth: u32,
) -> Result<(), Want> {
    if depth == 0 {
        return Err(Want);
    }
    let c = element_cells(pool, tree.of);
    match tree.form {
        TreeForm::New(n, start) => {
            let s = operand(l, pool, n, depth - 1)?;
            let e = start_data(l, pool, tree.of, start)?;
            l.at = tree.at;
            l.emit(Op::Make(d, s, e, c, grows(pool, tree.of)))?;
        }
        TreeForm::Join(a, b, x, y) => join_two(l, pool, tree, a, b, x, y, d, depth - 1)?,
        TreeForm::Append(a, b, whole) => {
            let spot = place(l, pool, a, depth - 1)?;
            let old = l.temp(3);
            load(l, spot, old, 3)?;
            let right = joined(l, pool, b, whole, depth - 1)?;
            l.at = tree.at;
            l.emit(Op::Append(old, old, right, c, grows(pool, tree.of)))?;
            store(l, spot, old, 3)?;
            l.copy(d, old, 3)?;
        }
        TreeForm::SetLength(a, n, start) => {
            set_length(l, pool, tree, a, n, start, d, depth - 1)?;
        }
        TreeForm::UpdateLength(n) => match pool.trees.length(n) {
            Some(node) => update_length(l, pool, tree, node, d, depth - 1)?,
            None => return Err(Want),
        },
        _ => written(l, pool, tree, d, depth - 1)?,
    }
    Ok(())
}

/// `a ~ b`, with the joins that stand in its left operand.
#[cycle(value)]
fn join_two(
    l: &mut Lowering,
    pool: &Pool,
    tree: Tree,
    a: TreeId,
    b: TreeId,
    x: bool,
    y: bool,
    d: u32,
    depth: u32,
) -> Result<(), Want> {
    if depth == 0 {
        return Err(Want);
    }
    let is_join = match pool.trees.get(a).form {
        TreeForm::Join(_, _, _, _) => x,
        _ => false,
    };
    let left = if is_join {
        let t = l.temp(3);
        joins(l, pool, a, pool.trees.get(a), t, depth - 1)?;
        t
    } else {
        joined(l, pool, a, x, depth - 1)?
    };
    let right = joined(l, pool, b, y, depth - 1)?;
    let c = element_cells(pool, tree.of);
    l.at = tree.at;
    l.emit(Op::Join(d, left, right, c, grows(pool, tree.of)))?;
    Ok(())
}

#[cycle(value)]
fn written(l: &mut Lowering, pool: &Pool, tree: Tree, d: u32, depth: u32) -> Result<(), Want> {
    if depth == 0 {
        return Err(Want);
    }
    let c = element_cells(pool, tree.of);
    match tree.form {
        TreeForm::Fill(a, b) => {
            let s = l.temp(3);
            value(l, pool, a, s, depth - 1)?;
            let item = l.temp(c);
            value(l, pool, b, item, depth - 1)?;
            l.at = tree.at;
            l.emit(Op::Fill(s, item, c))?;
            l.copy(d, s, 3)?;
        }
        TreeForm::CopyPart(a, b) => {
            let s = l.temp(3);
            value(l, pool, a, s, depth - 1)?;
            let from = operand(l, pool, b, depth - 1)?;
            l.at = tree.at;
            l.emit(Op::CopyPart(s, from, c))?;
            l.copy(d, s, 3)?;
        }
        TreeForm::Same(differs, a, b) => {
            same(l, pool, tree, a, b, differs, d, depth - 1)?;
        }
        TreeForm::ToText(a) => {
            let of = pool.trees.get(a).of;
            let s = l.temp(cells(pool, of));
            value(l, pool, a, s, depth - 1)?;
            l.at = tree.at;
            text_of(l, pool, of, s, d)?;
        }
        TreeForm::JoinTexts(items) => texts(l, pool, tree, items, d, depth - 1)?,
        _ => return Err(Want),
    }
    Ok(())
}

/// The text of a number, or a string itself.
fn text_of(l: &mut Lowering, pool: &Pool, of: TypeId, s: u32, d: u32) -> Result<(), Want> {
    match pool.types.kind(of) {
        Some(kind) => {
            l.emit(Op::Number(d, kind, s))?;
            Ok(())
        }
        None => l.copy(d, s, 3),
    }
}

/// Values of a list in slots: their first slots.
#[cycle(value)]
pub(crate) fn all_values(
    l: &mut Lowering,
    pool: &Pool,
    items: List,
    depth: u32,
) -> Result<Vec<u32>, Want> {
    let mut slots = Vec::new(l.alloc);
    if depth == 0 {
        return Err(Want);
    }
    for n in pool.trees.numbers(items) {
        let t = l.temp(cells(pool, pool.trees.get(TreeId(*n)).of));
        value(l, pool, TreeId(*n), t, depth - 1)?;
        slots.push(t)?;
    }
    Ok(slots)
}

#[cycle(value)]
fn texts(
    l: &mut Lowering,
    pool: &Pool,
    tree: Tree,
    items: List,
    d: u32,
    depth: u32,
) -> Result<(), Want> {
    if depth == 0 {
        return Err(Want);
    }
    let slots = all_values(l, pool, items, depth - 1)?;
    l.at = tree.at;
    let all = l.temp(3);
    l.zeros(all, 3)?;
    let next = l.temp(3);
    for (k, (n, s)) in pool
        .trees
        .numbers(items)
        .iter()
        .zip(slots.iter())
        .enumerate()
    {
        let of = pool.trees.get(TreeId(*n)).of;
        if k == 0 {
            text_of(l, pool, of, *s, all)?;
        } else {
            text_of(l, pool, of, *s, next)?;
            l.emit(Op::Join(all, all, next, 1, false))?;
        }
    }
    l.copy(d, all, 3)
}

/// A slice gets a length: it is shortened, or start values are appended.
fn give_length(
    l: &mut Lowering,
    pool: &Pool,
    of: TypeId,
    start: ValueId,
    slice: u32,
    n: u32,
) -> Result<(), Want> {
    let c = element_cells(pool, of);
    let t = l.temp(5);
    let missing = t.saturating_add(1);
    let added = t.saturating_add(2);
    let len = slice.saturating_add(2);
    let e = start_data(l, pool, of, start)?;
    l.emit(Op::Compare(CmpOp::LessEq, Kind::U64, t, n, len))?;
    let longer = l.emit(Op::JumpZero(t, 0))?;
    l.emit(Op::Copy(len, n, 1))?;
    let end = l.emit(Op::Jump(0))?;
    l.land(longer)?;
    l.emit(Op::Binary(BinOp::Sub, Kind::U64, missing, n, len))?;
    l.emit(Op::Make(added, missing, e, c, grows(pool, of)))?;
    l.emit(Op::Append(slice, slice, added, c, grows(pool, of)))?;
    l.land(end)
}

#[cycle(value)]
fn set_length(
    l: &mut Lowering,
    pool: &Pool,
    tree: Tree,
    a: TreeId,
    n: TreeId,
    start: ValueId,
    d: u32,
    depth: u32,
) -> Result<(), Want> {
    if depth == 0 {
        return Err(Want);
    }
    let spot = place(l, pool, a, depth - 1)?;
    let count = l.temp(1);
    value(l, pool, n, count, depth - 1)?;
    l.at = tree.at;
    let slice = l.temp(3);
    load(l, spot, slice, 3)?;
    give_length(l, pool, pool.trees.get(a).of, start, slice, count)?;
    store(l, spot, slice, 3)?;
    l.copy(d, count, 1)
}

#[cycle(value)]
fn update_length(
    l: &mut Lowering,
    pool: &Pool,
    tree: Tree,
    node: LengthNode,
    d: u32,
    depth: u32,
) -> Result<(), Want> {
    if depth == 0 {
        return Err(Want);
    }
    let spot = place(l, pool, node.place, depth - 1)?;
    let slice = l.temp(3);
    load(l, spot, slice, 3)?;
    let by = operand(l, pool, node.by, depth - 1)?;
    l.at = tree.at;
    changed_length(l, pool, node, spot, slice, by, d)
}

fn changed_length(
    l: &mut Lowering,
    pool: &Pool,
    node: LengthNode,
    spot: Spot,
    slice: u32,
    by: u32,
    d: u32,
) -> Result<(), Want> {
    let t = l.temp(3);
    let (old, count) = (t.saturating_add(1), t.saturating_add(2));
    l.copy(old, slice.saturating_add(2), 1)?;
    l.emit(Op::Cast(node.kind, t, old))?;
    l.emit(Op::Binary(node.operator, node.kind, count, t, by))?;
    let of = pool.trees.get(node.place).of;
    give_length(l, pool, of, node.start, slice, count)?;
    store(l, spot, slice, 3)?;
    l.copy(d, if node.gives_old { old } else { count }, 1)
}

#[cycle(value)]
fn same(
    l: &mut Lowering,
    pool: &Pool,
    tree: Tree,
    a: TreeId,
    b: TreeId,
    differs: bool,
    d: u32,
    depth: u32,
) -> Result<(), Want> {
    if depth == 0 {
        return Err(Want);
    }
    let of = pool.trees.get(a).of;
    let n = cells(pool, of);
    let x = l.temp(n);
    value(l, pool, a, x, depth - 1)?;
    let y = l.temp(n);
    value(l, pool, b, y, depth - 1)?;
    l.at = tree.at;
    let all = l.temp(1);
    l.emit(Op::Const(all, 1))?;
    same_parts(l, pool, of, x, y, all, NESTED)?;
    l.copy(d, all, 1)?;
    if differs {
        l.emit(Op::Unary(UnOp::Not, Kind::Bool, d, d))?;
    }
    Ok(())
}

/// Clears a word where two values differ.
#[cycle(same_parts)]
fn same_parts(
    l: &mut Lowering,
    pool: &Pool,
    of: TypeId,
    x: u32,
    y: u32,
    all: u32,
    depth: u32,
) -> Result<(), Want> {
    if depth == 0 {
        return Err(Want);
    }
    let top = l.top;
    let base = pool.types.base(of);
    let t = l.temp(1);
    match pool.types.get(base) {
        Type::Struct(unit) => {
            if let Some(layout) = pool.layouts.get(unit) {
                for field in pool.layouts.fields(layout) {
                    let (a, b) = (
                        x.saturating_add(field.offset),
                        y.saturating_add(field.offset),
                    );
                    same_parts(l, pool, field.of, a, b, all, depth - 1)?;
                }
            }
            l.top = top;
            return Ok(());
        }
        Type::Slice(_) | Type::Str => {
            l.emit(Op::Same(t, x, y, element_cells(pool, base)))?;
        }
        Type::Fixed(_, n) => {
            let a = frame_slice(l, x, n)?;
            let b = frame_slice(l, y, n)?;
            l.emit(Op::Same(t, a, b, element_cells(pool, base)))?;
        }
        _ => {
            l.emit(Op::Compare(CmpOp::Equal, Kind::I64, t, x, y))?;
        }
    }
    l.emit(Op::Binary(BinOp::BitAnd, Kind::I32, all, all, t))?;
    l.top = top;
    Ok(())
}
