// Places.
use crate::lowering::{Home, Lowering};
use crate::sizes::{NESTED, cells, element_cells, holds_fixed};
use crate::slots::is_still;
use crate::values::{operand, value};
use dc_code::Op;
use dc_syntax::Want;
use dc_tree::{DeclId, Pool, Tree, TreeForm, TreeId, TypeId, VarId};
use dc_types::{BinOp, Kind};

/// What a place lies in.
#[derive(Clone, Copy)]
pub(crate) enum Base {
    Frame(u32),
    /// At the address that two slots hold.
    Behind(u32),
}

/// A place: words from an offset on.
#[derive(Clone, Copy)]
pub(crate) struct Spot {
    pub base: Base,
    pub offset: u32,
}

fn frame(slot: u32) -> Spot {
    Spot {
        base: Base::Frame(slot),
        offset: 0,
    }
}

fn behind(slot: u32) -> Spot {
    Spot {
        base: Base::Behind(slot),
        offset: 0,
    }
}

/// Slots that hold the address of a place.
pub(crate) fn address(l: &mut Lowering, spot: Spot) -> Result<u32, Want> {
    match spot.base {
        Base::Frame(s) => {
            let t = l.temp(2);
            l.emit(Op::FrameAt(t, s.saturating_add(spot.offset)))?;
            Ok(t)
        }
        Base::Behind(p) if spot.offset == 0 => Ok(p),
        Base::Behind(p) => {
            let t = l.temp(3);
            l.emit(Op::Copy(t, p, 1))?;
            l.emit(Op::Const(t.saturating_add(2), u64::from(spot.offset)))?;
            let at = p.saturating_add(1);
            let (d, by) = (t.saturating_add(1), t.saturating_add(2));
            l.emit(Op::Binary(BinOp::Add, Kind::U64, d, at, by))?;
            Ok(t)
        }
    }
}

/// Reads a place.
pub(crate) fn load(l: &mut Lowering, spot: Spot, d: u32, n: u32) -> Result<(), Want> {
    match spot.base {
        Base::Frame(s) => l.copy(d, s.saturating_add(spot.offset), n),
        Base::Behind(_) => {
            let p = address(l, spot)?;
            l.emit(Op::Load(d, p, n))?;
            Ok(())
        }
    }
}

/// Writes a place.
pub(crate) fn store(l: &mut Lowering, spot: Spot, s: u32, n: u32) -> Result<(), Want> {
    match spot.base {
        Base::Frame(d) => l.copy(d.saturating_add(spot.offset), s, n),
        Base::Behind(_) => {
            let p = address(l, spot)?;
            l.emit(Op::Store(p, s, n))?;
            Ok(())
        }
    }
}

fn local(l: &mut Lowering, v: VarId) -> Result<Spot, Want> {
    Ok(match l.home(v) {
        Home::Slot(s) => frame(s),
        Home::Behind(p) => behind(p),
        Home::Number(n) => {
            let t = l.temp(1);
            l.emit(Op::Const(t, n))?;
            frame(t)
        }
    })
}

fn global(l: &mut Lowering, decl: DeclId, of: TypeId, is_const: bool) -> Result<Spot, Want> {
    let g = l.global(decl, of, is_const)?;
    let t = l.temp(2);
    l.emit(Op::GlobalAt(t, g))?;
    Ok(behind(t))
}

/// A place, or a temporary that stands for one.
#[cycle(value)]
pub(crate) fn place(l: &mut Lowering, pool: &Pool, id: TreeId, depth: u32) -> Result<Spot, Want> {
    if depth == 0 {
        return Err(Want);
    }
    let tree = pool.trees.get(id);
    l.at = tree.at;
    match tree.form {
        TreeForm::Local(v) | TreeForm::Dollar(v) => local(l, v),
        TreeForm::This => Ok(behind(0)),
        TreeForm::Global(decl) => global(l, decl, tree.of, tree.read_only),
        TreeForm::As(inner) => place(l, pool, inner, depth - 1),
        TreeForm::Field(inner, field) => {
            let spot = place(l, pool, inner, depth - 1)?;
            let by = pool.layouts.offset(field).unwrap_or(0);
            Ok(Spot {
                offset: spot.offset.saturating_add(by),
                ..spot
            })
        }
        TreeForm::Index(array, index, v) => element(l, pool, tree, array, index, v, depth - 1),
        TreeForm::FixedIndex(array, index, v, n) => {
            fixed_element(l, pool, tree, array, index, v, n, depth - 1)
        }
        _ => temporary(l, pool, tree, id, depth - 1),
    }
}

/// A temporary, in a block of its own where that is wanted.
#[cycle(value)]
fn temporary(
    l: &mut Lowering,
    pool: &Pool,
    tree: Tree,
    id: TreeId,
    depth: u32,
) -> Result<Spot, Want> {
    if depth == 0 {
        return Err(Want);
    }
    let n = cells(pool, tree.of);
    let t = l.temp(n);
    value(l, pool, id, t, depth - 1)?;
    if tree.own && holds_fixed(pool, tree.of, NESTED) {
        l.at = tree.at;
        let p = l.temp(2);
        l.emit(Op::Own(p, n))?;
        l.emit(Op::Store(p, t, n))?;
        return Ok(behind(p));
    }
    Ok(frame(t))
}

#[cycle(value)]
fn element(
    l: &mut Lowering,
    pool: &Pool,
    tree: Tree,
    array: TreeId,
    index: TreeId,
    v: VarId,
    depth: u32,
) -> Result<Spot, Want> {
    if depth == 0 {
        return Err(Want);
    }
    let c = element_cells(pool, pool.trees.get(array).of);
    let slice = if is_still(pool, index) {
        operand(l, pool, array, depth - 1)?
    } else {
        let t = l.temp(3);
        value(l, pool, array, t, depth - 1)?;
        t
    };
    l.set_home(v, Home::Slot(slice.saturating_add(2)))?;
    let s = operand(l, pool, index, depth - 1)?;
    let t = l.temp(2);
    l.at = tree.at;
    l.emit(Op::Item(t, slice, s, c))?;
    Ok(behind(t))
}

#[cycle(value)]
fn fixed_element(
    l: &mut Lowering,
    pool: &Pool,
    tree: Tree,
    array: TreeId,
    index: TreeId,
    v: VarId,
    n: u32,
    depth: u32,
) -> Result<Spot, Want> {
    if depth == 0 {
        return Err(Want);
    }
    let c = element_cells(pool, pool.trees.get(array).of);
    let spot = place(l, pool, array, depth - 1)?;
    let p = address(l, spot)?;
    l.set_home(v, Home::Number(u64::from(n)))?;
    let s = operand(l, pool, index, depth - 1)?;
    let t = l.temp(2);
    l.at = tree.at;
    l.emit(Op::FixedItem(t, p, s, n, c))?;
    Ok(behind(t))
}
