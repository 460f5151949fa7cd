// Prints.
use crate::arrays::{all_values, frame_slice};
use crate::lowering::Lowering;
use dc_code::Op;
use dc_syntax::{List, Want};
use dc_tree::{Pool, Tree, TreeId, Type, TypeId};
use dc_types::Kind;

/// Adds a value to the pending text.
fn put(l: &mut Lowering, pool: &Pool, of: TypeId, s: u32) -> Result<(), Want> {
    let base = pool.types.base(of);
    if let Some(kind) = pool.types.kind(base) {
        l.emit(Op::PutInt(kind, s))?;
        return Ok(());
    }
    let slice = match pool.types.get(base) {
        Type::Fixed(_, n) => frame_slice(l, s, n)?,
        _ => s,
    };
    let kind = match pool.types.element(base) {
        Some(item) => pool.types.kind(item).unwrap_or(Kind::Char),
        None => Kind::Char,
    };
    l.emit(match kind {
        Kind::Char => Op::PutText(slice),
        _ => Op::PutList(kind, slice),
    })?;
    Ok(())
}

/// `write` and `writeln`: all values, then their bytes as one piece.
#[cycle(value)]
pub(crate) fn print(
    l: &mut Lowering,
    pool: &Pool,
    tree: Tree,
    ends: bool,
    items: List,
    depth: u32,
) -> Result<(), Want> {
    if depth == 0 {
        return Err(Want);
    }
    let slots = all_values(l, pool, items, depth - 1)?;
    l.at = tree.at;
    for (n, s) in pool.trees.numbers(items).iter().zip(slots.iter()) {
        put(l, pool, pool.trees.get(TreeId(*n)).of, *s)?;
    }
    if ends {
        let g = l.line_end()?;
        l.emit(Op::PutData(g))?;
    }
    let flush = l.emit(Op::Flush)?;
    if ends {
        l.note_line(flush)?;
    }
    Ok(())
}
