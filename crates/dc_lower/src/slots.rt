// Which evaluations write nothing or can't trap, and which values stand in slots of the frame as
// they are.
use crate::lowering::{Home, Lowering};
use dc_tree::{Pool, Range, Tree, TreeForm, TreeId};
use dc_types::{BinOp, Kind};

/// How deep fields, conversions and operators are looked through. Deeper ones are evaluated into
/// slots of their own.
pub(crate) const LOOKED: u32 = 8;

/// How deep trees are looked at for what they may write or trap.
const SEEN: u32 = 6;

/// The kind of a number; `long` of others.
pub(crate) fn kind_of(pool: &Pool, tree: Tree) -> Kind {
    match pool.types.kind(tree.of) {
        Some(kind) => kind,
        None => Kind::I64,
    }
}

/// Whether the word of each number of a kind is that of the number converted to another.
pub(crate) fn keeps_word(from: Kind, to: Kind) -> bool {
    match to {
        Kind::I64 | Kind::U64 => true,
        _ => Range::of_kind(from).fits(Range::of_kind(to)),
    }
}

/// Whether a conversion of a value changes no word.
pub(crate) fn keeps_words(pool: &Pool, tree: Tree, a: TreeId) -> bool {
    keeps_word(kind_of(pool, pool.trees.get(a)), kind_of(pool, tree))
}

/// Whether an evaluation writes nothing.
pub(crate) fn is_still(pool: &Pool, id: TreeId) -> bool {
    writes_nothing(pool, id, SEEN)
}

#[cycle(writes_nothing)]
fn writes_nothing(pool: &Pool, id: TreeId, depth: u32) -> bool {
    if depth == 0 {
        return false;
    }
    match pool.trees.get(id).form {
        TreeForm::Const(_)
        | TreeForm::Local(_)
        | TreeForm::Dollar(_)
        | TreeForm::This
        | TreeForm::Global(_) => true,
        TreeForm::Convert(a)
        | TreeForm::As(a)
        | TreeForm::Unary(_, a)
        | TreeForm::Not(a)
        | TreeForm::Length(a)
        | TreeForm::Field(a, _) => writes_nothing(pool, a, depth - 1),
        TreeForm::Binary(_, _, a, b)
        | TreeForm::Compare(_, _, a, b)
        | TreeForm::Index(a, b, _)
        | TreeForm::FixedIndex(a, b, _, _) => {
            writes_nothing(pool, a, depth - 1) && writes_nothing(pool, b, depth - 1)
        }
        _ => false,
    }
}

/// Whether an evaluation writes nothing and can't stop the run.
pub(crate) fn is_calm(pool: &Pool, id: TreeId) -> bool {
    stops_never(pool, id, SEEN)
}

#[cycle(stops_never)]
fn stops_never(pool: &Pool, id: TreeId, depth: u32) -> bool {
    if depth == 0 {
        return false;
    }
    match pool.trees.get(id).form {
        TreeForm::Const(_) | TreeForm::Local(_) | TreeForm::Dollar(_) => true,
        TreeForm::Convert(a) | TreeForm::Unary(_, a) | TreeForm::Not(a) => {
            stops_never(pool, a, depth - 1)
        }
        TreeForm::Binary(op, _, a, b) => {
            never_traps(op) && stops_never(pool, a, depth - 1) && stops_never(pool, b, depth - 1)
        }
        TreeForm::Compare(_, _, a, b) => {
            stops_never(pool, a, depth - 1) && stops_never(pool, b, depth - 1)
        }
        _ => false,
    }
}

fn never_traps(op: BinOp) -> bool {
    match op {
        BinOp::Add | BinOp::Sub | BinOp::Mul | BinOp::BitAnd | BinOp::BitOr | BinOp::BitXor => true,
        _ => false,
    }
}

/// Whether the evaluation writes its slots when it has read all that it reads.
pub(crate) fn is_flat(pool: &Pool, id: TreeId) -> bool {
    let mut at = id;
    for _ in 0..LOOKED {
        let tree = pool.trees.get(at);
        match tree.form {
            TreeForm::As(a) => at = a,
            TreeForm::Convert(a) if keeps_words(pool, tree, a) => at = a,
            TreeForm::Binary(_, _, _, _)
            | TreeForm::Compare(_, _, _, _)
            | TreeForm::Convert(_)
            | TreeForm::Unary(_, _)
            | TreeForm::Not(_)
            | TreeForm::And(_, _)
            | TreeForm::Or(_, _)
            | TreeForm::Const(_)
            | TreeForm::Local(_)
            | TreeForm::Dollar(_)
            | TreeForm::Global(_)
            | TreeForm::Index(_, _, _)
            | TreeForm::FixedIndex(_, _, _, _)
            | TreeForm::Call(_) => return true,
            _ => return false,
        }
    }
    false
}

/// The first slot of the local variable, or of the field of one, that a place is.
pub(crate) fn own_slot(l: &Lowering, pool: &Pool, id: TreeId) -> Option<u32> {
    let mut at = id;
    let mut offset: u32 = 0;
    for _ in 0..LOOKED {
        match pool.trees.get(at).form {
            TreeForm::Local(v) | TreeForm::Dollar(v) => {
                return match l.home(v) {
                    Home::Slot(s) => Some(s.saturating_add(offset)),
                    _ => None,
                };
            }
            TreeForm::As(a) => at = a,
            TreeForm::Field(a, field) => {
                offset = offset.saturating_add(pool.layouts.offset(field).unwrap_or(0));
                at = a;
            }
            _ => return None,
        }
    }
    None
}

/// The first slot of a value that stands in the frame: of a variable, a field, a length, or a
/// conversion of one that changes no word.
pub(crate) fn known_slot(l: &Lowering, pool: &Pool, id: TreeId) -> Option<u32> {
    let mut at = id;
    for _ in 0..LOOKED {
        let tree = pool.trees.get(at);
        match tree.form {
            TreeForm::Convert(a) if keeps_words(pool, tree, a) => at = a,
            TreeForm::Length(a) => return Some(own_slot(l, pool, a)?.saturating_add(2)),
            _ => return own_slot(l, pool, at),
        }
    }
    None
}
