// Making resolved trees.
use dc_fold::joined_range;
use dc_model::{Stop, World};
use dc_syntax::List;
use dc_tree::{Range, RangeId, Ranges, Tree, TreeForm, TreeId, TypeId, Value, ValueId, Where};
use dc_types::{BinOp, CmpOp, Kind, UnOp};

/// A tree of that form and type, which is no place.
pub fn bare(form: TreeForm, of: TypeId, at: Where) -> Tree {
    Tree {
        form,
        of,
        at,
        range: Ranges::NONE,
        value: None,
        is_place: false,
        read_only: false,
        root: None,
        own: false,
    }
}

/// Adds a tree; the range of a number is that of its kind.
pub fn add(w: &mut World, form: TreeForm, of: TypeId, at: Where) -> Result<TreeId, Stop> {
    Ok(w.pool.trees.add(bare(form, of, at))?)
}

/// The range of an expression that is a number.
pub fn range(w: &World, tree: TreeId) -> Range {
    let known = w.pool.trees.get(tree);
    match (w.pool.ranges.get(known.range), w.pool.types.kind(known.of)) {
        (Some(range), _) => range,
        (None, Some(kind)) => Range::of_kind(kind),
        (None, None) => Range { lo: 0, hi: 0 },
    }
}

/// Adds a tree with a range and, where it is known, a value.
pub fn add_number(
    w: &mut World,
    form: TreeForm,
    of: TypeId,
    at: Where,
    range: Range,
    value: Option<i128>,
) -> Result<TreeId, Stop> {
    let number = w.pool.ranges.add(range)?;
    let value = match value {
        Some(n) => Some(w.pool.values.number(n)?),
        None => None,
    };
    let tree = Tree {
        range: number,
        value,
        ..bare(form, of, at)
    };
    Ok(w.pool.trees.add(tree)?)
}

/// A constant.
pub fn constant(w: &mut World, of: TypeId, value: ValueId, at: Where) -> Result<TreeId, Stop> {
    let number = match (w.pool.types.kind(of), w.pool.values.get(value)) {
        (Some(_), Value::Number(n)) => w.pool.ranges.add(Range::alone(n))?,
        _ => Ranges::NONE,
    };
    let tree = Tree {
        range: number,
        value: Some(value),
        ..bare(TreeForm::Const(value), of, at)
    };
    Ok(w.pool.trees.add(tree)?)
}

/// A number as a constant.
pub fn number(w: &mut World, of: TypeId, n: i128, at: Where) -> Result<TreeId, Stop> {
    let value = w.pool.values.number(n)?;
    constant(w, of, value, at)
}

/// The tree of `true` or of `false`.
pub fn truth(w: &mut World, holds: bool, at: Where) -> Result<TreeId, Stop> {
    number(w, TypeId::BOOL, if holds { 1 } else { 0 }, at)
}

/// The number that an expression is known to be.
pub fn known(w: &World, tree: TreeId) -> Option<i128> {
    match w.pool.values.get(w.pool.trees.get(tree).value?) {
        Value::Number(n) => Some(n),
        _ => None,
    }
}

/// Whether a tree is a constant itself.
pub fn const_of(w: &World, tree: TreeId) -> Option<ValueId> {
    match w.pool.trees.get(tree).form {
        TreeForm::Const(value) => Some(value),
        _ => None,
    }
}

/// A range where it lies in that of the kind, else all numbers of the kind.
pub fn fitted(range: Range, kind: Kind) -> Range {
    let all = Range::of_kind(kind);
    if range.fits(all) { range } else { all }
}

/// `a op b` on numbers of a kind, of the type.
pub fn binary(
    w: &mut World,
    op: BinOp,
    kind: Kind,
    a: TreeId,
    b: TreeId,
    of: TypeId,
    at: Where,
) -> Result<TreeId, Stop> {
    let left = range(w, a);
    let right = range(w, b);
    let joined = joined_range(
        op,
        kind,
        &dc_candidate::Range {
            lo: left.lo,
            hi: left.hi,
        },
        &dc_candidate::Range {
            lo: right.lo,
            hi: right.hi,
        },
    );
    let value = match (known(w, a), known(w, b)) {
        (Some(x), Some(y)) => dc_fold::binary(op, kind, x, y).ok(),
        _ => None,
    };
    let range = Range {
        lo: joined.lo,
        hi: joined.hi,
    };
    add_number(w, TreeForm::Binary(op, kind, a, b), of, at, range, value)
}

/// `a op b` where both are numbers of a kind.
pub fn compared(
    w: &mut World,
    op: CmpOp,
    kind: Kind,
    a: TreeId,
    b: TreeId,
    at: Where,
) -> Result<TreeId, Stop> {
    let value = match (known(w, a), known(w, b)) {
        (Some(x), Some(y)) => Some(if dc_num::compare(op, x, y) { 1 } else { 0 }),
        _ => None,
    };
    let all = Range::of_kind(Kind::Bool);
    add_number(
        w,
        TreeForm::Compare(op, kind, a, b),
        TypeId::BOOL,
        at,
        all,
        value,
    )
}

/// `-a` or `~a` in a kind, with its range.
pub fn unary(
    w: &mut World,
    op: UnOp,
    kind: Kind,
    a: TreeId,
    at: Where,
    range: Range,
) -> Result<TreeId, Stop> {
    let value = known(w, a).map(|x| dc_num::unary(op, kind, x));
    add_number(
        w,
        TreeForm::Unary(op, a),
        TypeId::of_kind(kind),
        at,
        range,
        value,
    )
}

/// A truth value of that form, which is known where the value is.
pub fn logical(
    w: &mut World,
    form: TreeForm,
    at: Where,
    value: Option<bool>,
) -> Result<TreeId, Stop> {
    let value = value.map(|holds| if holds { 1 } else { 0 });
    add_number(w, form, TypeId::BOOL, at, Range::of_kind(Kind::Bool), value)
}

/// The values of a list of trees, where all are known.
fn values(w: &mut World, items: List) -> Result<Option<ValueId>, Stop> {
    let mut all = Vec::new(w.alloc);
    for n in w.pool.trees.numbers(items) {
        match w.pool.trees.get(TreeId(*n)).value {
            Some(value) => all.push(value)?,
            None => return Ok(None),
        }
    }
    Ok(Some(w.pool.values.list(all.as_slice())?))
}

/// An array literal or a struct's value, which is known where its parts are.
pub fn aggregate(
    w: &mut World,
    form: TreeForm,
    items: List,
    of: TypeId,
    at: Where,
) -> Result<TreeId, Stop> {
    let value = values(w, items)?;
    let tree = Tree {
        value,
        ..bare(form, of, at)
    };
    Ok(w.pool.trees.add(tree)?)
}

/// No range.
pub(crate) const NO_RANGE: RangeId = Ranges::NONE;
