// Operators on judged operands (D specification, "Expressions"; "Types", "Usual Arithmetic Conversions").
use dc_ast::{BinaryOperator, UnaryOperator};
use dc_convert::{common, promoted};
use dc_facts::{Holding, fields_of, holds};
use dc_form::{
    NONE, Source, add, add_number, as_kind, as_slice, at_of, binary, bits, coerce, compared,
    fitted, known, level, logical, range, renumbered, slice_of, unary,
};
use dc_model::{Stop, World};
use dc_tree::{Range, TreeForm, TreeId, Type, TypeId, Where};
use dc_types::{BinOp, CmpOp, Kind, UnOp};

/// Whether an operator is `&&` or `||`.
pub fn is_logical(operator: BinaryOperator) -> bool {
    match operator {
        BinaryOperator::And | BinaryOperator::Or => true,
        _ => false,
    }
}

/// Refuses a part of a condition that is no number.
pub fn check_condition(w: &mut World, tree: TreeId, at: Where) -> Result<(), Stop> {
    if w.pool.types.kind(w.pool.trees.get(tree).of).is_none() {
        return w.refuse(10, at, None);
    }
    Ok(())
}

/// The arithmetic of an operator between two operands.
fn arithmetic(operator: BinaryOperator) -> Option<BinOp> {
    match operator {
        BinaryOperator::Multiply => Some(BinOp::Mul),
        BinaryOperator::Divide => Some(BinOp::Div),
        BinaryOperator::Remainder => Some(BinOp::Rem),
        BinaryOperator::Add => Some(BinOp::Add),
        BinaryOperator::Subtract => Some(BinOp::Sub),
        BinaryOperator::ShiftLeft => Some(BinOp::Shl),
        BinaryOperator::ShiftRight => Some(BinOp::Shr),
        BinaryOperator::ShiftRightZeros => Some(BinOp::Ushr),
        BinaryOperator::BitAnd => Some(BinOp::BitAnd),
        BinaryOperator::BitXor => Some(BinOp::BitXor),
        BinaryOperator::BitOr => Some(BinOp::BitOr),
        _ => None,
    }
}

pub(crate) fn is_shift(op: BinOp) -> bool {
    match op {
        BinOp::Shl | BinOp::Shr | BinOp::Ushr => true,
        _ => false,
    }
}

fn comparison(operator: BinaryOperator) -> Option<CmpOp> {
    match operator {
        BinaryOperator::Equal => Some(CmpOp::Equal),
        BinaryOperator::NotEqual => Some(CmpOp::Differs),
        BinaryOperator::Less => Some(CmpOp::Less),
        BinaryOperator::LessOrEqual => Some(CmpOp::LessEq),
        BinaryOperator::Greater => Some(CmpOp::Greater),
        BinaryOperator::GreaterOrEqual => Some(CmpOp::GreaterEq),
        _ => None,
    }
}

/// `a op b` of a chain.
pub fn chained(
    w: &mut World,
    operator: BinaryOperator,
    a: TreeId,
    b: TreeId,
    at: Where,
) -> Result<TreeId, Stop> {
    match operator {
        BinaryOperator::And => {
            let value = match (known(w, a), known(w, b)) {
                (Some(0), _) => Some(false),
                (Some(_), Some(n)) => Some(n != 0),
                _ => None,
            };
            logical(w, TreeForm::And(a, b), at, value)
        }
        BinaryOperator::Or => {
            let value = match (known(w, a), known(w, b)) {
                (Some(0), Some(n)) => Some(n != 0),
                (Some(0), None) | (None, _) => None,
                (Some(_), _) => Some(true),
            };
            logical(w, TreeForm::Or(a, b), at, value)
        }
        BinaryOperator::Concatenate => join(w, a, b, at),
        _ => match arithmetic(operator) {
            Some(op) => numbers(w, op, a, b, at),
            None => compare(w, operator, a, b, at),
        },
    }
}

/// Whether an enum's base is at least 32 bits wide.
fn is_wide(kind: Kind) -> bool {
    bits(kind) >= 32
}

/// An operation on two numbers.
fn numbers(w: &mut World, op: BinOp, a: TreeId, b: TreeId, at: Where) -> Result<TreeId, Stop> {
    let left = w.pool.trees.get(a).of;
    let right = w.pool.trees.get(b).of;
    let (Some(x), Some(y)) = (w.pool.types.kind(left), w.pool.types.kind(right)) else {
        return w.refuse(10, at, None);
    };
    if is_shift(op) {
        let kind = promoted(x);
        let value = as_kind(w, a, kind)?;
        let count = as_kind(w, b, y)?;
        return binary(w, op, kind, value, count, TypeId::of_kind(kind), at);
    }
    let kind = common(x, y);
    let p = as_kind(w, a, kind)?;
    let q = as_kind(w, b, kind)?;
    let of = match w.pool.types.get(left) {
        Type::Enum(_, _) if left == right && is_wide(x) => left,
        _ => TypeId::of_kind(kind),
    };
    binary(w, op, kind, p, q, of, at)
}

/// `-a`, `+a`, `~a`
pub fn unary_number(
    w: &mut World,
    operator: UnaryOperator,
    a: TreeId,
    is_literal: bool,
    at: Where,
) -> Result<TreeId, Stop> {
    let Some(kind) = w.pool.types.kind(w.pool.trees.get(a).of) else {
        return w.refuse(10, at, None);
    };
    let kind = promoted(kind);
    let value = as_kind(w, a, kind)?;
    let all = Range::of_kind(kind);
    match operator {
        UnaryOperator::Plus => {
            let n = known(w, value);
            add_number(w, TreeForm::As(value), TypeId::of_kind(kind), at, all, n)
        }
        UnaryOperator::Minus => {
            let alone = match known(w, value) {
                Some(n) if is_literal => Range::alone(dc_num::unary(UnOp::Negate, kind, n)),
                _ => all,
            };
            unary(w, UnOp::Negate, kind, value, at, alone)
        }
        _ => unary(w, UnOp::Flip, kind, value, at, all),
    }
}

/// A number as one of a type, as `cast` does it.
pub fn cast_number(
    w: &mut World,
    tree: TreeId,
    to: TypeId,
    kind: Kind,
    at: Where,
) -> Result<TreeId, Stop> {
    let fits = fitted(range(w, tree), kind);
    let value = known(w, tree).map(|n| dc_num::wrap(kind, n));
    add_number(w, TreeForm::Convert(tree), to, at, fits, value)
}

/// A comparison.
pub fn compare(
    w: &mut World,
    operator: BinaryOperator,
    a: TreeId,
    b: TreeId,
    at: Where,
) -> Result<TreeId, Stop> {
    let Some(op) = comparison(operator) else {
        return w.refuse(10, at, None);
    };
    let left = w.pool.trees.get(a).of;
    let right = w.pool.trees.get(b).of;
    if let (Some(x), Some(y)) = (w.pool.types.kind(left), w.pool.types.kind(right)) {
        let kind = common(x, y);
        let p = as_kind(w, a, kind)?;
        let q = as_kind(w, b, kind)?;
        return compared(w, op, kind, p, q, at);
    }
    let negated = match op {
        CmpOp::Equal => false,
        CmpOp::Differs => true,
        _ => return w.refuse(10, at, None),
    };
    let is_value = match w.pool.types.get(left) {
        Type::Struct(_) | Type::Enum(_, _) => left == right,
        _ => false,
    };
    if is_value {
        if !is_comparable(w, left)? {
            return w.refuse(10, at, None);
        }
        return add(w, TreeForm::Same(negated, a, b), TypeId::BOOL, at);
    }
    same_arrays(w, negated, a, b, at)
}

/// Whether values of a type can be told apart: strings, and arrays of what holds no slice, are compared by contents.
fn is_comparable(w: &mut World, of: TypeId) -> Result<bool, Stop> {
    let mut work = Vec::new(w.alloc);
    work.push(of)?;
    for _ in 0..u64::MAX {
        let Some(next) = work.pop() else {
            break;
        };
        match w.pool.types.get(next) {
            Type::Struct(unit) => {
                for field in fields_of(w, unit)?.as_slice() {
                    work.push(field.of)?;
                }
            }
            Type::Enum(_, base) => work.push(base)?,
            Type::Str | Type::Int(_) => {}
            Type::Slice(item) | Type::Fixed(item, _) => {
                if holds(w, item, Holding::AnySlice)? {
                    return Ok(false);
                }
                work.push(item)?;
            }
            _ => return Ok(false),
        }
    }
    Ok(true)
}

fn is_array(w: &World, of: TypeId) -> bool {
    w.pool.types.element(of).is_some() || of == TypeId::NULL || of == TypeId::EMPTY
}

/// Equality of arrays.
fn same_arrays(
    w: &mut World,
    negated: bool,
    a: TreeId,
    b: TreeId,
    at: Where,
) -> Result<TreeId, Stop> {
    let left = w.pool.trees.get(a).of;
    let right = w.pool.trees.get(b).of;
    let has_elements = w.pool.types.element(left).is_some()
        || w.pool.types.element(right).is_some();
    if !is_array(w, left) || !is_array(w, right) || !has_elements {
        return w.refuse(10, at, None);
    }
    if left == right {
        if let Type::Fixed(item, _) = w.pool.types.get(left) {
            if !holds(w, item, Holding::AnySlice)? && is_comparable(w, item)? {
                return add(w, TreeForm::Same(negated, a, b), TypeId::BOOL, at);
            }
        }
    }
    let (x, y) = one_slice_type(w, a, b, at)?;
    let of = w.pool.trees.get(x).of;
    let Some(item) = w.pool.types.element(of) else {
        return w.refuse(10, at, None);
    };
    if holds(w, item, Holding::AnySlice)? || !is_comparable(w, item)? {
        return w.refuse(10, at, None);
    }
    add(w, TreeForm::Same(negated, x, y), TypeId::BOOL, at)
}

/// Two arrays as slices of one type, `string` and `char[]` among them, or rule 10.
fn one_slice_type(
    w: &mut World,
    a: TreeId,
    b: TreeId,
    at: Where,
) -> Result<(TreeId, TreeId), Stop> {
    let x = as_slice(w, a)?;
    let y = as_slice(w, b)?;
    let left = w.pool.trees.get(x).of;
    let right = w.pool.trees.get(y).of;
    let both_texts = w.pool.types.is_text(left) && w.pool.types.is_text(right);
    if left == right || both_texts {
        return Ok((x, y));
    }
    if level(w, Source::Tree(y), left) > NONE {
        let z = coerce(w, y, left, at)?;
        return Ok((x, z));
    }
    if level(w, Source::Tree(x), right) > NONE {
        let z = coerce(w, x, right, at)?;
        return Ok((z, y));
    }
    w.refuse(10, at, None)
}

/// A place of a fixed array as its slice; anything else as it is.
pub(crate) fn place_slice(w: &mut World, tree: TreeId) -> Result<TreeId, Stop> {
    let known_tree = w.pool.trees.get(tree);
    if known_tree.is_place && w.pool.types.fixed_length(known_tree.of).is_some() {
        let to = slice_of(w, known_tree.of)?;
        let at = at_of(w, tree);
        return coerce(w, tree, to, at);
    }
    Ok(tree)
}

/// `a ~ b`
fn join(w: &mut World, a: TreeId, b: TreeId, at: Where) -> Result<TreeId, Stop> {
    let left = w.pool.trees.get(a).of;
    let right = w.pool.trees.get(b).of;
    if left != right && w.pool.types.is_text(left) && w.pool.types.is_text(right) {
        let of = w.pool.types.number(Type::Slice(TypeId::CHAR))?;
        return add(w, TreeForm::Join(a, b, true, true), of, at);
    }
    if let Some((x, y, is_whole)) = joined(w, a, b)? {
        let of = w.pool.trees.get(x).of;
        return add(w, TreeForm::Join(x, y, true, is_whole), of, at);
    }
    if let Some((y, x, is_whole)) = joined(w, b, a)? {
        let of = w.pool.trees.get(y).of;
        return add(w, TreeForm::Join(x, y, is_whole, true), of, at);
    }
    w.refuse(10, at, None)
}

/// A slice and what is joined with it, and whether that is a slice and no element; nothing where they don't go
/// together.
fn joined(
    w: &mut World,
    slice: TreeId,
    other: TreeId,
) -> Result<Option<(TreeId, TreeId, bool)>, Stop> {
    let x = place_slice(w, slice)?;
    let of = w.pool.trees.get(x).of;
    if !w.pool.types.is_slice(of) {
        return Ok(None);
    }
    let Some(element) = w.pool.types.element(of) else {
        return Ok(None);
    };
    let at = at_of(w, other);
    if level(w, Source::Tree(other), of) > NONE {
        let y = coerce(w, other, of, at)?;
        return Ok(Some((x, y, true)));
    }
    if level(w, Source::Tree(other), element) > NONE {
        let y = coerce(w, other, element, at)?;
        return Ok(Some((x, y, false)));
    }
    Ok(None)
}

/// A number as one of a kind, for operations that assign.
fn operand(w: &mut World, tree: TreeId, kind: Kind) -> Result<TreeId, Stop> {
    as_kind(w, tree, kind)
}

/// A number as one of another type.
fn as_type(w: &mut World, tree: TreeId, to: TypeId, kind: Kind) -> Result<TreeId, Stop> {
    renumbered(w, tree, to, kind)
}
