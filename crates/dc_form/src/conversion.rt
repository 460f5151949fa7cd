// Converting resolved expressions (D specification, "Types", "Implicit Conversions").
use crate::levels::{NONE, Source, level};
use crate::make::{
    NO_RANGE, add_number, aggregate, bare, const_of, constant, fitted, known, number, range,
};
use dc_model::{Stop, World};
use dc_syntax::List;
use dc_tree::{Tree, TreeForm, TreeId, Type, TypeId, Value, ValueId, Where};
use dc_types::Kind;

/// How deep literals may nest in what is converted.
const NESTED: u32 = 20_000;

/// The place of an expression that is refused.
pub fn at_of(w: &World, tree: TreeId) -> Where {
    w.pool.trees.get(tree).at
}

/// The expression as one of a type to which it converts, or rule 10 at a place.
pub fn convert(w: &mut World, tree: TreeId, to: TypeId, at: Where) -> Result<TreeId, Stop> {
    if level(w, Source::Tree(tree), to) == NONE {
        return w.refuse(10, at, None);
    }
    coerce(w, tree, to, at)
}

/// The expression as one of a type to which it is known to convert.
pub fn coerce(w: &mut World, tree: TreeId, to: TypeId, at: Where) -> Result<TreeId, Stop> {
    coerce_deep(w, tree, to, at, NESTED)
}

/// A value as one of another type.
pub fn converted_value(
    w: &mut World,
    value: ValueId,
    from: TypeId,
    to: TypeId,
) -> Result<ValueId, Stop> {
    match (w.pool.values.get(value), w.pool.types.kind(to)) {
        (Value::Number(n), Some(kind)) => Ok(w.pool.values.number(dc_num::wrap(kind, n))?),
        _ if to == TypeId::STRING => text_value(w, value),
        (Value::Bytes(name), None) if from == TypeId::STRING => Ok(
            w.pool.values.add(Value::Bytes(name))?,
        ),
        _ => Ok(value),
    }
}

/// A list of characters as the bytes of a string.
fn text_value(w: &mut World, value: ValueId) -> Result<ValueId, Stop> {
    if let Value::List(_, _) = w.pool.values.get(value) {
        let mut bytes = Vec::new(w.alloc);
        for item in w.pool.values.items(value) {
            let n = w.pool.values.as_number(*item);
            bytes.push(u8::try_from(n & 255).unwrap_or(0))?;
        }
        let name = w.pool.names.number(bytes.as_slice())?;
        return Ok(w.pool.values.add(Value::Bytes(name))?);
    }
    Ok(value)
}

#[cycle(coercing)]
fn coerce_deep(
    w: &mut World,
    tree: TreeId,
    to: TypeId,
    at: Where,
    depth: u32,
) -> Result<TreeId, Stop> {
    let known_tree = w.pool.trees.get(tree);
    let from = known_tree.of;
    if from == to || depth == 0 {
        return Ok(tree);
    }
    if let TreeForm::Array(_, items) = known_tree.form {
        if w.pool.types.element(to).is_some() {
            return coerce_items(w, known_tree, items, to, depth - 1);
        }
    }
    coerce_other(w, tree, to, at)
}

/// An array literal as one of another array type.
#[cycle(coercing)]
fn coerce_items(
    w: &mut World,
    literal: Tree,
    items: List,
    to: TypeId,
    depth: u32,
) -> Result<TreeId, Stop> {
    let Some(element) = w.pool.types.element(to) else {
        return Err(Stop::NoMemory);
    };
    if depth == 0 {
        return Err(Stop::NoMemory);
    }
    let mut all = Vec::new(w.alloc);
    for k in 0..items.len {
        let item = w.pool.trees.item(items, k);
        let at = at_of(w, item);
        let new = coerce_deep(w, item, element, at, depth - 1)?;
        all.push(new.0)?;
    }
    let list = w.pool.trees.list(all.as_slice())?;
    let form = TreeForm::Array(list, items);
    let made = aggregate(w, form, list, to, literal.at)?;
    if to == TypeId::STRING {
        return as_text(w, made);
    }
    Ok(made)
}

/// A literal of characters as a string keeps the value of one.
pub fn as_text(w: &mut World, tree: TreeId) -> Result<TreeId, Stop> {
    let known_tree = w.pool.trees.get(tree);
    let Some(value) = known_tree.value else {
        return Ok(tree);
    };
    let value = text_value(w, value)?;
    Ok(
        w.pool.trees.add(Tree {
            value: Some(value),
            ..known_tree
        })?,
    )
}

/// An expression that is no array literal.
fn coerce_other(w: &mut World, tree: TreeId, to: TypeId, at: Where) -> Result<TreeId, Stop> {
    let known_tree = w.pool.trees.get(tree);
    let from = known_tree.of;
    let is_empty = from == TypeId::NULL || from == TypeId::EMPTY;
    if let Some(value) = const_of(w, tree) {
        if is_empty || w.pool.types.kind(from).is_some() {
            let value = converted_value(w, value, from, to)?;
            return constant(w, to, value, known_tree.at);
        }
    }
    match (w.pool.types.get(from), w.pool.types.get(to)) {
        (Type::Fixed(_, _), Type::Slice(_)) => whole(w, tree, to, at),
        _ => match (w.pool.types.kind(from), w.pool.types.kind(to)) {
            (Some(_), Some(kind)) => renumbered(w, tree, to, kind),
            _ => same_as(w, tree, to),
        },
    }
}

/// A number as one of a type of another kind.
pub fn renumbered(w: &mut World, tree: TreeId, to: TypeId, kind: Kind) -> Result<TreeId, Stop> {
    let at = at_of(w, tree);
    let fits = fitted(range(w, tree), kind);
    let value = known(w, tree).map(|n| dc_num::wrap(kind, n));
    add_number(w, TreeForm::Convert(tree), to, at, fits, value)
}

/// The same value, taken as of another type.
fn same_as(w: &mut World, tree: TreeId, to: TypeId) -> Result<TreeId, Stop> {
    let known_tree = w.pool.trees.get(tree);
    Ok(
        w.pool.trees.add(Tree {
            value: known_tree.value,
            range: known_tree.range,
            ..bare(TreeForm::As(tree), to, known_tree.at)
        })?,
    )
}

/// A number or an enum as a number of a kind.
pub fn as_kind(w: &mut World, tree: TreeId, kind: Kind) -> Result<TreeId, Stop> {
    let to = TypeId::of_kind(kind);
    if w.pool.trees.get(tree).of == to {
        return Ok(tree);
    }
    if const_of(w, tree).is_some() {
        if let Some(n) = known(w, tree) {
            let at = at_of(w, tree);
            return number(w, to, dc_num::wrap(kind, n), at);
        }
    }
    renumbered(w, tree, to, kind)
}

/// The type of the slices of a fixed array's elements.
pub fn slice_of(w: &mut World, fixed: TypeId) -> Result<TypeId, Stop> {
    match w.pool.types.element(fixed) {
        Some(element) => Ok(w.pool.types.number(Type::Slice(element))?),
        None => Ok(fixed),
    }
}

/// A fixed array as a slice of its place, or of a temporary.
pub fn whole(w: &mut World, tree: TreeId, to: TypeId, at: Where) -> Result<TreeId, Stop> {
    let known_tree = w.pool.trees.get(tree);
    if known_tree.read_only {
        return w.refuse(22, at, None);
    }
    own(w, tree);
    Ok(
        w.pool.trees.add(Tree {
            range: NO_RANGE,
            ..bare(TreeForm::Whole(tree), to, known_tree.at)
        })?,
    )
}

/// An array as a slice, where its elements are only read.
pub fn as_slice(w: &mut World, tree: TreeId) -> Result<TreeId, Stop> {
    let known_tree = w.pool.trees.get(tree);
    if w.pool.types.fixed_length(known_tree.of).is_none() {
        return Ok(tree);
    }
    let to = slice_of(w, known_tree.of)?;
    Ok(
        w.pool
            .trees
            .add(bare(TreeForm::Whole(tree), to, known_tree.at))?,
    )
}

/// Notes that what a place lies in, or a temporary, lives in a block of its own.
pub fn own(w: &mut World, tree: TreeId) {
    let known_tree = w.pool.trees.get(tree);
    match known_tree.root {
        Some(variable) => w.pool.variables.set_own(variable),
        None => {
            if !known_tree.is_place {
                w.pool.trees.set_own(tree);
            }
        }
    }
}
