// How well something goes to a type (D specification, "Types", "Implicit Conversions").
use dc_model::World;
use dc_tree::{Range, TreeForm, TreeId, Type, TypeId};
use dc_types::Kind;

/// What goes to a type: an expression, or something of which only the type is known and whether it is a place.
#[derive(Clone, Copy)]
pub enum Source {
    Tree(TreeId),
    Bare(TypeId, bool),
}

/// No conversion, an implicit one, and none that is needed.
pub const NONE: u8 = 0;

const CONVERTS: u8 = 1;

pub const SAME: u8 = 2;

/// How deep literals may nest in what is converted.
const NESTED: u32 = 20_000;

/// How wide the numbers of a kind are, in bits.
pub fn bits(kind: Kind) -> u32 {
    match kind {
        Kind::Bool | Kind::I8 | Kind::U8 | Kind::Char => 8,
        Kind::I16 | Kind::U16 => 16,
        Kind::I32 | Kind::U32 => 32,
        Kind::I64 | Kind::U64 => 64,
    }
}

/// The type of a source.
pub fn type_of(w: &World, source: Source) -> TypeId {
    match source {
        Source::Tree(tree) => w.pool.trees.get(tree).of,
        Source::Bare(of, _) => of,
    }
}

/// The range of a source that is a number of a kind.
fn range_of(w: &World, source: Source, kind: Kind) -> Range {
    match source {
        Source::Tree(tree) => match w.pool.ranges.get(w.pool.trees.get(tree).range) {
            Some(range) => range,
            None => Range::of_kind(kind),
        },
        Source::Bare(_, _) => Range::of_kind(kind),
    }
}

fn is_place(w: &World, source: Source) -> bool {
    match source {
        Source::Tree(tree) => w.pool.trees.get(tree).is_place,
        Source::Bare(_, is_place) => is_place,
    }
}

/// How well a source goes to a type.
pub fn level(w: &World, source: Source, to: TypeId) -> u8 {
    level_from(w, source, type_of(w, source), to, NESTED)
}

/// The same of a source that is taken as of a type.
#[cycle(levels)]
fn level_from(w: &World, source: Source, from: TypeId, to: TypeId, depth: u32) -> u8 {
    if from == to {
        return SAME;
    }
    if from == TypeId::VOID || to == TypeId::VOID || depth == 0 {
        return NONE;
    }
    if converts(w, source, from, to, depth - 1) {
        CONVERTS
    } else {
        NONE
    }
}

#[cycle(levels)]
fn converts(w: &World, source: Source, from: TypeId, to: TypeId, depth: u32) -> bool {
    if depth == 0 {
        return false;
    }
    let types = &w.pool.types;
    match (types.get(from), types.get(to)) {
        (Type::Null, _) => types.is_slice(to),
        (Type::Empty, Type::Fixed(_, 0)) => true,
        (Type::Empty, _) => types.is_slice(to),
        (Type::Enum(_, base), _) => level_from(w, source, base, to, depth - 1) > NONE,
        (Type::Int(a), Type::Int(b)) => {
            (bits(b) >= bits(a) && b != Kind::Bool)
                || range_of(w, source, a).fits(Range::of_kind(b))
        }
        (Type::Fixed(item, _), Type::Slice(other)) if is_place(w, source) && item == other => true,
        _ => items_convert(w, source, to, depth - 1),
    }
}

/// Whether the source is an array literal whose elements go to the elements of an array type.
#[cycle(levels)]
fn items_convert(w: &World, source: Source, to: TypeId, depth: u32) -> bool {
    if depth == 0 {
        return false;
    }
    let Source::Tree(tree) = source else {
        return false;
    };
    let TreeForm::Array(_, items) = w.pool.trees.get(tree).form else {
        return false;
    };
    let Some(element) = w.pool.types.element(to) else {
        return false;
    };
    if let Some(len) = w.pool.types.fixed_length(to) {
        if len != items.len {
            return false;
        }
    }
    for n in w.pool.trees.numbers(items) {
        let item = TreeId(*n);
        let of = w.pool.trees.get(item).of;
        if level_from(w, Source::Tree(item), of, element, depth - 1) == NONE {
            return false;
        }
    }
    true
}
