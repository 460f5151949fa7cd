// Words of types.
use dc_tree::{Pool, Type, TypeId};

/// How deep types and values may nest.
pub(crate) const NESTED: u32 = 20_000;

/// The words of a value of a type.
pub fn cells(pool: &Pool, of: TypeId) -> u32 {
    let mut at = of;
    let mut times: u32 = 1;
    for _ in 0..u64::MAX {
        match pool.types.get(at) {
            Type::Enum(_, base) => at = base,
            Type::Fixed(_, 0) => break,
            Type::Fixed(item, n) => {
                times = times.saturating_mul(n);
                at = item;
            }
            Type::Slice(_) | Type::Str | Type::Null | Type::Empty => return times.saturating_mul(3),
            Type::Struct(unit) => {
                let each = match pool.layouts.get(unit) {
                    Some(layout) => layout.cells.max(1),
                    None => 1,
                };
                return times.saturating_mul(each);
            }
            Type::Void | Type::Int(_) | Type::Opaque(_, _) => break,
        }
    }
    times
}

/// The words that a function returns: none of `void`.
pub(crate) fn result_cells(pool: &Pool, of: TypeId) -> u32 {
    match pool.types.get(of) {
        Type::Void => 0,
        _ => cells(pool, of),
    }
}

/// The words of an element of an array.
pub(crate) fn element_cells(pool: &Pool, of: TypeId) -> u32 {
    match pool.types.element(pool.types.base(of)) {
        Some(item) => cells(pool, item),
        None => 1,
    }
}

/// Whether a value of the type holds a fixed array, but not behind a slice.
#[cycle(holds_fixed)]
pub(crate) fn holds_fixed(pool: &Pool, of: TypeId, depth: u32) -> bool {
    if depth == 0 {
        return true;
    }
    match pool.types.get(pool.types.base(of)) {
        Type::Fixed(_, _) => true,
        Type::Struct(unit) => match pool.layouts.get(unit) {
            Some(layout) => {
                for field in pool.layouts.fields(layout) {
                    if holds_fixed(pool, field.of, depth - 1) {
                        return true;
                    }
                }
                false
            }
            None => false,
        },
        _ => false,
    }
}

/// Whether arrays of such elements grow in place.
pub(crate) fn grows(pool: &Pool, of: TypeId) -> bool {
    match pool.types.element(pool.types.base(of)) {
        Some(item) => !holds_fixed(pool, item, NESTED),
        None => false,
    }
}
