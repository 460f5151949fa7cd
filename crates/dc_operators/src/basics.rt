// Basic types, elements and slices.
use dc_ast::BasicType;
use dc_model::{Stop, Symbol, World};
use dc_tree::{Type, TypeId, Where};
use dc_types::Kind;

/// The type that a basic type names.
pub fn basic(of: BasicType) -> TypeId {
    match of {
        BasicType::Void => TypeId::VOID,
        BasicType::Bool => TypeId::BOOL,
        BasicType::Char => TypeId::CHAR,
        BasicType::Byte => TypeId::of_kind(Kind::I8),
        BasicType::Ubyte => TypeId::of_kind(Kind::U8),
        BasicType::Short => TypeId::of_kind(Kind::I16),
        BasicType::Ushort => TypeId::of_kind(Kind::U16),
        BasicType::Int => TypeId::INT,
        BasicType::Uint => TypeId::of_kind(Kind::U32),
        BasicType::Long => TypeId::LONG,
        BasicType::Ulong => TypeId::ULONG,
    }
}

/// Refuses what can't be the type of an element.
pub fn check_element(w: &mut World, of: TypeId, at: Where) -> Result<(), Stop> {
    if of == TypeId::VOID || of == TypeId::NULL || of == TypeId::EMPTY {
        return w.refuse(10, at, None);
    }
    Ok(())
}

/// `T[]`
pub fn slice_type(w: &mut World, of: TypeId, at: Where) -> Result<TypeId, Stop> {
    check_element(w, of, at)?;
    Ok(w.pool.types.number(Type::Slice(of))?)
}

/// The type that a symbol is; rule 10 where it is none.
pub fn as_type(w: &mut World, symbol: Symbol, at: Where) -> Result<TypeId, Stop> {
    match symbol {
        Symbol::Type(of) => Ok(of),
        _ => w.refuse(10, at, None),
    }
}
