// Types.
use crate::{DeclId, UnitId};
use dc_syntax::{NameId, Want};
use dc_types::Kind;
use indexmap::IndexMap;
use std::alloc::Global;

/// The number of a type. Equal types have equal numbers.
#[derive(Clone, Copy, PartialEq, Eq, PartialOrd, Ord, Hash)]
pub struct TypeId(pub u32);

/// A type (D specification, "Types").
#[derive(Clone, Copy, PartialEq, Eq)]
pub enum Type {
    Void,
    Int(Kind),
    /// `T[n]`
    Fixed(TypeId, u32),
    /// `T[]`
    Slice(TypeId),
    /// `string`
    Str,
    Struct(UnitId),
    /// An enum, with its base.
    Enum(DeclId, TypeId),
    /// The type of `null`.
    Null,
    /// The type of `[]`.
    Empty,
    /// A template's own parameter, where two templates are compared.
    Opaque(DeclId, NameId),
}

/// What tells a type that isn't basic from others.
#[derive(Clone, Copy, PartialEq, Eq, Hash)]
enum Key {
    Fixed(TypeId, u32),
    Slice(TypeId),
    Struct(UnitId),
    Enum(DeclId, TypeId),
    Opaque(DeclId, NameId),
}

#[derive(Drop)]
pub struct Types {
    all: Vec<Type>,
    known: IndexMap<Key, TypeId>,
}

/// The basic types, in the order of their numbers.
const BASIC: [Type; 14] = [
    Type::Void,
    Type::Int(Kind::Bool),
    Type::Int(Kind::I8),
    Type::Int(Kind::U8),
    Type::Int(Kind::I16),
    Type::Int(Kind::U16),
    Type::Int(Kind::I32),
    Type::Int(Kind::U32),
    Type::Int(Kind::I64),
    Type::Int(Kind::U64),
    Type::Int(Kind::Char),
    Type::Str,
    Type::Null,
    Type::Empty,
];

impl TypeId {
    pub const VOID: TypeId = TypeId(0);

    pub const BOOL: TypeId = TypeId(1);

    pub const INT: TypeId = TypeId(6);

    pub const LONG: TypeId = TypeId(8);

    pub const ULONG: TypeId = TypeId(9);

    pub const CHAR: TypeId = TypeId(10);

    pub const STRING: TypeId = TypeId(11);

    pub const NULL: TypeId = TypeId(12);

    pub const EMPTY: TypeId = TypeId(13);

    /// The type of a kind of number.
    pub fn of_kind(kind: Kind) -> TypeId {
        match kind {
            Kind::Bool => TypeId(1),
            Kind::I8 => TypeId(2),
            Kind::U8 => TypeId(3),
            Kind::I16 => TypeId(4),
            Kind::U16 => TypeId(5),
            Kind::I32 => TypeId(6),
            Kind::U32 => TypeId(7),
            Kind::I64 => TypeId(8),
            Kind::U64 => TypeId(9),
            Kind::Char => TypeId(10),
        }
    }
}

impl Types {
    /// The basic types alone.
    pub fn new(alloc: Global) -> Result<Types, Want> {
        let mut all = Vec::new(alloc);
        all.extend_from_slice(&BASIC)?;
        Ok(Types {
            all,
            known: IndexMap::new(alloc),
        })
    }

    fn keyed(&mut self, key: Key, of: Type) -> Result<TypeId, Want> {
        if let Some(known) = self.known.get(&key) {
            return Ok(*known);
        }
        let Ok(n) = u32::try_from(self.all.len()) else {
            return Err(Want);
        };
        self.all.push(of)?;
        self.known.insert(key, TypeId(n))?;
        Ok(TypeId(n))
    }

    /// The number of a type, which is added where it is new.
    pub fn number(&mut self, of: Type) -> Result<TypeId, Want> {
        match of {
            Type::Void => Ok(TypeId::VOID),
            Type::Int(kind) => Ok(TypeId::of_kind(kind)),
            Type::Str => Ok(TypeId::STRING),
            Type::Null => Ok(TypeId::NULL),
            Type::Empty => Ok(TypeId::EMPTY),
            Type::Fixed(item, len) => self.keyed(Key::Fixed(item, len), of),
            Type::Slice(item) => self.keyed(Key::Slice(item), of),
            Type::Struct(unit) => self.keyed(Key::Struct(unit), of),
            Type::Enum(decl, base) => self.keyed(Key::Enum(decl, base), of),
            Type::Opaque(decl, name) => self.keyed(Key::Opaque(decl, name), of),
        }
    }

    pub fn get(&self, id: TypeId) -> Type {
        match self.all.get(id.0 as usize) {
            Some(of) => *of,
            None => Type::Void,
        }
    }

    /// The kind of a number or of an enum over numbers.
    pub fn kind(&self, id: TypeId) -> Option<Kind> {
        match self.get(self.base(id)) {
            Type::Int(kind) => Some(kind),
            _ => None,
        }
    }

    /// The type of the elements of an array.
    pub fn element(&self, id: TypeId) -> Option<TypeId> {
        match self.get(id) {
            Type::Slice(item) | Type::Fixed(item, _) => Some(item),
            Type::Str => Some(TypeId::CHAR),
            _ => None,
        }
    }

    /// Whether it is a slice, `string` among them.
    pub fn is_slice(&self, id: TypeId) -> bool {
        match self.get(id) {
            Type::Slice(_) | Type::Str => true,
            _ => false,
        }
    }

    /// Whether it is `string` or `char[]`.
    pub fn is_text(&self, id: TypeId) -> bool {
        match self.get(id) {
            Type::Str => true,
            Type::Slice(item) => item == TypeId::CHAR,
            _ => false,
        }
    }

    /// The length of a fixed array.
    pub fn fixed_length(&self, id: TypeId) -> Option<u32> {
        match self.get(id) {
            Type::Fixed(_, len) => Some(len),
            _ => None,
        }
    }

    /// The type behind enums.
    pub fn base(&self, id: TypeId) -> TypeId {
        let mut at = id;
        for _ in 0..u32::MAX {
            match self.get(at) {
                Type::Enum(_, base) => at = base,
                _ => break,
            }
        }
        at
    }
}
