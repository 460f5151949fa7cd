// Key texts: what tells the instances of one template from each other.
use dc_model::{Arg, Stop, World};
use dc_syntax::NameId;
use dc_tree::{PlaceId, PlaceStep, Type, TypeId, Value, ValueId};
use dc_types::Kind;

/// The most bytes of a key text.
pub const KEY_BYTES: usize = 16_384;

/// How deep types and values may nest.
const NESTED: u32 = 20_000;

/// A number in decimal, put to a text.
pub fn push_number(w: &World, n: i128, text: &mut Vec<u8>) -> Result<(), Stop> {
    let digits = n.to_string(w.alloc)?;
    text.extend_from_slice(digits.as_bytes())?;
    Ok(())
}

/// A place as it stands in key texts.
fn push_place(w: &World, place: PlaceId, text: &mut Vec<u8>) -> Result<(), Stop> {
    let steps = w.pool.places.steps(place)?;
    for step in steps.as_slice() {
        push_step(w, *step, text)?;
    }
    Ok(())
}

fn push_step(w: &World, step: PlaceStep, text: &mut Vec<u8>) -> Result<(), Stop> {
    match step {
        PlaceStep::Module(name) => push_name(w, name, text),
        PlaceStep::At(at) => {
            text.push(b':')?;
            push_number(w, i128::from(at), text)
        }
        PlaceStep::Round(round) => {
            text.push(b'#')?;
            push_number(w, i128::from(round), text)
        }
        PlaceStep::With(key) => {
            text.extend_from_slice(b"!(")?;
            push_name(w, key, text)?;
            text.push(b')')?;
            Ok(())
        }
    }
}

/// The spelling of a name, put to a text.
pub fn push_name(w: &World, name: NameId, text: &mut Vec<u8>) -> Result<(), Stop> {
    text.extend_from_slice(w.pool.names.bytes(name))?;
    Ok(())
}

/// The word of a kind of number.
pub fn kind_word(kind: Kind) -> &'static [u8] {
    match kind {
        Kind::Bool => b"bool",
        Kind::I8 => b"byte",
        Kind::U8 => b"ubyte",
        Kind::I16 => b"short",
        Kind::U16 => b"ushort",
        Kind::I32 => b"int",
        Kind::U32 => b"uint",
        Kind::I64 => b"long",
        Kind::U64 => b"ulong",
        Kind::Char => b"char",
    }
}

#[cycle(keying)]
fn push_type(w: &mut World, of: TypeId, text: &mut Vec<u8>, depth: u32) -> Result<(), Stop> {
    if depth == 0 {
        return Err(Stop::NoMemory);
    }
    match w.pool.types.get(of) {
        Type::Void => text.extend_from_slice(b"void")?,
        Type::Int(kind) => text.extend_from_slice(kind_word(kind))?,
        Type::Str => text.extend_from_slice(b"string")?,
        Type::Null => text.extend_from_slice(b"null")?,
        Type::Empty => text.extend_from_slice(b"[]")?,
        Type::Slice(item) => {
            push_type(w, item, text, depth - 1)?;
            text.extend_from_slice(b"[]")?;
        }
        Type::Fixed(item, len) => {
            push_type(w, item, text, depth - 1)?;
            text.push(b'[')?;
            push_number(w, i128::from(len), text)?;
            text.push(b']')?;
        }
        Type::Struct(unit) => {
            let place = w.place_of(unit)?;
            push_place(w, place, text)?;
        }
        Type::Enum(decl, base) => push_enum(w, decl, base, text, depth - 1)?,
        Type::Opaque(decl, name) => {
            text.push(b'?')?;
            let place = crate::facts::place_of(w, decl)?;
            push_place(w, place, text)?;
            push_name(w, name, text)?;
        }
    }
    Ok(())
}

#[cycle(keying)]
fn push_enum(
    w: &mut World,
    decl: dc_tree::DeclId,
    base: TypeId,
    text: &mut Vec<u8>,
    depth: u32,
) -> Result<(), Stop> {
    if depth == 0 {
        return Err(Stop::NoMemory);
    }
    text.push(b'$')?;
    let place = crate::facts::place_of(w, decl)?;
    push_place(w, place, text)?;
    text.push(b'<')?;
    push_type(w, base, text, depth - 1)?;
    text.push(b'>')?;
    Ok(())
}

/// The form of a value of a type in a key text.
fn push_value(w: &World, of: TypeId, value: ValueId, text: &mut Vec<u8>) -> Result<(), Stop> {
    match w.pool.values.get(value) {
        Value::Number(n) => push_number(w, n, text),
        Value::Bytes(name) => {
            let bytes = w.pool.names.bytes(name);
            text.push(b'"')?;
            push_number(w, i128::try_from(bytes.len()).unwrap_or(0), text)?;
            text.push(b':')?;
            text.extend_from_slice(bytes)?;
            Ok(())
        }
        Value::List(_, _) => {
            let is_struct = match w.pool.types.get(w.pool.types.base(of)) {
                Type::Struct(_) => true,
                _ => false,
            };
            text.push(if is_struct { b'{' } else { b'[' })?;
            push_items(w, value, text, NESTED)?;
            text.push(if is_struct { b'}' } else { b']' })?;
            Ok(())
        }
    }
}

#[cycle(keyed_items)]
fn push_items(w: &World, list: ValueId, text: &mut Vec<u8>, depth: u32) -> Result<(), Stop> {
    if depth == 0 {
        return Err(Stop::NoMemory);
    }
    let mut is_first = true;
    for item in w.pool.values.items(list) {
        if !is_first {
            text.push(b',')?;
        }
        is_first = false;
        push_item(w, *item, text, depth - 1)?;
    }
    Ok(())
}

/// A value inside another: a number, or everything else as a list in brackets.
#[cycle(keyed_items)]
fn push_item(w: &World, item: ValueId, text: &mut Vec<u8>, depth: u32) -> Result<(), Stop> {
    if depth == 0 {
        return Err(Stop::NoMemory);
    }
    match w.pool.values.get(item) {
        Value::Number(n) => push_number(w, n, text),
        Value::Bytes(name) => {
            text.push(b'[')?;
            push_bytes(w, name, text)?;
            text.push(b']')?;
            Ok(())
        }
        Value::List(_, _) => {
            text.push(b'[')?;
            push_items(w, item, text, depth - 1)?;
            text.push(b']')?;
            Ok(())
        }
    }
}

/// The bytes of a string as numbers.
fn push_bytes(w: &World, name: NameId, text: &mut Vec<u8>) -> Result<(), Stop> {
    let mut is_first = true;
    for b in w.pool.names.bytes(name) {
        if !is_first {
            text.push(b',')?;
        }
        is_first = false;
        push_number(w, i128::from(*b), text)?;
    }
    Ok(())
}

fn push_arg(w: &mut World, arg: Arg, text: &mut Vec<u8>) -> Result<(), Stop> {
    match arg {
        Arg::OfType(of) => push_type(w, of, text, NESTED),
        Arg::OfValue(of, value) => {
            push_type(w, of, text, NESTED)?;
            text.push(b'=')?;
            push_value(w, of, value, text)
        }
        Arg::OfSymbol(_, place) => {
            text.push(b'&')?;
            push_place(w, place, text)
        }
        Arg::Written(_, _) | Arg::Missing => Ok(()),
    }
}

/// The key text of arguments.
pub fn key_text(w: &mut World, args: &[Arg]) -> Result<Vec<u8>, Stop> {
    let mut text = Vec::new(w.alloc);
    let mut is_first = true;
    for arg in args {
        if !is_first {
            text.extend_from_slice(b", ")?;
        }
        is_first = false;
        push_arg(w, *arg, &mut text)?;
    }
    Ok(text)
}
