// The texts of `stringof`, and of values as `audit` shows them.
use dc_facts::{fields_of, kind_word, push_name, push_number};
use dc_model::{Arg, Stop, World};
use dc_tree::{DeclId, Type, TypeId, UnitId, Value, ValueId};

/// How deep types, values and instances may nest.
const NESTED: u32 = 20_000;

/// The text of a type (D specification, "Properties", "stringof").
pub(crate) fn type_text(w: &mut World, of: TypeId) -> Result<Vec<u8>, Stop> {
    let mut text = Vec::new(w.alloc);
    show_type(w, of, &mut text, NESTED)?;
    Ok(text)
}

/// A value as `audit` shows it.
pub fn value_text(w: &mut World, of: TypeId, value: ValueId) -> Result<Vec<u8>, Stop> {
    let mut text = Vec::new(w.alloc);
    show_value(w, of, value, &mut text, NESTED)?;
    Ok(text)
}

#[cycle(showing)]
fn show_type(w: &mut World, of: TypeId, text: &mut Vec<u8>, depth: u32) -> Result<(), Stop> {
    if depth == 0 {
        return Err(Stop::NoMemory);
    }
    match w.pool.types.get(of) {
        Type::Void => text.extend_from_slice(b"void")?,
        Type::Int(kind) => text.extend_from_slice(kind_word(kind))?,
        Type::Str => text.extend_from_slice(b"string")?,
        Type::Null => text.extend_from_slice(b"typeof(null)")?,
        Type::Empty => text.extend_from_slice(b"void[]")?,
        Type::Slice(item) => {
            show_type(w, item, text, depth - 1)?;
            text.extend_from_slice(b"[]")?;
        }
        Type::Fixed(item, len) => {
            show_type(w, item, text, depth - 1)?;
            text.push(b'[')?;
            push_number(w, i128::from(len), text)?;
            text.push(b']')?;
        }
        Type::Struct(unit) => show_struct(w, unit, text, depth - 1)?,
        Type::Enum(decl, _) => show_decl(w, decl, text)?,
        Type::Opaque(_, _) => text.push(b'?')?,
    }
    Ok(())
}

fn show_decl(w: &World, decl: DeclId, text: &mut Vec<u8>) -> Result<(), Stop> {
    match w.decl(decl)?.name {
        Some(name) => push_name(w, name, text),
        None => Ok(()),
    }
}

#[cycle(showing)]
fn show_struct(w: &mut World, unit: UnitId, text: &mut Vec<u8>, depth: u32) -> Result<(), Stop> {
    if depth == 0 {
        return Err(Stop::NoMemory);
    }
    let known = w.unit(unit)?;
    push_name(w, known.name, text)?;
    let Some(args) = known.args else {
        return Ok(());
    };
    let args = Vec::from_slice(w.alloc, w.args_of(args))?;
    text.extend_from_slice(b"!(")?;
    let mut is_first = true;
    for arg in args.as_slice() {
        if !is_first {
            text.extend_from_slice(b", ")?;
        }
        is_first = false;
        show_arg(w, *arg, text, depth - 1)?;
    }
    text.push(b')')?;
    Ok(())
}

#[cycle(showing)]
fn show_arg(w: &mut World, arg: Arg, text: &mut Vec<u8>, depth: u32) -> Result<(), Stop> {
    if depth == 0 {
        return Err(Stop::NoMemory);
    }
    match arg {
        Arg::OfType(of) => show_type(w, of, text, depth - 1),
        Arg::OfValue(of, value) => show_value(w, of, value, text, depth - 1),
        Arg::OfSymbol(_, place) => match w.placed.get(&place).copied() {
            Some(decl) => show_decl(w, decl, text),
            None => show_module(w, place, text),
        },
        Arg::Written(_, _) | Arg::Missing => Ok(()),
    }
}

fn show_module(w: &World, place: dc_tree::PlaceId, text: &mut Vec<u8>) -> Result<(), Stop> {
    match w.pool.places.step(place) {
        dc_tree::PlaceStep::Module(name) => push_name(w, name, text),
        _ => Ok(()),
    }
}

#[cycle(showing)]
fn show_value(
    w: &mut World,
    of: TypeId,
    value: ValueId,
    text: &mut Vec<u8>,
    depth: u32,
) -> Result<(), Stop> {
    if depth == 0 {
        return Err(Stop::NoMemory);
    }
    let base = w.pool.types.base(of);
    match w.pool.values.get(value) {
        Value::Number(n) => show_number(w, base, n, text),
        Value::Bytes(name) => {
            let bytes = Vec::from_slice(w.alloc, w.pool.names.bytes(name))?;
            show_bytes(bytes.as_slice(), text)
        }
        Value::List(_, _) => match w.pool.types.get(base) {
            Type::Struct(unit) => show_fields(w, unit, value, text, depth - 1),
            _ => show_items(w, base, value, text, depth - 1),
        },
    }
}

/// A number; of a `bool` its word.
fn show_number(w: &World, of: TypeId, n: i128, text: &mut Vec<u8>) -> Result<(), Stop> {
    if of != TypeId::BOOL {
        return push_number(w, n, text);
    }
    if n == 0 {
        text.extend_from_slice(b"false")?;
    } else {
        text.extend_from_slice(b"true")?;
    }
    Ok(())
}

#[cycle(showing)]
fn show_fields(
    w: &mut World,
    unit: UnitId,
    value: ValueId,
    text: &mut Vec<u8>,
    depth: u32,
) -> Result<(), Stop> {
    if depth == 0 {
        return Err(Stop::NoMemory);
    }
    show_struct(w, unit, text, depth - 1)?;
    text.push(b'(')?;
    let fields = fields_of(w, unit)?;
    let items = Vec::from_slice(w.alloc, w.pool.values.items(value))?;
    let mut is_first = true;
    for (field, item) in fields.as_slice().iter().zip(items.as_slice().iter()) {
        if !is_first {
            text.extend_from_slice(b", ")?;
        }
        is_first = false;
        show_value(w, field.of, *item, text, depth - 1)?;
    }
    text.push(b')')?;
    Ok(())
}

#[cycle(showing)]
fn show_items(
    w: &mut World,
    of: TypeId,
    value: ValueId,
    text: &mut Vec<u8>,
    depth: u32,
) -> Result<(), Stop> {
    if depth == 0 {
        return Err(Stop::NoMemory);
    }
    let element = match w.pool.types.element(of) {
        Some(element) => element,
        None => TypeId::INT,
    };
    let items = Vec::from_slice(w.alloc, w.pool.values.items(value))?;
    if element == TypeId::CHAR {
        let bytes = bytes_of(w, items.as_slice())?;
        return show_bytes(bytes.as_slice(), text);
    }
    text.push(b'[')?;
    let mut is_first = true;
    for item in items.as_slice() {
        if !is_first {
            text.extend_from_slice(b", ")?;
        }
        is_first = false;
        show_value(w, element, *item, text, depth - 1)?;
    }
    text.push(b']')?;
    Ok(())
}

/// The bytes of characters.
fn bytes_of(w: &World, items: &[ValueId]) -> Result<Vec<u8>, Stop> {
    let mut bytes = Vec::new(w.alloc);
    for item in items {
        let n = w.pool.values.as_number(*item);
        bytes.push(u8::try_from(n).unwrap_or(0))?;
    }
    Ok(bytes)
}

/// The bytes of a value that is a `string` or an array of characters; nothing of another.
pub fn text_of(w: &World, value: ValueId) -> Result<Vec<u8>, Stop> {
    match w.pool.values.get(value) {
        Value::Bytes(name) => Ok(Vec::from_slice(w.alloc, w.pool.names.bytes(name))?),
        Value::List(_, _) => bytes_of(w, w.pool.values.items(value)),
        Value::Number(_) => Ok(Vec::new(w.alloc)),
    }
}

fn digit(n: u8) -> u8 {
    match n {
        0..=9 => b'0' + n,
        10..=15 => b'A' + (n - 10),
        _ => b'?',
    }
}

/// Bytes in quotes; those that aren't printable ASCII, `"` and `\` as `\xHH`.
fn show_bytes(bytes: &[u8], text: &mut Vec<u8>) -> Result<(), Stop> {
    text.push(b'"')?;
    for b in bytes {
        if (32..=126).contains(b) && *b != b'"' && *b != b'\\' {
            text.push(*b)?;
        } else {
            text.extend_from_slice(b"\\x")?;
            text.push(digit(*b / 16))?;
            text.push(digit(*b % 16))?;
        }
    }
    text.push(b'"')?;
    Ok(())
}
