// The value that words are.
use dc_lower::cells;
use dc_run::{Machine, Program};
use dc_syntax::Want;
use dc_tree::{Pool, Type, TypeId, Value, ValueId};
use dc_types::Kind;

/// The most numbers and lists of a value.
const SIZE: u64 = 33554432;

/// What is read, and how many numbers and lists its value may still have.
#[derive(Drop)]
struct Reading<'a> {
    machine: &'a Machine,
    program: &'a Program,
    left: u64,
}

fn counted(r: &mut Reading, n: u64) -> bool {
    match r.left.checked_sub(n) {
        Some(left) => {
            r.left = left;
            true
        }
        None => false,
    }
}

/// The number that a word is in a kind.
fn number(kind: Kind, w: u64) -> i128 {
    match kind {
        Kind::I8 | Kind::I16 | Kind::I32 | Kind::I64 => i128::from(w.cast_signed()),
        _ => i128::from(w),
    }
}

/// The value of a type that words are; nothing where it has too many numbers and lists, or holds itself.
pub fn freeze(
    pool: &mut Pool,
    machine: &Machine,
    program: &Program,
    of: TypeId,
    words: &[u64],
) -> Result<Option<ValueId>, Want> {
    let mut reading = Reading {
        machine,
        program,
        left: SIZE,
    };
    frozen(pool, &mut reading, of, words, 10000)
}

#[cycle(frozen)]
fn frozen(
    pool: &mut Pool,
    r: &mut Reading,
    of: TypeId,
    words: &[u64],
    depth: u32,
) -> Result<Option<ValueId>, Want> {
    if depth == 0 || !counted(r, 1) {
        return Ok(None);
    }
    let base = pool.types.base(of);
    match pool.types.get(base) {
        Type::Str | Type::Slice(_) => slice(pool, r, base, words, depth - 1),
        Type::Null | Type::Empty => Ok(Some(pool.values.list(&[])?)),
        Type::Fixed(item, n) => { items(pool, r, item, u64::from(n), words, depth - 1) }
        Type::Struct(_) => fields(pool, r, base, words, depth - 1),
        _ => {
            let kind = pool.types.kind(base).unwrap_or(Kind::I64);
            let n = number(kind, words.first().copied().unwrap_or(0));
            Ok(Some(pool.values.number(n)?))
        }
    }
}

#[cycle(frozen)]
fn slice(
    pool: &mut Pool,
    r: &mut Reading,
    base: TypeId,
    words: &[u64],
    depth: u32,
) -> Result<Option<ValueId>, Want> {
    let (Some(block), Some(from), Some(len)) = (
        words.first().copied(),
        words.get(1).copied(),
        words.get(2).copied(),
    ) else {
        return Ok(None);
    };
    if depth == 0 || len > SIZE {
        return Ok(None);
    }
    let item = pool.types.element(base).unwrap_or(TypeId::CHAR);
    let n = len.saturating_mul(u64::from(cells(pool, item)));
    let (machine, program) = (r.machine, r.program);
    let Some(held) = machine.words(program, block, from, n) else {
        return Ok(None);
    };
    if pool.types.get(base) == Type::Str {
        if !counted(r, len) {
            return Ok(None);
        }
        let mut bytes = Vec::new(pool.alloc);
        for w in held {
            bytes.push((*w % 256) as u8)?;
        }
        let name = pool.names.number(bytes.as_slice())?;
        return Ok(Some(pool.values.add(Value::Bytes(name))?));
    }
    items(pool, r, item, len, held, depth - 1)
}

#[cycle(frozen)]
fn items(
    pool: &mut Pool,
    r: &mut Reading,
    item: TypeId,
    n: u64,
    words: &[u64],
    depth: u32,
) -> Result<Option<ValueId>, Want> {
    if depth == 0 {
        return Ok(None);
    }
    let mut all = Vec::new(pool.alloc);
    let c = cells(pool, item) as usize;
    let mut from: usize = 0;
    for _ in 0..n {
        let end = from.saturating_add(c);
        let Some(part) = words.get(from..end) else {
            return Ok(None);
        };
        let Some(value) = frozen(pool, r, item, part, depth - 1)? else {
            return Ok(None);
        };
        all.push(value)?;
        from = end;
    }
    Ok(Some(pool.values.list(all.as_slice())?))
}

#[cycle(frozen)]
fn fields(
    pool: &mut Pool,
    r: &mut Reading,
    base: TypeId,
    words: &[u64],
    depth: u32,
) -> Result<Option<ValueId>, Want> {
    if depth == 0 {
        return Ok(None);
    }
    let mut all = Vec::new(pool.alloc);
    let mut known = Vec::new(pool.alloc);
    if let Type::Struct(unit) = pool.types.get(base) {
        if let Some(layout) = pool.layouts.get(unit) {
            known.extend_from_slice(pool.layouts.fields(layout))?;
        }
    }
    for field in known.as_slice() {
        let from = field.offset as usize;
        let end = from.saturating_add(cells(pool, field.of) as usize);
        let Some(part) = words.get(from..end) else {
            return Ok(None);
        };
        let Some(value) = frozen(pool, r, field.of, part, depth - 1)? else {
            return Ok(None);
        };
        all.push(value)?;
    }
    Ok(Some(pool.values.list(all.as_slice())?))
}
