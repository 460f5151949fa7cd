// Constants.
use crate::lowering::Lowering;
use crate::sizes::{NESTED, cells, element_cells};
use dc_code::Op;
use dc_run::DATA;
use dc_syntax::Want;
use dc_tree::{Pool, Type, TypeId, Value, ValueId};

/// The word of a number.
fn word(n: i128) -> u64 {
    (n.cast_unsigned() % 18446744073709551616) as u64
}

/// The words of a value as a program holds it: what its slices hold is data.
#[cycle(program_words)]
pub(crate) fn program_words(
    l: &mut Lowering,
    pool: &Pool,
    of: TypeId,
    value: ValueId,
    words: &mut Vec<u64>,
    depth: u32,
) -> Result<(), Want> {
    if depth == 0 {
        return Err(Want);
    }
    let base = pool.types.base(of);
    match pool.types.get(base) {
        Type::Str => {
            let (block, len) = match pool.values.get(value) {
                Value::Bytes(name) => {
                    let bytes = pool.names.bytes(name);
                    let g = l.string(name, bytes)?;
                    (DATA.saturating_add(u64::from(g)), bytes.len() as u64)
                }
                _ => (0, 0),
            };
            words.extend_from_slice(&[block, 0, len])?;
        }
        Type::Slice(item) => {
            let mut inner = Vec::new(l.alloc);
            for element in pool.values.items(value) {
                program_words(l, pool, item, *element, &mut inner, depth - 1)?;
            }
            let len = pool.values.items(value).len() as u64;
            let g = l.program.add_data(inner.as_slice())?;
            words.extend_from_slice(&[DATA.saturating_add(u64::from(g)), 0, len])?;
        }
        Type::Null | Type::Empty => words.extend_from_slice(&[0, 0, 0])?,
        Type::Fixed(_, _) | Type::Struct(_) => {
            parts_words(l, pool, base, value, words, depth - 1)?;
        }
        _ => words.push(word(pool.values.as_number(value)))?,
    }
    Ok(())
}

/// The words of the elements of a fixed array, or of the fields of a struct.
#[cycle(program_words)]
fn parts_words(
    l: &mut Lowering,
    pool: &Pool,
    base: TypeId,
    value: ValueId,
    words: &mut Vec<u64>,
    depth: u32,
) -> Result<(), Want> {
    if depth == 0 {
        return Err(Want);
    }
    let from = words.len();
    for (k, part) in pool.values.items(value).iter().enumerate() {
        if let Some(of) = part_type(pool, base, k) {
            program_words(l, pool, of, *part, words, depth - 1)?;
        }
    }
    if words.len() == from {
        words.push(0)?;
    }
    Ok(())
}

/// The type of an element or of a field.
pub(crate) fn part_type(pool: &Pool, base: TypeId, k: usize) -> Option<TypeId> {
    match pool.types.get(base) {
        Type::Fixed(item, _) => Some(item),
        Type::Struct(unit) => {
            let layout = pool.layouts.get(unit)?;
            pool.layouts.fields(layout).get(k).map(|field| field.of)
        }
        _ => None,
    }
}

/// Whether an evaluation of the value makes no block.
#[cycle(is_plain)]
fn is_plain(pool: &Pool, of: TypeId, value: ValueId, depth: u32) -> bool {
    if depth == 0 {
        return false;
    }
    let base = pool.types.base(of);
    match pool.types.get(base) {
        Type::Slice(_) => pool.values.items(value).is_empty(),
        Type::Fixed(_, _) | Type::Struct(_) => {
            for (k, part) in pool.values.items(value).iter().enumerate() {
                if let Some(inner) = part_type(pool, base, k) {
                    if !is_plain(pool, inner, *part, depth - 1) {
                        return false;
                    }
                }
            }
            true
        }
        _ => true,
    }
}

/// Words that stand in the program.
fn fixed_words(l: &mut Lowering, words: &[u64], d: u32) -> Result<(), Want> {
    if words.len() <= 6 {
        for (k, w) in words.iter().enumerate() {
            let slot = d.saturating_add((k % 8) as u32);
            l.emit(Op::Const(slot, *w))?;
        }
        return Ok(());
    }
    let g = l.program.add_data(words)?;
    let n = match u32::try_from(words.len()) {
        Ok(n) => n,
        Err(_) => return Err(Want),
    };
    let t = l.temp(3);
    l.emit(Op::Data(t, g))?;
    l.emit(Op::Load(d, t, n))?;
    Ok(())
}

/// A constant is evaluated: each array in it is a new block.
#[cycle(constant)]
pub(crate) fn constant(
    l: &mut Lowering,
    pool: &Pool,
    of: TypeId,
    value: ValueId,
    d: u32,
    depth: u32,
) -> Result<(), Want> {
    if depth == 0 {
        return Err(Want);
    }
    let base = pool.types.base(of);
    if is_plain(pool, of, value, NESTED) {
        let mut words = Vec::new(l.alloc);
        match pool.types.get(base) {
            Type::Slice(_) => words.extend_from_slice(&[0, 0, 0])?,
            _ => program_words(l, pool, of, value, &mut words, NESTED)?,
        }
        return fixed_words(l, words.as_slice(), d);
    }
    match pool.types.get(base) {
        Type::Slice(item) => array(l, pool, base, item, value, d, depth - 1),
        _ => parts(l, pool, base, value, d, depth - 1),
    }
}

#[cycle(constant)]
fn parts(
    l: &mut Lowering,
    pool: &Pool,
    base: TypeId,
    value: ValueId,
    d: u32,
    depth: u32,
) -> Result<(), Want> {
    if depth == 0 {
        return Err(Want);
    }
    let mut slot = d;
    for (k, part) in pool.values.items(value).iter().enumerate() {
        if let Some(of) = part_type(pool, base, k) {
            constant(l, pool, of, *part, slot, depth - 1)?;
            slot = slot.saturating_add(cells(pool, of));
        }
    }
    Ok(())
}

/// A new block of the elements of a constant.
#[cycle(constant)]
fn array(
    l: &mut Lowering,
    pool: &Pool,
    base: TypeId,
    item: TypeId,
    value: ValueId,
    d: u32,
    depth: u32,
) -> Result<(), Want> {
    if depth == 0 {
        return Err(Want);
    }
    let top = l.top;
    let c = element_cells(pool, base);
    let n = match u32::try_from(pool.values.items(value).len()) {
        Ok(n) => n,
        Err(_) => return Err(Want),
    };
    let area = l.temp(n.saturating_mul(c));
    let mut slot = area;
    for element in pool.values.items(value) {
        constant(l, pool, item, *element, slot, depth - 1)?;
        slot = slot.saturating_add(c);
    }
    l.emit(Op::List(d, area, n, c, false))?;
    l.top = top;
    Ok(())
}

/// Says the start value of a module variable, which lies in data of its own.
pub fn lower_global(
    l: &mut Lowering,
    pool: &Pool,
    g: u32,
    of: TypeId,
    value: ValueId,
) -> Result<(), Want> {
    let mut words = Vec::new(l.alloc);
    program_words(l, pool, of, value, &mut words, NESTED)?;
    let data = l.program.add_data(words.as_slice())?;
    l.program.set_global(g, data);
    Ok(())
}
