// What judging asks of declarations, and what it needs of types.
ghost use Rattle.std.specs.Prelude.{◌≡◌, ◌+◌, IfOk};

use dc_model::{Answer, Ask, Decl, DeclKind, Env, Question, Stop, Symbol, UnitKind, Work, World};
use dc_tree::{
    DeclId, Field, Layout, PlaceId, Signature, SpotId, Type, TypeId, UnitId, Value, ValueId, Where,
};
use dc_types::Kind;

/// The most cells that a type may have.
pub const TYPE_CELLS: u64 = 1_048_576;

/// How deep types may nest.
const NESTED: u32 = 20_000;

/// One less, or want of memory at 0.
pub fn deeper(depth: u32) -> Result<u32, Stop>
    ensures { IfOk result (λ less. less + 1 ≡ depth) }
{
    if depth == 0 {
        Err(Stop::NoMemory)
    } else {
        Ok(depth - 1)
    }
}

/// The place of a declaration.
pub fn place_of(w: &mut World, decl: DeclId) -> Result<PlaceId, Stop> {
    let at = w.decl(decl)?.at;
    Ok(w.pool.places.place(at)?)
}

/// The environment of what stands in a unit, in a text at a spot.
pub fn unit_env(w: &mut World, unit: UnitId, spot: SpotId) -> Result<Env, Stop> {
    let this = this_of(w, unit)?;
    Ok(Env {
        unit,
        spot,
        block: None,
        this,
        flow: None,
        in_typeof: false,
        in_trial: false,
        guards: 0,
    })
}

/// Where the text of a declaration is judged.
pub fn decl_env(w: &mut World, decl: Decl) -> Result<Env, Stop> {
    match decl.local {
        Some(env) => Ok(env),
        None => unit_env(w, decl.unit, decl.at.spot),
    }
}

/// The struct in which a unit's code has `this`: the unit itself or what encloses its instances.
pub fn this_unit(w: &World, unit: UnitId) -> Result<Option<UnitId>, Stop> {
    let mut at = unit;
    for _ in 0..u64::MAX {
        let known = w.unit(at)?;
        match (known.kind, known.outer) {
            (UnitKind::Struct, _) => return Ok(Some(at)),
            (UnitKind::Instance, Some(outer)) => at = outer,
            _ => return Ok(None),
        }
    }
    Ok(None)
}

/// The type of `this` of code in a unit.
pub fn this_of(w: &mut World, unit: UnitId) -> Result<Option<TypeId>, Stop> {
    match this_unit(w, unit)? {
        Some(of) => Ok(Some(w.pool.types.number(Type::Struct(of))?)),
        None => Ok(None),
    }
}

/// What a declaration stands for.
pub fn symbol_of(w: &mut World, decl: DeclId) -> Result<Symbol, Stop> {
    let at = place_of(w, decl)?;
    let question = Question {
        ask: Ask::Symbol,
        at,
    };
    match w.ask(question, Work::Symbol(decl))? {
        Answer::Stands(symbol) => Ok(symbol),
        _ => Err(Stop::NoMemory),
    }
}

/// The type of a module variable or a field.
pub fn variable_type(w: &mut World, decl: DeclId) -> Result<TypeId, Stop> {
    match symbol_of(w, decl)? {
        Symbol::VariableType(of) => Ok(of),
        _ => Err(Stop::NoMemory),
    }
}

/// What a function takes and gives.
pub fn signature_of(w: &mut World, decl: DeclId) -> Result<Signature, Stop> {
    let at = place_of(w, decl)?;
    let question = Question {
        ask: Ask::Signature,
        at,
    };
    w.ask(question, Work::Signature(decl))?;
    match w.pool.bodies.signature(decl) {
        Some(signature) => Ok(signature),
        None => Err(Stop::NoMemory),
    }
}

/// The fields of a struct.
fn layout_of(w: &mut World, unit: UnitId) -> Result<Layout, Stop> {
    if let Some(layout) = w.pool.layouts.get(unit) {
        return Ok(layout);
    }
    let at = w.place_of(unit)?;
    let question = Question {
        ask: Ask::Layout,
        at,
    };
    w.ask(question, Work::Layout(unit))?;
    match w.pool.layouts.get(unit) {
        Some(layout) => Ok(layout),
        None => Err(Stop::NoMemory),
    }
}

/// The fields of a struct, as a list of their own.
pub fn fields_of(w: &mut World, unit: UnitId) -> Result<Vec<Field>, Stop> {
    let layout = layout_of(w, unit)?;
    Ok(Vec::from_slice(w.alloc, w.pool.layouts.fields(layout))?)
}

/// The cells of a type (numbers above the limit as they come).
pub fn cells(w: &mut World, of: TypeId) -> Result<u64, Stop> {
    let mut factor: u64 = 1;
    let mut at = of;
    for _ in 0..NESTED {
        match w.pool.types.get(at) {
            Type::Void | Type::Int(_) | Type::Opaque(_, _) => return Ok(factor),
            Type::Slice(_) | Type::Str | Type::Null | Type::Empty => {
                return Ok(factor.saturating_mul(3));
            }
            Type::Enum(_, base) => at = base,
            Type::Fixed(_, 0) => return Ok(1),
            Type::Fixed(item, len) => {
                factor = factor.saturating_mul(u64::from(len));
                at = item;
            }
            Type::Struct(unit) => {
                let layout = layout_of(w, unit)?;
                return Ok(factor.saturating_mul(u64::from(layout.cells)));
            }
        }
    }
    Err(Stop::NoMemory)
}

/// Refuses a type of too many cells at a place.
pub fn check_cells(w: &mut World, of: TypeId, at: Where) -> Result<(), Stop> {
    if cells(w, of)? > TYPE_CELLS {
        return w.refuse(18, at, None);
    }
    Ok(())
}

/// Whether a type fulfils a test in one of its parts that lie in it by value.
#[derive(Clone, Copy, PartialEq, Eq)]
pub enum Holding {
    /// A slice; `string` is none.
    Slice,
    /// A slice, `string` among them.
    AnySlice,
    FixedArray,
}

/// Whether a type is or holds by value what is asked.
pub fn holds(w: &mut World, of: TypeId, what: Holding) -> Result<bool, Stop> {
    let mut work = Vec::new(w.alloc);
    work.push(of)?;
    for _ in 0..u64::MAX {
        let Some(at) = work.pop() else {
            break;
        };
        match w.pool.types.get(at) {
            Type::Slice(_) => {
                if what != Holding::FixedArray {
                    return Ok(true);
                }
            }
            Type::Str => {
                if what == Holding::AnySlice {
                    return Ok(true);
                }
            }
            Type::Fixed(item, _) => {
                if what == Holding::FixedArray {
                    return Ok(true);
                }
                work.push(item)?;
            }
            Type::Enum(_, base) => work.push(base)?,
            Type::Struct(unit) => {
                for field in fields_of(w, unit)?.as_slice() {
                    work.push(field.of)?;
                }
            }
            _ => {}
        }
    }
    Ok(false)
}

/// The start value of a type (D specification, "Types", "Default Initialized Values").
pub fn start_value(w: &mut World, of: TypeId) -> Result<ValueId, Stop> {
    start_deep(w, of, NESTED)
}

fn start_deep(w: &mut World, of: TypeId, depth: u32) -> Result<ValueId, Stop> {
    let less = deeper(depth)?;
    match w.pool.types.get(of) {
        Type::Int(Kind::Char) => Ok(w.pool.values.number(255)?),
        Type::Void | Type::Int(_) | Type::Opaque(_, _) => Ok(w.pool.values.number(0)?),
        Type::Str => {
            let name = w.pool.names.number(b"")?;
            Ok(w.pool.values.add(Value::Bytes(name))?)
        }
        Type::Slice(_) | Type::Null | Type::Empty => Ok(w.pool.values.list(&[])?),
        Type::Fixed(item, len) => {
            let one = start_deep(w, item, less)?;
            repeated(w, one, len)
        }
        Type::Enum(decl, _) => first_member(w, decl),
        Type::Struct(unit) => {
            let mut all = Vec::new(w.alloc);
            for field in fields_of(w, unit)?.as_slice() {
                all.push(field.start)?;
            }
            Ok(w.pool.values.list(all.as_slice())?)
        }
    }
}

fn repeated(w: &mut World, one: ValueId, len: u32) -> Result<ValueId, Stop> {
    let mut all = Vec::new(w.alloc);
    for _ in 0..len {
        all.push(one)?;
    }
    Ok(w.pool.values.list(all.as_slice())?)
}

fn first_member(w: &mut World, decl: DeclId) -> Result<ValueId, Stop> {
    let known = w.decl(decl)?;
    let Some(first) = known.other else {
        return Err(Stop::NoMemory);
    };
    match symbol_of(w, first)? {
        Symbol::Value(_, value) => Ok(value),
        _ => Err(Stop::NoMemory),
    }
}

/// Whether a declaration is one of a kind.
fn is_kind(w: &World, decl: DeclId, kind: DeclKind) -> Result<bool, Stop> {
    Ok(w.decl(decl)?.kind == kind)
}
