// Looking for a name from the inside outwards (D specification, "Modules", "Symbol Name Lookup").
use crate::imports::through;
use crate::packages::package;
use dc_model::{Bind, Env, Lookup, RowId, Stop, Symbol, UnitKind, World};
use dc_syntax::NameId;
use dc_tree::{TypeId, UnitId};

/// What a lookup found; rows stand in the list that was handed in.
#[derive(Clone, Copy)]
pub enum Found {
    Absent,
    Rows,
    /// The name of a `static foreach`, or a template's parameter.
    Symbol(Symbol),
    /// The name of the instance of a struct template in which it stands.
    Own(UnitId),
}

/// Whether lookups wait for units that aren't settled.
#[derive(Clone, Copy, PartialEq, Eq)]
pub enum Patience {
    Waits,
    Looks,
}

/// The name of a `static foreach` that a unit declares around a spot.
fn bound(w: &World, env: Env, unit: UnitId, name: NameId) -> Option<Symbol> {
    let mut at = w.bind_of(env.spot);
    for _ in 0..u64::MAX {
        let Bind {
            unit: of,
            name: own,
            symbol,
            outer,
        } = w.bind(at?)?;
        if of == unit && own == name {
            return Some(symbol);
        }
        at = outer;
    }
    None
}

/// All rows of a name in a unit, in the order of their introduction.
pub(crate) fn rows_named(
    w: &World,
    unit: UnitId,
    name: NameId,
    hits: &mut Vec<RowId>,
) -> Result<(), Stop> {
    let mut at = w.rows.last_named(unit, name);
    for _ in 0..u64::MAX {
        let Some(id) = at else {
            break;
        };
        hits.push(id)?;
        at = match w.rows.get(id) {
            Some(row) => row.before,
            None => None,
        };
    }
    hits.reverse();
    Ok(())
}

/// What a unit itself has of a name, for code that stands in it.
fn in_unit(
    w: &World,
    env: Env,
    id: UnitId,
    name: NameId,
    hits: &mut Vec<RowId>,
) -> Result<Found, Stop> {
    let unit = w.unit(id)?;
    if let Some(symbol) = bound(w, env, id, name) {
        return Ok(Found::Symbol(symbol));
    }
    rows_named(w, id, name, hits)?;
    if !hits.is_empty() {
        return Ok(Found::Rows);
    }
    if let Some(symbol) = w.parameter(id, name)? {
        return Ok(Found::Symbol(symbol));
    }
    if unit.kind == UnitKind::Struct && unit.args.is_some() && unit.name == name {
        return Ok(Found::Own(id));
    }
    Ok(Found::Absent)
}

/// The scopes around the code, without imports.
fn in_scopes(
    w: &World,
    env: Env,
    name: NameId,
    is_free: bool,
    hits: &mut Vec<RowId>,
) -> Result<Found, Stop> {
    let mut at = Some(env.unit);
    for _ in 0..u64::MAX {
        let Some(id) = at else {
            break;
        };
        let unit = w.unit(id)?;
        if !is_free || unit.kind != UnitKind::Struct {
            match in_unit(w, env, id, name, hits)? {
                Found::Absent => {}
                found => return Ok(found),
            }
        }
        at = unit.outer;
    }
    Ok(Found::Absent)
}

/// The imports of the blocks and units around the code, from inner to outer.
fn in_imports(
    w: &mut World,
    env: Env,
    name: NameId,
    patience: Patience,
    hits: &mut Vec<RowId>,
) -> Result<bool, Stop> {
    let mut block = env.block;
    for _ in 0..u64::MAX {
        let Some(id) = block else {
            break;
        };
        let Some(known) = w.locals.block(id) else {
            break;
        };
        if known.imports.is_some() {
            through(w, env, known.imports, name, patience, hits)?;
            if !hits.is_empty() {
                return Ok(true);
            }
        }
        block = known.outer;
    }
    let mut at = Some(env.unit);
    for _ in 0..u64::MAX {
        let Some(id) = at else {
            break;
        };
        let imports = w.rows.last_import(id);
        if imports.is_some() {
            through(w, env, imports, name, patience, hits)?;
            if !hits.is_empty() {
                return Ok(true);
            }
        }
        at = w.unit(id)?.outer;
    }
    Ok(false)
}

/// `string` and `size_t`
fn word(w: &World, name: NameId) -> Option<Symbol> {
    match w.pool.names.bytes(name) {
        b"string" => Some(Symbol::Type(TypeId::STRING)),
        b"size_t" => Some(Symbol::Type(TypeId::ULONG)),
        _ => None,
    }
}

/// Looks for a name that isn't a local one: in the scopes, in their imports, among the built-in
/// names, and as the first part of a module's name.
pub fn find(
    w: &mut World,
    env: Env,
    name: NameId,
    lookup: Lookup,
    patience: Patience,
    hits: &mut Vec<RowId>,
) -> Result<Found, Stop> {
    hits.clear();
    let is_free = match lookup {
        Lookup::Free(_) => true,
        Lookup::Plain(_) | Lookup::Within(_) => false,
    };
    match in_scopes(w, env, name, is_free, hits)? {
        Found::Absent => {}
        found => return Ok(found),
    }
    if in_imports(w, env, name, patience, hits)? {
        return Ok(Found::Rows);
    }
    if is_free {
        return Ok(Found::Absent);
    }
    if let Some(symbol) = word(w, name) {
        return Ok(Found::Symbol(symbol));
    }
    match package(w, env, name)? {
        Some(package) => Ok(Found::Symbol(Symbol::Package(package))),
        None => Ok(Found::Absent),
    }
}
