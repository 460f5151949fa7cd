// From names to what they stand for.
use dc_facts::symbol_of;
use dc_model::{
    DeclKind, Dotted, Env, FunctionSet, Lookup, Package, RowId, Stop, Symbol, UnitKind, World,
};
use dc_scope::{Found, Patience, find, find_within, is_finished, longer, note};
use dc_syntax::NameId;
use dc_tree::{DeclId, Type, TypeId, UnitId, Value, Where};

/// A name that is looked for, and where it is written.
#[derive(Clone, Copy)]
pub struct Sought {
    pub name: NameId,
    pub at: Where,
    /// Whether `!` follows it.
    pub is_applied: bool,
}

/// What a declaration stands for.
pub(crate) fn decl_symbol(w: &mut World, id: DeclId) -> Result<Symbol, Stop> {
    let decl = w.decl(id)?;
    match decl.kind {
        DeclKind::Builtin | DeclKind::Function => one_function(w, id),
        _ if decl.is_template => Ok(Symbol::Template(id)),
        DeclKind::Template => Ok(Symbol::Template(id)),
        DeclKind::Struct => match decl.inner {
            Some(unit) => Ok(Symbol::Type(w.pool.types.number(Type::Struct(unit))?)),
            None => Err(Stop::NoMemory),
        },
        DeclKind::Variable => {
            if w.unit(decl.unit)?.kind == UnitKind::Struct {
                Ok(Symbol::Field(id))
            } else {
                Ok(Symbol::Variable(id))
            }
        }
        _ => symbol_of(w, id),
    }
}

/// One function as overload sets.
fn one_function(w: &mut World, id: DeclId) -> Result<Symbol, Stop> {
    let members = w.add_members(&[0, id.0])?;
    let set = w.add_set(FunctionSet {
        members,
        explicit: None,
    })?;
    Ok(Symbol::Functions(set))
}

/// The functions of rows as overload sets: one for each unit, in the order of the rows.
fn functions(w: &mut World, hits: &[RowId]) -> Result<Symbol, Stop> {
    let mut units = Vec::new(w.alloc);
    let mut members = Vec::new(w.alloc);
    for id in hits {
        let Some(row) = w.rows.get(*id) else {
            continue;
        };
        let Some(decl) = row.decl else {
            continue;
        };
        let number = match units.iter().position(|unit| *unit == row.unit) {
            Some(number) => number,
            None => {
                units.push(row.unit)?;
                units.len().saturating_sub(1)
            }
        };
        members.push(u32::try_from(number).unwrap_or(0))?;
        members.push(decl.0)?;
    }
    let members = w.add_members(members.as_slice())?;
    let set = w.add_set(FunctionSet {
        members,
        explicit: None,
    })?;
    Ok(Symbol::Functions(set))
}

/// The template of the instance in which a declaration is the member of the template's own name.
fn own_template(w: &World, id: DeclId) -> Result<Option<DeclId>, Stop> {
    let decl = w.decl(id)?;
    let unit = w.unit(decl.unit)?;
    let is_own = unit.kind == UnitKind::Instance
        && decl.name == Some(unit.name)
        && !decl.is_template;
    Ok(if is_own { unit.decl } else { None })
}

/// What one row stands for.
fn row_symbol(w: &mut World, row: RowId, sought: Sought) -> Result<Symbol, Stop> {
    let Some(known) = w.rows.get(row) else {
        return Err(Stop::NoMemory);
    };
    if let Some(import) = known.import {
        return match w.modules.get(&import.path).copied() {
            Some(unit) => Ok(Symbol::Module(unit)),
            None => Err(Stop::NoMemory),
        };
    }
    let Some(decl) = known.decl else {
        return Err(Stop::NoMemory);
    };
    if sought.is_applied {
        if let Some(template) = own_template(w, decl)? {
            return decl_symbol(w, template);
        }
    }
    decl_symbol(w, decl)
}

/// Whether all rows are those of functions.
fn are_functions(w: &World, hits: &[RowId]) -> bool {
    hits.iter().all(|id| match w.rows.get(*id) {
        Some(row) => row.callable,
        None => false,
    })
}

/// The template that several functions of an instance stand for where `!` follows their name.
fn shared_template(w: &World, hits: &[RowId]) -> Result<Option<DeclId>, Stop> {
    let mut shared = None;
    for id in hits {
        let decl = match w.rows.get(*id) {
            Some(row) => row.decl,
            None => None,
        };
        let Some(decl) = decl else {
            return Ok(None);
        };
        match own_template(w, decl)? {
            Some(template) => shared = Some(template),
            None => return Ok(None),
        }
    }
    Ok(shared)
}

/// What the rows that a lookup found stand for together, or rule 6 (D specification, "Modules", "Symbol Name Lookup").
fn rows_symbol(w: &mut World, hits: &[RowId], sought: Sought) -> Result<Symbol, Stop> {
    match hits {
        [] => w.refuse(5, sought.at, Some(sought.name)),
        [row] => row_symbol(w, *row, sought),
        _ => {
            if !are_functions(w, hits) {
                return w.refuse(6, sought.at, Some(sought.name));
            }
            if sought.is_applied {
                if let Some(template) = shared_template(w, hits)? {
                    return decl_symbol(w, template);
                }
            }
            functions(w, hits)
        }
    }
}

/// What a found thing that is no row stands for.
fn found_symbol(w: &mut World, found: Symbol) -> Result<Symbol, Stop> {
    match found {
        Symbol::Asked(decl) => symbol_of(w, decl),
        _ => Ok(found),
    }
}

/// What the name of a struct template stands for in its instance: the instance, or the template where `!` follows.
fn own_name(w: &mut World, unit: UnitId, sought: Sought) -> Result<Symbol, Stop> {
    if sought.is_applied {
        if let Some(template) = w.unit(unit)?.decl {
            return Ok(Symbol::Template(template));
        }
    }
    Ok(Symbol::Type(w.pool.types.number(Type::Struct(unit))?))
}

/// Looks for a name from the code outwards; nothing where there is none.
pub fn look(
    w: &mut World,
    env: Env,
    sought: Sought,
    lookup: Lookup,
) -> Result<Option<Symbol>, Stop> {
    if let Lookup::Plain(block) = lookup {
        if let Some(symbol) = w.locals.find(block, sought.name) {
            return Ok(Some(found_symbol(w, symbol)?));
        }
    }
    let mut hits = Vec::new(w.alloc);
    let found = find(w, env, sought.name, lookup, Patience::Waits, &mut hits)?;
    let other = match found {
        Found::Absent | Found::Rows => false,
        Found::Symbol(_) | Found::Own(_) => true,
    };
    note(
        w,
        env,
        sought.name,
        sought.at,
        lookup,
        hits.as_slice(),
        other,
    )?;
    match found {
        Found::Absent => Ok(None),
        Found::Rows => Ok(Some(rows_symbol(w, hits.as_slice(), sought)?)),
        Found::Symbol(symbol) => Ok(Some(found_symbol(w, symbol)?)),
        Found::Own(unit) => Ok(Some(own_name(w, unit, sought)?)),
    }
}

/// What a name stands for, or rule 5.
pub fn named(w: &mut World, env: Env, sought: Sought) -> Result<Symbol, Stop> {
    match look(w, env, sought, Lookup::Plain(env.block))? {
        Some(symbol) => Ok(symbol),
        None => w.refuse(5, sought.at, Some(sought.name)),
    }
}

/// Looks for a name in a unit; nothing where there is none.
pub fn look_within(
    w: &mut World,
    env: Env,
    unit: UnitId,
    sought: Sought,
) -> Result<Option<Symbol>, Stop> {
    let mut hits = Vec::new(w.alloc);
    find_within(w, env, unit, sought.name, &mut hits)?;
    let lookup = Lookup::Within(unit);
    note(
        w,
        env,
        sought.name,
        sought.at,
        lookup,
        hits.as_slice(),
        false,
    )?;
    if hits.is_empty() {
        return Ok(None);
    }
    Ok(Some(rows_symbol(w, hits.as_slice(), sought)?))
}

/// A prefix that is a module's whole name and begins no longer one is that module.
pub fn finished(w: &World, symbol: Symbol) -> Symbol {
    match symbol {
        Symbol::Package(package) if is_finished(w, package) => match package.best {
            Some(unit) => Symbol::Module(unit),
            None => symbol,
        },
        _ => symbol,
    }
}

/// What a dotted name that ends here stands for: the longest module that begins it, and in it what follows.
pub fn package_end(w: &mut World, env: Env, symbol: Symbol) -> Result<Symbol, Stop> {
    let Symbol::Package(package) = symbol else {
        return Ok(symbol);
    };
    let Some(module) = package.best else {
        return Ok(symbol);
    };
    let rest = Vec::from_slice(w.alloc, w.dotted_of(package.rest))?;
    let mut at = Symbol::Module(module);
    for next in rest.as_slice() {
        let sought = Sought {
            name: next.name,
            at: Where {
                spot: env.spot,
                at: next.at,
            },
            is_applied: false,
        };
        at = member_of(w, env, at, sought)?;
    }
    Ok(at)
}

/// `symbol.name` of a module, an instance or a type.
fn member_of(w: &mut World, env: Env, symbol: Symbol, sought: Sought) -> Result<Symbol, Stop> {
    match symbol {
        Symbol::Module(unit) | Symbol::Instance(unit) => {
            match look_within(w, env, unit, sought)? {
                Some(found) => Ok(found),
                None => w.refuse(5, sought.at, Some(sought.name)),
            }
        }
        Symbol::Type(of) => member_of_type(w, env, of, sought),
        _ => w.refuse(10, sought.at, None),
    }
}

/// `prefix.name` of a package, a module, an instance or a type.
pub fn qualified(w: &mut World, env: Env, symbol: Symbol, sought: Sought) -> Result<Symbol, Stop> {
    let Symbol::Package(package) = symbol else {
        return member_of(w, env, symbol, sought);
    };
    if let Some(longer) = longer_package(w, package, sought)? {
        return Ok(Symbol::Package(longer));
    }
    if package.best.is_none() {
        return w.refuse(5, sought.at, Some(sought.name));
    }
    let whole = package_end(w, env, symbol)?;
    match whole {
        Symbol::Module(_) | Symbol::Instance(_) | Symbol::Type(_) => {
            member_of(w, env, whole, sought)
        }
        _ => w.refuse(10, sought.at, None),
    }
}

fn longer_package(
    w: &mut World,
    package: Package,
    sought: Sought,
) -> Result<Option<Package>, Stop> {
    if sought.is_applied {
        return Ok(None);
    }
    longer(
        w,
        package,
        Dotted {
            name: sought.name,
            at: sought.at.at,
        },
    )
}

/// The member of that name of an enum.
fn enumerator(w: &World, of: DeclId, name: NameId) -> Result<Option<DeclId>, Stop> {
    let mut at = w.decl(of)?.other;
    for _ in 0..u64::MAX {
        let Some(id) = at else {
            break;
        };
        let member = w.decl(id)?;
        if member.name == Some(name) {
            return Ok(Some(id));
        }
        at = member.other;
    }
    Ok(None)
}

/// Whether an enum has a member of that name.
pub(crate) fn has_enumerator(w: &World, of: DeclId, name: NameId) -> Result<bool, Stop> {
    Ok(enumerator(w, of, name)?.is_some())
}

/// `T.name`: a member of a struct or an enum, or a property (D specification, "Properties").
fn member_of_type(w: &mut World, env: Env, of: TypeId, sought: Sought) -> Result<Symbol, Stop> {
    match w.pool.types.get(of) {
        Type::Struct(unit) => {
            if let Some(found) = look_within(w, env, unit, sought)? {
                return Ok(found);
            }
        }
        Type::Enum(decl, _) => {
            if let Some(member) = enumerator(w, decl, sought.name)? {
                return symbol_of(w, member);
            }
        }
        _ => {}
    }
    match type_property(w, of, sought.name)? {
        Some(found) => Ok(found),
        None => w.refuse(5, sought.at, Some(sought.name)),
    }
}

/// A property of a type (D specification, "Properties").
pub fn type_property(w: &mut World, of: TypeId, name: NameId) -> Result<Option<Symbol>, Stop> {
    let word = Property::of(w.pool.names.bytes(name));
    let number = match w.pool.types.get(of) {
        Type::Int(kind) => Some(dc_tree::Range::of_kind(kind)),
        _ => None,
    };
    Ok(match (word, number) {
        (Property::Init, _) if of != TypeId::VOID => {
            Some(Symbol::Value(of, dc_facts::start_value(w, of)?))
        }
        (Property::StringOf, _) => {
            let text = crate::shown::type_text(w, of)?;
            let name = w.pool.names.number(text.as_slice())?;
            let value = w.pool.values.add(Value::Bytes(name))?;
            Some(Symbol::Value(TypeId::STRING, value))
        }
        (Property::Min, Some(range)) => Some(Symbol::Value(of, w.pool.values.number(range.lo)?)),
        (Property::Max, Some(range)) => Some(Symbol::Value(of, w.pool.values.number(range.hi)?)),
        (Property::Length, None) => match w.pool.types.fixed_length(of) {
            Some(len) => Some(Symbol::Value(TypeId::ULONG, w.pool.values.number(i128::from(len))?)),
            None => None,
        },
        _ => None,
    })
}

/// The names of properties.
#[derive(Clone, Copy, PartialEq, Eq)]
pub enum Property {
    Init,
    StringOf,
    Min,
    Max,
    Length,
    Dup,
    Idup,
    Other,
}

impl Property {
    pub fn of(name: &[u8]) -> Property {
        match name {
            b"init" => Property::Init,
            b"stringof" => Property::StringOf,
            b"min" => Property::Min,
            b"max" => Property::Max,
            b"length" => Property::Length,
            b"dup" => Property::Dup,
            b"idup" => Property::Idup,
            _ => Property::Other,
        }
    }
}

/// The member of that name of a value that is a struct; nothing where the type has none.
pub fn rows_symbol_within(
    w: &mut World,
    env: Env,
    value: dc_tree::TreeId,
    sought: Sought,
) -> Result<Option<Symbol>, Stop> {
    match w.pool.types.get(w.pool.trees.get(value).of) {
        Type::Struct(unit) => look_within(w, env, unit, sought),
        _ => Ok(None),
    }
}
