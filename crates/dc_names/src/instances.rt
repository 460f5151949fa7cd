// Instances of templates: looked up by their keys, added where new, and named in trees.
use crate::answers::evaluated;
use crate::names::{Sought, decl_symbol, look_within};
use dc_facts::{KEY_BYTES, key_text, place_of};
use dc_form::{NONE, Source, constant, level};
use dc_model::{
    Answer, Arg, Ask, Decl, DeclKind, Env, Question, SetId, Stop, Symbol, Unit, UnitKind, Work,
    World,
};
use dc_syntax::{Form, NameId, NodeId};
use dc_tree::{DeclId, PlaceStep, Type, TypeId, UnitId, ValueId, Where};

/// The argument that a symbol is, where it is one without a run.
pub fn symbol_arg(w: &mut World, symbol: Symbol, at: Where) -> Result<Option<Arg>, Stop> {
    Ok(match symbol {
        Symbol::Type(of) => Some(Arg::OfType(of)),
        Symbol::Value(of, value) => Some(Arg::OfValue(of, value)),
        Symbol::Variable(decl) => Some(Arg::Written(decl, at)),
        Symbol::Functions(set) => match first_function(w, set)? {
            Some(decl) => Some(Arg::OfSymbol(symbol, place_of(w, decl)?)),
            None => None,
        },
        Symbol::Template(decl) => Some(Arg::OfSymbol(symbol, place_of(w, decl)?)),
        Symbol::Module(unit) | Symbol::Instance(unit) => {
            Some(Arg::OfSymbol(symbol, w.place_of(unit)?))
        }
        _ => None,
    })
}

fn first_function(w: &World, set: SetId) -> Result<Option<DeclId>, Stop> {
    let known = w.set(set)?;
    Ok(w.members(known.members).get(1).map(|n| DeclId(*n)))
}

/// What a named instance stands for: of a template its member of the template's name, where it has
/// one.
pub fn instance_symbol(
    w: &mut World,
    env: Env,
    decl: DeclId,
    unit: UnitId,
    sought: Sought,
) -> Result<Symbol, Stop> {
    let known = w.decl(decl)?;
    match known.kind {
        DeclKind::Struct => Ok(Symbol::Type(w.pool.types.number(Type::Struct(unit))?)),
        DeclKind::Template => {
            let own = Sought {
                name: w.unit(unit)?.name,
                at: sought.at,
                is_applied: false,
            };
            match look_within(w, env, unit, own)? {
                Some(found) => Ok(found),
                None => Ok(Symbol::Instance(unit)),
            }
        }
        _ => match w.unit(unit)?.own {
            Some(own) => decl_symbol(w, own),
            None => Err(Stop::NoMemory),
        },
    }
}

/// The value of a module variable that is written as an argument.
pub fn variable_value(
    w: &mut World,
    env: Env,
    variable: DeclId,
    at: Where,
) -> Result<(TypeId, ValueId), Stop> {
    let found = crate::wheres::Resolved {
        symbol: Symbol::Variable(variable),
        name_at: at,
    };
    let tree = crate::values::value(w, env, found, at)?;
    evaluated(w, env, tree, at)
}

/// A constant as one of a type; nothing where it doesn't convert.
pub fn converted(
    w: &mut World,
    from: TypeId,
    value: ValueId,
    to: TypeId,
) -> Result<Option<Arg>, Stop> {
    let at = Where {
        spot: dc_tree::SpotId(0),
        at: 0,
    };
    let tree = constant(w, from, value, at)?;
    if level(w, Source::Tree(tree), to) == NONE {
        return Ok(None);
    }
    let value = dc_form::converted_value(w, value, from, to)?;
    Ok(Some(Arg::OfValue(to, value)))
}

/// The unit of the instance with these arguments, which isn't named by that alone. Rule 18 where
/// its key text is too long.
pub fn instance_of(w: &mut World, decl: DeclId, args: &[Arg], at: Where) -> Result<UnitId, Stop> {
    let key = key_text(w, args)?;
    if key.len() > KEY_BYTES {
        return w.refuse(18, at, None);
    }
    let key = w.pool.names.number(key.as_slice())?;
    let known = w.decl(decl)?;
    let spot = w
        .pool
        .places
        .entered(known.at.spot, PlaceStep::With(key), known.at.at)?;
    let stands = Where {
        spot,
        at: known.at.at,
    };
    let place = w.pool.places.place(stands)?;
    if let Some(unit) = w.instances.get(&place) {
        return Ok(*unit);
    }
    w.inherit_binds(known.at.spot, spot)?;
    let unit = add_instance(w, decl, known, stands, args)?;
    w.instances.insert(place, unit)?;
    Ok(unit)
}

fn name_of(known: Decl) -> Result<NameId, Stop> {
    match known.name {
        Some(name) => Ok(name),
        None => Err(Stop::NoMemory),
    }
}

/// The unit of a new instance, with its declaration without parameters.
fn add_instance(
    w: &mut World,
    decl: DeclId,
    known: Decl,
    at: Where,
    args: &[Arg],
) -> Result<UnitId, Stop> {
    let is_struct = known.kind == DeclKind::Struct;
    let args = w.add_args(args)?;
    let name = name_of(known)?;
    let unit = w.add_unit(Unit {
        kind: if is_struct {
            UnitKind::Struct
        } else {
            UnitKind::Instance
        },
        at,
        spot: at.spot,
        outer: Some(known.unit),
        name,
        decl: Some(decl),
        args: Some(args),
        own: None,
        pending: None,
        first: None,
        is_named: false,
        is_built: false,
    })?;
    if known.kind == DeclKind::Template {
        return Ok(unit);
    }
    let own = w.add_decl(Decl {
        at,
        unit: if is_struct { known.unit } else { unit },
        is_template: false,
        inner: Some(unit),
        ..known
    })?;
    let place = w.pool.places.place(at)?;
    w.placed.insert(place, own)?;
    if let Some(slot) = w.units.get_mut(unit.0 as usize) {
        slot.own = Some(own);
    }
    Ok(unit)
}

/// Whether the constraint of an instance holds, which is a question of its own.
pub fn constraint_holds(w: &mut World, unit: UnitId) -> Result<bool, Stop> {
    if constraint_of(w, unit)?.is_none() {
        return Ok(true);
    }
    let place = w.place_of(unit)?;
    let question = Question {
        ask: Ask::Eval,
        at: place,
    };
    match w.ask(question, Work::Constraint(unit))? {
        Answer::Value(_, value) => Ok(w.pool.values.as_number(value) != 0),
        _ => Err(Stop::NoMemory),
    }
}

/// The constraint of the template of an instance.
pub fn constraint_of(w: &World, unit: UnitId) -> Result<Option<NodeId>, Stop> {
    let Some(template) = w.unit(unit)?.decl else {
        return Ok(None);
    };
    let syntax = &w.pool.syntax;
    Ok(match syntax.node(w.decl(template)?.node).form {
        Form::Function(n) => match syntax.function(n) {
            Some(function) => function.constraint,
            None => None,
        },
        Form::Struct(n) | Form::Template(n) => match syntax.structure(n) {
            Some(structure) => structure.constraint,
            None => None,
        },
        _ => None,
    })
}

/// Asks that an instance belongs to the program: its rows are introduced, and its declarations are
/// questions.
pub fn name_instance(w: &mut World, unit: UnitId, at: Where) -> Result<(), Stop> {
    if w.unit(unit)?.is_named {
        return Ok(());
    }
    let place = w.place_of(unit)?;
    let question = Question {
        ask: Ask::Symbol,
        at: place,
    };
    w.ask(question, Work::Instance(unit, at))?;
    Ok(())
}
