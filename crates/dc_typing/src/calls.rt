// Calls (D specification, "Expressions", "Function Calls"; "Functions", "Uniform Function Call Syntax").
use crate::expression::{judge, judge_to};
use crate::overloads::{Chosen, choose};
use crate::resolution::{applied, resolve};
use dc_facts::{deeper, fields_of, signature_of, this_unit};
use dc_form::{add, aggregate, coerce, constant, convert, own};
use dc_model::{DeclKind, Env, Lookup, SetId, Stop, Symbol, World};
use dc_names::{
    Resolved, Sought, finished, here, implicit_this, look, name_instance, named, package_end,
    qualified, rows_symbol_within, sought_of, value,
};
use dc_syntax::{List, NodeId};
use dc_tree::{CallNode, DeclId, Taken, TreeForm, TreeId, Type, TypeId, UnitId, Where};

/// The arguments of a call as they are written, and where the call stands.
#[derive(Clone, Copy)]
pub(crate) struct Called {
    pub args: List,
    pub at: Where,
}

/// What is called: functions, with a receiver or with a first argument before the dot.
#[derive(Clone, Copy)]
struct Callee {
    symbol: Symbol,
    sought: Sought,
    receiver: Option<TreeId>,
    /// The value before the dot that is the first argument, and where it stands.
    extra: Option<(TreeId, Where)>,
}

/// `f(arguments)`, where f is no member of anything.
#[cycle(judging)]
pub(crate) fn call_plain(
    w: &mut World,
    env: Env,
    callee: NodeId,
    called: Called,
    depth: u32,
) -> Result<Symbol, Stop> {
    let less = deeper(depth)?;
    let Some((sought, args)) = sought_of(w, env, callee) else {
        let found = resolve(w, env, callee, less)?;
        let name = w.pool.names.number(b"")?;
        let sought = Sought {
            name,
            at: here(env, w.pool.syntax.node(callee).at),
            is_applied: false,
        };
        return finish_call(w, env, plain(found.symbol, sought), called, less);
    };
    let found = named(w, env, sought)?;
    let symbol = applied(w, env, found, sought, args, less)?;
    let mut callee = plain(symbol, sought);
    if let Symbol::Functions(set) = symbol {
        if let Some(first) = first_of(w, set)? {
            callee.receiver = implicit_this(w, env, first, called.at)?;
        }
    }
    finish_call(w, env, callee, called, less)
}

fn plain(symbol: Symbol, sought: Sought) -> Callee {
    Callee {
        symbol,
        sought,
        receiver: None,
        extra: None,
    }
}

/// The first function of overload sets.
fn first_of(w: &World, set: SetId) -> Result<Option<DeclId>, Stop> {
    let known = w.set(set)?;
    Ok(w.members(known.members).get(1).map(|n| DeclId(*n)))
}

/// `base.name(arguments)`
#[cycle(judging)]
pub(crate) fn call_member(
    w: &mut World,
    env: Env,
    base: Resolved,
    name: NodeId,
    called: Called,
    depth: u32,
) -> Result<Resolved, Stop> {
    let less = deeper(depth)?;
    let Some((sought, args)) = sought_of(w, env, name) else {
        return Err(Stop::NoMemory);
    };
    let callee = match base.symbol {
        Symbol::Package(_) | Symbol::Module(_) | Symbol::Instance(_) | Symbol::Type(_) => {
            let before = finished(w, base.symbol);
            let found = qualified(w, env, before, sought)?;
            let symbol = applied(w, env, found, sought, args, less)?;
            plain(package_end(w, env, symbol)?, sought)
        }
        _ => {
            let tree = value(w, env, base, called.at)?;
            match rows_symbol_within(w, env, tree, sought)? {
                Some(found) => {
                    let symbol = applied(w, env, found, sought, args, less)?;
                    Callee {
                        receiver: Some(tree),
                        ..plain(symbol, sought)
                    }
                }
                None => {
                    let found = free_function(w, env, sought)?;
                    let symbol = applied(w, env, found, sought, args, less)?;
                    Callee {
                        extra: Some((tree, called.at)),
                        ..plain(symbol, sought)
                    }
                }
            }
        }
    };
    let symbol = finish_call(w, env, callee, called, less)?;
    Ok(Resolved {
        symbol,
        name_at: called.at,
    })
}

/// A function that is called as if it were a member.
fn free_function(w: &mut World, env: Env, sought: Sought) -> Result<Symbol, Stop> {
    match look(w, env, sought, Lookup::Free(env.block))? {
        Some(symbol) => Ok(symbol),
        None => w.refuse(5, sought.at, Some(sought.name)),
    }
}

/// The call of what was found.
#[cycle(judging)]
fn finish_call(
    w: &mut World,
    env: Env,
    callee: Callee,
    called: Called,
    depth: u32,
) -> Result<Symbol, Stop> {
    let less = deeper(depth)?;
    match callee.symbol {
        Symbol::Functions(set) => Ok(Symbol::Tree(call_set(w, env, callee, set, called, less)?)),
        Symbol::Method(receiver, set) => {
            let method = Callee {
                receiver: Some(receiver),
                ..callee
            };
            Ok(Symbol::Tree(call_set(w, env, method, set, called, less)?))
        }
        Symbol::Type(of) => match w.pool.types.get(of) {
            Type::Struct(unit) => {
                if callee.extra.is_some() {
                    return w.refuse(10, callee.sought.at, None);
                }
                Ok(Symbol::Tree(construct(w, env, of, unit, callee.sought, called, less)?))
            }
            _ => w.refuse(10, callee.sought.at, None),
        },
        _ => w.refuse(10, callee.sought.at, None),
    }
}

/// The call of the best function of overload sets.
#[cycle(judging)]
fn call_set(
    w: &mut World,
    env: Env,
    callee: Callee,
    set: SetId,
    called: Called,
    depth: u32,
) -> Result<TreeId, Stop> {
    let less = deeper(depth)?;
    let mut args = Vec::new(w.alloc);
    let mut places = Vec::new(w.alloc);
    if let Some((tree, at)) = callee.extra {
        args.push(tree)?;
        places.push(at)?;
    }
    for k in 0..called.args.len {
        let n = w.pool.syntax.item(called.args, k);
        let tree = judge(w, env, n, None, less)?;
        args.push(tree)?;
        places.push(here(env, w.pool.syntax.node(n).at))?;
    }
    let known = w.set(set)?;
    let chosen = choose(w, env, known, args.as_slice(), callee.sought, less)?;
    call_of(
        w,
        chosen,
        args.as_slice(),
        places.as_slice(),
        callee,
        called.at,
    )
}

/// The call of a chosen function.
fn call_of(
    w: &mut World,
    chosen: Chosen,
    args: &[TreeId],
    places: &[Where],
    callee: Callee,
    at: Where,
) -> Result<TreeId, Stop> {
    let function = match chosen {
        Chosen::Builtin(decl) => return builtin(w, decl, args, at),
        Chosen::Plain(decl) => decl,
        Chosen::Instance(unit) => {
            name_instance(w, unit, callee.sought.at)?;
            match w.unit(unit)?.own {
                Some(decl) => decl,
                None => return Err(Stop::NoMemory),
            }
        }
    };
    let signature = signature_of(w, function)?;
    let taken = Vec::from_slice(w.alloc, w.pool.bodies.taken(signature))?;
    let this = receiver(w, function, callee)?;
    let arguments = passed(w, taken.as_slice(), args, places)?;
    let n = w.pool.trees.add_call(CallNode {
        function,
        this,
        arguments,
    })?;
    add(w, TreeForm::Call(n), signature.result, at)
}

/// The address of the struct on which a member function works; nothing for other functions.
fn receiver(w: &mut World, function: DeclId, callee: Callee) -> Result<Option<TreeId>, Stop> {
    let unit = w.decl(function)?.unit;
    if this_unit(w, unit)?.is_none() {
        return Ok(None);
    }
    let Some(tree) = callee.receiver else {
        return w.refuse(10, callee.sought.at, None);
    };
    let known = w.pool.trees.get(tree);
    if known.read_only {
        return w.refuse(22, known.at, None);
    }
    Ok(Some(address(w, tree)?))
}

/// The address of a place or a temporary.
fn address(w: &mut World, tree: TreeId) -> Result<TreeId, Stop> {
    own(w, tree);
    let known = w.pool.trees.get(tree);
    add(w, TreeForm::Address(tree), known.of, known.at)
}

/// The arguments as the parameters take them.
fn passed(w: &mut World, taken: &[Taken], args: &[TreeId], places: &[Where]) -> Result<List, Stop> {
    let mut all = Vec::new(w.alloc);
    for (k, parameter) in taken.iter().enumerate() {
        let (Some(arg), Some(at)) = (args.get(k).copied(), places.get(k).copied()) else {
            break;
        };
        let tree = if parameter.by_ref {
            if w.pool.trees.get(arg).read_only {
                return w.refuse(22, at, None);
            }
            address(w, arg)?
        } else {
            coerce(w, arg, parameter.of, at)?
        };
        all.push(tree.0)?;
    }
    Ok(w.pool.trees.list(all.as_slice())?)
}

/// `write`, `writeln`, `to!string`, `text`
fn builtin(w: &mut World, decl: DeclId, args: &[TreeId], at: Where) -> Result<TreeId, Stop> {
    let mut numbers = Vec::new(w.alloc);
    for arg in args {
        numbers.push(arg.0)?;
    }
    let list = w.pool.trees.list(numbers.as_slice())?;
    let name = match w.decl(decl)?.name {
        Some(name) => name,
        None => return Err(Stop::NoMemory),
    };
    let (form, of) = match (w.pool.names.bytes(name), args.first().copied()) {
        (b"write", _) => (TreeForm::Print(false, list), TypeId::VOID),
        (b"writeln", _) => (TreeForm::Print(true, list), TypeId::VOID),
        (b"to", Some(first)) => (TreeForm::ToText(first), TypeId::STRING),
        _ => (TreeForm::JoinTexts(list), TypeId::STRING),
    };
    add(w, form, of, at)
}

/// Whether a declaration is one of the built-in functions.
fn is_builtin(w: &World, decl: DeclId) -> Result<bool, Stop> {
    Ok(w.decl(decl)?.kind == DeclKind::Builtin)
}

/// `S(a, b)`: the fields in text order, missing ones with their start values.
#[cycle(judging)]
fn construct(
    w: &mut World,
    env: Env,
    of: TypeId,
    unit: UnitId,
    sought: Sought,
    called: Called,
    depth: u32,
) -> Result<TreeId, Stop> {
    let less = deeper(depth)?;
    let fields = fields_of(w, unit)?;
    if called.args.len as usize > fields.len() {
        return w.refuse(11, sought.at, Some(sought.name));
    }
    let mut all = Vec::new(w.alloc);
    for (k, field) in fields.as_slice().iter().enumerate() {
        let k = u32::try_from(k).unwrap_or(u32::MAX);
        let tree = if k < called.args.len {
            let n = w.pool.syntax.item(called.args, k);
            judge_to(w, env, n, field.of, less)?
        } else {
            constant(w, field.of, field.start, called.at)?
        };
        all.push(tree.0)?;
    }
    let list = w.pool.trees.list(all.as_slice())?;
    aggregate(w, TreeForm::Struct(list), list, of, called.at)
}

/// An argument as one of a type, or rule 10 where it stands.
fn converted(w: &mut World, tree: TreeId, to: TypeId, at: Where) -> Result<TreeId, Stop> {
    convert(w, tree, to, at)
}
