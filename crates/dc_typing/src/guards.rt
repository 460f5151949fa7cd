// What asks whether something is well formed (D specification, "Expressions", "Is Expressions"; "Traits").
use crate::deduce::deduce_one;
use crate::evals::evaluate;
use crate::expression::judge;
use crate::resolution::resolve;
use crate::types::judge_type;
use dc_ast::IsRelation;
use dc_facts::deeper;
use dc_form::{NONE, Source, level, truth};
use dc_model::{Arg, Env, Stop, Symbol, World};
use dc_names::{
    Sought, Want, guarded, here, look_within, package_end, push_names, settled, text_of, type_has,
    value,
};
use dc_operators::softened;
use dc_syntax::{Form, List, NameId, NodeId};
use dc_tree::{TreeId, Type, TypeId, Where};

/// `T == U, names` of an `is`.
#[derive(Clone, Copy)]
pub(crate) struct Test {
    pub of: NodeId,
    pub relation: IsRelation,
    pub against: NodeId,
    pub names: List,
}

/// `is(T)`
#[cycle(judging)]
pub(crate) fn is_valid(
    w: &mut World,
    env: Env,
    of: NodeId,
    at: Where,
    depth: u32,
) -> Result<TreeId, Stop> {
    let less = deeper(depth)?;
    let found = guarded(judge_type(w, env, of, less))?;
    truth(w, found.is_some(), at)
}

/// `is(T == struct)`
#[cycle(judging)]
pub(crate) fn is_struct(
    w: &mut World,
    env: Env,
    of: NodeId,
    at: Where,
    depth: u32,
) -> Result<TreeId, Stop> {
    let less = deeper(depth)?;
    let holds = match guarded(judge_type(w, env, of, less))? {
        Some(found) => match w.pool.types.get(found) {
            Type::Struct(_) => true,
            _ => false,
        },
        None => false,
    };
    truth(w, holds, at)
}

/// Whether two types stand in the relation of an `is`.
fn relates(w: &World, relation: IsRelation, of: TypeId, against: TypeId) -> bool {
    match relation {
        IsRelation::Same => of == against,
        IsRelation::Converts => {
            of == against || level(w, Source::Bare(of, true), against) > NONE
        }
    }
}

/// `is(T == U)`, `is(T : U, names)`
#[cycle(judging)]
pub(crate) fn is_type(
    w: &mut World,
    env: Env,
    test: Test,
    at: Where,
    depth: u32,
) -> Result<TreeId, Stop> {
    let less = deeper(depth)?;
    let Some(of) = guarded(judge_type(w, env, test.of, less))? else {
        return truth(w, false, at);
    };
    let holds = if test.names.len == 0 {
        match guarded(judge_type(w, env, test.against, less))? {
            Some(against) => relates(w, test.relation, of, against),
            None => false,
        }
    } else {
        match guarded(fits_pattern(w, env, test, of, less))? {
            Some(holds) => holds,
            None => false,
        }
    };
    truth(w, holds, at)
}

/// Whether a type fits a pattern with names that it binds.
#[cycle(judging)]
fn fits_pattern(w: &mut World, env: Env, test: Test, of: TypeId, depth: u32) -> Result<bool, Stop> {
    let less = deeper(depth)?;
    let compared = match test.relation {
        IsRelation::Same => of,
        IsRelation::Converts => softened(w, test.against, of)?,
    };
    let mut bound = Vec::new(w.alloc);
    for _ in 0..test.names.len {
        bound.push(Arg::Missing)?;
    }
    if !deduce_one(
        w,
        None,
        test.names,
        test.against,
        compared,
        &mut bound,
        less,
    )? {
        return Ok(false);
    }
    let block = w.locals.open(env.block, true)?;
    for (k, arg) in bound.as_slice().iter().enumerate() {
        let k = u32::try_from(k).unwrap_or(u32::MAX);
        let Arg::OfType(found) = *arg else {
            return Ok(false);
        };
        let node = w.pool.syntax.item(test.names, k);
        if let Form::Name(name) = w.pool.syntax.node(node).form {
            let at = here(env, w.pool.syntax.node(node).at);
            w.locals.put(block, name, Symbol::Type(found), at)?;
        }
    }
    let inner = Env {
        block: Some(block),
        ..env
    };
    let against = judge_type(w, inner, test.against, less)?;
    Ok(relates(w, test.relation, of, against))
}

/// The traits that are known.
#[derive(Clone, Copy)]
enum Trait {
    Compiles,
    HasMember,
    AllMembers,
    Other,
}

fn trait_of(name: &[u8]) -> Trait {
    match name {
        b"compiles" => Trait::Compiles,
        b"hasMember" => Trait::HasMember,
        b"allMembers" => Trait::AllMembers,
        _ => Trait::Other,
    }
}

/// `__traits(name, arguments)`
#[cycle(judging)]
pub(crate) fn traits(
    w: &mut World,
    env: Env,
    name: NameId,
    name_at: u32,
    args: List,
    at: Where,
    depth: u32,
) -> Result<TreeId, Stop> {
    let less = deeper(depth)?;
    match trait_of(w.pool.names.bytes(name)) {
        Trait::Compiles => {
            for k in 0..args.len {
                let n = w.pool.syntax.item(args, k);
                if guarded(compiles(w, env, n, less))?.is_none() {
                    return truth(w, false, at);
                }
            }
            truth(w, true, at)
        }
        Trait::HasMember => {
            if args.len != 2 {
                return w.refuse(10, at, None);
            }
            let holds = match guarded(has_member(w, env, args, at, less))? {
                Some(holds) => holds,
                None => false,
            };
            truth(w, holds, at)
        }
        Trait::AllMembers => w.refuse(10, at, None),
        Trait::Other => {
            let at = here(env, name_at);
            w.refuse(5, at, Some(name))
        }
    }
}

/// Judges an argument of `compiles`: a type, a name or an expression.
#[cycle(judging)]
fn compiles(w: &mut World, env: Env, n: NodeId, depth: u32) -> Result<(), Stop> {
    let less = deeper(depth)?;
    match w.pool.syntax.node(n).form {
        Form::Basic(_)
        | Form::Named(_)
        | Form::TypeOf(_)
        | Form::ImmutableChar
        | Form::Brackets(_, _) => {
            judge_type(w, env, n, less)?;
        }
        Form::Name(_) | Form::Instance(_, _) | Form::Postfix(_, _) => {
            let found = resolve(w, env, n, less)?;
            package_end(w, env, found.symbol)?;
        }
        _ => {
            judge(w, env, n, None, less)?;
        }
    }
    Ok(())
}

/// What an argument of a trait stands for.
#[cycle(judging)]
fn trait_symbol(w: &mut World, env: Env, n: NodeId, depth: u32) -> Result<Symbol, Stop> {
    let less = deeper(depth)?;
    let found = resolve(w, env, n, less)?;
    let symbol = package_end(w, env, found.symbol)?;
    match symbol {
        Symbol::Type(_) | Symbol::Module(_) | Symbol::Instance(_) => Ok(symbol),
        _ => {
            let at = here(env, w.pool.syntax.node(n).at);
            let whole = dc_names::Resolved { symbol, ..found };
            let tree = value(w, env, whole, at)?;
            Ok(Symbol::Type(w.pool.trees.get(tree).of))
        }
    }
}

/// `__traits(hasMember, of, name)`
#[cycle(judging)]
fn has_member(w: &mut World, env: Env, args: List, at: Where, depth: u32) -> Result<bool, Stop> {
    let less = deeper(depth)?;
    let of_node = w.pool.syntax.item(args, 0);
    let symbol = trait_symbol(w, env, of_node, less)?;
    let name_node = w.pool.syntax.item(args, 1);
    let (of, said) = evaluate(w, env, name_node, Want::Any, less)?;
    if !w.pool.types.is_text(of) {
        let name_at = here(env, w.pool.syntax.node(name_node).at);
        return w.refuse(10, name_at, None);
    }
    let bytes = text_of(w, said)?;
    let name = w.pool.names.number(bytes.as_slice())?;
    let sought = Sought {
        name,
        at,
        is_applied: false,
    };
    match symbol {
        Symbol::Module(unit) | Symbol::Instance(unit) => {
            Ok(look_within(w, env, unit, sought)?.is_some())
        }
        Symbol::Type(of) => type_has(w, env, of, sought),
        _ => Ok(false),
    }
}

/// `__traits(allMembers, S)`: the names of a struct's declarations but its imports, each once, in text order.
#[cycle(judging)]
pub fn all_members(w: &mut World, env: Env, n: NodeId, depth: u32) -> Result<Vec<NameId>, Stop> {
    let less = deeper(depth)?;
    let node = w.pool.syntax.node(n);
    let at = here(env, node.at);
    let args = match node.form {
        Form::Traits(_, _, args) if args.len == 1 => args,
        _ => return w.refuse(10, at, None),
    };
    let argument = w.pool.syntax.item(args, 0);
    let found = resolve(w, env, argument, less)?;
    let unit = match package_end(w, env, found.symbol)? {
        Symbol::Type(of) => match w.pool.types.get(of) {
            Type::Struct(unit) => Some(unit),
            _ => None,
        },
        _ => None,
    };
    let Some(unit) = unit else {
        let argument_at = here(env, w.pool.syntax.node(argument).at);
        return w.refuse(10, argument_at, None);
    };
    settled(w, unit)?;
    let mut names = Vec::new(w.alloc);
    for id in w.declarations(unit)?.as_slice() {
        let decl = w.decl(*id)?;
        push_names(w, decl, &mut names)?;
    }
    Ok(names)
}
