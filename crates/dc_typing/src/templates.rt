// Templates and their instances (D specification, "Templates").
use crate::evals::evaluate;
use crate::resolution::resolve;
use crate::types::judge_type;
use dc_facts::{decl_env, deeper, place_of};
use dc_form::constant;
use dc_model::{Arg, Env, FunctionSet, SetId, Stop, Symbol, World};
use dc_names::{
    Sought, Want, constraint_holds, converted, evaluated, here, instance_of, instance_symbol,
    name_instance, package_end, symbol_arg, trial_unit, variable_value,
};
use dc_syntax::{Form, List, NodeId};
use dc_tree::{DeclId, TypeId};

/// An argument as it is written behind `!`.
#[cycle(judging)]
fn argument(w: &mut World, env: Env, n: NodeId, depth: u32) -> Result<Arg, Stop> {
    let less = deeper(depth)?;
    let node = w.pool.syntax.node(n);
    let at = here(env, node.at);
    let is_name = match node.form {
        Form::Basic(_)
        | Form::Named(_)
        | Form::TypeOf(_)
        | Form::ImmutableChar
        | Form::Brackets(_, _)
        | Form::Name(_)
        | Form::Instance(_, _)
        | Form::Postfix(_, _) => true,
        _ => false,
    };
    if !is_name {
        let (of, value) = evaluate(w, env, n, Want::Any, less)?;
        return Ok(Arg::OfValue(of, value));
    }
    let found = resolve(w, env, n, less)?;
    let symbol = package_end(w, env, found.symbol)?;
    if let Some(arg) = symbol_arg(w, symbol, at)? {
        if let Arg::OfValue(of, value) = arg {
            let tree = constant(w, of, value, at)?;
            evaluated(w, env, tree, at)?;
        }
        return Ok(arg);
    }
    match symbol {
        Symbol::Tree(_) | Symbol::Local(_) => {
            let (of, value) = evaluate(w, env, n, Want::Any, less)?;
            Ok(Arg::OfValue(of, value))
        }
        _ => w.refuse(10, found.name_at, None),
    }
}

/// The arguments as they are written behind `!`.
#[cycle(judging)]
fn arguments(w: &mut World, env: Env, list: List, depth: u32) -> Result<Vec<Arg>, Stop> {
    let less = deeper(depth)?;
    let mut all = Vec::new(w.alloc);
    for k in 0..list.len {
        let n = w.pool.syntax.item(list, k);
        let arg = argument(w, env, n, less)?;
        all.push(arg)?;
    }
    Ok(all)
}

/// `name!(arguments)`, where the name stands for a symbol.
#[cycle(judging)]
pub(crate) fn apply(
    w: &mut World,
    env: Env,
    symbol: Symbol,
    list: List,
    sought: Sought,
    depth: u32,
) -> Result<Symbol, Stop> {
    let less = deeper(depth)?;
    match symbol {
        Symbol::Functions(set) => {
            let set = with_arguments(w, env, set, list, less)?;
            Ok(Symbol::Functions(set))
        }
        Symbol::Method(tree, set) => {
            let set = with_arguments(w, env, set, list, less)?;
            Ok(Symbol::Method(tree, set))
        }
        Symbol::Template(decl) => {
            let args = arguments(w, env, list, less)?;
            instantiate(w, env, decl, args.as_slice(), sought, less)
        }
        _ => w.refuse(10, sought.at, None),
    }
}

/// Overload sets with arguments behind `!`.
#[cycle(judging)]
fn with_arguments(
    w: &mut World,
    env: Env,
    set: SetId,
    list: List,
    depth: u32,
) -> Result<SetId, Stop> {
    let less = deeper(depth)?;
    let args = arguments(w, env, list, less)?;
    let explicit = w.add_args(args.as_slice())?;
    let known = w.set(set)?;
    Ok(w.add_set(FunctionSet {
        explicit: Some(explicit),
        ..known
    })?)
}

/// What an instance of a template stands for, or rule 13 where there is none.
#[cycle(judging)]
fn instantiate(
    w: &mut World,
    env: Env,
    decl: DeclId,
    args: &[Arg],
    sought: Sought,
    depth: u32,
) -> Result<Symbol, Stop> {
    let less = deeper(depth)?;
    let Some(bound) = match_args(w, env, decl, args, false, less)? else {
        return w.refuse(13, sought.at, Some(sought.name));
    };
    let unit = instance_of(w, decl, bound.as_slice(), sought.at)?;
    if !constraint_holds(w, unit)? {
        return w.refuse(13, sought.at, Some(sought.name));
    }
    name_instance(w, unit, sought.at)?;
    instance_symbol(w, env, decl, unit, sought)
}

/// The parameters of a template bound to given arguments; nothing where they don't match. Where not all have to be
/// given, the others stay open.
#[cycle(judging)]
pub(crate) fn match_args(
    w: &mut World,
    env: Env,
    decl: DeclId,
    given: &[Arg],
    partial: bool,
    depth: u32,
) -> Result<Option<Vec<Arg>>, Stop> {
    let less = deeper(depth)?;
    let mut bound = Vec::new(w.alloc);
    let Some(parameters) = w.parameters_of(decl)? else {
        return Ok(None);
    };
    let count = parameters.len as usize;
    if given.len() > count || (given.len() < count && !partial) {
        return Ok(None);
    }
    for k in 0..parameters.len {
        let parameter = w.pool.syntax.item(parameters, k);
        let arg = match given.get(k as usize) {
            Some(arg) => {
                let so_far = bound.as_slice();
                match match_one(w, env, decl, parameter, *arg, so_far, less)? {
                    Some(arg) => arg,
                    None => return Ok(None),
                }
            }
            None => Arg::Missing,
        };
        bound.push(arg)?;
    }
    Ok(Some(bound))
}

/// An argument as a parameter takes it; nothing where it doesn't.
#[cycle(judging)]
fn match_one(
    w: &mut World,
    env: Env,
    decl: DeclId,
    parameter: NodeId,
    arg: Arg,
    so_far: &[Arg],
    depth: u32,
) -> Result<Option<Arg>, Stop> {
    let less = deeper(depth)?;
    match (w.pool.syntax.node(parameter).form, arg) {
        (Form::TypeParameter(_), Arg::OfType(_)) => Ok(Some(arg)),
        (Form::AliasParameter(_), Arg::Written(variable, _)) => {
            let place = place_of(w, variable)?;
            Ok(Some(Arg::OfSymbol(Symbol::Variable(variable), place)))
        }
        (Form::AliasParameter(_), _) => Ok(Some(arg)),
        (Form::ValueParameter(of, _), Arg::OfValue(from, value)) => {
            let to = value_type(w, decl, of, so_far, less)?;
            converted(w, from, value, to)
        }
        (Form::ValueParameter(of, _), Arg::Written(variable, at)) => {
            let (from, value) = variable_value(w, env, variable, at)?;
            let to = value_type(w, decl, of, so_far, less)?;
            converted(w, from, value, to)
        }
        _ => Ok(None),
    }
}

/// The type of a value parameter, where the parameters before it are bound.
#[cycle(judging)]
pub(crate) fn value_type(
    w: &mut World,
    decl: DeclId,
    of: NodeId,
    so_far: &[Arg],
    depth: u32,
) -> Result<TypeId, Stop> {
    let less = deeper(depth)?;
    let unit = trial_unit(w, decl, so_far)?;
    let known = w.decl(decl)?;
    let env = decl_env(w, known)?;
    judge_type(w, Env { unit, ..env }, of, less)
}
