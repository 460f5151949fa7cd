// The parameters of functions (D specification, "Functions", "Function Parameters").
use crate::types::judge_type;
use dc_facts::{decl_env, deeper};
use dc_model::{Arg, Decl, Env, Stop, World};
use dc_names::{check_storage, here, own_env, trial_unit};
use dc_syntax::{Form, ParameterNode};
use dc_tree::{DeclId, Taken, Type, TypeId, UnitId, Where};

/// A parameter of a function.
#[cycle(judging)]
fn parameter(
    w: &mut World,
    env: Env,
    known: ParameterNode,
    at: Where,
    depth: u32,
) -> Result<Taken, Stop> {
    let less = deeper(depth)?;
    let of = judge_type(w, env, known.of, less)?;
    let type_at = here(env, w.pool.syntax.node(known.of).at);
    if of == TypeId::VOID {
        return w.refuse(10, type_at, None);
    }
    check_storage(w, known.storage, of, type_at)?;
    Ok(Taken {
        name: known.name,
        of,
        by_ref: known.is_ref,
        is_const: known.storage.is_some(),
        at,
    })
}

/// The parameters of a function, judged in an environment.
#[cycle(judging)]
pub fn parameters(w: &mut World, env: Env, decl: Decl, depth: u32) -> Result<Vec<Taken>, Stop> {
    let less = deeper(depth)?;
    let mut all = Vec::new(w.alloc);
    let Form::Function(n) = w.pool.syntax.node(decl.node).form else {
        return Ok(all);
    };
    let Some(function) = w.pool.syntax.function(n) else {
        return Ok(all);
    };
    for k in 0..function.parameters.len {
        let node = w
            .pool
            .syntax
            .node(w.pool.syntax.item(function.parameters, k));
        let Form::Parameter(m) = node.form else {
            continue;
        };
        let Some(known) = w.pool.syntax.parameters.get(m as usize).copied() else {
            continue;
        };
        let at = here(env, node.at);
        let taken = parameter(w, env, known, at, less)?;
        all.push(taken)?;
    }
    Ok(all)
}

/// The parameters of an instance of a function template, as those of a candidate.
#[cycle(judging)]
pub(crate) fn parameters_in(
    w: &mut World,
    unit: UnitId,
    guards: u8,
    depth: u32,
) -> Result<Vec<Taken>, Stop> {
    let less = deeper(depth)?;
    let (decl, env) = own_env(w, unit)?;
    parameters(w, Env { guards, ..env }, decl, less)
}

/// The same, where the instance is no part of the program.
#[cycle(judging)]
pub(crate) fn trial_parameters(
    w: &mut World,
    unit: UnitId,
    depth: u32,
) -> Result<Vec<Taken>, Stop> {
    let less = deeper(depth)?;
    let (decl, env) = own_env(w, unit)?;
    parameters(
        w,
        Env {
            in_trial: true,
            ..env
        },
        decl,
        less,
    )
}

/// The arguments of an instance with its type parameters as types of their own.
fn opaque_args(w: &mut World, template: DeclId, unit: UnitId) -> Result<Vec<Arg>, Stop> {
    let mut all = Vec::new(w.alloc);
    let Some(parameters) = w.parameters_of(template)? else {
        return Ok(all);
    };
    let given = match w.unit(unit)?.args {
        Some(args) => Vec::from_slice(w.alloc, w.args_of(args))?,
        None => Vec::new(w.alloc),
    };
    for k in 0..parameters.len {
        let node = w.pool.syntax.item(parameters, k);
        let arg = match w.pool.syntax.node(node).form {
            Form::TypeParameter(name) => {
                Arg::OfType(w.pool.types.number(Type::Opaque(template, name))?)
            }
            _ => match given.get(k as usize) {
                Some(arg) => *arg,
                None => Arg::Missing,
            },
        };
        all.push(arg)?;
    }
    Ok(all)
}

/// The parameter types of a function template whose type parameters are types of their own.
#[cycle(judging)]
pub(crate) fn opaque_parameters(
    w: &mut World,
    template: DeclId,
    unit: UnitId,
    depth: u32,
) -> Result<Vec<Taken>, Stop> {
    let less = deeper(depth)?;
    let args = opaque_args(w, template, unit)?;
    let trial = trial_unit(w, template, args.as_slice())?;
    let decl = w.decl(template)?;
    let env = decl_env(w, decl)?;
    let inner = Env {
        unit: trial,
        in_trial: true,
        ..env
    };
    parameters(w, inner, decl, less)
}
