// Deducing the arguments of function templates (D specification, "Templates", "Function Templates").
use crate::templates::{match_args, value_type};
use dc_facts::deeper;
use dc_form::{NONE, Source, level, number, type_of};
use dc_model::{Arg, Env, Stop, World};
use dc_operators::{
    bind_type, has_open, is_unfit, mentions, parameter_in, parameter_of_length, parameter_type, set,
};
use dc_syntax::{Form, List, NodeId};
use dc_tree::{DeclId, Type, TypeId, Where};

/// Binds the parameter that a length names.
#[cycle(judging)]
fn bind_length(
    w: &mut World,
    template: Option<DeclId>,
    parameters: List,
    k: u32,
    len: u32,
    bound: &mut Vec<Arg>,
    depth: u32,
) -> Result<bool, Stop> {
    let less = deeper(depth)?;
    let node = w.pool.syntax.item(parameters, k);
    let n = i128::from(len);
    match (w.pool.syntax.node(node).form, template) {
        (Form::ValueParameter(of, _), Some(decl)) => {
            let to = value_type(w, decl, of, bound.as_slice(), less)?;
            let at = Where {
                spot: dc_tree::SpotId(0),
                at: 0,
            };
            let tree = number(w, TypeId::ULONG, n, at)?;
            if w.pool.types.kind(to).is_none() || level(w, Source::Tree(tree), to) == NONE {
                return Ok(false);
            }
            match bound.get(k as usize).copied() {
                Some(Arg::OfValue(_, value)) => Ok(w.pool.values.as_number(value) == n),
                Some(Arg::Missing) => {
                    let value = w.pool.values.number(n)?;
                    set(bound, k, Arg::OfValue(to, value));
                    Ok(true)
                }
                _ => Ok(false),
            }
        }
        (Form::AliasParameter(_), _) => match bound.get(k as usize).copied() {
            Some(Arg::OfValue(_, value)) => Ok(w.pool.values.as_number(value) == n),
            _ => Ok(false),
        },
        _ => Ok(false),
    }
}

/// Compares a type as it is written with a type, and binds the parameters that it names.
#[cycle(judging)]
pub(crate) fn deduce_one(
    w: &mut World,
    template: Option<DeclId>,
    parameters: List,
    pattern: NodeId,
    of: TypeId,
    bound: &mut Vec<Arg>,
    depth: u32,
) -> Result<bool, Stop> {
    let less = deeper(depth)?;
    if !mentions(w, parameters, pattern) {
        return Ok(true);
    }
    let (base, brackets) = match w.pool.syntax.node(pattern).form {
        Form::Brackets(base, brackets) => (base, brackets),
        _ => (pattern, List { from: 0, len: 0 }),
    };
    let mut at = of;
    for back in 0..brackets.len {
        let k = brackets.len - 1 - back;
        let bracket = w.pool.syntax.node(w.pool.syntax.item(brackets, k)).form;
        at = match (bracket, w.pool.types.get(at)) {
            (Form::All, Type::Slice(item)) => item,
            (Form::Index(length), Type::Fixed(item, len)) => {
                if let Some(m) = parameter_of_length(w, parameters, length) {
                    if !bind_length(w, template, parameters, m, len, bound, less)? {
                        return Ok(false);
                    }
                }
                item
            }
            _ => return Ok(false),
        };
    }
    match parameter_in(w, parameters, base) {
        Some(k) => match w.pool.syntax.node(w.pool.syntax.item(parameters, k)).form {
            Form::TypeParameter(_) | Form::Name(_) => Ok(bind_type(bound, k, at)),
            _ => Ok(true),
        },
        None => Ok(true),
    }
}

/// The arguments of a function template for a call: the explicit ones, and those that the types of the call's
/// arguments give; nothing where they don't go together.
#[cycle(judging)]
pub(crate) fn deduce(
    w: &mut World,
    env: Env,
    decl: DeclId,
    explicit: &[Arg],
    sources: &[Source],
    depth: u32,
) -> Result<Option<Vec<Arg>>, Stop> {
    let less = deeper(depth)?;
    let Some(mut bound) = match_args(w, env, decl, explicit, true, less)? else {
        return Ok(None);
    };
    let Form::Function(n) = w.pool.syntax.node(w.decl(decl)?.node).form else {
        return Ok(None);
    };
    let Some(function) = w.pool.syntax.function(n) else {
        return Ok(None);
    };
    let Some(parameters) = function.template_parameters else {
        return Ok(None);
    };
    if function.parameters.len as usize != sources.len() {
        return Ok(None);
    }
    let given = Vec::from_slice(w.alloc, bound.as_slice())?;
    for (k, source) in sources.iter().enumerate() {
        let k = u32::try_from(k).unwrap_or(u32::MAX);
        let Some(pattern) = parameter_type(w, function.parameters, k) else {
            continue;
        };
        if !has_open(w, parameters, given.as_slice(), pattern) {
            // the levels decide
            continue;
        }
        let of = type_of(w, *source);
        if !deduce_one(w, Some(decl), parameters, pattern, of, &mut bound, less)? {
            return Ok(None);
        }
    }
    for arg in bound.as_slice() {
        match arg {
            Arg::Missing => return Ok(None),
            _ => {
                if is_unfit(w, *arg) {
                    return Ok(None);
                }
            }
        }
    }
    Ok(Some(bound))
}
