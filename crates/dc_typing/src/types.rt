// Types as they are written (D specification, "Types").
use crate::evals::evaluate;
use crate::resolution::{applied, resolve};
use dc_facts::{TYPE_CELLS, deeper};
use dc_model::{Env, Stop, Symbol, World};
use dc_names::{Want, finished, here, named, package_end, qualified, sought_of, value};
use dc_operators::{as_type, basic, check_element, slice_type};
use dc_syntax::{Form, List, NodeId};
use dc_tree::{Type, TypeId, Where};

/// `T[n]`
#[cycle(judging)]
pub(crate) fn fixed_of(
    w: &mut World,
    env: Env,
    of: TypeId,
    length: NodeId,
    at: Where,
    depth: u32,
) -> Result<TypeId, Stop> {
    let less = deeper(depth)?;
    check_element(w, of, at)?;
    let (length_type, value) = evaluate(w, env, length, Want::Any, less)?;
    if w.pool.types.kind(length_type).is_none() {
        let length_at = here(env, w.pool.syntax.node(length).at);
        return w.refuse(10, length_at, None);
    }
    let n = w.pool.values.as_number(value);
    if n < 0 {
        return w.refuse(10, at, None);
    }
    match u32::try_from(n) {
        Ok(len) if u64::from(len) <= TYPE_CELLS => {
            Ok(w.pool.types.number(Type::Fixed(of, len))?)
        }
        _ => w.refuse(18, at, None),
    }
}

/// The type for which a type or an expression stands, or rule 10 at its last name.
#[cycle(judging)]
pub fn judge_type(w: &mut World, env: Env, n: NodeId, depth: u32) -> Result<TypeId, Stop> {
    let less = deeper(depth)?;
    let node = w.pool.syntax.node(n);
    let at = here(env, node.at);
    match node.form {
        Form::Basic(of) => Ok(basic(of)),
        Form::ImmutableChar => w.refuse(10, at, None),
        Form::Brackets(base, brackets) => bracketed(w, env, base, brackets, at, less),
        Form::TypeOf(e) => type_of_expression(w, env, e, less),
        Form::Named(parts) => {
            let symbol = named_type(w, env, n, less)?;
            let last = w.pool.syntax.item(parts, parts.len.saturating_sub(1));
            let last_at = here(env, w.pool.syntax.node(last).at);
            as_type(w, symbol, last_at)
        }
        _ => {
            let found = resolve(w, env, n, less)?;
            let symbol = package_end(w, env, found.symbol)?;
            as_type(w, symbol, found.name_at)
        }
    }
}

/// A base and its brackets. `immutable(char)[]` is `string`.
#[cycle(judging)]
fn bracketed(
    w: &mut World,
    env: Env,
    base: NodeId,
    brackets: List,
    at: Where,
    depth: u32,
) -> Result<TypeId, Stop> {
    let less = deeper(depth)?;
    let mut first = 0;
    let mut of = TypeId::STRING;
    let base_form = w.pool.syntax.node(base).form;
    let opens = w.pool.syntax.node(w.pool.syntax.item(brackets, 0)).form;
    match (base_form, opens) {
        (Form::ImmutableChar, Form::All) => first = 1,
        _ => of = judge_type(w, env, base, less)?,
    }
    for k in first..brackets.len {
        let bracket = w.pool.syntax.node(w.pool.syntax.item(brackets, k)).form;
        of = match bracket {
            Form::Index(length) => fixed_of(w, env, of, length, at, less)?,
            _ => slice_type(w, of, at)?,
        };
    }
    Ok(of)
}

/// `typeof(e)`
#[cycle(judging)]
fn type_of_expression(w: &mut World, env: Env, e: NodeId, depth: u32) -> Result<TypeId, Stop> {
    let less = deeper(depth)?;
    let inner = Env {
        in_typeof: true,
        ..env
    };
    let at = here(env, w.pool.syntax.node(e).at);
    let found = resolve(w, inner, e, less)?;
    let symbol = package_end(w, inner, found.symbol)?;
    let whole = dc_names::Resolved { symbol, ..found };
    match symbol {
        Symbol::Type(_) => w.refuse(10, at, None),
        Symbol::Method(_, _) => w.refuse(10, found.name_at, None),
        _ => {
            let tree = value(w, inner, whole, at)?;
            Ok(w.pool.trees.get(tree).of)
        }
    }
}

/// What a dotted name stands for where a type is written.
#[cycle(judging)]
pub(crate) fn named_type(w: &mut World, env: Env, n: NodeId, depth: u32) -> Result<Symbol, Stop> {
    let less = deeper(depth)?;
    let Form::Named(parts) = w.pool.syntax.node(n).form else {
        return Err(Stop::NoMemory);
    };
    let first_part = w.pool.syntax.item(parts, 0);
    let Some((first, args)) = sought_of(w, env, first_part) else {
        return Err(Stop::NoMemory);
    };
    let found = named(w, env, first)?;
    let mut so_far = applied(w, env, found, first, args, less)?;
    for k in 1..parts.len {
        let part = w.pool.syntax.item(parts, k);
        let Some((next, args)) = sought_of(w, env, part) else {
            return Err(Stop::NoMemory);
        };
        match so_far {
            Symbol::Package(_) | Symbol::Module(_) | Symbol::Instance(_) | Symbol::Type(_) => {}
            _ => return w.refuse(10, next.at, None),
        }
        let before = finished(w, so_far);
        let found = qualified(w, env, before, next)?;
        so_far = applied(w, env, found, next, args, less)?;
    }
    package_end(w, env, so_far)
}
