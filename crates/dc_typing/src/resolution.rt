// From expressions and types to what they stand for.
use crate::calls::{Called, call_member, call_plain};
use crate::elements::{judge_index, judge_part};
use crate::expression::judge;
use crate::mixins::mixed_expression;
use crate::properties::value_member;
use crate::steps::step_behind;
use crate::templates::apply;
use crate::types::{fixed_of, judge_type, named_type};
use dc_facts::deeper;
use dc_model::{Env, Stop, Symbol, World};
use dc_names::{
    Property, Resolved, Sought, finished, here, named, package_end, qualified, rows_symbol_within,
    sought_of, value,
};
use dc_operators::slice_type;
use dc_syntax::{Form, List, NodeId};
use dc_tree::Where;

/// What stands behind `!`, applied to what the name before it stands for.
#[cycle(judging)]
pub(crate) fn applied(
    w: &mut World,
    env: Env,
    symbol: Symbol,
    sought: Sought,
    args: Option<List>,
    depth: u32,
) -> Result<Symbol, Stop> {
    let less = deeper(depth)?;
    match args {
        None => Ok(symbol),
        Some(args) => apply(w, env, symbol, args, sought, less),
    }
}

/// What an expression stands for; a tree where it is no name.
#[cycle(judging)]
pub fn resolve(w: &mut World, env: Env, n: NodeId, depth: u32) -> Result<Resolved, Stop> {
    let less = deeper(depth)?;
    let node = w.pool.syntax.node(n);
    let at = here(env, node.at);
    let symbol = match node.form {
        Form::Name(_) | Form::Instance(_, _) => resolve_name(w, env, n, less)?,
        Form::Postfix(first, suffixes) => return resolve_chain(w, env, first, suffixes, less),
        Form::Named(_) => named_type(w, env, n, less)?,
        Form::Basic(_) | Form::TypeOf(_) | Form::ImmutableChar | Form::Brackets(_, _) => {
            Symbol::Type(judge_type(w, env, n, less)?)
        }
        Form::Mixin(argument) => {
            let (inner, spot) = mixed_expression(w, env, n, argument, less)?;
            let mixed = Env { spot, ..env };
            resolve(w, mixed, inner, less)?.symbol
        }
        _ => Symbol::Tree(judge(w, env, n, None, less)?),
    };
    Ok(Resolved {
        symbol,
        name_at: at,
    })
}

#[cycle(judging)]
fn resolve_name(w: &mut World, env: Env, n: NodeId, depth: u32) -> Result<Symbol, Stop> {
    let less = deeper(depth)?;
    let Some((sought, args)) = sought_of(w, env, n) else {
        return Err(Stop::NoMemory);
    };
    let symbol = named(w, env, sought)?;
    applied(w, env, symbol, sought, args, less)
}

/// The suffix of that number, where there is one.
fn suffix(w: &World, suffixes: List, k: u32) -> Option<Form> {
    if k < suffixes.len {
        Some(w.pool.syntax.node(w.pool.syntax.item(suffixes, k)).form)
    } else {
        None
    }
}

/// The arguments where the suffix of that number is a call.
fn call_behind(w: &World, suffixes: List, k: u32) -> Option<List> {
    match suffix(w, suffixes, k) {
        Some(Form::Call(args)) => Some(args),
        _ => None,
    }
}

/// An operand and what follows it, from left to right.
#[cycle(judging)]
fn resolve_chain(
    w: &mut World,
    env: Env,
    first: NodeId,
    suffixes: List,
    depth: u32,
) -> Result<Resolved, Stop> {
    let less = deeper(depth)?;
    let at = here(env, w.pool.syntax.node(first).at);
    let mut done = 0;
    let mut so_far = match call_behind(w, suffixes, 0) {
        Some(args) => {
            done = 1;
            let called = Called { args, at };
            let symbol = call_plain(w, env, first, called, less)?;
            Resolved {
                symbol,
                name_at: at,
            }
        }
        None => resolve(w, env, first, less)?,
    };
    for k in 0..suffixes.len {
        if k < done {
            continue;
        }
        let Some(form) = suffix(w, suffixes, k) else {
            break;
        };
        if let (Form::Member(name), Some(args)) = (form, call_behind(w, suffixes, k + 1)) {
            done = k.saturating_add(2);
            let called = Called { args, at };
            so_far = call_member(w, env, so_far, name, called, less)?;
        } else {
            so_far = step(w, env, so_far, form, at, less)?;
        }
    }
    Ok(so_far)
}

/// One suffix that is no call of a member.
#[cycle(judging)]
fn step(
    w: &mut World,
    env: Env,
    base: Resolved,
    form: Form,
    at: Where,
    depth: u32,
) -> Result<Resolved, Stop> {
    let less = deeper(depth)?;
    let symbol = match form {
        Form::Member(name) => return member(w, env, base, name, at, less),
        Form::Call(_) => {
            value(w, env, base, at)?;
            return w.refuse(10, base.name_at, None);
        }
        Form::All => match base.symbol {
            Symbol::Type(of) => Symbol::Type(slice_type(w, of, at)?),
            _ => Symbol::Tree(judge_part(w, env, base, None, at, less)?),
        },
        Form::Slice(from, to) => {
            Symbol::Tree(judge_part(w, env, base, Some((from, to)), at, less)?)
        }
        Form::Index(index) => match base.symbol {
            Symbol::Type(of) => Symbol::Type(fixed_of(w, env, of, index, at, less)?),
            _ => Symbol::Tree(judge_index(w, env, base, index, at, less)?),
        },
        _ => Symbol::Tree(step_behind(w, env, base, form, at)?),
    };
    Ok(Resolved {
        symbol,
        name_at: at,
    })
}

/// `base.name`, which isn't called.
#[cycle(judging)]
fn member(
    w: &mut World,
    env: Env,
    base: Resolved,
    name: NodeId,
    at: Where,
    depth: u32,
) -> Result<Resolved, Stop> {
    let less = deeper(depth)?;
    let Some((sought, args)) = sought_of(w, env, name) else {
        return Err(Stop::NoMemory);
    };
    let symbol = match base.symbol {
        Symbol::Package(_) | Symbol::Module(_) | Symbol::Instance(_) | Symbol::Type(_) => {
            let before = finished(w, base.symbol);
            let symbol = qualified(w, env, before, sought)?;
            applied(w, env, symbol, sought, args, less)?
        }
        _ => {
            let tree = value(w, env, base, at)?;
            match rows_symbol_within(w, env, tree, sought)? {
                Some(Symbol::Field(field)) => { Symbol::Tree(dc_names::field(w, tree, field, at)?) }
                Some(found) => {
                    let found = applied(w, env, found, sought, args, less)?;
                    match found {
                        Symbol::Functions(set) => Symbol::Method(tree, set),
                        _ => found,
                    }
                }
                None => {
                    let word = Property::of(w.pool.names.bytes(sought.name));
                    value_member(w, tree, word, sought, at)?
                }
            }
        }
    };
    Ok(Resolved {
        symbol,
        name_at: sought.at,
    })
}

/// The same of an expression that has to be a value.
#[cycle(judging)]
pub(crate) fn resolved_value(
    w: &mut World,
    env: Env,
    n: NodeId,
    depth: u32,
) -> Result<dc_tree::TreeId, Stop> {
    let less = deeper(depth)?;
    let at = here(env, w.pool.syntax.node(n).at);
    let found = resolve(w, env, n, less)?;
    let whole = package_end(w, env, found.symbol)?;
    value(
        w,
        env,
        Resolved {
            symbol: whole,
            ..found
        },
        at,
    )
}
