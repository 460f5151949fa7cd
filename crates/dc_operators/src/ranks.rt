// How well arguments fit what a candidate takes.
use dc_form::{NONE, SAME, Source, level};
use dc_model::{Arg, Stop, World};
use dc_tree::{DeclId, Taken, TreeId, Type, TypeId};

/// How well an argument goes to a parameter.
fn argument_level(w: &World, parameter: Taken, source: Source) -> u8 {
    let found = level(w, source, parameter.of);
    if !parameter.by_ref {
        return found;
    }
    let is_place = match source {
        Source::Tree(tree) => w.pool.trees.get(tree).is_place,
        Source::Bare(_, is_place) => is_place,
    };
    if is_place && found == SAME {
        SAME
    } else {
        NONE
    }
}

/// The worst level of the arguments, none where their number differs.
pub fn call_level(w: &World, parameters: &[Taken], sources: &[Source]) -> u8 {
    if parameters.len() != sources.len() {
        return NONE;
    }
    let mut worst = SAME;
    for (parameter, source) in parameters.iter().zip(sources.iter()) {
        worst = worst.min(argument_level(w, *parameter, *source));
    }
    worst
}

fn is_textable(w: &World, of: TypeId) -> bool {
    match w.pool.types.get(of) {
        Type::Int(_) | Type::Str => true,
        _ => false,
    }
}

fn is_printable(w: &World, of: TypeId) -> bool {
    match w.pool.types.get(of) {
        Type::Int(_) | Type::Str => true,
        Type::Slice(item) | Type::Fixed(item, _) => match w.pool.types.get(item) {
            Type::Int(_) => true,
            _ => false,
        },
        _ => false,
    }
}

/// How well the arguments go to a built-in function.
pub fn builtin_level(
    w: &World,
    decl: DeclId,
    explicit: Option<&[Arg]>,
    args: &[TreeId],
) -> Result<u8, Stop> {
    let name = match w.decl(decl)?.name {
        Some(name) => w.pool.names.bytes(name),
        None => b"",
    };
    let types = &w.pool.trees;
    let holds = match (name, explicit) {
        (b"to", Some([Arg::OfType(of)])) => {
            *of == TypeId::STRING
                && args.len() == 1
                && args.iter().all(|arg| is_textable(w, types.get(*arg).of))
        }
        (b"to", _) | (_, Some(_)) => false,
        (b"text", None) => args.iter().all(|arg| is_textable(w, types.get(*arg).of)),
        (_, None) => args.iter().all(|arg| is_printable(w, types.get(*arg).of)),
    };
    Ok(if holds { SAME } else { NONE })
}

/// The level of a call of the parameters from one on.
pub fn level_behind(w: &World, all: &[Taken], from: usize, sources: &[Source]) -> u8 {
    match all.get(from..) {
        Some(own) => call_level(w, own, sources),
        None => NONE,
    }
}
