// Choosing among overloads (D specification, "Functions", "Function Overloading").
use crate::deduce::deduce;
use crate::taking::{opaque_parameters, parameters_in};
use dc_facts::{deeper, signature_of};
use dc_form::{NONE, Source, level};
use dc_model::{Arg, DeclKind, Env, FunctionSet, Stop, World};
use dc_names::{Sought, constraint_holds, guarded, instance_of};
use dc_operators::{builtin_level, call_level, level_behind};
use dc_tree::{DeclId, Taken, TreeId, UnitId};

/// The most parameter types of candidates that are open inside one another.
const GUARDS: u8 = 64;

/// What a call is resolved to.
#[derive(Clone, Copy)]
pub(crate) enum Chosen {
    Builtin(DeclId),
    Plain(DeclId),
    Instance(UnitId),
}

/// A function that a call may mean.
#[derive(Clone, Copy)]
struct Candidate {
    chosen: Chosen,
    /// The function or the function template.
    decl: DeclId,
    /// The number of its overload set.
    set: u32,
    level: u8,
    /// Where its parameters stand among those of all candidates.
    from: usize,
    len: usize,
}

/// The parameters of a candidate, judged for the call; nothing where it is taken out.
#[cycle(judging)]
fn judged_candidate(
    w: &mut World,
    env: Env,
    decl: DeclId,
    explicit: Option<&[Arg]>,
    sources: &[Source],
    sought: Sought,
    all: &mut Vec<Taken>,
    depth: u32,
) -> Result<Option<Chosen>, Stop> {
    let less = deeper(depth)?;
    if !w.decl(decl)?.is_template {
        if explicit.is_some() {
            return Ok(None);
        }
        let signature = signature_of(w, decl)?;
        all.extend_from_slice(w.pool.bodies.taken(signature))?;
        return Ok(Some(Chosen::Plain(decl)));
    }
    let deduced = match explicit {
        Some(given) => deduce(w, env, decl, given, sources, less)?,
        None => deduce(w, env, decl, &[], sources, less)?,
    };
    let Some(bound) = deduced else {
        return Ok(None);
    };
    let unit = instance_of(w, decl, bound.as_slice(), sought.at)?;
    if env.guards >= GUARDS {
        return w.refuse(18, sought.at, None);
    }
    let found = parameters_in(w, unit, env.guards + 1, less);
    let Some(taken) = guarded(found)? else {
        return Ok(None);
    };
    if !constraint_holds(w, unit)? {
        return Ok(None);
    }
    all.extend_from_slice(taken.as_slice())?;
    Ok(Some(Chosen::Instance(unit)))
}

/// A candidate with its level; nothing where it is taken out or doesn't fit.
#[cycle(judging)]
fn levelled(
    w: &mut World,
    env: Env,
    decl: DeclId,
    explicit: Option<&[Arg]>,
    args: &[TreeId],
    sources: &[Source],
    sought: Sought,
    all: &mut Vec<Taken>,
    depth: u32,
) -> Result<Option<Candidate>, Stop> {
    let less = deeper(depth)?;
    let from = all.len();
    let (chosen, found) = if w.decl(decl)?.kind == DeclKind::Builtin {
        (
            Some(Chosen::Builtin(decl)),
            builtin_level(w, decl, explicit, args)?,
        )
    } else {
        let chosen = judged_candidate(w, env, decl, explicit, sources, sought, all, less)?;
        (chosen, level_behind(w, all.as_slice(), from, sources))
    };
    let len = all.len().saturating_sub(from);
    Ok(match chosen {
        Some(chosen) if found > NONE => Some(Candidate {
            chosen,
            decl,
            set: 0,
            level: found,
            from,
            len,
        }),
        _ => None,
    })
}

/// The best function of overload sets for the arguments: rule 11 where none matches, rule 12 where none is best.
#[cycle(judging)]
pub(crate) fn choose(
    w: &mut World,
    env: Env,
    sets: FunctionSet,
    args: &[TreeId],
    sought: Sought,
    depth: u32,
) -> Result<Chosen, Stop> {
    let less = deeper(depth)?;
    let mut sources = Vec::new(w.alloc);
    for arg in args {
        sources.push(Source::Tree(*arg))?;
    }
    let explicit = match sets.explicit {
        Some(given) => Some(Vec::from_slice(w.alloc, w.args_of(given))?),
        None => None,
    };
    let explicit = match &explicit {
        Some(given) => Some(given.as_slice()),
        None => None,
    };
    let members = Vec::from_slice(w.alloc, w.members(sets.members))?;
    let mut all = Vec::new(w.alloc);
    let mut candidates: Vec<Candidate> = Vec::new(w.alloc);
    let mut set = 0;
    for (k, n) in members.as_slice().iter().enumerate() {
        if k % 2 == 0 {
            set = *n;
            continue;
        }
        let decl = DeclId(*n);
        let sources = sources.as_slice();
        if let Some(found) = levelled(
            w, env, decl, explicit, args, sources, sought, &mut all, less,
        )? {
            candidates.push(Candidate { set, ..found })?;
        }
    }
    best(w, candidates.as_slice(), all.as_slice(), sought, less)
}

fn is_plain(candidate: Candidate) -> bool {
    match candidate.chosen {
        Chosen::Plain(_) | Chosen::Builtin(_) => true,
        Chosen::Instance(_) => false,
    }
}

/// The candidate that beats all others and outside whose set there is none.
#[cycle(judging)]
fn best(
    w: &mut World,
    candidates: &[Candidate],
    all: &[Taken],
    sought: Sought,
    depth: u32,
) -> Result<Chosen, Stop> {
    let less = deeper(depth)?;
    if let [only] = candidates {
        return Ok(only.chosen);
    }
    if candidates.is_empty() {
        return w.refuse(11, sought.at, Some(sought.name));
    }
    for k in 0..candidates.len() {
        let Some(x) = candidates.get(k).copied() else {
            break;
        };
        if beats_all(w, k, x, candidates, all, less)? {
            return Ok(x.chosen);
        }
    }
    w.refuse(12, sought.at, Some(sought.name))
}

/// Whether a candidate beats all others, which are of its set.
#[cycle(judging)]
fn beats_all(
    w: &mut World,
    k: usize,
    x: Candidate,
    candidates: &[Candidate],
    all: &[Taken],
    depth: u32,
) -> Result<bool, Stop> {
    let less = deeper(depth)?;
    for m in 0..candidates.len() {
        let Some(y) = candidates.get(m).copied() else {
            break;
        };
        if m != k && (x.set != y.set || !beats(w, x, y, all, less)?) {
            return Ok(false);
        }
    }
    Ok(true)
}

/// Whether one candidate beats another: by its level, as a plain function, or by being more specialised.
#[cycle(judging)]
fn beats(
    w: &mut World,
    x: Candidate,
    y: Candidate,
    all: &[Taken],
    depth: u32,
) -> Result<bool, Stop> {
    let less = deeper(depth)?;
    if x.level != y.level {
        return Ok(x.level > y.level);
    }
    if is_plain(x) != is_plain(y) {
        return Ok(is_plain(x));
    }
    match (x.chosen, y.chosen) {
        (Chosen::Builtin(_), _) | (_, Chosen::Builtin(_)) => Ok(false),
        _ => Ok(is_above(w, x, y, all, less)? && !is_above(w, y, x, all, less)?),
    }
}

/// The parameters of a candidate.
fn own_parameters(w: &World, candidate: Candidate, all: &[Taken]) -> Result<Vec<Taken>, Stop> {
    let end = candidate.from.saturating_add(candidate.len);
    match all.get(candidate.from..end) {
        Some(own) => Ok(Vec::from_slice(w.alloc, own)?),
        None => Ok(Vec::new(w.alloc)),
    }
}

/// Whether a candidate is at least as specialised as another: whether that can be called with its parameter types.
#[cycle(judging)]
fn is_above(
    w: &mut World,
    f: Candidate,
    g: Candidate,
    all: &[Taken],
    depth: u32,
) -> Result<bool, Stop> {
    let less = deeper(depth)?;
    let mut sources = Vec::new(w.alloc);
    match f.chosen {
        Chosen::Instance(unit) => {
            let Some(opaque) = guarded(opaque_parameters(w, f.decl, unit, less))? else {
                return Ok(false);
            };
            for parameter in opaque.as_slice() {
                sources.push(Source::Bare(parameter.of, parameter.by_ref))?;
            }
        }
        _ => {
            let own = own_parameters(w, f, all)?;
            for parameter in own.as_slice() {
                sources.push(Source::Bare(parameter.of, parameter.by_ref))?;
            }
        }
    }
    if is_plain(g) {
        let own = own_parameters(w, g, all)?;
        return Ok(call_level(w, own.as_slice(), sources.as_slice()) > NONE);
    }
    is_callable(w, g.decl, sources.as_slice(), less)
}

/// Whether a function template can be called with arguments of these types.
#[cycle(judging)]
fn is_callable(w: &mut World, decl: DeclId, sources: &[Source], depth: u32) -> Result<bool, Stop> {
    let less = deeper(depth)?;
    let known = w.decl(decl)?;
    let env = dc_facts::decl_env(w, known)?;
    let trial = Env {
        in_trial: true,
        ..env
    };
    let Some(bound) = deduce(w, trial, decl, &[], sources, less)? else {
        return Ok(false);
    };
    let unit = instance_of(w, decl, bound.as_slice(), known.at)?;
    let found = crate::taking::trial_parameters(w, unit, less);
    match guarded(found)? {
        Some(taken) => Ok(call_level(w, taken.as_slice(), sources) > NONE),
        None => Ok(false),
    }
}
