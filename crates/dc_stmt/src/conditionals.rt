// What is done while compiling in bodies: conditionals and mixins.
use crate::statements::{Context, Judged, NOTHING, deeper, here, made, statement};
use dc_decl::{DEEP, holds_condition, rounds_of};
use dc_model::{Answer, Ask, Env, Flow, FlowKind, Question, Stop, Symbol, Work, World};
use dc_syntax::{Form, List, NameId, NodeId};
use dc_tree::{PlaceStep, StmtForm, Where};
use dc_typing::mixin_text;

/// The answer of the question that settles what stands at a node.
fn settle(w: &mut World, env: Env, n: NodeId, work: Work) -> Result<Answer, Stop> {
    let at = here(env, w.pool.syntax.node(n).at);
    let place = w.pool.places.place(at)?;
    w.ask(
        Question {
            ask: Ask::Settle,
            at: place,
        },
        work,
    )
}

/// What a conditional of a body comes to. There are so many items left.
pub fn settle_local(w: &mut World, env: Env, n: NodeId, left: u64) -> Result<Answer, Stop> {
    let node = w.pool.syntax.node(n);
    let at = here(env, node.at);
    match node.form {
        Form::StaticIf(c, _, _) => Ok(Answer::Branch(holds_condition(w, env, c)?)),
        Form::StaticAssert(c, _) => {
            if holds_condition(w, env, c)? {
                Ok(Answer::Branch(true))
            } else {
                w.refuse(14, at, None)
            }
        }
        Form::StaticForeach(m) => {
            let Some(rounds) = w.pool.syntax.rounds.get(m as usize).copied() else {
                return Err(Stop::NoMemory);
            };
            let symbols = rounds_of(w, env, rounds, at, left)?;
            let from = u32::try_from(w.rounds.len()).unwrap_or(u32::MAX);
            let len = u32::try_from(symbols.len()).unwrap_or(u32::MAX);
            w.rounds.extend_from_slice(symbols.as_slice())?;
            Ok(Answer::Rounds(from, len))
        }
        _ => Err(Stop::NoMemory),
    }
}

/// Statements that stand in the place of another.
#[cycle(stating)]
fn contents(
    w: &mut World,
    env: Env,
    list: List,
    at: Where,
    context: &mut Context,
    depth: u32,
) -> Result<Judged, Stop> {
    let less = deeper(depth)?;
    let mut all = Vec::new(w.alloc);
    let mut completes = true;
    for k in 0..list.len {
        let n = w.pool.syntax.item(list, k);
        let judged = statement(w, env, n, context, less)?;
        if let Some(stmt) = judged.stmt {
            all.push(stmt.0)?;
        }
        completes = completes && judged.completes;
    }
    let list = w.pool.stmts.list(all.as_slice())?;
    made(w, at, StmtForm::Sequence(list), completes)
}

/// `static if (c) { then } else { other }`
#[cycle(stating)]
pub(crate) fn static_if(
    w: &mut World,
    env: Env,
    n: NodeId,
    branches: (List, List),
    context: &mut Context,
    depth: u32,
) -> Result<Judged, Stop> {
    let less = deeper(depth)?;
    let at = here(env, w.pool.syntax.node(n).at);
    let taken = match settle(w, env, n, Work::Local(env, n))? {
        Answer::Branch(true) => branches.0,
        _ => branches.1,
    };
    contents(w, env, taken, at, context, less)
}

/// `version (name) { then } else { other }`
#[cycle(stating)]
pub(crate) fn version(
    w: &mut World,
    env: Env,
    name: NameId,
    branches: (List, List),
    at: Where,
    context: &mut Context,
    depth: u32,
) -> Result<Judged, Stop> {
    let less = deeper(depth)?;
    let taken = if w.versions.contains(&name) {
        branches.0
    } else {
        branches.1
    };
    contents(w, env, taken, at, context, less)
}

/// `static assert (c, message);`
pub(crate) fn static_assert(w: &mut World, env: Env, n: NodeId) -> Result<Judged, Stop> {
    settle(w, env, n, Work::Local(env, n))?;
    Ok(NOTHING)
}

/// `static foreach (name; over) { body }`
#[cycle(stating)]
pub(crate) fn static_foreach(
    w: &mut World,
    env: Env,
    n: NodeId,
    m: u32,
    context: &mut Context,
    depth: u32,
) -> Result<Judged, Stop> {
    let less = deeper(depth)?;
    let at = here(env, w.pool.syntax.node(n).at);
    let Some(node) = w.pool.syntax.rounds.get(m as usize).copied() else {
        return Err(Stop::NoMemory);
    };
    let Answer::Rounds(from, len) = settle(w, env, n, Work::Local(env, n))? else {
        return Err(Stop::NoMemory);
    };
    let flow = w.add_flow(Flow {
        kind: FlowKind::Rounds,
        outer: env.flow,
        broke: false,
    })?;
    let mut all = Vec::new(w.alloc);
    let mut completes = true;
    for k in 0..len {
        let Some(symbol) = w.rounds.get(from.saturating_add(k) as usize).copied() else {
            break;
        };
        let round = Env {
            flow: Some(flow),
            ..env
        };
        let inner = round_env(w, round, node.name, node.name_at, symbol, k)?;
        let judged = contents(w, inner, node.body, at, context, less)?;
        if let Some(stmt) = judged.stmt {
            all.push(stmt.0)?;
        }
        completes = completes && judged.completes;
    }
    let list = w.pool.stmts.list(all.as_slice())?;
    made(w, at, StmtForm::Sequence(list), completes)
}

/// Where a round's statements are judged: its name is declared there, and what is declared goes further out.
fn round_env(
    w: &mut World,
    env: Env,
    name: NameId,
    name_at: u32,
    symbol: Symbol,
    round: u32,
) -> Result<Env, Stop> {
    let at = here(env, name_at);
    if w.locals.is_taken(env.block, name, at) {
        return w.refuse(7, at, Some(name));
    }
    let block = w.locals.open(env.block, true)?;
    w.locals.put(block, name, symbol, at)?;
    let spot = w
        .pool
        .places
        .entered(env.spot, PlaceStep::Round(round), name_at)?;
    w.inherit_binds(env.spot, spot)?;
    Ok(Env {
        block: Some(block),
        spot,
        ..env
    })
}

/// `mixin(e);`
#[cycle(stating)]
pub(crate) fn local_mixin(
    w: &mut World,
    env: Env,
    n: NodeId,
    e: NodeId,
    context: &mut Context,
    depth: u32,
) -> Result<Judged, Stop> {
    let less = deeper(depth)?;
    let at = here(env, w.pool.syntax.node(n).at);
    let value = mixin_text(w, env, e, DEEP)?;
    let Answer::Mixed(list, spot) = settle(w, env, n, Work::Mix(env, n, value))? else {
        return Err(Stop::NoMemory);
    };
    contents(w, Env { spot, ..env }, list, at, context, less)
}
