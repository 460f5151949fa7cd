// Judging one question.
use crate::instances::name_unit;
use crate::settling::{Settled, introduce_mixed, introduce_outcome, judge_cond};
use dc_ctfe::{Evaluation, Went};
use dc_decl::{DEEP, holds_condition, initial_value, judge_layout, judge_signature, judge_symbol};
use dc_facts::{decl_env, unit_env, variable_type};
use dc_lower::{Lowering, lower_global};
use dc_model::{Answer, Ask, Decl, DeclKind, Env, Question, Stop, Symbol, Work, World};
use dc_names::{constraint_of, evaluated, guarded, text_of};
use dc_stmt::{BodyWork, judge_body, open_body, settle_local};
use dc_syntax::Form;
use dc_text::{Texts, mixed_declarations, mixed_expression, mixed_statements};
use dc_tree::{DeclId, TreeId, TypeId, UnitId, ValueId, Where};
use dc_typing::condition;

/// The most bytes of all mixins' texts.
const MIXIN_BYTES: u64 = 16_777_216;

/// The most items of a program.
pub(crate) const ITEMS: u64 = 65_536;

/// An answer, and what has to be done with it.
#[derive(Clone, Copy)]
pub(crate) struct Judged {
    pub answer: Answer,
    /// How many items it counts, and where they pass the limit.
    pub items: u64,
    pub at: Where,
    /// How many bytes of mixins' texts it reads.
    pub bytes: u64,
    /// The unit whose declarations become questions, where it is a new one.
    pub named: Option<UnitId>,
    /// The unit in which a conditional was settled.
    pub settled: Option<UnitId>,
}

fn plain(answer: Answer, at: Where) -> Judged {
    Judged {
        answer,
        items: 0,
        bytes: 0,
        at,
        named: None,
        settled: None,
    }
}

/// The symbol of a declaration; of an instance's own declaration it names the instance as well.
fn symbol(w: &mut World, id: DeclId) -> Result<Judged, Stop> {
    let decl = w.decl(id)?;
    let symbol = judge_symbol(w, id)?;
    let judged = plain(Answer::Stands(symbol), decl.at);
    match instance_of(w, decl)? {
        Some(unit) => named(w, unit, decl.at, judged),
        None => Ok(judged),
    }
}

/// The instance whose own declaration one is.
fn instance_of(w: &World, decl: Decl) -> Result<Option<UnitId>, Stop> {
    let Some(unit) = decl.inner else {
        return Ok(None);
    };
    let known = w.unit(unit)?;
    Ok(if known.args.is_some() && !known.is_named {
        Some(unit)
    } else {
        None
    })
}

/// Names an instance with an answer.
fn named(w: &mut World, unit: UnitId, at: Where, judged: Judged) -> Result<Judged, Stop> {
    let is_new = name_unit(w, unit)?;
    Ok(Judged {
        items: if is_new { 1 } else { 0 },
        at,
        named: if is_new { Some(unit) } else { None },
        ..judged
    })
}

/// An instance that is named.
fn instance(w: &mut World, unit: UnitId, at: Where) -> Result<Judged, Stop> {
    let answer = match w.unit(unit)?.own {
        Some(own) => match w.decl(own)?.kind {
            DeclKind::Constant | DeclKind::Alias => Answer::Stands(judge_symbol(w, own)?),
            _ => Answer::Known,
        },
        None => Answer::Known,
    };
    named(w, unit, at, plain(answer, at))
}

/// The constraint of an instance: false where a rule that guards turn to false is met in it.
fn constraint(w: &mut World, unit: UnitId) -> Result<Judged, Stop> {
    let known = w.unit(unit)?;
    let Some(node) = constraint_of(w, unit)? else {
        return Err(Stop::NoMemory);
    };
    let env = unit_env(w, unit, known.spot)?;
    let (of, value) = match guarded(condition(w, env, node, DEEP))? {
        Some(tree) => value_of(w, env, tree, known.at)?,
        None => (TypeId::BOOL, w.pool.values.number(0)?),
    };
    Ok(Judged {
        items: 1,
        ..plain(Answer::Value(of, value), known.at)
    })
}

/// The value of a resolved condition.
fn value_of(
    w: &mut World,
    env: Env,
    tree: TreeId,
    at: Where,
) -> Result<(TypeId, dc_tree::ValueId), Stop> {
    evaluated(w, env, tree, at)
}

/// The initialiser of a declaration.
fn initial(w: &mut World, id: DeclId) -> Result<Judged, Stop> {
    let decl = w.decl(id)?;
    let answer = match decl.kind {
        DeclKind::Variable => Answer::Value(variable_type(w, id)?, initial_value(w, id)?),
        _ => match judge_symbol(w, id)? {
            Symbol::Value(of, value) => Answer::Value(of, value),
            _ => return Err(Stop::NoMemory),
        },
    };
    Ok(plain(answer, decl.at))
}

/// A `static assert` of a unit.
fn assert(w: &mut World, id: DeclId) -> Result<Judged, Stop> {
    let decl = w.decl(id)?;
    let env = decl_env(w, decl)?;
    let Form::StaticAssert(c, _) = w.pool.syntax.node(decl.node).form else {
        return Err(Stop::NoMemory);
    };
    if !holds_condition(w, env, c)? {
        return w.refuse(14, decl.at, None);
    }
    Ok(plain(Answer::Branch(true), decl.at))
}

/// A conditional of a unit.
fn settle(
    w: &mut World,
    mixed: &mut Mixed,
    id: dc_model::CondId,
    left: u64,
) -> Result<Judged, Stop> {
    let cond = w.cond(id)?;
    let outcome = judge_cond(w, id, left)?;
    let items = match outcome {
        Settled::Branch(_) | Settled::Text(_) => 1,
        Settled::Rounds(_, len) => u64::from(len),
    };
    if items > left {
        return w.refuse(18, cond.at, None);
    }
    if let Settled::Text(value) = outcome {
        let text = text_of(w, value)?;
        let bytes = count_bytes(w, mixed, text.len(), cond.at)?;
        let (list, spot) = mixed_declarations(w, &mut mixed.texts, text.as_slice(), cond.at)?;
        let answer = introduce_mixed(w, id, list, spot)?;
        return Ok(Judged {
            items,
            bytes,
            settled: Some(cond.unit),
            ..plain(answer, cond.at)
        });
    }
    let answer = introduce_outcome(w, id, outcome)?;
    Ok(Judged {
        items,
        settled: Some(cond.unit),
        ..plain(answer, cond.at)
    })
}

/// The texts of mixins, and how many bytes they have so far.
#[derive(Drop)]
pub struct Mixed {
    pub texts: Texts,
    pub bytes: u64,
}

/// The bytes of a mixin's text; rule 19 where they pass the limit together with the others.
fn count_bytes(w: &mut World, mixed: &Mixed, len: usize, at: Where) -> Result<u64, Stop> {
    let bytes = u64::try_from(len).unwrap_or(u64::MAX);
    if mixed.bytes.saturating_add(bytes) > MIXIN_BYTES {
        return w.refuse(19, at, None);
    }
    Ok(bytes)
}

/// A mixin of statements or of an expression.
fn mix(
    w: &mut World,
    mixed: &mut Mixed,
    env: Env,
    n: dc_syntax::NodeId,
    value: ValueId,
) -> Result<Judged, Stop> {
    let node = w.pool.syntax.node(n);
    let at = Where {
        spot: env.spot,
        at: node.at,
    };
    let text = text_of(w, value)?;
    let bytes = count_bytes(w, mixed, text.len(), at)?;
    let answer = match node.form {
        Form::MixinHere(_) => {
            let (list, spot) = mixed_statements(w, &mut mixed.texts, text.as_slice(), at)?;
            w.inherit_binds(env.spot, spot)?;
            Answer::Mixed(list, spot)
        }
        _ => {
            let (inner, spot) = mixed_expression(w, &mut mixed.texts, text.as_slice(), at)?;
            w.inherit_binds(env.spot, spot)?;
            Answer::MixedExpr(inner, spot)
        }
    };
    Ok(Judged {
        items: 1,
        bytes,
        ..plain(answer, at)
    })
}

/// A conditional of a body.
fn local(w: &mut World, env: Env, n: dc_syntax::NodeId, left: u64) -> Result<Judged, Stop> {
    let at = Where {
        spot: env.spot,
        at: w.pool.syntax.node(n).at,
    };
    let answer = settle_local(w, env, n, left)?;
    let items = match (answer, w.pool.syntax.node(n).form) {
        (Answer::Rounds(_, len), _) => u64::from(len),
        (_, Form::StaticIf(_, _, _)) => 1,
        _ => 0,
    };
    Ok(Judged {
        items,
        ..plain(answer, at)
    })
}

/// The body of a function, which goes on where it stopped.
fn body(w: &mut World, id: DeclId, work: &mut Option<BodyWork>) -> Result<Judged, Stop> {
    let at = w.decl(id)?.at;
    if work.is_none() {
        *work = Some(open_body(w, id)?);
    }
    if let Some(open) = work {
        judge_body(w, open)?;
    }
    Ok(plain(Answer::Known, at))
}

/// What a task keeps while it waits.
#[derive(Drop)]
pub(crate) struct Open {
    /// A body that has been judged in part.
    pub body: Option<BodyWork>,
    /// An evaluation with its machine.
    pub evaluation: Option<Evaluation>,
}

/// The evaluation of a resolved expression, which goes on where it stopped.
fn eval(
    w: &mut World,
    lowering: &mut Lowering,
    open: &mut Open,
    tree: TreeId,
    at: Where,
) -> Result<Judged, Stop> {
    if open.evaluation.is_none() {
        let alloc = w.alloc;
        let new = Evaluation::open(alloc, w, lowering, tree)?;
        open.evaluation = Some(new);
    }
    let Some(evaluation) = &mut open.evaluation else {
        return Err(Stop::NoMemory);
    };
    for _ in 0..u64::MAX {
        match evaluation.go(w, lowering)? {
            Went::Value(value) => {
                let of = w.pool.trees.get(tree).of;
                return Ok(plain(Answer::Value(of, value), at));
            }
            Went::Wait(function) => ask_body(w, function)?,
            Went::WaitStart(variable, number, of) => {
                let value = initial_value(w, variable)?;
                lower_global(lowering, &w.pool, number, of, value)?;
            }
            Went::Stopped(rule, stopped_at, detail) => {
                return w.refuse(rule, stopped_at, detail);
            }
        }
    }
    Err(Stop::NoMemory)
}

/// Asks for the body of a function that an evaluation enters.
fn ask_body(w: &mut World, function: DeclId) -> Result<(), Stop> {
    let stands = w.decl(function)?.at;
    let at = w.pool.places.place(stands)?;
    let question = Question {
        ask: Ask::BodyOf,
        at,
    };
    w.ask(question, Work::BodyOf(function))?;
    Ok(())
}

/// Judges a question. There are so many items left.
pub(crate) fn judge(
    w: &mut World,
    mixed: &mut Mixed,
    lowering: &mut Lowering,
    work: Work,
    open: &mut Open,
    left: u64,
) -> Result<Judged, Stop> {
    match work {
        Work::Symbol(id) => symbol(w, id),
        Work::Instance(unit, at) => instance(w, unit, at),
        Work::Layout(unit) => {
            judge_layout(w, unit)?;
            let at = w.unit(unit)?.at;
            Ok(plain(Answer::Known, at))
        }
        Work::Signature(id) => {
            judge_signature(w, id)?;
            let at = w.decl(id)?.at;
            Ok(plain(Answer::Known, at))
        }
        Work::BodyOf(id) => body(w, id, &mut open.body),
        Work::Initial(id) => initial(w, id),
        Work::Constraint(unit) => constraint(w, unit),
        Work::Settle(id) => settle(w, mixed, id, left),
        Work::Assert(id) => assert(w, id),
        Work::Local(env, n) => local(w, env, n, left),
        Work::Eval(tree, at) => eval(w, lowering, open, tree, at),
        Work::Mix(env, n, value) => mix(w, mixed, env, n, value),
    }
}
