// What evaluating asks, and the answers that stand.
use dc_facts::{WEIGHT, first_local, weight};
use dc_model::{Answer, Ask, Env, Question, Stop, Work, World};
use dc_tree::{TreeId, TypeId, ValueId, Where};

/// What an evaluated expression has to be.
#[derive(Clone, Copy)]
pub enum Want {
    Any,
    Condition,
    To(TypeId),
}

/// What is known of the evaluation at a place.
pub fn answered(w: &mut World, at: Where) -> Result<Option<(TypeId, ValueId)>, Stop> {
    let place = w.pool.places.place(at)?;
    let question = Question {
        ask: Ask::Eval,
        at: place,
    };
    Ok(match w.answer(question) {
        Some(Answer::Value(of, value)) => Some((of, value)),
        _ => None,
    })
}

/// The value of a resolved expression whose evaluation stands at a place: at once where it is
/// known, else by a question of its own.
pub fn evaluated(
    w: &mut World,
    env: Env,
    tree: TreeId,
    at: Where,
) -> Result<(TypeId, ValueId), Stop> {
    let place = w.pool.places.place(at)?;
    let question = Question {
        ask: Ask::Eval,
        at: place,
    };
    if let Some((variable_at, name)) = first_local(w, tree)? {
        return w.refuse(15, variable_at, Some(name));
    }
    let known = w.pool.trees.get(tree);
    if let Some(value) = known.value {
        if !env.in_trial {
            w.answers.insert(question, Answer::Value(known.of, value))?;
        }
        return Ok((known.of, value));
    }
    if weight(w, tree)? > WEIGHT {
        return w.refuse(18, at, None);
    }
    match w.ask(question, Work::Eval(tree, at))? {
        Answer::Value(of, value) => Ok((of, value)),
        _ => Err(Stop::NoMemory),
    }
}
