// Mixins (D specification, "Statements", "Mixin Statement"; "Expressions", "Mixin Expressions").
use crate::evals::evaluate;
use dc_facts::deeper;
use dc_model::{Answer, Ask, Env, Question, Stop, Work, World};
use dc_names::{Want, here};
use dc_syntax::NodeId;
use dc_tree::{SpotId, Type, TypeId, ValueId};

/// The text of a mixin: a `string` or an array of characters, or rule 10 at the argument.
#[cycle(judging)]
pub fn mixin_text(w: &mut World, env: Env, argument: NodeId, depth: u32) -> Result<ValueId, Stop> {
    let less = deeper(depth)?;
    let (of, value) = evaluate(w, env, argument, Want::Any, less)?;
    let is_text = match w.pool.types.get(of) {
        Type::Fixed(item, _) => item == TypeId::CHAR,
        _ => w.pool.types.is_text(of),
    };
    if !is_text {
        let at = here(env, w.pool.syntax.node(argument).at);
        return w.refuse(10, at, None);
    }
    Ok(value)
}

/// The expression that stands in a mixin's text, and the spot of that text.
#[cycle(judging)]
pub(crate) fn mixed_expression(
    w: &mut World,
    env: Env,
    n: NodeId,
    argument: NodeId,
    depth: u32,
) -> Result<(NodeId, SpotId), Stop> {
    let less = deeper(depth)?;
    let place = w.pool.places.place(here(env, w.pool.syntax.node(n).at))?;
    let question = Question {
        ask: Ask::Settle,
        at: place,
    };
    if let Some(Answer::MixedExpr(node, spot)) = w.answer(question) {
        return Ok((node, spot));
    }
    let value = mixin_text(w, env, argument, less)?;
    match w.ask(question, Work::Mix(env, n, value))? {
        Answer::MixedExpr(node, spot) => Ok((node, spot)),
        _ => Err(Stop::NoMemory),
    }
}
