// What is evaluated while judging (D specification, "Functions", "Compile Time Function Execution").
use crate::expression::{condition, judge, judge_to};
use dc_facts::deeper;
use dc_model::{Env, Stop, World};
use dc_names::{Want, answered, evaluated, here};
use dc_syntax::NodeId;
use dc_tree::{TypeId, ValueId};

/// The type and the value of an expression that is evaluated while compiling.
#[cycle(judging)]
pub fn evaluate(
    w: &mut World,
    env: Env,
    n: NodeId,
    want: Want,
    depth: u32,
) -> Result<(TypeId, ValueId), Stop> {
    let less = deeper(depth)?;
    let at = here(env, w.pool.syntax.node(n).at);
    if let Some(known) = answered(w, at)? {
        return Ok(known);
    }
    let inner = Env {
        in_typeof: false,
        ..env
    };
    let tree = match want {
        Want::Any => judge(w, inner, n, None, less)?,
        Want::Condition => condition(w, inner, n, less)?,
        Want::To(of) => judge_to(w, inner, n, of, less)?,
    };
    evaluated(w, inner, tree, at)
}
