// `++` and `--`, before a place and behind it.
use dc_ast::UnaryOperator;
use dc_form::number;
use dc_model::{Env, Stop, World};
use dc_names::{Resolved, value};
use dc_operators::{Update, updated};
use dc_syntax::Form;
use dc_tree::{TreeId, TypeId, Where};
use dc_types::BinOp;

/// `++a`, `--a`
pub(crate) fn step_before(
    w: &mut World,
    operator: UnaryOperator,
    place: TreeId,
    at: Where,
    place_at: Where,
) -> Result<TreeId, Stop> {
    let op = match operator {
        UnaryOperator::Decrement => BinOp::Sub,
        _ => BinOp::Add,
    };
    let one = number(w, TypeId::INT, 1, at)?;
    let update = Update {
        op,
        is_step: true,
        gives_old: false,
    };
    updated(w, update, place, one, at, place_at)
}

/// `a++`, `a--`
pub(crate) fn step_behind(
    w: &mut World,
    env: Env,
    base: Resolved,
    form: Form,
    at: Where,
) -> Result<TreeId, Stop> {
    let op = match form {
        Form::PostDecrement => BinOp::Sub,
        _ => BinOp::Add,
    };
    let place = value(w, env, base, at)?;
    let one = number(w, TypeId::INT, 1, at)?;
    let update = Update {
        op,
        is_step: true,
        gives_old: true,
    };
    updated(w, update, place, one, at, at)
}
