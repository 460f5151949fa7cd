// Judging expressions (D specification, "Expressions").
use crate::aggregates::array;
use crate::assigns::{assign, assign_operator};
use crate::guards::{is_struct, is_type, is_valid, traits};
use crate::resolution::resolved_value;
use crate::steps::step_before;
use crate::types::judge_type;
use dc_ast::{AssignOperator, UnaryOperator};
use dc_facts::{check_cells, deeper, start_value};
use dc_form::{add, at_of, bare, constant, convert, logical, number};
use dc_model::{Env, Stop, World};
use dc_names::{here, this};
use dc_operators::{bare_node, chained, compare, unary_number};
use dc_syntax::{Form, List, NodeId};
use dc_tree::{Tree, TreeForm, TreeId, TypeId, Value, ValueId, Where};

/// The resolved tree of an expression. A wanted type reaches into array literals.
#[cycle(judging)]
pub fn judge(
    w: &mut World,
    env: Env,
    n: NodeId,
    hint: Option<TypeId>,
    depth: u32,
) -> Result<TreeId, Stop> {
    let less = deeper(depth)?;
    let node = w.pool.syntax.node(n);
    let at = here(env, node.at);
    match node.form {
        Form::Paren(inner) => judge(w, env, inner, hint, less),
        Form::Array(items) => array(w, env, items, hint, at, less),
        Form::Unary(operator, a) => unary(w, env, operator, a, at, less),
        Form::Cast(of, a) => cast(w, env, of, a, at, less),
        Form::Chain(first, steps) => chain(w, env, first, steps, at, less),
        Form::Compare(a, operator, b) => {
            let left = judge(w, env, a, None, less)?;
            let right = judge(w, env, b, None, less)?;
            compare(w, operator, left, right, at)
        }
        Form::Conditional(c, a, b) => {
            let test = condition(w, env, c, less)?;
            let left = judge(w, env, a, None, less)?;
            let right = judge(w, env, b, None, less)?;
            dc_operators::conditional(w, test, left, right, at)
        }
        Form::Assign(a, AssignOperator::Assign, b) => assign(w, env, a, b, at, less),
        Form::Assign(a, operator, b) => assign_operator(w, env, a, operator, b, at, less),
        Form::Assert(test, message) => assert(w, env, test, message, at, less),
        Form::New(of, length) => new_array(w, env, of, length, at, less),
        Form::Is(of) => is_valid(w, env, of, at, less),
        Form::IsStruct(of) => is_struct(w, env, of, at, less),
        Form::IsType(of, relation, against, names) => {
            is_type(
                w,
                env,
                crate::guards::Test {
                    of,
                    relation,
                    against,
                    names,
                },
                at,
                less,
            )
        }
        Form::Traits(name, name_at, args) => traits(w, env, name, name_at, args, at, less),
        Form::Name(_) | Form::Instance(_, _) | Form::Postfix(_, _) | Form::Mixin(_) => {
            resolved_value(w, env, n, less)
        }
        _ => leaf(w, env, node.form, at),
    }
}

fn text(w: &mut World, name: dc_syntax::NameId) -> Result<ValueId, Stop> {
    Ok(w.pool.values.add(Value::Bytes(name))?)
}

/// A literal, `this` or `$`; a type is no expression.
fn leaf(w: &mut World, env: Env, form: Form, at: Where) -> Result<TreeId, Stop> {
    match form {
        Form::Integer(kind, word) => { number(w, TypeId::of_kind(kind), i128::from(word), at) }
        Form::Char(b) => number(w, TypeId::CHAR, i128::from(b), at),
        Form::True => number(w, TypeId::BOOL, 1, at),
        Form::False => number(w, TypeId::BOOL, 0, at),
        Form::Str(name) => {
            let value = text(w, name)?;
            constant(w, TypeId::STRING, value, at)
        }
        Form::Null => {
            let value = w.pool.values.list(&[])?;
            constant(w, TypeId::NULL, value, at)
        }
        Form::This => match env.this {
            Some(of) => this(w, of, at),
            None => w.refuse(10, at, None),
        },
        Form::Dollar => dollar(w, env, at),
        _ => w.refuse(10, at, None),
    }
}

/// `$`: the length of the array whose index or part is judged.
fn dollar(w: &mut World, env: Env, at: Where) -> Result<TreeId, Stop> {
    let name = w.pool.names.number(b"$")?;
    match w.locals.find(env.block, name) {
        Some(symbol) => {
            let found = dc_names::Resolved {
                symbol,
                name_at: at,
            };
            dc_names::value(w, env, found, at)
        }
        None => w.refuse(10, at, None),
    }
}

/// The resolved tree of an expression as one of a type.
#[cycle(judging)]
pub fn judge_to(
    w: &mut World,
    env: Env,
    n: NodeId,
    to: TypeId,
    depth: u32,
) -> Result<TreeId, Stop> {
    let less = deeper(depth)?;
    let tree = judge(w, env, n, Some(to), less)?;
    let at = here(env, w.pool.syntax.node(n).at);
    convert(w, tree, to, at)
}

/// A condition: a number or an enum of numbers.
#[cycle(judging)]
pub fn condition(w: &mut World, env: Env, n: NodeId, depth: u32) -> Result<TreeId, Stop> {
    let less = deeper(depth)?;
    let tree = judge(w, env, n, None, less)?;
    if w.pool.types.kind(w.pool.trees.get(tree).of).is_none() {
        let at = here(env, w.pool.syntax.node(n).at);
        return w.refuse(10, at, None);
    }
    Ok(tree)
}

#[cycle(judging)]
fn unary(
    w: &mut World,
    env: Env,
    operator: UnaryOperator,
    a: NodeId,
    at: Where,
    depth: u32,
) -> Result<TreeId, Stop> {
    let less = deeper(depth)?;
    match operator {
        UnaryOperator::Increment | UnaryOperator::Decrement => {
            let place = judge(w, env, a, None, less)?;
            let place_at = here(env, w.pool.syntax.node(a).at);
            step_before(w, operator, place, at, place_at)
        }
        UnaryOperator::Not => {
            let tree = condition(w, env, a, less)?;
            let value = dc_form::known(w, tree).map(|n| n == 0);
            logical(w, TreeForm::Not(tree), at, value)
        }
        _ => {
            let tree = judge(w, env, a, None, less)?;
            let is_literal = match w.pool.syntax.node(bare_node(w, a)).form {
                Form::Integer(_, _) | Form::Char(_) => true,
                _ => false,
            };
            unary_number(w, operator, tree, is_literal, at)
        }
    }
}

/// `cast(T) e`
#[cycle(judging)]
fn cast(
    w: &mut World,
    env: Env,
    of: NodeId,
    a: NodeId,
    at: Where,
    depth: u32,
) -> Result<TreeId, Stop> {
    let less = deeper(depth)?;
    let to = judge_type(w, env, of, less)?;
    let tree = judge(w, env, a, None, less)?;
    let from = w.pool.trees.get(tree).of;
    match (w.pool.types.kind(to), w.pool.types.kind(from)) {
        (Some(kind), Some(_)) => match (dc_form::const_of(w, tree), dc_form::known(w, tree)) {
            (Some(_), Some(n)) => number(w, to, dc_num::wrap(kind, n), at),
            _ => dc_operators::cast_number(w, tree, to, kind, at),
        },
        _ => w.refuse(10, at, None),
    }
}

/// Operators of one level, from left to right.
#[cycle(judging)]
fn chain(
    w: &mut World,
    env: Env,
    first: NodeId,
    steps: List,
    at: Where,
    depth: u32,
) -> Result<TreeId, Stop> {
    let less = deeper(depth)?;
    let mut so_far = judge(w, env, first, None, less)?;
    let mut left_at = here(env, w.pool.syntax.node(first).at);
    for k in 0..steps.len {
        let step = w.pool.syntax.item(steps, k);
        let Form::Step(operator, operand) = w.pool.syntax.node(step).form else {
            break;
        };
        if dc_operators::is_logical(operator) && k == 0 {
            dc_operators::check_condition(w, so_far, left_at)?;
        }
        let right = judge(w, env, operand, None, less)?;
        left_at = here(env, w.pool.syntax.node(operand).at);
        if dc_operators::is_logical(operator) {
            dc_operators::check_condition(w, right, left_at)?;
        }
        so_far = chained(w, operator, so_far, right, at)?;
    }
    Ok(so_far)
}

/// `assert(test, message)`
#[cycle(judging)]
fn assert(
    w: &mut World,
    env: Env,
    test: NodeId,
    message: Option<NodeId>,
    at: Where,
    depth: u32,
) -> Result<TreeId, Stop> {
    let less = deeper(depth)?;
    let tree = condition(w, env, test, less)?;
    if let Some(message) = message {
        let said = judge(w, env, message, None, less)?;
        if !w.pool.types.is_text(w.pool.trees.get(said).of) {
            let message_at = here(env, w.pool.syntax.node(message).at);
            return w.refuse(10, message_at, None);
        }
    }
    add(w, TreeForm::Assert(tree), TypeId::VOID, at)
}

/// `new T[](n)`
#[cycle(judging)]
fn new_array(
    w: &mut World,
    env: Env,
    of: NodeId,
    length: NodeId,
    at: Where,
    depth: u32,
) -> Result<TreeId, Stop> {
    let less = deeper(depth)?;
    let of = judge_type(w, env, of, less)?;
    let element = match w.pool.types.element(of) {
        Some(element) if w.pool.types.is_slice(of) => element,
        _ => return w.refuse(10, at, None),
    };
    let len = judge_to(w, env, length, TypeId::ULONG, less)?;
    check_cells(w, element, at)?;
    let start = start_value(w, element)?;
    let tree = Tree {
        ..bare(TreeForm::New(len, start), of, at)
    };
    Ok(w.pool.trees.add(tree)?)
}

/// The place of an expression's tree, for callers that have only the tree.
fn tree_at(w: &World, tree: TreeId) -> Where {
    at_of(w, tree)
}
