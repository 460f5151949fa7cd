// Loops (D specification, "Statements", "While Statement" to "Foreach Range Statement").
use crate::declarations::declare_variable;
use crate::statements::{Context, Judged, deeper, here, inner, made, scoped, statement};
use dc_convert::common;
use dc_form::{NONE, Source, coerce, level};
use dc_model::{Env, Flow, FlowId, FlowKind, Stop, World};
use dc_syntax::{ForeachNode, Form, LoopNode, NodeId};
use dc_tree::{StmtForm, Tree, TreeForm, TreeId, TypeId, VarId, Variable, WalkNode, Where};
use dc_types::Kind;
use dc_typing::{condition, judge, judge_to, judge_type};

/// A loop that is open around what stands in it.
fn opened(w: &mut World, env: Env) -> Result<(Env, FlowId), Stop> {
    let flow = w.add_flow(Flow {
        kind: FlowKind::Loop,
        outer: env.flow,
        broke: false,
    })?;
    Ok((
        Env {
            flow: Some(flow),
            ..env
        },
        flow,
    ))
}

pub(crate) fn is_left(w: &World, flow: FlowId) -> bool {
    match w.flows.get(flow.0 as usize) {
        Some(known) => known.broke,
        None => false,
    }
}

/// Whether a condition is missing, `true` or a literal other than 0.
fn is_always(w: &World, c: Option<NodeId>) -> bool {
    match c {
        None => true,
        Some(c) => match w.pool.syntax.node(c).form {
            Form::True => true,
            Form::Integer(_, word) => word != 0,
            Form::Char(b) => b != 0,
            _ => false,
        },
    }
}

/// `while (c) body`
#[cycle(stating)]
pub(crate) fn while_loop(
    w: &mut World,
    env: Env,
    c: NodeId,
    body: NodeId,
    at: Where,
    context: &mut Context,
    depth: u32,
) -> Result<Judged, Stop> {
    let less = deeper(depth)?;
    let test = condition(w, env, c, less)?;
    let (open, flow) = opened(w, env)?;
    let (stmt, _) = inner(w, open, body, context, less)?;
    let completes = is_left(w, flow) || !is_always(w, Some(c));
    made(w, at, StmtForm::While(test, stmt), completes)
}

/// `do body while (c);`
#[cycle(stating)]
pub(crate) fn do_loop(
    w: &mut World,
    env: Env,
    body: NodeId,
    c: NodeId,
    at: Where,
    context: &mut Context,
    depth: u32,
) -> Result<Judged, Stop> {
    let less = deeper(depth)?;
    let (open, flow) = opened(w, env)?;
    let (stmt, _) = inner(w, open, body, context, less)?;
    let test = condition(w, env, c, less)?;
    let completes = is_left(w, flow) || !is_always(w, Some(c));
    made(w, at, StmtForm::Do(stmt, test), completes)
}

/// `for (start; condition; step) body`
#[cycle(stating)]
pub(crate) fn for_loop(
    w: &mut World,
    env: Env,
    m: u32,
    at: Where,
    context: &mut Context,
    depth: u32,
) -> Result<Judged, Stop> {
    let less = deeper(depth)?;
    let Some(node) = w.pool.syntax.loops.get(m as usize).copied() else {
        return Err(Stop::NoMemory);
    };
    let own = scoped(w, env)?;
    let mut all = Vec::new(w.alloc);
    if let Some(start) = node.start {
        let judged = statement(w, own, start, context, less)?;
        if let Some(stmt) = judged.stmt {
            all.push(stmt.0)?;
        }
    }
    let test = match node.condition {
        Some(c) => Some(condition(w, own, c, less)?),
        None => None,
    };
    let step = match node.step {
        Some(step) => Some(judge(w, own, step, None, less)?),
        None => None,
    };
    let (open, flow) = opened(w, own)?;
    let (body, _) = inner(w, open, node.body, context, less)?;
    let completes = is_left(w, flow) || !is_always(w, node.condition);
    let turning = w.pool.stmts.add(at, StmtForm::For(test, step, body))?;
    all.push(turning.0)?;
    let list = w.pool.stmts.list(all.as_slice())?;
    made(w, at, StmtForm::Sequence(list), completes)
}

/// `foreach (names; over .. end) body`
#[cycle(stating)]
pub(crate) fn count_or_walk(
    w: &mut World,
    env: Env,
    m: u32,
    at: Where,
    context: &mut Context,
    depth: u32,
) -> Result<Judged, Stop> {
    let less = deeper(depth)?;
    let Some(node) = w.pool.syntax.walks.get(m as usize).copied() else {
        return Err(Stop::NoMemory);
    };
    match node.end {
        Some(end) => count(w, env, node, end, at, context, less),
        None => walk(w, env, node, at, context, less),
    }
}

/// A name of a `foreach` as a variable.
fn loop_variable(w: &mut World, env: Env, name: LoopNode, of: TypeId) -> Result<VarId, Stop> {
    let at = here(env, name.name_at);
    if of == TypeId::VOID {
        return w.refuse(10, at, None);
    }
    declare_variable(
        w,
        env,
        Variable {
            name: name.name,
            of,
            at,
            is_const: false,
            is_ref: false,
            own: false,
        },
    )
}

/// A variable that no name leads to.
fn hidden(w: &mut World, name: LoopNode, of: TypeId, at: Where) -> Result<VarId, Stop> {
    Ok(
        w.pool.variables.add(Variable {
            name: name.name,
            of,
            at,
            is_const: true,
            is_ref: false,
            own: false,
        })?,
    )
}

/// The bounds of a `foreach` and the type of its name.
fn bounds(
    w: &mut World,
    env: Env,
    node: ForeachNode,
    end: NodeId,
    depth: u32,
) -> Result<(TreeId, TreeId, TypeId), Stop> {
    if let Some(of) = node.element.of {
        let found = judge_type(w, env, of, depth)?;
        if w.pool.types.kind(found).is_none() {
            let at = here(env, w.pool.syntax.node(of).at);
            return w.refuse(10, at, None);
        }
        let a = judge_to(w, env, node.over, found, depth)?;
        let b = judge_to(w, env, end, found, depth)?;
        return Ok((a, b, found));
    }
    let a = judge(w, env, node.over, None, depth)?;
    let b = judge(w, env, end, None, depth)?;
    let x = bound_kind(w, env, a, node.over)?;
    let y = bound_kind(w, env, b, end)?;
    let (p, q) = (w.pool.trees.get(a).of, w.pool.trees.get(b).of);
    if p == q {
        return Ok((a, b, p));
    }
    let of = TypeId::of_kind(common(x, y));
    let at = w.pool.trees.get(a).at;
    let c = coerce(w, a, of, at)?;
    let at = w.pool.trees.get(b).at;
    let d = coerce(w, b, of, at)?;
    Ok((c, d, of))
}

fn bound_kind(w: &mut World, env: Env, tree: TreeId, n: NodeId) -> Result<Kind, Stop> {
    match w.pool.types.kind(w.pool.trees.get(tree).of) {
        Some(kind) => Ok(kind),
        None => {
            let at = here(env, w.pool.syntax.node(n).at);
            w.refuse(10, at, None)
        }
    }
}

/// `foreach (x; a .. b) body`
#[cycle(stating)]
fn count(
    w: &mut World,
    env: Env,
    node: ForeachNode,
    end: NodeId,
    at: Where,
    context: &mut Context,
    depth: u32,
) -> Result<Judged, Stop> {
    let less = deeper(depth)?;
    let first = match node.index {
        Some(index) => index,
        None => node.element,
    };
    if first.is_ref {
        let name_at = here(env, first.name_at);
        return w.refuse(10, name_at, None);
    }
    if node.index.is_some() {
        let name_at = here(env, node.element.name_at);
        return w.refuse(10, name_at, None);
    }
    let (a, b, of) = bounds(w, env, node, end, less)?;
    let own = scoped(w, env)?;
    let variable = loop_variable(w, own, node.element, of)?;
    let counter = hidden(w, node.element, of, at)?;
    let (open, _) = opened(w, own)?;
    let (body, _) = inner(w, open, node.body, context, less)?;
    made(w, at, StmtForm::Count(a, b, variable, counter, body), true)
}

/// The index of a `foreach` over an array.
fn index_variable(
    w: &mut World,
    env: Env,
    index: Option<LoopNode>,
    depth: u32,
) -> Result<Option<VarId>, Stop> {
    let Some(index) = index else {
        return Ok(None);
    };
    if index.is_ref {
        let at = here(env, index.name_at);
        return w.refuse(10, at, None);
    }
    let of = match index.of {
        Some(node) => {
            let of = judge_type(w, env, node, depth)?;
            match w.pool.types.get(of) {
                dc_tree::Type::Int(_) => of,
                _ => {
                    let at = here(env, w.pool.syntax.node(node).at);
                    return w.refuse(10, at, None);
                }
            }
        }
        None => TypeId::ULONG,
    };
    Ok(Some(loop_variable(w, env, index, of)?))
}

/// The type of the element's name, and the element as one of it.
fn element_value(
    w: &mut World,
    env: Env,
    node: ForeachNode,
    array: TreeId,
    item: VarId,
    depth: u32,
) -> Result<(TypeId, TreeId), Stop> {
    let known = w.pool.trees.get(array);
    let Some(element) = w.pool.types.element(known.of) else {
        return Err(Stop::NoMemory);
    };
    let at = here(env, node.element.name_at);
    let is_fixed = w.pool.types.fixed_length(known.of).is_some();
    let tree = w.pool.trees.add(Tree {
        form: TreeForm::Local(item),
        of: element,
        at,
        range: dc_tree::Ranges::NONE,
        value: None,
        is_place: known.is_place || !is_fixed,
        read_only: false,
        root: None,
        own: false,
    })?;
    let Some(of) = node.element.of else {
        return Ok((element, tree));
    };
    let found = judge_type(w, env, of, depth)?;
    if node.element.is_ref {
        if found != element {
            return w.refuse(10, at, None);
        }
        return Ok((found, tree));
    }
    if level(w, Source::Tree(tree), found) == NONE {
        let of_at = here(env, w.pool.syntax.node(of).at);
        return w.refuse(10, of_at, None);
    }
    Ok((found, coerce(w, tree, found, at)?))
}

/// Notes that the array of a `foreach` with a `ref` name is walked in its place.
fn walked_in_place(w: &mut World, env: Env, node: ForeachNode, array: TreeId) -> Result<(), Stop> {
    let known = w.pool.trees.get(array);
    if w.pool.types.fixed_length(known.of).is_none() {
        return Ok(());
    }
    if known.read_only {
        let at = here(env, w.pool.syntax.node(node.over).at);
        return w.refuse(22, at, None);
    }
    match known.root {
        Some(root) => w.pool.variables.set_own(root),
        None => {
            if !known.is_place {
                w.pool.trees.set_own(array);
            }
        }
    }
    Ok(())
}

/// The name of the element as a variable.
fn element_variable(
    w: &mut World,
    env: Env,
    node: ForeachNode,
    array: TreeId,
    of: TypeId,
) -> Result<VarId, Stop> {
    let at = here(env, node.element.name_at);
    let is_text = w.pool.trees.get(array).of == TypeId::STRING;
    if of == TypeId::VOID {
        return w.refuse(10, at, None);
    }
    declare_variable(
        w,
        env,
        Variable {
            name: node.element.name,
            of,
            at,
            is_const: node.element.is_ref && is_text,
            is_ref: node.element.is_ref,
            own: false,
        },
    )
}

/// `foreach (i, x; array) body`
#[cycle(stating)]
fn walk(
    w: &mut World,
    env: Env,
    node: ForeachNode,
    at: Where,
    context: &mut Context,
    depth: u32,
) -> Result<Judged, Stop> {
    let less = deeper(depth)?;
    let array = judge(w, env, node.over, None, less)?;
    let of = w.pool.trees.get(array).of;
    let Some(element) = w.pool.types.element(of) else {
        let over_at = here(env, w.pool.syntax.node(node.over).at);
        return w.refuse(10, over_at, None);
    };
    let own = scoped(w, env)?;
    let index = index_variable(w, own, node.index, less)?;
    let item = hidden(w, node.element, element, at)?;
    let (found, value) = element_value(w, own, node, array, item, less)?;
    if node.element.is_ref {
        walked_in_place(w, env, node, array)?;
    }
    let variable = element_variable(w, own, node, array, found)?;
    let (open, _) = opened(w, own)?;
    let (body, _) = inner(w, open, node.body, context, less)?;
    let n = w.pool.stmts.add_walk(WalkNode {
        array,
        index,
        element: variable,
        value,
        item,
        body,
    })?;
    made(w, at, StmtForm::Walk(n), true)
}
