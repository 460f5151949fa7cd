// `switch` (D specification, "Statements", "Switch Statement").
use crate::loops::is_left;
use crate::statements::{Context, Judged, block, deeper, here, made, scoped};
use dc_model::{Env, Flow, FlowKind, Stop, World};
use dc_names::Want;
use dc_syntax::{Form, List, NodeId};
use dc_tree::{CaseNode, StmtForm, StmtId, TreeId, TypeId, Value, ValueId, Where};
use dc_typing::{evaluate, judge};

/// Whether a type can be that of a `switch`: a number but `bool`, an enum of numbers or strings, or `string`.
fn is_switchable(w: &World, of: TypeId) -> bool {
    if of == TypeId::BOOL {
        return false;
    }
    let base = w.pool.types.base(of);
    base == TypeId::STRING || w.pool.types.kind(of).is_some()
}

/// Whether two values of cases are the same.
fn same_value(w: &World, a: ValueId, b: ValueId) -> bool {
    match (w.pool.values.get(a), w.pool.values.get(b)) {
        (Value::Number(x), Value::Number(y)) => x == y,
        (Value::Bytes(x), Value::Bytes(y)) => x == y,
        _ => false,
    }
}

/// The values of labels; rule 7 where one stands twice.
fn case_values(
    w: &mut World,
    env: Env,
    labels: List,
    of: TypeId,
    seen: &mut Vec<ValueId>,
    depth: u32,
) -> Result<List, Stop> {
    let mut numbers = Vec::new(w.alloc);
    for k in 0..labels.len {
        let n = w.pool.syntax.item(labels, k);
        let (_, value) = evaluate(w, env, n, Want::To(of), depth)?;
        if seen
            .as_slice()
            .iter()
            .any(|other| same_value(w, *other, value))
        {
            let at = here(env, w.pool.syntax.node(n).at);
            return w.refuse(7, at, None);
        }
        seen.push(value)?;
        numbers.push(value.0)?;
    }
    Ok(w.pool.stmts.list(numbers.as_slice())?)
}

/// What the groups of a `switch` have in common.
#[derive(Drop)]
struct Groups {
    on: TypeId,
    count: u32,
    seen: Vec<ValueId>,
    defaults: u32,
    cases: Vec<u32>,
    /// Whether the last group completes.
    completes: bool,
}

/// Whether a block has statements once what is done while compiling is replaced by its contents.
fn has_statement(w: &World, id: StmtId) -> Result<bool, Stop> {
    let mut work = Vec::new(w.alloc);
    if let StmtForm::Block(list) = w.pool.stmts.get(id).form {
        for n in w.pool.stmts.numbers(list) {
            work.push(StmtId(*n))?;
        }
    }
    for _ in 0..u64::MAX {
        let Some(next) = work.pop() else {
            break;
        };
        match w.pool.stmts.get(next).form {
            StmtForm::Sequence(list) => {
                for n in w.pool.stmts.numbers(list) {
                    work.push(StmtId(*n))?;
                }
            }
            _ => return Ok(true),
        }
    }
    Ok(false)
}

/// The first statement of a group.
fn first_at(w: &World, env: Env, statements: List, at: Where) -> Where {
    if statements.len == 0 {
        return at;
    }
    here(
        env,
        w.pool.syntax.node(w.pool.syntax.item(statements, 0)).at,
    )
}

/// One group; a group that isn't empty and isn't the last must not complete.
#[cycle(stating)]
fn group(
    w: &mut World,
    env: Env,
    k: u32,
    n: NodeId,
    groups: &mut Groups,
    context: &mut Context,
    depth: u32,
) -> Result<(), Stop> {
    let less = deeper(depth)?;
    let node = w.pool.syntax.node(n);
    let at = here(env, node.at);
    let (values, statements) = match node.form {
        Form::Case(labels, statements) => {
            let on = groups.on;
            let values = case_values(w, env, labels, on, &mut groups.seen, less)?;
            (Some(values), statements)
        }
        Form::Default(statements) => {
            groups.defaults = groups.defaults.saturating_add(1);
            (None, statements)
        }
        _ => return Err(Stop::NoMemory),
    };
    let own = scoped(w, env)?;
    let judged = block(w, own, statements, at, context, less)?;
    let Some(body) = judged.stmt else {
        return Err(Stop::NoMemory);
    };
    let is_last = k.saturating_add(1) == groups.count;
    if judged.completes && !is_last && has_statement(w, body)? {
        let first = first_at(w, env, statements, at);
        return w.refuse(25, first, None);
    }
    groups.completes = judged.completes;
    let case = w.pool.stmts.add_case(CaseNode { values, body })?;
    groups.cases.push(case)?;
    Ok(())
}

/// The value on which a `switch` goes, or rule 10.
fn switched(w: &mut World, env: Env, on: NodeId, depth: u32) -> Result<TreeId, Stop> {
    let tree = judge(w, env, on, None, depth)?;
    if !is_switchable(w, w.pool.trees.get(tree).of) {
        let at = here(env, w.pool.syntax.node(on).at);
        return w.refuse(10, at, None);
    }
    Ok(tree)
}

/// `switch (e) { groups }`
#[cycle(stating)]
pub(crate) fn switch(
    w: &mut World,
    env: Env,
    m: u32,
    at: Where,
    context: &mut Context,
    depth: u32,
) -> Result<Judged, Stop> {
    let less = deeper(depth)?;
    let Some(node) = w.pool.syntax.switches.get(m as usize).copied() else {
        return Err(Stop::NoMemory);
    };
    let tree = switched(w, env, node.on, less)?;
    if node.before.len > 0 {
        let first = first_at(w, env, node.before, at);
        return w.refuse(25, first, None);
    }
    let flow = w.add_flow(Flow {
        kind: FlowKind::Switch,
        outer: env.flow,
        broke: false,
    })?;
    let inside = Env {
        flow: Some(flow),
        ..env
    };
    let mut groups = Groups {
        on: w.pool.trees.get(tree).of,
        count: node.groups.len,
        seen: Vec::new(w.alloc),
        defaults: 0,
        cases: Vec::new(w.alloc),
        completes: true,
    };
    for k in 0..node.groups.len {
        let n = w.pool.syntax.item(node.groups, k);
        group(w, inside, k, n, &mut groups, context, less)?;
    }
    if groups.defaults != 1 {
        return w.refuse(25, at, None);
    }
    let completes = groups.completes || is_left(w, flow);
    let cases = w.pool.stmts.list(groups.cases.as_slice())?;
    made(w, at, StmtForm::Switch(tree, cases), completes)
}
