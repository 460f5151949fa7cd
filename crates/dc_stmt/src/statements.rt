// Statements (D specification, "Statements").
ghost use Rattle.std.specs.Prelude.{◌≡◌, ◌+◌, IfOk};

use crate::conditionals::{local_mixin, static_assert, static_foreach, static_if, version};
use crate::declarations::{alias, constant, enumeration, import, variables};
use crate::loops::{count_or_walk, do_loop, for_loop, while_loop};
use crate::switches::switch;
use dc_decl::check_auto;
use dc_model::{Env, FlowId, FlowKind, Stop, World};
use dc_syntax::{Form, List, NodeId};
use dc_tree::{StmtForm, StmtId, TypeId, Where};
use dc_typing::{condition, judge, judge_to};

/// What the statements of a function know of it.
#[derive(Clone, Copy)]
pub struct Context {
    /// The type of its result; of an `auto` function nothing before its first `return`.
    pub result: Option<TypeId>,
    pub is_auto: bool,
}

/// A judged statement.
#[derive(Clone, Copy)]
pub(crate) struct Judged {
    /// Nothing for what is done while compiling.
    pub stmt: Option<StmtId>,
    /// Whether what stands behind it may be reached.
    pub completes: bool,
}

/// A statement that is done while compiling.
pub(crate) const NOTHING: Judged = Judged {
    stmt: None,
    completes: true,
};

pub(crate) fn here(env: Env, at: u32) -> Where {
    Where { spot: env.spot, at }
}

pub(crate) fn deeper(depth: u32) -> Result<u32, Stop>
    ensures { IfOk result (λ less. less + 1 ≡ depth) }
{
    if depth == 0 {
        Err(Stop::NoMemory)
    } else {
        Ok(depth - 1)
    }
}

/// A new block inside the innermost.
pub(crate) fn scoped(w: &mut World, env: Env) -> Result<Env, Stop> {
    let block = w.locals.open(env.block, false)?;
    Ok(Env {
        block: Some(block),
        ..env
    })
}

pub(crate) fn made(
    w: &mut World,
    at: Where,
    form: StmtForm,
    completes: bool,
) -> Result<Judged, Stop> {
    let stmt = w.pool.stmts.add(at, form)?;
    Ok(Judged {
        stmt: Some(stmt),
        completes,
    })
}

/// A statement.
#[cycle(stating)]
pub(crate) fn statement(
    w: &mut World,
    env: Env,
    n: NodeId,
    context: &mut Context,
    depth: u32,
) -> Result<Judged, Stop> {
    let less = deeper(depth)?;
    let node = w.pool.syntax.node(n);
    let at = here(env, node.at);
    match node.form {
        Form::Block(list) => {
            let inner = scoped(w, env)?;
            block(w, inner, list, at, context, less)
        }
        Form::If(branches, last) => if_chain(w, env, branches, last, at, context, less),
        Form::While(c, body) => while_loop(w, env, c, body, at, context, less),
        Form::Do(body, c) => do_loop(w, env, body, c, at, context, less),
        Form::For(m) => for_loop(w, env, m, at, context, less),
        Form::Foreach(m) => count_or_walk(w, env, m, at, context, less),
        Form::Switch(m) => switch(w, env, m, at, context, less),
        Form::StaticIf(_, then, other) => { static_if(w, env, n, (then, other), context, less) }
        Form::Version(name, then, other) => {
            version(w, env, name, (then, other), at, context, less)
        }
        Form::StaticForeach(m) => static_foreach(w, env, n, m, context, less),
        Form::MixinHere(e) => local_mixin(w, env, n, e, context, less),
        Form::Declared(_, inner) => statement(w, env, inner, context, less),
        _ => simple(w, env, n, at, context, less),
    }
}

/// A statement without statements inside it.
fn simple(
    w: &mut World,
    env: Env,
    n: NodeId,
    at: Where,
    context: &mut Context,
    depth: u32,
) -> Result<Judged, Stop> {
    match w.pool.syntax.node(n).form {
        Form::Empty => empty(w, at),
        Form::Variable(m) => variables(w, env, m, at, depth),
        Form::Constant(m) => constant(w, env, m, at, depth),
        Form::Alias(m) => alias(w, env, m, at),
        Form::Enum(_) => enumeration(w, env, n, at),
        Form::Import(m) => import(w, env, m),
        Form::StaticAssert(_, _) => static_assert(w, env, n),
        Form::Expression(e) => expression(w, env, e, at, depth),
        Form::Break => leave(w, env, at),
        Form::Continue => go_on(w, env, at),
        Form::Return(value) => returned(w, env, value, at, context, depth),
        _ => Err(Stop::NoMemory),
    }
}

fn empty(w: &mut World, at: Where) -> Result<Judged, Stop> {
    let list = w.pool.stmts.list(&[])?;
    made(w, at, StmtForm::Block(list), true)
}

/// A list of statements as one: whether it completes.
#[cycle(stating)]
pub(crate) fn block(
    w: &mut World,
    env: Env,
    list: List,
    at: Where,
    context: &mut Context,
    depth: u32,
) -> Result<Judged, Stop> {
    let less = deeper(depth)?;
    let mut all = Vec::new(w.alloc);
    let mut completes = true;
    for k in 0..list.len {
        let n = w.pool.syntax.item(list, k);
        let judged = statement(w, env, n, context, less)?;
        if let Some(stmt) = judged.stmt {
            all.push(stmt.0)?;
        }
        completes = completes && judged.completes;
    }
    let list = w.pool.stmts.list(all.as_slice())?;
    made(w, at, StmtForm::Block(list), completes)
}

/// A statement that is the body of another: it has a scope of its own.
#[cycle(stating)]
pub(crate) fn inner(
    w: &mut World,
    env: Env,
    n: NodeId,
    context: &mut Context,
    depth: u32,
) -> Result<(StmtId, bool), Stop> {
    let less = deeper(depth)?;
    let own = scoped(w, env)?;
    let judged = statement(w, own, n, context, less)?;
    match judged.stmt {
        Some(stmt) => Ok((stmt, judged.completes)),
        None => {
            let at = here(env, w.pool.syntax.node(n).at);
            let nothing = empty(w, at)?;
            match nothing.stmt {
                Some(stmt) => Ok((stmt, judged.completes)),
                None => Err(Stop::NoMemory),
            }
        }
    }
}

/// A judged branch of an `if`.
#[derive(Clone, Copy)]
struct Branch {
    test: dc_tree::TreeId,
    then: StmtId,
    at: Where,
}

/// `if (a) s else if (b) s else s`
#[cycle(stating)]
fn if_chain(
    w: &mut World,
    env: Env,
    branches: List,
    last: Option<NodeId>,
    at: Where,
    context: &mut Context,
    depth: u32,
) -> Result<Judged, Stop> {
    let less = deeper(depth)?;
    let mut all: Vec<Branch> = Vec::new(w.alloc);
    let mut completes = last.is_none();
    for k in 0..branches.len {
        let node = w.pool.syntax.node(w.pool.syntax.item(branches, k));
        let Form::IfBranch(c, body) = node.form else {
            continue;
        };
        let test = condition(w, env, c, less)?;
        let (then, ends) = inner(w, env, body, context, less)?;
        completes = completes || ends;
        all.push(Branch {
            test,
            then,
            at: here(env, node.at),
        })?;
    }
    let mut other = match last {
        Some(last) => {
            let (other, ends) = inner(w, env, last, context, less)?;
            completes = completes || ends;
            Some(other)
        }
        None => None,
    };
    for _ in 0..u64::MAX {
        let Some(branch) = all.pop() else {
            break;
        };
        let at = if all.is_empty() { at } else { branch.at };
        let form = StmtForm::If(branch.test, branch.then, other);
        other = Some(w.pool.stmts.add(at, form)?);
    }
    Ok(Judged {
        stmt: other,
        completes,
    })
}

/// Whether a literal is `false` or 0.
fn is_zero(w: &World, n: NodeId) -> bool {
    match w.pool.syntax.node(n).form {
        Form::False | Form::Integer(_, 0) => true,
        _ => false,
    }
}

/// `e;` An `assert` of the literal `false` or 0 doesn't complete.
fn expression(w: &mut World, env: Env, e: NodeId, at: Where, depth: u32) -> Result<Judged, Stop> {
    let tree = judge(w, env, e, None, depth)?;
    let completes = match w.pool.syntax.node(e).form {
        Form::Assert(test, _) => !is_zero(w, test),
        _ => true,
    };
    made(w, at, StmtForm::Expr(tree), completes)
}

fn flow_kind(w: &World, flow: FlowId) -> Option<(FlowKind, Option<FlowId>)> {
    w.flows
        .get(flow.0 as usize)
        .map(|known| (known.kind, known.outer))
}

/// `break;`
fn leave(w: &mut World, env: Env, at: Where) -> Result<Judged, Stop> {
    let Some(flow) = env.flow else {
        return w.refuse(25, at, None);
    };
    match w.flows.get_mut(flow.0 as usize) {
        Some(known) if known.kind != FlowKind::Rounds => known.broke = true,
        _ => return w.refuse(25, at, None),
    }
    made(w, at, StmtForm::Break, false)
}

/// `continue;`
fn go_on(w: &mut World, env: Env, at: Where) -> Result<Judged, Stop> {
    let mut flow = env.flow;
    for _ in 0..u64::MAX {
        match flow.and_then(|id| flow_kind(w, id)) {
            Some((FlowKind::Switch, outer)) => flow = outer,
            Some((FlowKind::Loop, _)) => return made(w, at, StmtForm::Continue, false),
            _ => break,
        }
    }
    w.refuse(25, at, None)
}

/// `return value;`
fn returned(
    w: &mut World,
    env: Env,
    value: Option<NodeId>,
    at: Where,
    context: &mut Context,
    depth: u32,
) -> Result<Judged, Stop> {
    if context.is_auto {
        return returned_auto(w, env, value, at, context, depth);
    }
    let is_void = context.result == Some(TypeId::VOID);
    match (value, context.result) {
        (None, _) if is_void => made(w, at, StmtForm::Return(None), false),
        (Some(value), Some(of)) if !is_void => {
            let tree = judge_to(w, env, value, of, depth)?;
            made(w, at, StmtForm::Return(Some(tree)), false)
        }
        _ => w.refuse(10, at, None),
    }
}

/// The same in an `auto` function, whose returns have one type.
fn returned_auto(
    w: &mut World,
    env: Env,
    value: Option<NodeId>,
    at: Where,
    context: &mut Context,
    depth: u32,
) -> Result<Judged, Stop> {
    let (tree, of) = match value {
        None => (None, TypeId::VOID),
        Some(value) => {
            let tree = judge(w, env, value, None, depth)?;
            let of = w.pool.trees.get(tree).of;
            let value_at = here(env, w.pool.syntax.node(value).at);
            check_auto(w, of, value_at)?;
            if of == TypeId::VOID {
                return w.refuse(10, at, None);
            }
            (Some(tree), of)
        }
    };
    let known = context.result;
    if known.unwrap_or(of) != of {
        return w.refuse(10, at, None);
    }
    context.result = Some(of);
    made(w, at, StmtForm::Return(tree), false)
}
