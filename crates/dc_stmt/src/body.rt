// The body of a function (D specification, "Functions").
use crate::statements::{Context, statement};
use crate::weights::weigh;
use dc_decl::DEEP;
use dc_facts::{check_cells, decl_env, place_of, signature_of, this_of};
use dc_model::{BlockId, Env, Stop, Symbol, World};
use dc_syntax::{Form, FunctionNode, List};
use dc_tree::{Body, DeclId, StmtForm, Taken, TypeId, Variable};
use dc_typing::parameters;

/// The greatest weight of a function.
const WEIGHT: u64 = 4_194_304;

/// A body that is judged: how far it has come.
#[derive(Drop)]
pub struct BodyWork {
    function: FunctionNode,
    decl: DeclId,
    env: Env,
    context: Context,
    parameters: List,
    /// The statements of the outermost block that were judged.
    done: Vec<u32>,
    next: u32,
    completes: bool,
}

fn function_of(w: &World, id: DeclId) -> Result<FunctionNode, Stop> {
    match w.pool.syntax.node(w.decl(id)?.node).form {
        Form::Function(n) => match w.pool.syntax.function(n) {
            Some(function) => Ok(function),
            None => Err(Stop::NoMemory),
        },
        _ => Err(Stop::NoMemory),
    }
}

/// Declares the parameters in the outermost block.
fn declare_parameters(w: &mut World, block: BlockId, taken: &[Taken]) -> Result<List, Stop> {
    let mut numbers = Vec::new(w.alloc);
    for parameter in taken {
        check_cells(w, parameter.of, parameter.at)?;
        let variable = w.pool.variables.add(Variable {
            name: parameter.name,
            of: parameter.of,
            at: parameter.at,
            is_const: parameter.is_const,
            is_ref: parameter.by_ref,
            own: false,
        })?;
        w.locals.put(block, parameter.name, Symbol::Local(variable), parameter.at)?;
        numbers.push(variable.0)?;
    }
    Ok(w.pool.trees.list(numbers.as_slice())?)
}

/// Begins a body: its parameters are declared.
pub fn open_body(w: &mut World, decl: DeclId) -> Result<BodyWork, Stop> {
    let function = function_of(w, decl)?;
    let known = w.decl(decl)?;
    let outer = decl_env(w, known)?;
    let (taken, result_type) = match function.result {
        Some(_) => {
            let signature = signature_of(w, decl)?;
            let taken = Vec::from_slice(w.alloc, w.pool.bodies.taken(signature))?;
            (taken, Some(signature.result))
        }
        None => (parameters(w, outer, known, DEEP)?, None),
    };
    let block = w.locals.open(outer.block, false)?;
    let parameters = declare_parameters(w, block, taken.as_slice())?;
    let this = this_of(w, known.unit)?;
    Ok(BodyWork {
        function,
        decl,
        env: Env {
            block: Some(block),
            this,
            flow: None,
            ..outer
        },
        context: Context {
            result: result_type,
            is_auto: function.result.is_none(),
        },
        parameters,
        done: Vec::new(w.alloc),
        next: 0,
        completes: true,
    })
}

/// Goes on with a body; at its end it is kept.
pub fn judge_body(w: &mut World, work: &mut BodyWork) -> Result<(), Stop> {
    for _ in 0..u64::MAX {
        if work.next >= work.function.body.len {
            break;
        }
        let n = w.pool.syntax.item(work.function.body, work.next);
        let mut context = work.context;
        let judged = statement(w, work.env, n, &mut context, DEEP)?;
        work.context = context;
        if let Some(stmt) = judged.stmt {
            work.done.push(stmt.0)?;
        }
        work.completes = work.completes && judged.completes;
        work.next = work.next.saturating_add(1);
    }
    finish(w, work)
}

fn finish(w: &mut World, work: &mut BodyWork) -> Result<(), Stop> {
    let result_type = match work.context.result {
        Some(of) => of,
        None => TypeId::VOID,
    };
    let at = w.decl(work.decl)?.at;
    if result_type != TypeId::VOID && work.completes {
        return w.refuse(25, at, None);
    }
    let list = w.pool.stmts.list(work.done.as_slice())?;
    let block = w.pool.stmts.add(at, StmtForm::Block(list))?;
    let weight = body_weight(w, work, block)?;
    if weight > WEIGHT {
        return w.refuse(18, at, None);
    }
    let place = place_of(w, work.decl)?;
    w.pool.bodies.add_body(
        work.decl,
        Body {
            parameters: work.parameters,
            has_this: work.env.this.is_some(),
            block,
            result: result_type,
            weight: u32::try_from(weight).unwrap_or(u32::MAX),
            place,
        },
    )?;
    Ok(())
}

/// The weight of a function: the cells of its parameters and of what stands in its body, with 4 more for each.
fn body_weight(w: &mut World, work: &BodyWork, block: dc_tree::StmtId) -> Result<u64, Stop> {
    let mut sum: u64 = if work.env.this.is_some() { 6 } else { 0 };
    for k in 0..work.parameters.len {
        let id = dc_tree::VarId(w.pool.trees.item(work.parameters, k).0);
        let Some(variable) = w.pool.variables.get(id) else {
            continue;
        };
        let own = if variable.is_ref {
            2
        } else {
            dc_facts::cells(w, variable.of)?
        };
        sum = sum.saturating_add(own).saturating_add(4);
    }
    let inside = weigh(w, block)?;
    Ok(sum.saturating_add(inside))
}
