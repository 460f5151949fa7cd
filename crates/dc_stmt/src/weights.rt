// What a body weighs: the words of its frame that calls count.
use dc_facts::{cells, push_parts};
use dc_model::{Stop, World};
use dc_tree::{StmtForm, StmtId, TreeForm, TreeId, VarId};

/// What is still to be weighed.
#[derive(Drop)]
struct Load {
    stmts: Vec<StmtId>,
    trees: Vec<TreeId>,
    sum: u64,
}

fn add_variable(w: &mut World, load: &mut Load, id: VarId) -> Result<(), Stop> {
    if let Some(variable) = w.pool.variables.get(id) {
        let own = cells(w, variable.of)?;
        load.sum = load.sum.saturating_add(own).saturating_add(4);
    }
    Ok(())
}

/// Weighs a statement without what stands in it, which is weighed later.
fn add_stmt(w: &mut World, load: &mut Load, id: StmtId) -> Result<(), Stop> {
    let form = w.pool.stmts.get(id).form;
    if let StmtForm::Sequence(_) = form {} else {
        load.sum = load.sum.saturating_add(8);
    }
    match form {
        StmtForm::Block(list) | StmtForm::Sequence(list) => {
            for n in w.pool.stmts.numbers(list) {
                load.stmts.push(StmtId(*n))?;
            }
        }
        StmtForm::Expr(tree) => load.trees.push(tree)?,
        StmtForm::Declare(variable, tree) => {
            add_variable(w, load, variable)?;
            load.trees.push(tree)?;
        }
        StmtForm::If(test, then, other) => {
            load.trees.push(test)?;
            load.stmts.push(then)?;
            if let Some(other) = other {
                load.stmts.push(other)?;
            }
        }
        StmtForm::While(test, body) | StmtForm::Do(body, test) => {
            load.trees.push(test)?;
            load.stmts.push(body)?;
        }
        StmtForm::For(test, step, body) => {
            load.stmts.push(body)?;
            for tree in [test, step] {
                if let Some(tree) = tree {
                    load.trees.push(tree)?;
                }
            }
        }
        StmtForm::Count(a, b, variable, _, body) => {
            add_variable(w, load, variable)?;
            load.trees.push(a)?;
            load.trees.push(b)?;
            load.stmts.push(body)?;
        }
        StmtForm::Return(Some(tree)) => load.trees.push(tree)?,
        _ => add_more(w, load, form)?,
    }
    Ok(())
}

fn add_more(w: &mut World, load: &mut Load, form: StmtForm) -> Result<(), Stop> {
    match form {
        StmtForm::Walk(n) => {
            let Some(walk) = w.pool.stmts.walk(n) else {
                return Ok(());
            };
            if let Some(index) = walk.index {
                add_variable(w, load, index)?;
            }
            add_variable(w, load, walk.element)?;
            load.trees.push(walk.array)?;
            load.stmts.push(walk.body)?;
        }
        StmtForm::Switch(tree, cases) => {
            load.trees.push(tree)?;
            for n in w.pool.stmts.numbers(cases) {
                if let Some(case) = w.pool.stmts.case(*n) {
                    load.stmts.push(case.body)?;
                }
            }
        }
        _ => {}
    }
    Ok(())
}

fn add_tree(w: &mut World, load: &mut Load, id: TreeId) -> Result<(), Stop> {
    let known = w.pool.trees.get(id);
    if let TreeForm::Address(_) = known.form {
        // an address is no node of its own
    } else {
        let own = cells(w, known.of)?;
        load.sum = load.sum.saturating_add(own).saturating_add(4);
    }
    push_parts(w, id, &mut load.trees)
}

/// The weight of a statement with all that stands in it.
pub(crate) fn weigh(w: &mut World, block: StmtId) -> Result<u64, Stop> {
    let mut load = Load {
        stmts: Vec::new(w.alloc),
        trees: Vec::new(w.alloc),
        sum: 0,
    };
    load.stmts.push(block)?;
    for _ in 0..u64::MAX {
        if let Some(tree) = load.trees.pop() {
            add_tree(w, &mut load, tree)?;
        } else if let Some(stmt) = load.stmts.pop() {
            add_stmt(w, &mut load, stmt)?;
        } else {
            break;
        }
    }
    // the outermost block is the body itself
    Ok(load.sum.saturating_sub(8))
}
