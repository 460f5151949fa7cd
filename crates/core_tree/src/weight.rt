// How much functions weigh.
ghost use Rattle.std.specs.Prelude.{◌≡◌, ◌+◌, ◌*◌, ◌≤◌, min, map};
ghost use Rattle.core_tree.specs.Weight.{sum, tree_weight, operation_weight, option_weight, stmt_weight, stmts_weight, branch_weight, body_weight};

use crate::{Body, Branch, Operation, Stmt, Tree};

/// One more than the most that a function, or an expression with which a run begins, may weigh. It stands for every weight
/// above that limit.
pub const TOO_HEAVY: u32 = 4194305;

fn plus(a: u32, b: u32) -> u32
    requires left { a ≤ 4194305 }
    requires right { b ≤ 4194305 }
    ensures value { result ≡ min (a + b) 4194305 }
    ensures bound { result ≤ 4194305 }
{
    if a + b < TOO_HEAVY { a + b } else { TOO_HEAVY }
}

/// What an expression weighs: the cells of the type and 4 for each node.
#[cycle(tree_weights)]
pub fn tree_weight(t: &Tree) -> u32
    ensures value { result ≡ min (tree_weight t.now) 4194305 }
    ensures bound { result ≤ 4194305 }
{
    match t {
        Tree::Constant(_, _) => 5,
        Tree::Local(_, _) => 5,
        Tree::Assign(_, _, e) => plus(10, tree_weight(e.get())),
        Tree::Chain(_, _, first, rest) => {
            plus(tree_weight(first.get()), operations_weight(rest.as_slice()))
        }
        Tree::Compare(_, _, _, a, b) => plus(5, plus(tree_weight(a.get()), tree_weight(b.get()))),
        Tree::Call(_, _, _, args) => plus(5, trees_weight(args.as_slice())),
        Tree::Print(_, _, args, _) => plus(5, trees_weight(args.as_slice())),
    }
}

#[cycle(tree_weights)]
fn operations_weight(operations: &[Operation<Tree>]) -> u32
    ensures value { result ≡ min (sum (map operation_weight operations.now)) 4194305 }
    ensures bound { result ≤ 4194305 }
{
    let mut weight = 0;
    for o in operations {
        weight = plus(weight, plus(5, tree_weight(&o.operand)));
    }
    weight
}

#[cycle(tree_weights)]
fn trees_weight(trees: &[Tree]) -> u32
    ensures value { result ≡ min (sum (map tree_weight trees.now)) 4194305 }
    ensures bound { result ≤ 4194305 }
{
    let mut weight = 0;
    for t in trees {
        weight = plus(weight, tree_weight(t));
    }
    weight
}

fn option_weight(t: &Option<Tree>) -> u32
    ensures value { result ≡ min (option_weight t.now) 4194305 }
    ensures bound { result ≤ 4194305 }
{
    match t {
        None => 0,
        Some(t) => tree_weight(t),
    }
}

/// What a statement weighs: 8 for each statement, and its expressions. Each branch of an `if` is a statement.
#[cycle(stmt_weights)]
fn stmt_weight(t: &Stmt) -> u32
    ensures value { result ≡ min (stmt_weight t.now) 4194305 }
    ensures bound { result ≤ 4194305 }
{
    match t {
        Stmt::Eval(e) => plus(8, tree_weight(e)),
        Stmt::Declare(_, e) => plus(8, tree_weight(e)),
        Stmt::Block(stmts) => plus(8, stmts_weight(stmts.as_slice())),
        Stmt::If(_, branches, last) => {
            plus(
                branches_weight(branches.as_slice()),
                stmts_weight(last.as_slice()),
            )
        }
        Stmt::While(_, e, body) => plus(8, plus(tree_weight(e), stmts_weight(body.as_slice()))),
        Stmt::Return(_, e) => plus(8, option_weight(e)),
    }
}

#[cycle(stmt_weights)]
fn branches_weight(branches: &[Branch<Stmt>]) -> u32
    ensures value { result ≡ min (sum (map branch_weight branches.now)) 4194305 }
    ensures bound { result ≤ 4194305 }
{
    let mut weight = 0;
    for b in branches {
        let inside = plus(tree_weight(&b.condition), stmts_weight(b.body.as_slice()));
        weight = plus(weight, plus(8, inside));
    }
    weight
}

#[cycle(stmt_weights)]
fn stmts_weight(stmts: &[Stmt]) -> u32
    ensures value { result ≡ min (stmts_weight stmts.now) 4194305 }
    ensures bound { result ≤ 4194305 }
{
    let mut weight = 0;
    for t in stmts {
        weight = plus(weight, stmt_weight(t));
    }
    weight
}

/// What a number of variables weighs.
fn variables_weight(count: usize) -> u32
    ensures value { result ≡ min (5 * count) 4194305 }
    ensures bound { result ≤ 4194305 }
{
    if count < 838861 {
        5 * count as u32
    } else {
        TOO_HEAVY
    }
}

/// What a function weighs: 5 for each of its variables, and its statements. `TOO_HEAVY` stands for all above the limit.
pub fn body_weight(f: &Body) -> u32
    ensures value { result ≡ min (body_weight f.now) 4194305 }
    ensures bound { result ≤ 4194305 }
{
    let variables = plus(
        variables_weight(f.params.len()),
        variables_weight(f.locals.len()),
    );
    plus(variables, stmts_weight(f.stmts.as_slice()))
}
