// Statements and bodies.
use crate::conditions::decide;
use crate::lowering::{Entry, Home, Lowering, Pending};
use crate::places::{address, place};
use crate::sizes::{NESTED, cells, element_cells, holds_fixed, result_cells};
use crate::values::{effect, operand, value};
use dc_code::Op;
use dc_run::FnCode;
use dc_syntax::{List, Want};
use dc_tree::{
    Body, DeclId, Pool, StmtForm, StmtId, TreeId, ValueId, VarId, Variable, WalkNode, Where,
};
use dc_types::{BinOp, CmpOp, Kind};

/// How deep trees may be nested, but for chains.
const DEPTH: u32 = 20000;

/// The code of a function.
pub fn lower_body(l: &mut Lowering, pool: &Pool, decl: DeclId) -> Result<(), Want> {
    let Some(body) = pool.bodies.body(decl) else {
        return Err(Want);
    };
    let n = l.function(decl)?;
    let first = l.next()?;
    let gives = result_cells(pool, body.result);
    l.begin(gives);
    let params = take_parameters(l, pool, body)?;
    statement(l, pool, body.block, DEPTH)?;
    let zero = l.temp(gives);
    l.zeros(zero, gives)?;
    l.emit(Op::Return(zero, gives))?;
    l.program.seal()?;
    l.program.set_function(
        n,
        FnCode {
            first,
            weight: body.weight,
            frame: l.most,
            params,
            result: gives,
            place: body.place,
            is_there: true,
        },
    );
    Ok(())
}

/// The code of an expression that is evaluated alone, whose words are the first of the frame.
pub fn lower_entry(l: &mut Lowering, pool: &Pool, tree: TreeId) -> Result<Entry, Want> {
    let first = l.next()?;
    let n = result_cells(pool, pool.trees.get(tree).of);
    l.begin(n);
    let d = l.temp(n.max(1));
    value(l, pool, tree, d, DEPTH)?;
    l.emit(Op::Return(d, n))?;
    l.program.seal()?;
    Ok(Entry {
        first,
        frame: l.most,
    })
}

/// The code that calls a program's `main`, whose number is the first word of the frame.
pub fn lower_start(l: &mut Lowering, pool: &Pool, main: DeclId) -> Result<Entry, Want> {
    let gives = match pool.bodies.signature(main) {
        Some(signature) => result_cells(pool, signature.result),
        None => 0,
    };
    let first = l.next()?;
    l.begin(gives);
    let d = l.temp(gives.max(1));
    let f = l.function(main)?;
    l.emit(Op::Call(f, d, d))?;
    l.emit(Op::Return(d, gives))?;
    l.program.seal()?;
    Ok(Entry {
        first,
        frame: l.most,
    })
}

/// Gives parameters their slots. Those that live in blocks get them.
fn take_parameters(l: &mut Lowering, pool: &Pool, body: Body) -> Result<u32, Want> {
    if body.has_this {
        l.temp(2);
    }
    let mut slots = Vec::new(l.alloc);
    for n in pool.trees.numbers(body.parameters) {
        let Some(variable) = pool.variables.get(VarId(*n)) else {
            return Err(Want);
        };
        let s = l.temp(if variable.is_ref {
            2
        } else {
            cells(pool, variable.of)
        });
        l.set_home(
            VarId(*n),
            if variable.is_ref {
                Home::Behind(s)
            } else {
                Home::Slot(s)
            },
        )?;
        slots.push(s)?;
    }
    let size = l.top;
    for (n, s) in pool.trees.numbers(body.parameters).iter().zip(slots.iter()) {
        if let Some(variable) = pool.variables.get(VarId(*n)) {
            l.at = variable.at;
            if is_own(pool, variable) {
                own_block(l, pool, VarId(*n), variable, *s)?;
            }
        }
    }
    Ok(size)
}

/// Whether a variable lives in a block of its own.
fn is_own(pool: &Pool, variable: Variable) -> bool {
    variable.own && !variable.is_ref && holds_fixed(pool, variable.of, NESTED)
}

/// A variable gets its block, with the words that stand in the frame.
fn own_block(
    l: &mut Lowering,
    pool: &Pool,
    id: VarId,
    variable: Variable,
    s: u32,
) -> Result<(), Want> {
    let n = cells(pool, variable.of);
    let p = l.temp(2);
    l.emit(Op::Own(p, n))?;
    l.emit(Op::Store(p, s, n))?;
    l.set_home(id, Home::Behind(p))
}

#[cycle(statement)]
fn statement(l: &mut Lowering, pool: &Pool, id: StmtId, depth: u32) -> Result<(), Want> {
    if depth == 0 {
        return Err(Want);
    }
    let stmt = pool.stmts.get(id);
    l.at = stmt.at;
    match stmt.form {
        StmtForm::Block(list) => {
            let top = l.top;
            for n in pool.stmts.numbers(list) {
                statement(l, pool, StmtId(*n), depth - 1)?;
            }
            l.top = top;
        }
        // what is declared in it keeps its slots
        StmtForm::Sequence(list) => {
            for n in pool.stmts.numbers(list) {
                statement(l, pool, StmtId(*n), depth - 1)?;
            }
        }
        StmtForm::Expr(tree) => effect(l, pool, tree, depth)?,
        StmtForm::Declare(v, tree) => declare(l, pool, v, tree, depth)?,
        StmtForm::If(_, _, _) => branches(l, pool, id, depth - 1)?,
        StmtForm::Break => {
            let jump = l.emit(Op::Jump(0))?;
            l.wait(Pending::Break, jump)?;
        }
        StmtForm::Continue => {
            let jump = l.emit(Op::Jump(0))?;
            l.wait(Pending::Continue, jump)?;
        }
        StmtForm::Return(tree) => give(l, pool, tree, depth)?,
        StmtForm::Switch(tree, list) => switch(l, pool, tree, list, depth - 1)?,
        _ => looped(l, pool, stmt.form, stmt.at, depth - 1)?,
    }
    Ok(())
}

fn give(l: &mut Lowering, pool: &Pool, tree: Option<TreeId>, depth: u32) -> Result<(), Want> {
    let top = l.top;
    let n = l.gives;
    let s = match tree {
        Some(tree) => operand(l, pool, tree, depth)?,
        None => 0,
    };
    l.emit(Op::Return(s, n))?;
    l.top = top;
    Ok(())
}

fn declare(l: &mut Lowering, pool: &Pool, id: VarId, tree: TreeId, depth: u32) -> Result<(), Want> {
    let Some(variable) = pool.variables.get(id) else {
        return Err(Want);
    };
    let n = cells(pool, variable.of);
    if is_own(pool, variable) {
        let p = l.temp(2);
        l.at = variable.at;
        l.emit(Op::Own(p, n))?;
        let top = l.top;
        let t = l.temp(n);
        value(l, pool, tree, t, depth)?;
        l.emit(Op::Store(p, t, n))?;
        l.top = top;
        return l.set_home(id, Home::Behind(p));
    }
    let s = l.temp(n);
    value(l, pool, tree, s, depth)?;
    l.set_home(id, Home::Slot(s))
}

/// `if`s that stand one in the `else` of the other.
#[cycle(statement)]
fn branches(l: &mut Lowering, pool: &Pool, id: StmtId, depth: u32) -> Result<(), Want> {
    if depth == 0 {
        return Err(Want);
    }
    let mut ends = Vec::new(l.alloc);
    let mut at = Some(id);
    for _ in 0..u64::MAX {
        let Some(this) = at else {
            break;
        };
        let stmt = pool.stmts.get(this);
        let StmtForm::If(c, then, other) = stmt.form else {
            statement(l, pool, this, depth - 1)?;
            break;
        };
        let waiting = l.waiting(Pending::Branch);
        decide(l, pool, c, false, Pending::Branch, depth)?;
        statement(l, pool, then, depth - 1)?;
        if other.is_some() {
            ends.push(l.emit(Op::Jump(0))?)?;
        }
        l.settle(Pending::Branch, waiting)?;
        at = other;
    }
    for end in ends.as_slice() {
        l.land(*end)?;
    }
    Ok(())
}

#[cycle(statement)]
fn looped(
    l: &mut Lowering,
    pool: &Pool,
    form: StmtForm,
    at: Where,
    depth: u32,
) -> Result<(), Want> {
    if depth == 0 {
        return Err(Want);
    }
    let top = l.top;
    let breaks = l.waiting(Pending::Break);
    let continues = l.waiting(Pending::Continue);
    match form {
        StmtForm::While(c, body) => {
            turns(l, pool, Some(c), None, body, continues, at, depth - 1)?;
        }
        StmtForm::For(c, step, body) => {
            turns(l, pool, c, step, body, continues, at, depth - 1)?;
        }
        StmtForm::Do(body, c) => {
            let begin = l.next()?;
            l.at = at;
            l.emit(Op::Turn)?;
            statement(l, pool, body, depth - 1)?;
            l.settle(Pending::Continue, continues)?;
            again(l, pool, c, begin, depth)?;
        }
        StmtForm::Count(lo, hi, name, counter, body) => {
            count(
                l,
                pool,
                lo,
                hi,
                name,
                counter,
                body,
                at,
                continues,
                depth - 1,
            )?;
        }
        StmtForm::Walk(n) => match pool.stmts.walk(n) {
            Some(node) => walk_over(l, pool, node, at, continues, depth - 1)?,
            None => return Err(Want),
        },
        _ => {}
    }
    l.settle(Pending::Break, breaks)?;
    l.top = top;
    Ok(())
}

/// Goes back where the condition holds.
fn again(l: &mut Lowering, pool: &Pool, c: TreeId, begin: u32, depth: u32) -> Result<(), Want> {
    let waiting = l.waiting(Pending::Branch);
    decide(l, pool, c, true, Pending::Branch, depth)?;
    l.settle_at(Pending::Branch, waiting, begin);
    Ok(())
}

/// `while` and `for`: the condition stands behind the body.
#[cycle(statement)]
fn turns(
    l: &mut Lowering,
    pool: &Pool,
    c: Option<TreeId>,
    step: Option<TreeId>,
    body: StmtId,
    continues: usize,
    at: Where,
    depth: u32,
) -> Result<(), Want> {
    if depth == 0 {
        return Err(Want);
    }
    let test = l.emit(Op::Jump(0))?;
    let begin = l.next()?;
    l.at = at;
    l.emit(Op::Turn)?;
    statement(l, pool, body, depth - 1)?;
    l.settle(Pending::Continue, continues)?;
    if let Some(step) = step {
        effect(l, pool, step, depth)?;
    }
    l.land(test)?;
    match c {
        Some(c) => again(l, pool, c, begin, depth),
        None => {
            l.emit(Op::Jump(begin))?;
            Ok(())
        }
    }
}

/// `foreach` over bounds: a hidden counter, which is copied to the name at each turn.
#[cycle(statement)]
fn count(
    l: &mut Lowering,
    pool: &Pool,
    lo: TreeId,
    hi: TreeId,
    name: VarId,
    counter: VarId,
    body: StmtId,
    at: Where,
    continues: usize,
    depth: u32,
) -> Result<(), Want> {
    if depth == 0 {
        return Err(Want);
    }
    let kind = pool.types.kind(pool.trees.get(lo).of).unwrap_or(Kind::I64);
    let s = l.temp(5);
    let (end, shown) = (s.saturating_add(1), s.saturating_add(2));
    let (one, test) = (s.saturating_add(3), s.saturating_add(4));
    value(l, pool, lo, s, depth)?;
    value(l, pool, hi, end, depth)?;
    l.set_home(counter, Home::Slot(s))?;
    l.set_home(name, Home::Slot(shown))?;
    l.at = at;
    let first = l.emit(Op::Jump(0))?;
    let begin = l.next()?;
    l.emit(Op::Turn)?;
    l.copy(shown, s, 1)?;
    statement(l, pool, body, depth - 1)?;
    l.settle(Pending::Continue, continues)?;
    l.at = at;
    l.emit(Op::Const(one, 1))?;
    l.emit(Op::Binary(BinOp::Add, Kind::I64, s, s, one))?;
    l.land(first)?;
    l.emit(Op::Compare(CmpOp::Less, kind, test, s, end))?;
    l.emit(Op::JumpOther(test, begin))?;
    Ok(())
}

/// The slots of a walk: the slice or address, its length, the number of the element, and others.
#[derive(Clone, Copy)]
struct Walk {
    from: u32,
    len: u32,
    at: u32,
    spare: u32,
    cells: u32,
    is_fixed: Option<u32>,
}

fn begin_walk(l: &mut Lowering, pool: &Pool, node: WalkNode, depth: u32) -> Result<Walk, Want> {
    let of = pool.types.base(pool.trees.get(node.array).of);
    let is_fixed = pool.types.fixed_length(of);
    let from = l.temp(3);
    let at = l.temp(1);
    let spare = l.temp(4);
    match is_fixed {
        Some(n) => {
            let spot = place(l, pool, node.array, depth)?;
            let p = address(l, spot)?;
            l.copy(from, p, 2)?;
            l.emit(Op::Const(from.saturating_add(2), u64::from(n)))?;
        }
        None => value(l, pool, node.array, from, depth)?,
    }
    l.emit(Op::Const(at, 0))?;
    Ok(Walk {
        from,
        len: from.saturating_add(2),
        at,
        spare,
        cells: element_cells(pool, of),
        is_fixed,
    })
}

/// The names of a turn of a walk.
fn walk_names(
    l: &mut Lowering,
    pool: &Pool,
    node: WalkNode,
    walk: Walk,
    depth: u32,
) -> Result<(), Want> {
    if let Some(index) = node.index {
        let Some(variable) = pool.variables.get(index) else {
            return Err(Want);
        };
        let s = l.temp(1);
        let kind = pool.types.kind(variable.of).unwrap_or(Kind::U64);
        l.emit(Op::Cast(kind, s, walk.at))?;
        l.set_home(index, Home::Slot(s))?;
    }
    let p = l.temp(2);
    match walk.is_fixed {
        Some(n) => l.emit(Op::FixedItem(p, walk.from, walk.at, n, walk.cells))?,
        None => l.emit(Op::Item(p, walk.from, walk.at, walk.cells))?,
    };
    l.set_home(node.item, Home::Behind(p))?;
    match pool.variables.get(node.element) {
        Some(variable) if variable.is_ref => l.set_home(node.element, Home::Behind(p)),
        _ => declare(l, pool, node.element, node.value, depth),
    }
}

/// `foreach` over an array.
#[cycle(statement)]
fn walk_over(
    l: &mut Lowering,
    pool: &Pool,
    node: WalkNode,
    at: Where,
    continues: usize,
    depth: u32,
) -> Result<(), Want> {
    if depth == 0 {
        return Err(Want);
    }
    let walk = begin_walk(l, pool, node, depth)?;
    l.at = at;
    let first = l.emit(Op::Jump(0))?;
    let begin = l.next()?;
    l.emit(Op::Turn)?;
    walk_names(l, pool, node, walk, depth)?;
    statement(l, pool, node.body, depth - 1)?;
    l.settle(Pending::Continue, continues)?;
    l.at = at;
    let test = walk.spare.saturating_add(1);
    l.emit(Op::Const(walk.spare, 1))?;
    l.emit(Op::Binary(BinOp::Add, Kind::I64, walk.at, walk.at, walk.spare))?;
    l.land(first)?;
    l.emit(Op::Compare(CmpOp::Less, Kind::I64, test, walk.at, walk.len))?;
    l.emit(Op::JumpOther(test, begin))?;
    Ok(())
}

/// A jump where the value is that of a label.
fn label(l: &mut Lowering, pool: &Pool, tree: TreeId, s: u32, label: ValueId) -> Result<u32, Want> {
    let top = l.top;
    let of = pool.trees.get(tree).of;
    let n = cells(pool, of);
    let v = l.temp(n);
    let t = l.temp(1);
    crate::constants::constant(l, pool, of, label, v, NESTED)?;
    match pool.types.kind(of) {
        Some(kind) => l.emit(Op::Compare(CmpOp::Equal, kind, t, s, v))?,
        None => l.emit(Op::Same(t, s, v, 1))?,
    };
    l.top = top;
    l.emit(Op::JumpOther(t, 0))
}

/// The tests of a `switch`: the jumps to each group, and behind them one to its default.
#[cycle(statement)]
fn switch(l: &mut Lowering, pool: &Pool, tree: TreeId, list: List, depth: u32) -> Result<(), Want> {
    if depth == 0 {
        return Err(Want);
    }
    let top = l.top;
    let breaks = l.waiting(Pending::Break);
    let s = l.temp(cells(pool, pool.trees.get(tree).of));
    value(l, pool, tree, s, depth)?;
    let mut jumps = Vec::new(l.alloc);
    for (k, n) in pool.stmts.numbers(list).iter().enumerate() {
        let Some(node) = pool.stmts.case(*n) else {
            return Err(Want);
        };
        if let Some(values) = node.values {
            for v in pool.stmts.numbers(values) {
                jumps.push((k, label(l, pool, tree, s, ValueId(*v))?))?;
            }
        }
    }
    let otherwise = l.emit(Op::Jump(0))?;
    groups(l, pool, list, jumps.as_slice(), otherwise, depth - 1)?;
    l.settle(Pending::Break, breaks)?;
    l.top = top;
    Ok(())
}

/// The statements of the groups, each of which but an empty one ends the `switch`.
#[cycle(statement)]
fn groups(
    l: &mut Lowering,
    pool: &Pool,
    list: List,
    jumps: &[(usize, u32)],
    otherwise: u32,
    depth: u32,
) -> Result<(), Want> {
    if depth == 0 {
        return Err(Want);
    }
    for (k, n) in pool.stmts.numbers(list).iter().enumerate() {
        let Some(node) = pool.stmts.case(*n) else {
            return Err(Want);
        };
        for (group, jump) in jumps {
            if *group == k {
                l.land(*jump)?;
            }
        }
        if node.values.is_none() {
            l.land(otherwise)?;
        }
        statement(l, pool, node.body, depth - 1)?;
    }
    Ok(())
}
