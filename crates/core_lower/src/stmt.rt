// The code of statements.
ghost use Rattle.std.specs.Prelude.{◌≡◌, ◌+◌, ◌<◌, ◌≤◌, ◌∷◌, [], ◌++◌, length, map, slice_set, IfOk, OnOk};
ghost use Rattle.dc_code.specs.declared.instr.Op.TheVariants as op;
ghost use Rattle.core_tree.specs.Nodes.{branch_with};
ghost use Rattle.core_tree.specs.Typed.{Each};
ghost use Rattle.core_tree.specs.Weight.{tree_weight, stmt_weight, stmts_weight, branches_weight, option_weight};
ghost use Rattle.core_lower_expr.specs.Lowered.{instr};
ghost use Rattle.core_lower_expr.specs.Slots.{names_of};
ghost use Rattle.core_lower.specs.Lowered.{branch_code, branches_code, branch_jumps, set_each, stmt_code, stmts_code, returned_code};

use core_lower_expr::{Slots, lower_at, put_op};
use core_tree::{Branch, Stmt, Tree};
use dc_code::{Instr, Op};
use dc_types::{Items, NoMemory, Place, copy_place};
use std::alloc::Global;
use std::mem;

/// The number of the next instruction.
pub fn next(instrs: &Items<Instr>) -> Result<u32, NoMemory>
    ensures { IfOk result (λ n. n ≡ length instrs.now) }
{
    match u32::try_from(instrs.len()) {
        Ok(n) => Ok(n),
        Err(_) => Err(NoMemory),
    }
}

/// Another instruction in the place of one, when a jump's target is known.
fn set_op(
    alloc: Global,
    instrs: &mut Items<Instr>,
    at: u32,
    place: &Place,
    op: Op,
) -> Result<(), NoMemory>
    requires { at < length instrs.old }
    ensures { OnOk result (instrs.new ≡ slice_set instrs.old at (instr place.now op)) }
{
    let place = copy_place(alloc, place)?;
    let mut all = mem::replace(instrs, Items::new(alloc)).into_vec();
    all[at as usize] = Instr { place, op };
    *instrs = Items::from_vec(all);
    Ok(())
}

/// The jumps that stand there lead to the next instruction.
fn set_jumps(
    alloc: Global,
    place: &Place,
    jumps: &[u32],
    instrs: &mut Items<Instr>,
) -> Result<(), NoMemory>
    requires { Each (λ n. n < length instrs.old) jumps.now }
    ensures { OnOk result (instrs.new ≡ set_each instrs.old jumps.now (instr place.now (op.Jump (length instrs.old)))) }
{
    let end = next(instrs)?;
    for at in jumps {
        set_op(alloc, instrs, *at, place, Op::Jump(end))?;
    }
    Ok(())
}

fn lower_return(
    alloc: Global,
    place: &Place,
    e: &Option<Tree>,
    at: &Slots,
    instrs: &mut Items<Instr>,
) -> Result<(), NoMemory>
    requires { at.now.spare + option_weight e.now ≤ 4194304 }
    ensures { OnOk result (instrs.new ≡ instrs.old ++ returned_code (names_of at.now) place.now e.now (length instrs.old) at.now.spare) }
{
    match e {
        None => put_op(alloc, instrs, place, Op::Return(at.spare, 0)),
        Some(e) => {
            lower_at(alloc, e, at, at.spare, instrs)?;
            put_op(alloc, instrs, place, Op::Return(at.spare, 1))
        }
    }
}

#[cycle(lower_stmt)]
fn lower_stmt(
    alloc: Global,
    t: &Stmt,
    at: &Slots,
    instrs: &mut Items<Instr>,
) -> Result<(), NoMemory>
    requires { at.now.spare + stmt_weight t.now ≤ 4194304 }
    ensures { OnOk result (instrs.new ≡ instrs.old ++ stmt_code (names_of at.now) t.now (length instrs.old) at.now.spare) }
{
    let spare = at.spare;
    match t {
        Stmt::Eval(e) => lower_at(alloc, e, at, spare, instrs),
        Stmt::Declare(v, e) => {
            lower_at(alloc, e, at, spare, instrs)?;
            put_op(
                alloc,
                instrs,
                &v.place,
                Op::Copy(at.slot(&v.place), spare, 1),
            )
        }
        Stmt::Block(stmts) => lower_block(alloc, stmts.as_slice(), at, instrs),
        Stmt::If(place, branches, last) => {
            let jumps = lower_branches(alloc, place, branches.as_slice(), at, instrs)?;
            lower_block(alloc, last.as_slice(), at, instrs)?;
            set_jumps(alloc, place, jumps.as_slice(), instrs)
        }
        Stmt::While(place, e, body) => {
            let start = next(instrs)?;
            put_op(alloc, instrs, place, Op::Jump(0))?;
            let turn = next(instrs)?;
            put_op(alloc, instrs, place, Op::Turn)?;
            lower_block(alloc, body.as_slice(), at, instrs)?;
            let test = next(instrs)?;
            lower_at(alloc, e, at, spare, instrs)?;
            put_op(alloc, instrs, place, Op::JumpOther(spare, turn))?;
            set_op(alloc, instrs, start, place, Op::Jump(test))
        }
        Stmt::Return(place, e) => lower_return(alloc, place, e, at, instrs),
    }
}

/// A branch, whose last instruction is a jump with its target still to be told. The answer is where that stands.
#[cycle(lower_stmt)]
fn lower_branch(
    alloc: Global,
    place: &Place,
    b: &Branch<Stmt>,
    at: &Slots,
    instrs: &mut Items<Instr>,
) -> Result<u32, NoMemory>
    requires { at.now.spare + (tree_weight b.now.condition + stmts_weight b.now.body) ≤ 4194304 }
    ensures code { OnOk result (instrs.new ≡ instrs.old ++ branch_code (names_of at.now) place.now 0 (branch_with (stmt_code (names_of at.now)) b.now) (length instrs.old) at.now.spare) }
    ensures jump { IfOk result (λ n. n + 1 ≡ length instrs.new) }
{
    lower_at(alloc, &b.condition, at, at.spare, instrs)?;
    let test_end = next(instrs)?;
    put_op(alloc, instrs, place, Op::JumpZero(at.spare, 0))?;
    lower_block(alloc, b.body.as_slice(), at, instrs)?;
    let jump = next(instrs)?;
    put_op(alloc, instrs, place, Op::Jump(0))?;
    let second = next(instrs)?;
    set_op(
        alloc,
        instrs,
        test_end,
        place,
        Op::JumpZero(at.spare, second),
    )?;
    Ok(jump)
}

/// The branches of an `if`, and where their jumps to its end stand.
#[cycle(lower_stmt)]
fn lower_branches(
    alloc: Global,
    place: &Place,
    branches: &[Branch<Stmt>],
    at: &Slots,
    instrs: &mut Items<Instr>,
) -> Result<Items<u32>, NoMemory>
    requires { at.now.spare + branches_weight (map (branch_with stmt_weight) branches.now) ≤ 4194304 }
    ensures code { OnOk result (instrs.new ≡ instrs.old ++ branches_code (names_of at.now) place.now 0 (map (branch_with (stmt_code (names_of at.now))) branches.now) (length instrs.old) at.now.spare) }
    ensures jumps { IfOk result (λ jumps. jumps ≡ branch_jumps (names_of at.now) place.now (map (branch_with (stmt_code (names_of at.now))) branches.now) (length instrs.old) at.now.spare) }
{
    let mut jumps = Items::new(alloc);
    for b in branches {
        let jump = lower_branch(alloc, place, b, at, instrs)?;
        jumps.push(jump)?;
    }
    Ok(jumps)
}

#[cycle(lower_stmt)]
pub fn lower_block(
    alloc: Global,
    stmts: &[Stmt],
    at: &Slots,
    instrs: &mut Items<Instr>,
) -> Result<(), NoMemory>
    requires { at.now.spare + stmts_weight stmts.now ≤ 4194304 }
    ensures { OnOk result (instrs.new ≡ instrs.old ++ stmts_code (names_of at.now) stmts.now (length instrs.old) at.now.spare) }
{
    for t in stmts {
        lower_stmt(alloc, t, at, instrs)?;
    }
    Ok(())
}
