// The code of an expression.
ghost use Rattle.std.specs.Prelude.{◌≡◌, ◌+◌, ◌≤◌, ◌∷◌, [], ◌++◌, length, map, OnOk, IfOk};
ghost use Rattle.core_tree.specs.Weight.{sum, operations_weight, tree_weight};
ghost use Rattle.core_tree.specs.Nodes.{operation_with};
ghost use Rattle.core_lower_expr.specs.Lowered.{instr, each_code, operations_code, put_ops, line_ops, print_ops, tree_code};
ghost use Rattle.core_lower_expr.specs.Slots.{names_of};
ghost use Rattle.core_lower_expr.specs.Follows.{Lowers};

use crate::Slots;
use crate::word::{kind_of, number, word};
use core_tree::{Operation, Tree};
use dc_code::{Draft, Instr, Op};
use dc_types::{Items, Kind, NoMemory, Place, Ty, copy_place};
use std::alloc::Global;

/// One more instruction, at a place.
pub fn put_op(
    alloc: Global,
    instrs: &mut Items<Instr>,
    place: &Place,
    op: Op,
) -> Result<(), NoMemory>
    ensures { OnOk result (instrs.new ≡ instrs.old ++ instr place.now op ∷ []) }
{
    let place = copy_place(alloc, place)?;
    instrs.push(Instr { place, op })?;
    Ok(())
}

/// The slot behind one.
fn behind(slot: u32) -> Result<u32, NoMemory>
    ensures { IfOk result (λ next. next ≡ slot + 1) }
{
    match slot.checked_add(1) {
        Some(next) => Ok(next),
        None => Err(NoMemory),
    }
}

/// The numbers in the slots from one on are put, each by its type.
fn put_numbers(
    alloc: Global,
    instrs: &mut Items<Instr>,
    place: &Place,
    types: &[Ty],
    spare: u32,
) -> Result<(), NoMemory>
    ensures { OnOk result (instrs.new ≡ instrs.old ++ put_ops place.now types.now spare) }
{
    let mut slot = spare;
    for ty in types {
        put_op(alloc, instrs, place, Op::PutInt(kind_of(ty), slot))?;
        slot = behind(slot)?;
    }
    Ok(())
}

/// A line feed is put, if one is wanted.
fn put_line(
    alloc: Global,
    instrs: &mut Items<Instr>,
    place: &Place,
    line: bool,
    spare: u32,
) -> Result<(), NoMemory>
    ensures { OnOk result (instrs.new ≡ instrs.old ++ line_ops place.now line spare) }
{
    if line {
        put_op(alloc, instrs, place, Op::Const(spare, 10))?;
        put_op(alloc, instrs, place, Op::PutInt(Kind::Char, spare))?;
    }
    Ok(())
}

/// The code of an expression behind other instructions. Its temporaries take slots from `spare` on, and the words of its
/// value stand from there on at the end.
#[cycle(lower)]
pub fn lower_at(
    alloc: Global,
    t: &Tree,
    at: &Slots,
    spare: u32,
    instrs: &mut Items<Instr>,
) -> Result<(), NoMemory>
    requires { spare + tree_weight t.now ≤ 4194304 }
    ensures { OnOk result (instrs.new ≡ instrs.old ++ tree_code (names_of at.now) t.now (length instrs.old) spare) }
{
    match t {
        Tree::Constant(place, c) => {
            put_op(
                alloc,
                instrs,
                place,
                Op::Const(spare, word(number(&c.tree))),
            )
        }
        Tree::Local(place, v) => {
            put_op(alloc, instrs, place, Op::Copy(spare, at.slot(&v.place), 1))
        }
        Tree::Assign(place, v, e) => {
            lower_at(alloc, e.get(), at, spare, instrs)?;
            put_op(alloc, instrs, place, Op::Copy(at.slot(&v.place), spare, 1))
        }
        Tree::Chain(place, kind, first, rest) => {
            lower_at(alloc, first.get(), at, spare, instrs)?;
            lower_operations(alloc, place, *kind, rest.as_slice(), at, spare, instrs)
        }
        Tree::Compare(place, op, kind, a, b) => {
            lower_at(alloc, a.get(), at, spare, instrs)?;
            lower_at(alloc, b.get(), at, spare + 1, instrs)?;
            put_op(
                alloc,
                instrs,
                place,
                Op::Compare(*op, *kind, spare, spare, spare + 1),
            )
        }
        Tree::Call(place, f, _, args) => {
            lower_each(alloc, args.as_slice(), at, spare, instrs)?;
            put_op(alloc, instrs, place, Op::Call(at.function(f), spare, spare))
        }
        Tree::Print(place, types, args, line) => {
            lower_each(alloc, args.as_slice(), at, spare, instrs)?;
            put_numbers(alloc, instrs, place, types.as_slice(), spare)?;
            put_line(alloc, instrs, place, *line, spare)?;
            put_op(alloc, instrs, place, Op::Flush)
        }
    }
}

/// The operations of a chain work on the value in the slot `spare`, and leave theirs there.
#[cycle(lower)]
fn lower_operations(
    alloc: Global,
    place: &Place,
    kind: Kind,
    operations: &[Operation<Tree>],
    at: &Slots,
    spare: u32,
    instrs: &mut Items<Instr>,
) -> Result<(), NoMemory>
    requires { spare + operations_weight (map (operation_with tree_weight) operations.now) ≤ 4194304 }
    ensures { OnOk result (instrs.new ≡ instrs.old ++ operations_code place.now kind (map (operation_with (tree_code (names_of at.now))) operations.now) (length instrs.old) spare) }
{
    for o in operations {
        lower_at(alloc, &o.operand, at, spare + 1, instrs)?;
        put_op(
            alloc,
            instrs,
            place,
            Op::Binary(o.operator, kind, spare, spare, spare + 1),
        )?;
    }
    Ok(())
}

/// Each value stands in the slot behind the one before.
#[cycle(lower)]
fn lower_each(
    alloc: Global,
    args: &[Tree],
    at: &Slots,
    spare: u32,
    instrs: &mut Items<Instr>,
) -> Result<(), NoMemory>
    requires { spare + sum (map tree_weight args.now) ≤ 4194304 }
    ensures { OnOk result (instrs.new ≡ instrs.old ++ each_code (map (tree_code (names_of at.now)) args.now) (length instrs.old) spare) }
{
    let mut slot = spare;
    for e in args {
        lower_at(alloc, e, at, slot, instrs)?;
        slot += 1;
    }
    Ok(())
}

/// The code of an expression behind that of the draft. Its temporaries take slots from `at.spare` on, at most as many as
/// it weighs, and the words of its value stand from there on at the end. After want of memory the draft is of no use.
pub fn lower_expr(alloc: Global, t: &Tree, at: &Slots, draft: &mut Draft) -> Result<(), NoMemory>
    requires { at.now.spare + tree_weight t.now ≤ 4194304 }
    ensures { OnOk result (draft.new ≡ record draft.old { instrs = draft.old.instrs ++ tree_code (names_of at.now) t.now (length draft.old.instrs) at.now.spare }) }
{
    lower_at(alloc, t, at, at.spare, &mut draft.instrs)
}

/// The law of the code of expressions: it does what the expression means, its temporaries and its value stand from the first
/// spare slot on, and it asks for no more words than the expression weighs.
pub fn lowering_law()
    ensures { Lowers }
{}
