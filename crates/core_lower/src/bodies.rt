// The code of functions.
ghost use Rattle.std.specs.Prelude.{◌≡◌, ℕ, ◌+◌, ◌≤◌, [], ◌∷◌, ◌++◌, length, OnOk, IfOk};
ghost use Rattle.std.specs.Map.{lookup};
ghost use Rattle.dc_types.specs.declared.place.Place.{Place as Spot};
ghost use Rattle.dc_types.specs.declared.ty.Ty.TheViews.{out-Ty};
ghost use Rattle.dc_types.specs.Same as same;
ghost use Rattle.core_tree.specs.Weight.{stmts_weight, body_weight};
ghost use Rattle.core_tree.specs.Typed.{Each, IsTyped};
ghost use Rattle.core_lower_expr.specs.Slots.{names_of};
ghost use Rattle.core_lower.specs.Lowered.{found_from, body_places, count_of, end_by, function_of, stmts_code, bodies_code, functions_from};

use crate::names::slots_of;
use crate::stmt::{lower_block, next};
use core_lower_expr::{Slots, put_op};
use core_tree::{Body, body_weight};
use dc_code::{Function, Instr, Op};
use dc_types::{Items, NoMemory, Place, Ty, copy_place};
use std::alloc::Global;

/// How many words a value of the type has.
pub fn count_of(ty: &Ty) -> u32
    ensures { result ≡ count_of ty.now }
{
    match ty {
        Ty::Int(_) => 1,
        _ => 0,
    }
}

/// The end of a function.
fn lower_end(
    alloc: Global,
    ty: &Ty,
    place: &Place,
    spare: u32,
    instrs: &mut Items<Instr>,
) -> Result<(), NoMemory>
    ensures { OnOk result (instrs.new ≡ instrs.old ++ end_by (out-Ty ty.now) place.now spare) }
{
    match ty {
        Ty::Int(_) => {
            put_op(alloc, instrs, place, Op::Const(spare, 0))?;
            put_op(alloc, instrs, place, Op::Return(spare, 1))
        }
        _ => put_op(alloc, instrs, place, Op::Return(spare, 0)),
    }
}

fn lower_body(
    alloc: Global,
    f: &Body,
    at: &Slots,
    instrs: &mut Items<Instr>,
) -> Result<(), NoMemory>
    requires { at.now.spare + stmts_weight f.now.stmts ≤ 4194304 }
    ensures { OnOk result (instrs.new ≡ instrs.old ++ (stmts_code (names_of at.now) f.now.stmts (length instrs.old) at.now.spare ++ end_by (out-Ty f.now.result) f.now.place at.now.spare)) }
{
    lower_block(alloc, f.stmts.as_slice(), at, instrs)?;
    lower_end(alloc, &f.result, &f.place, at.spare, instrs)
}

fn function_at(alloc: Global, f: &Body, first: u32) -> Result<Function, NoMemory>
    requires { body_weight f.now ≤ 4194304 }
    ensures { IfOk result (λ g. g ≡ function_of f.now first) }
{
    Ok(Function {
        place: copy_place(alloc, &f.place)?,
        first,
        weight: body_weight(f),
        params: f.params.len() as u32,
        result: count_of(&f.result),
    })
}

/// The functions of the bodies one after another.
pub fn lower_functions(
    alloc: Global,
    bodies: &[Body],
    at: &mut Slots,
    functions: &mut Items<Function>,
    instrs: &mut Items<Instr>,
) -> Result<(), NoMemory>
    requires typed { Each (IsTyped bodies.now) bodies.now }
    requires names { (q : Spot) → lookup (same.place q) at.old.functions ≡ found_from 0 q (body_places bodies.now) }
    requires no_functions { functions.old ≡ [] }
    requires no_instrs { instrs.old ≡ [] }
    ensures functions { OnOk result (functions.new ≡ functions_from bodies.now bodies.now 0) }
    ensures instrs { OnOk result (instrs.new ≡ bodies_code bodies.now bodies.now 0) }
    ensures names { OnOk result (at.new.functions ≡ at.old.functions) }
{
    for f in bodies {
        at.named = slots_of(alloc, f)?;
        at.spare = (f.params.len() + f.locals.len()) as u32;
        let first = next(instrs)?;
        functions.push(function_at(alloc, f, first)?)?;
        lower_body(alloc, f, at, instrs)?;
    }
    Ok(())
}
