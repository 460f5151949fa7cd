// The entries, at which runs begin.
ghost use Rattle.std.specs.Prelude.{◌≡◌, ◌+◌, ◌≤◌, [], ◌++◌, length, IfOk, OnOk};
ghost use Rattle.core_tree.specs.Nodes.{own_type};
ghost use Rattle.core_tree.specs.Typed.{Each};
ghost use Rattle.core_tree.specs.Weight.{tree_weight};
ghost use Rattle.core_lower_expr.specs.Slots.{names_of};
ghost use Rattle.core_lower.specs.Lowered.{count_of, entry_of, entries_from, starts_code, numbers_from};

use crate::bodies::count_of;
use crate::stmt::next;
use core_lower_expr::{Slots, lower_expr, put_op};
use core_tree::{Tree, tree_weight};
use dc_code::{Draft, Function, Op};
use dc_types::{NoMemory, copy_place};
use std::alloc::Global;

/// How many words the value of an expression has.
#[tactic(auto, using(crate::proofs::Entries::count_int))]
fn own_count(e: &Tree) -> u32
    ensures { result ≡ count_of (own_type e.now) }
{
    match e {
        Tree::Constant(_, c) => count_of(&c.ty),
        Tree::Local(_, v) => count_of(&v.ty),
        Tree::Assign(_, v, _) => count_of(&v.ty),
        Tree::Chain(_, _, _, _) => 1,
        Tree::Compare(_, _, _, _, _) => 1,
        Tree::Call(_, _, ty, _) => count_of(ty),
        Tree::Print(_, _, _, _) => 0,
    }
}

fn entry_at(alloc: Global, e: &Tree, first: u32) -> Result<Function, NoMemory>
    requires { tree_weight e.now ≤ 4194304 }
    ensures { IfOk result (λ g. g ≡ entry_of e.now first) }
{
    Ok(Function {
        place: copy_place(alloc, e.place())?,
        first,
        weight: tree_weight(e),
        params: 0,
        result: own_count(e),
    })
}

/// An entry for each start, behind the functions that are there.
pub fn lower_starts(
    alloc: Global,
    starts: &[Tree],
    at: &Slots,
    draft: &mut Draft,
) -> Result<(), NoMemory>
    requires weights { Each (λ e. tree_weight e ≤ 4194304) starts.now }
    requires spare { at.now.spare ≡ 0 }
    requires no_entries { draft.old.entries ≡ [] }
    ensures { OnOk result (draft.new ≡ record draft.old { functions = draft.old.functions ++ entries_from (names_of at.now) starts.now (length draft.old.instrs); instrs = draft.old.instrs ++ starts_code (names_of at.now) starts.now (length draft.old.instrs); entries = numbers_from (length draft.old.functions) starts.now }) }
{
    for e in starts {
        let first = next(&draft.instrs)?;
        let Ok(number) = u32::try_from(draft.functions.len()) else {
            return Err(NoMemory);
        };
        draft.functions.push(entry_at(alloc, e, first)?)?;
        draft.entries.push(number)?;
        lower_expr(alloc, e, at, draft)?;
        put_op(
            alloc,
            &mut draft.instrs,
            e.place(),
            Op::Return(0, own_count(e)),
        )?;
    }
    Ok(())
}
