// The instructions that add to the pending text.
ghost use Rattle.std.specs.Prelude.{◌≡◌, ◌+◌, ◌<◌, ◌^◌, ◌++◌, map, length, OnOk, IfOk};
ghost use Rattle.dc_types.specs.declared.event.Limits.{Limits as Bounds};
ghost use Rattle.dc_code.specs.Numbers.{byte_of};
ghost use Rattle.dc_code.specs.declared.instr.Op.TheVariants as op;
ghost use Rattle.dc_code.specs.declared.code.Draft.{Draft as Plan};
ghost use Rattle.dc_machine.specs.After.{Leads, Does, Wants, KeepsRoom};

use crate::numbers::put_number;
use crate::state::{Next, State};
use crate::words::word_at;
use dc_code::{Code, Words};
use dc_types::{Kind, NoMemory};
use std::alloc::Global;

/// Adds words as bytes.
fn put_bytes(text: &mut Vec<u8>, words: &[u64]) -> Result<(), NoMemory>
    ensures { OnOk result (text.new.items ≡ text.old.items ++ map byte_of words.now) }
{
    for w in words {
        text.push((*w % 256) as u8)?;
    }
    Ok(())
}

pub fn put_int(m: &mut State, alloc: Global, k: Kind, s: u32) -> Result<Next, NoMemory>
    requires there { m.old.base + s < length m.old.words.items }
    requires small { m.old.pc + 1 < 2 ^ 64 }
    ensures does { IfOk result (λ next. Does (op.PutInt k s) m.old next m.new) }
    ensures wants { (code : Plan) (limits : Bounds) → Wants code limits (op.PutInt k s) m.old }
    ensures room { KeepsRoom m.old m.new }
{
    let w = word_at(m.words.as_slice(), m.base, s);
    put_number(alloc, &mut m.pending, k, w)?;
    m.pc += 1;
    Ok(Next::Takes)
}

pub fn put_data(m: &mut State, code: &Code, g: u32) -> Result<Next, NoMemory>
    requires there { g < length code.now.blocks }
    requires small { m.old.pc + 1 < 2 ^ 64 }
    ensures does { IfOk result (λ next. (limits : Bounds) → Leads code.now limits (op.PutData g) m.old next m.new) }
    ensures wants { (limits : Bounds) → Wants code.now limits (op.PutData g) m.old }
    ensures room { KeepsRoom m.old m.new }
{
    let words: &Words = &code.blocks()[g as usize];
    put_bytes(&mut m.pending, words.as_slice())?;
    m.pc += 1;
    Ok(Next::Takes)
}
