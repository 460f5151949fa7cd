// Copies of code, which are equal.
ghost use Rattle.std.specs.Prelude.{◌≡◌, IfOk};

use crate::{Code, Draft, Function, Instr, Words};
use dc_types::{Items, copy_place};
use std::alloc::{AllocError, Global};

fn copy_function(alloc: Global, f: &Function) -> Result<Function, AllocError>
    ensures { IfOk result (λ copy. copy ≡ f.now) }
{
    Ok(Function {
        place: copy_place(alloc, &f.place)?,
        first: f.first,
        weight: f.weight,
        params: f.params,
        result: f.result,
    })
}

fn copy_functions(alloc: Global, functions: &[Function]) -> Result<Items<Function>, AllocError>
    ensures { IfOk result (λ copy. copy ≡ functions.now) }
{
    let mut copy = Items::new(alloc);
    for f in functions {
        copy.push(copy_function(alloc, f)?)?;
    }
    Ok(copy)
}

fn copy_instrs(alloc: Global, instrs: &[Instr]) -> Result<Items<Instr>, AllocError>
    ensures { IfOk result (λ copy. copy ≡ instrs.now) }
{
    let mut copy = Items::new(alloc);
    for i in instrs {
        copy.push(Instr {
            place: copy_place(alloc, &i.place)?,
            op: i.op,
        })?;
    }
    Ok(copy)
}

fn copy_blocks(alloc: Global, blocks: &[Words]) -> Result<Items<Words>, AllocError>
    ensures { IfOk result (λ copy. copy ≡ blocks.now) }
{
    let mut copy = Items::new(alloc);
    for words in blocks {
        copy.push(Items::from_vec(Vec::from_slice(alloc, words.as_slice())?))?;
    }
    Ok(copy)
}

fn copy_draft(alloc: Global, draft: &Draft) -> Result<Draft, AllocError>
    ensures { IfOk result (λ copy. copy ≡ draft.now) }
{
    Ok(Draft {
        functions: copy_functions(alloc, draft.functions.as_slice())?,
        instrs: copy_instrs(alloc, draft.instrs.as_slice())?,
        blocks: copy_blocks(alloc, draft.blocks.as_slice())?,
        globals: copy_blocks(alloc, draft.globals.as_slice())?,
        entries: Items::from_vec(Vec::from_slice(alloc, draft.entries.as_slice())?),
    })
}

/// A copy that is equal.
pub fn copy_code(alloc: Global, code: &Code) -> Result<Code, AllocError>
    ensures { IfOk result (λ copy. copy ≡ code.now) }
{
    let draft = copy_draft(alloc, code.as_draft())?;
    Ok(Code::of_sound(draft))
}
