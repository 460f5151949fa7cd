// Code, and a draft of it.
use crate::check::{is_short_code, is_sound_draft};
use crate::{Function, Instr};
use dc_types::Items;
use std::marker::Model;

/// The words of a block.
pub type Words = Items<u64>;

/// Code that nothing is known of.
#[derive(Drop)]
pub struct Draft {
    pub functions: Items<Function>,
    pub instrs: Items<Instr>,
    /// The data: strings, and the start words of elements.
    pub blocks: Items<Words>,
    /// The start words of the module variables.
    pub globals: Items<Words>,
    /// The numbers of the functions at which a run may begin.
    pub entries: Items<u32>,
}

/// Sound code, which contracts see as a draft.
#[derive(Drop)]
pub struct Code {
    draft: Draft,
}

impl Model for Code {
    ghost use Rattle.dc_code.specs.declared.code.Draft.{Draft};

    ghost Value = { Draft };

    ghost use Rattle.dc_code.specs.Sound.{IsSound};

    ghost view = { λ c. c.draft };

    ghost invariant = { λ c. IsSound c.draft };
}

impl Code {
    ghost use Rattle.std.specs.Prelude.{◌≡◌};
    ghost use Rattle.dc_code.specs.Sound.{IsSound};

    /// The code of a draft that is known to be sound. Where that isn't known, `Draft::finish` is the test.
    pub fn of_sound(draft: Draft) -> Code
        requires { IsSound draft }
        ensures { result ≡ draft }
    {
        Code { draft }
    }

    pub fn as_draft(&self) -> &Draft
        ensures same { result.now ≡ self.now }
        ensures sound { IsSound self.now }
    {
        &self.draft
    }

    pub fn into_draft(self) -> Draft
        ensures same { result ≡ self }
        ensures sound { IsSound self }
    {
        let Code { draft } = self;
        draft
    }

    pub fn functions(&self) -> &[Function]
        ensures { result.now ≡ self.now.functions }
    {
        self.draft.functions.as_slice()
    }

    pub fn instrs(&self) -> &[Instr]
        ensures { result.now ≡ self.now.instrs }
    {
        self.draft.instrs.as_slice()
    }

    pub fn blocks(&self) -> &[Words]
        ensures { result.now ≡ self.now.blocks }
    {
        self.draft.blocks.as_slice()
    }

    pub fn entries(&self) -> &[u32]
        ensures { result.now ≡ self.now.entries }
    {
        self.draft.entries.as_slice()
    }
}

impl Draft {
    ghost use Rattle.std.specs.Prelude.{◌≡◌, ◌↔◌, IfOk, IfErr, IsErr, IsTrue};
    ghost use Rattle.dc_code.specs.Sound.{IsShortCode, IsSound};

    /// Whether a number of 32 bits counts each list of the draft, those of its places among them.
    pub fn is_short(&self) -> bool
        ensures { IsTrue result ↔ IsShortCode self.now }
    {
        is_short_code(self)
    }

    /// The code, where the draft is sound. Else the draft comes back.
    pub fn finish(self) -> Result<Code, Draft>
        ensures ok { IfOk result (λ code. code ≡ self) }
        ensures err { IfErr result (λ draft. draft ≡ self) }
        ensures refused { IsErr result ↔ ¬ IsSound self }
    {
        if is_sound_draft(&self) {
            Ok(Code { draft: self })
        } else {
            Err(self)
        }
    }
}
