// Which jobs are about programs of the core.
ghost use Rattle.std.specs.Prelude.{◌≡◌, ◌↔◌, IfOk, IsTrue, MatchOption, None};
ghost use Rattle.dc_types.specs.declared.refusal.Refusal.{Refusal};
ghost use Rattle.dc_top.specs.Front.{IsProgramOf, IsRefusedBy};
ghost use Rattle.dc_top.specs.Ways.{IsFileOf, IsOutside};
ghost use Rattle.dc_top.specs.Words.{texts_of, job_of};
ghost use Rattle.dc_top.specs.declared.program.Program.{Program};

use crate::names::default_name;
use crate::text::parse_text;
use crate::words::job_of;
use core_front::judge;
use dc_types::{Fail, NoMemory, Text};
use std::alloc::Global;

/// The rule that refuses a form which the core hasn't.
const UNBUILT: u8 = 23;

/// The file of the job `run FILE` or `run --ticks N FILE`, the only ones that `dpc` does.
pub fn core_file(words: &Vec<String>) -> Option<&[u8]>
    ensures { MatchOption result (job_of (texts_of words.now.items) ≡ None)
        (λ file. IsFileOf (job_of (texts_of words.now.items)) file.now) }
{
    match job_of(words) {
        Some(job) => Some(job.file),
        None => None,
    }
}

/// Whether `dpc` says of a text all that there is to say: it is a program of the core, breaks a rule of texts or of the
/// grammar, or has forms of the core alone and breaks another rule.
pub fn is_core(alloc: Global, file: &[u8], text: &Text) -> Result<bool, NoMemory>
    // It is true exactly where the text isn't a module with a form that the core hasn't.
    ensures forms { IfOk result (λ core. IsTrue core ↔ (IsOutside file.now text.now → ⊥)) }
    // So it is true for each program of the core, and where another rule than 23 refuses the text.
    ensures programs { IfOk result (λ core. (program : Program) →
        IsProgramOf file.now text.now program → IsTrue core) }
    ensures refusals { IfOk result (λ core. (refusal : Refusal) →
        IsRefusedBy file.now text.now refusal → (refusal.rule ≡ 23 → ⊥) → IsTrue core) }
{
    let parsed = match parse_text(alloc, file, text) {
        Ok(parsed) => parsed,
        Err(Fail::Refused(_)) => return Ok(true),
        Err(Fail::NoMemory) => return Err(NoMemory),
    };
    match judge(alloc, default_name(file), &parsed.tokens, &parsed.tree) {
        Ok(_) => Ok(true),
        Err(Fail::Refused(refusal)) => Ok(refusal.rule != UNBUILT),
        Err(Fail::NoMemory) => Err(NoMemory),
    }
}
