// From a text to its program.
ghost use Rattle.std.specs.Prelude.{◌≡◌, IfOk};
ghost use Rattle.dc_top.specs.Outcomes.{IsTypedProgram};
ghost use Rattle.dc_top.specs.Front.{FrontAnswers};

use crate::names::default_name;
use crate::program::Program;
use crate::text::parse_text;
use core_front::{Resolution, judge};
use dc_types::{Fail, Text};
use std::alloc::Global;

/// The program that a file's text is, or the first rule that it breaks.
pub(crate) fn front(alloc: Global, file: &[u8], text: &Text) -> Result<Program, Fail>
    ensures answers { FrontAnswers file.now text.now result }
    ensures typed { IfOk result (λ program. IsTypedProgram program) }
{
    let parsed = parse_text(alloc, file, text)?;
    let resolution = judge(alloc, default_name(file), &parsed.tokens, &parsed.tree)?;
    let Resolution { bodies, start } = resolution;
    Ok(Program { bodies, start })
}
