// What a file's text is.
ghost use Rattle.std.specs.Prelude.{◌≡◌, [], IfOk, IfErr};
ghost use Rattle.dc_top.specs.Names.{default_name};
ghost use Rattle.dc_top.specs.Texts.{HasName, HasText, IsBroken, IsFailOf, IsNameless, broken, dotted, module_of, name_of};

use crate::names::default_name;
use dc_ast::{ModuleLine, ModuleTree, Name};
use dc_lexer::{is_name, lex};
use dc_parse::parse_module;
use dc_parse_expr::ExprReader;
use dc_token::Tokens;
use dc_types::{Fail, Items, Place, Refusal, Step, Text};
use std::alloc::{AllocError, Global};

/// The most bytes that a file may have.
const MOST_BYTES: usize = 1_048_576;

/// The module that a file's text is.
#[derive(Drop)]
pub struct Parsed {
    /// Its name, as `a.b`.
    pub name: Text,
    pub tokens: Tokens,
    pub tree: ModuleTree,
}

/// A file as a place: its default name, and no steps.
fn place_of(alloc: Global, file: &[u8]) -> Result<Place, AllocError>
    ensures { IfOk result (λ place. place ≡ record { «module» = default_name file.now; steps = [] }) }
{
    Ok(Place {
        module: Text::copy_of(alloc, default_name(file))?,
        steps: Items::new(alloc),
    })
}

/// A rule that the file breaks as a whole.
fn refusal(alloc: Global, rule: u8, file: &[u8]) -> Result<Refusal, AllocError>
    ensures { IfOk result (λ refusal. refusal ≡ broken rule file.now 0 []) }
{
    let mut place = place_of(alloc, file)?;
    place.steps.push(Step::At(0))?;
    Ok(Refusal {
        rule,
        place,
        detail: Text::new(alloc),
    })
}

fn refuse(alloc: Global, rule: u8, file: &[u8]) -> Fail
    ensures { IsBroken rule file.now 0 result }
{
    match refusal(alloc, rule, file) {
        Ok(refusal) => Fail::Refused(refusal),
        Err(_) => Fail::NoMemory,
    }
}

/// The parts of a name with points between them.
fn dotted(alloc: Global, path: &[Name]) -> Result<Text, AllocError>
    ensures { IfOk result (λ text. text ≡ dotted path.now) }
{
    let [first, more @ ..] = path else {
        return Ok(Text::new(alloc));
    };
    let mut text = Text::copy_of(alloc, first.spelling.as_slice())?;
    for part in more {
        text.push(b'.')?;
        text.append(part.spelling.as_slice())?;
    }
    Ok(text)
}

/// The name of a module with this line, in this file.
fn module_name(alloc: Global, file: &[u8], line: &Option<ModuleLine>) -> Result<Text, Fail>
    ensures has { IfOk result (λ name. HasName file.now line.now) }
    ensures name { IfOk result (λ name. name ≡ name_of file.now line.now) }
    ensures nameless { IfErr result (λ fail. IsNameless file.now line.now fail) }
{
    if let Some(line) = line {
        return Ok(dotted(alloc, line.name.as_slice())?);
    }
    let name = default_name(file);
    if !is_name(name) {
        return Err(refuse(alloc, 2, file));
    }
    Ok(Text::copy_of(alloc, name)?)
}

/// The module that a file's text is (D specification, "Lexical", "Modules"). The first that holds refuses the text:
///
/// - rule 24 at offset 0 where it has more than 1,048,576 bytes;
/// - rule 1 at the first offset at which no token, comment or white space begins;
/// - rule 23 at the first token that the compiler leaves out, with its text;
/// - rule 24 at the first token that nests deeper than 256;
/// - rule 2 at the first token behind the longest module that begins the text;
/// - rule 2 at offset 0 where the module has no line and the file's default name is no identifier.
///
/// The place of a refusal names the module by the file's default name.
pub fn parse_text(alloc: Global, file: &[u8], text: &Text) -> Result<Parsed, Fail>
    ensures parsed { IfOk result (λ parsed. HasText file.now text.now (module_of parsed.name parsed.tokens parsed.tree)) }
    ensures refused { IfErr result (λ fail. IsFailOf file.now text.now fail) }
{
    let bytes = text.as_slice();
    if MOST_BYTES < bytes.len() {
        return Err(refuse(alloc, 24, file));
    }
    let at = place_of(alloc, file)?;
    let tokens = lex(alloc, bytes, &at)?;
    let tree = parse_module(alloc, &ExprReader { alloc }, &tokens, &at)?;
    let name = module_name(alloc, file, &tree.line)?;
    Ok(Parsed { name, tokens, tree })
}
