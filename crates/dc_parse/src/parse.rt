// Texts that are a module, a list of declarations or a list of statements.
ghost use Rattle.std.specs.Prelude.{◌≡◌, IfOk, None};
ghost use Rattle.dc_grammar.specs.Nesting.{first_outside, first_past};
ghost use Rattle.dc_grammar.specs.Statements.{AreStmts};
ghost use Rattle.dc_grammar.specs.Declarations.{AreDecls, IsModule};
ghost use Rattle.dc_parse.specs.Left.{left};
ghost use Rattle.dc_parse.specs.Parses.{IsAnswer, IsFail, IsJudged, IsWhole, refused};

use crate::declarations::{decls, module};
use crate::parts::Source;
use crate::statements::stmts;
use dc_ast::{Decls, ModuleTree, Stmts};
use dc_grammar::{Miss, ReadExpr, first_outside, first_past};
use dc_token::Tokens;
use dc_types::{Fail, Place, Refusal, Step, Text, copy_place};
use std::alloc::{AllocError, Global};

/// How many statements and declarations may be open at a place. The nesting doesn't count each of them, as in
/// `if (a) x; else while (b) if (c) y; else ..`, and each takes some of the stack, here and wherever a tree is gone
/// through. Two for each brace that the nesting allows are 512, and a stack of 8 MiB has room for more than this number
/// with the deepest expression inside (`bench/README.md`).
const ROOM: usize = 1_024;

fn refusal(
    alloc: Global,
    rule: u8,
    at: &Place,
    start: u32,
    detail: &[u8],
) -> Result<Refusal, AllocError>
    ensures { IfOk result (λ refusal. refusal ≡ refused rule at.now start detail.now) }
{
    let mut place = copy_place(alloc, at)?;
    place.steps.push(Step::At(start))?;
    Ok(Refusal {
        rule,
        place,
        detail: Text::copy_of(alloc, detail)?,
    })
}

fn refuse(alloc: Global, rule: u8, at: &Place, start: u32, detail: &[u8]) -> Fail
    ensures { IsFail rule at.now start detail.now result }
{
    match refusal(alloc, rule, at, start, detail) {
        Ok(refusal) => Fail::Refused(refusal),
        Err(_) => Fail::NoMemory,
    }
}

/// The rules that come before the grammar.
fn judge(alloc: Global, tokens: &Tokens, at: &Place) -> Result<(), Fail>
    ensures { IsJudged (first_outside tokens.now) (first_past 256 tokens.now) at.now result }
{
    let text = tokens.as_slice();
    if let Some(token) = first_outside(text) {
        return Err(refuse(alloc, 23, at, token.start, token.spelling.as_slice()));
    }
    if let Some(token) = first_past(text) {
        return Err(refuse(alloc, 24, at, token.start, b""));
    }
    Ok(())
}

/// The tree where it takes in the whole text, else rule 2 at the token behind it.
fn whole<E: ReadExpr, T: Drop>(
    source: &Source<'_, E>,
    at: &Place,
    tree: T,
    end: usize,
) -> Result<T, Fail>
    ensures { IsWhole (left source.now.tokens.now end) at.now tree result }
{
    match source.token(end) {
        Some((token, _)) => Err(refuse(source.alloc, 2, at, token.start, b"")),
        None => Ok(tree),
    }
}

pub(crate) fn whole_module<E: ReadExpr>(
    source: &Source<'_, E>,
    at: &Place,
) -> Result<ModuleTree, Fail>
    ensures { IsAnswer IsModule None None source.now.tokens.now at.now result }
{
    match module(source, 0) {
        Ok((tree, end)) => whole(source, at, tree, end),
        Err(Miss::Memory) => Err(Fail::NoMemory),
        // A list may be empty, so each text begins with one.
        Err(Miss::Nothing) => unreachable!(),
    }
}

pub(crate) fn whole_declarations<E: ReadExpr>(
    source: &Source<'_, E>,
    at: &Place,
) -> Result<Decls, Fail>
    ensures { IsAnswer AreDecls None None source.now.tokens.now at.now result }
{
    match decls(source, 0) {
        Ok((trees, end)) => whole(source, at, trees, end),
        Err(Miss::Memory) => Err(Fail::NoMemory),
        Err(Miss::Nothing) => unreachable!(),
    }
}

pub(crate) fn whole_statements<E: ReadExpr>(
    source: &Source<'_, E>,
    at: &Place,
) -> Result<Stmts, Fail>
    ensures { IsAnswer AreStmts None None source.now.tokens.now at.now result }
{
    match stmts(source, 0) {
        Ok((trees, end)) => whole(source, at, trees, end),
        Err(Miss::Memory) => Err(Fail::NoMemory),
        Err(Miss::Nothing) => unreachable!(),
    }
}

/// The tree of a list of tokens that is one module (D specification, "Modules"). The refusals are at offsets behind
/// `at`:
///
/// - rule 23 exactly where a token is left out by the compiler, at the first such token and with its text;
/// - else rule 24 exactly where the text nests deeper than 256, at the first token past that;
/// - else rule 2 exactly where the list is no module, at the first token behind the longest module that begins it.
pub fn parse_module<E: ReadExpr>(
    alloc: Global,
    exprs: &E,
    tokens: &Tokens,
    at: &Place,
) -> Result<ModuleTree, Fail>
    ensures { IsAnswer IsModule (first_outside tokens.now) (first_past 256 tokens.now) tokens.now at.now result }
{
    judge(alloc, tokens, at)?;
    let source = Source {
        alloc,
        exprs,
        tokens,
        room: ROOM,
    };
    whole_module(&source, at)
}

/// The trees of a list of tokens that is a list of declarations (D specification, "Declarations"). The refusals are
/// those of `parse_module`, with a list of declarations in place of a module.
pub fn parse_declarations<E: ReadExpr>(
    alloc: Global,
    exprs: &E,
    tokens: &Tokens,
    at: &Place,
) -> Result<Decls, Fail>
    ensures { IsAnswer AreDecls (first_outside tokens.now) (first_past 256 tokens.now) tokens.now at.now result }
{
    judge(alloc, tokens, at)?;
    let source = Source {
        alloc,
        exprs,
        tokens,
        room: ROOM,
    };
    whole_declarations(&source, at)
}

/// The trees of a list of tokens that is a list of statements (D specification, "Statements"). The refusals are those
/// of `parse_module`, with a list of statements in place of a module.
pub fn parse_statements<E: ReadExpr>(
    alloc: Global,
    exprs: &E,
    tokens: &Tokens,
    at: &Place,
) -> Result<Stmts, Fail>
    ensures { IsAnswer AreStmts (first_outside tokens.now) (first_past 256 tokens.now) tokens.now at.now result }
{
    judge(alloc, tokens, at)?;
    let source = Source {
        alloc,
        exprs,
        tokens,
        room: ROOM,
    };
    whole_statements(&source, at)
}
