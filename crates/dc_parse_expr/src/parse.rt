// Texts that are one expression.
ghost use Rattle.std.specs.Prelude.{◌≡◌, IfOk, None};
ghost use Rattle.dc_grammar.specs.Nesting.{first_outside, first_past};
ghost use Rattle.dc_parse_expr.specs.Parses.{IsAnswer, IsFail, refused};

use crate::reading::ExprReader;
use dc_ast::Expr;
use dc_grammar::{Read, ReadExpr, first_outside, first_past, start_of};
use dc_token::Tokens;
use dc_types::{Fail, NoMemory, Place, Refusal, Step, Text, copy_place};
use std::alloc::{AllocError, Global};

fn refusal(
    alloc: Global,
    rule: u8,
    at: &Place,
    start: u32,
    detail: &[u8],
) -> Result<Refusal, AllocError>
    ensures { IfOk result (λ refusal. refusal ≡ refused rule at.now start detail.now) }
{
    let mut place = copy_place(alloc, at)?;
    place.steps.push(Step::At(start))?;
    Ok(Refusal {
        rule,
        place,
        detail: Text::copy_of(alloc, detail)?,
    })
}

fn refuse(alloc: Global, rule: u8, at: &Place, start: u32, detail: &[u8]) -> Fail
    ensures { IsFail rule at.now start detail.now result }
{
    match refusal(alloc, rule, at, start, detail) {
        Ok(refusal) => Fail::Refused(refusal),
        Err(_) => Fail::NoMemory,
    }
}

fn whole(alloc: Global, tokens: &Tokens, at: &Place) -> Result<Expr, Fail>
    ensures { IsAnswer None None tokens.now at.now result }
{
    let start = start_of(tokens.as_slice());
    match (ExprReader { alloc }).read(tokens, 0) {
        Ok(Read::Found { tree, end }) => {
            if end < tokens.len() {
                return Err(refuse(alloc, 2, at, start, b""));
            }
            Ok(tree)
        }
        Ok(Read::Nothing) => Err(refuse(alloc, 2, at, start, b"")),
        Err(NoMemory) => Err(Fail::NoMemory),
    }
}

/// The tree of a list of tokens that is one expression. The refusals are at offsets behind `at`:
///
/// - rule 23 exactly where a token is left out by the compiler, at the first such token and with its text;
/// - else rule 24 exactly where the text nests deeper than 256, at the first token past that;
/// - else rule 2 exactly where the list is no expression, at the first token, or at offset 0 where there is none.
pub fn parse_expression(alloc: Global, tokens: &Tokens, at: &Place) -> Result<Expr, Fail>
    ensures { IsAnswer (first_outside tokens.now) (first_past 256 tokens.now) tokens.now at.now result }
{
    let text = tokens.as_slice();
    if let Some(token) = first_outside(text) {
        return Err(refuse(alloc, 23, at, token.start, token.spelling.as_slice()));
    }
    if let Some(token) = first_past(text) {
        return Err(refuse(alloc, 24, at, token.start, b""));
    }
    whole(alloc, tokens, at)
}
