// The tokens of a text.
ghost use Rattle.std.specs.Prelude.{◌≡◌, ◌≤◌, ◌-◌, length, take, drop, IfOk, IfErr, IfSome, None};
ghost use Rattle.dc_token.specs.Items as items;
ghost use Rattle.dc_token.specs.Text as text;
ghost use Rattle.dc_lexer.specs.Outcome as outcome;

use crate::token_string::next_item;
use dc_token::{Item, Spelling, Token, Tokens, is_token, kind_of};
use dc_types::{Fail, Place, Refusal, Step, Text, copy_place};
use std::alloc::{AllocError, Global};

/// The length of EF BB BF at the front of a text, or 0.
fn mark_len(bytes: &[u8]) -> usize
    ensures { result ≡ text.mark_len bytes.now }
{
    match bytes {
        [0xEF, 0xBB, 0xBF, ..] => 3,
        _ => 0,
    }
}

/// Rule 1 at an offset in the text at a place, or want of memory.
fn unreadable(alloc: Global, at: &Place, offset: u32) -> Fail
    ensures { outcome.IsFailAt at.now offset result }
{
    match refusal(alloc, at, offset) {
        Ok(refusal) => Fail::Refused(refusal),
        Err(_) => Fail::NoMemory,
    }
}

fn refusal(alloc: Global, at: &Place, offset: u32) -> Result<Refusal, AllocError>
    ensures { IfOk result (λ refusal. outcome.IsRefusalAt at.now offset refusal) }
{
    let mut place = copy_place(alloc, at)?;
    place.steps.push(Step::At(offset))?;
    Ok(Refusal {
        rule: 1,
        place,
        detail: Text::new(alloc),
    })
}

/// The token of an item between two offsets.
fn token(
    alloc: Global,
    bytes: &[u8],
    item: Item,
    start: usize,
    end: usize,
) -> Result<Token, AllocError>
    requires within { (start ≤ end) × (end ≤ length bytes.now) }
    requires short { length bytes.now ≤ 16777216 }
    ensures { IfOk result (λ token. token ≡ text.token item (take (end - start) (drop start bytes.now)) start) }
{
    let spelling = &bytes[start..end];
    Ok(Token {
        kind: kind_of(item, spelling),
        spelling: Spelling::copy_of(alloc, spelling)?,
        start: start as u32,
        end: end as u32,
    })
}

/// The tokens of a text of at most 16 MiB (D specification, "Lexical"), or rule 1 at the first offset at which no item
/// begins. The place is that of the text: for a file its module and no steps.
pub fn lex(alloc: Global, bytes: &[u8], at: &Place) -> Result<Tokens, Fail>
    requires { length bytes.now ≤ 16777216 }
    ensures tokens { IfOk result (λ tokens. text.IsTokens bytes.now tokens) }
    ensures failed { IfErr result (λ fail. outcome.IsFailure bytes.now at.now fail) }
{
    let mut tokens = Tokens::new(alloc);
    let mut offset = mark_len(bytes);
    while offset < bytes.len() {
        let (item, len) = next_item(&bytes[offset..]);
        if len == 0 {
            return Err(unreadable(alloc, at, offset as u32));
        }
        let end = offset + len;
        if !is_token(item) {
            offset = end;
            continue;
        }
        tokens.push(token(alloc, bytes, item, offset, end)?)?;
        offset = end;
    }
    Ok(tokens)
}

/// The first offset at which no item begins, or nothing where the text has tokens. It takes no memory and has an answer
/// for each text, so each has tokens or such an offset.
pub fn first_unreadable(bytes: &[u8]) -> Option<usize>
    ensures tokens { result ≡ None → outcome.HasTokens bytes.now }
    ensures offset { IfSome result (λ at. text.IsUnreadable bytes.now at) }
    ensures divides { text.Divides bytes.now }
{
    let mut from = mark_len(bytes);
    while from < bytes.len() {
        let (_, len) = next_item(&bytes[from..]);
        if len == 0 {
            return Some(from);
        }
        from += len;
    }
    None
}

/// Laws of the definition: tokens, white space and comments make the text again; nothing but these stands before,
/// between and behind the tokens; a text has at most one list of tokens and at most one offset at which it is unreadable,
/// and never both; token strings hold items of every kind.
pub fn laws()
    ensures rebuilds { text.Rebuilds }
    ensures gaps { text.GapsBetween }
    ensures one_reading { text.OneReading }
    ensures one_stop { text.OneStop }
    ensures apart { text.Apart }
    ensures strings { items.StringsHoldItems }
{}
