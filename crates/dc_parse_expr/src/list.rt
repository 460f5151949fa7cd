// Lists.
ghost use Rattle.std.specs.Prelude.{◌≡◌, [], ◌∷◌, IfOk};
ghost use Rattle.dc_grammar.specs.Readers as spec;
ghost use Rattle.dc_grammar.specs.Gives.{Gives};

use dc_ast::{Name, Suffix};
use dc_grammar::{Miss, Terminal, id, mark};
use dc_token::Token;
use sqlite_items::Items;
use std::alloc::{AllocError, Global};

pub(crate) fn with_first<T: Drop>(
    alloc: Global,
    first: T,
    others: Items<T>,
) -> Result<Items<T>, AllocError>
    ensures { IfOk result (λ all. all ≡ first ∷ others) }
{
    let mut all = Items::new(alloc);
    all.push(first)?;
    all.append(others)?;
    Ok(all)
}

pub(crate) fn one_item<T: Drop>(alloc: Global, item: T) -> Result<Items<T>, AllocError>
    ensures { IfOk result (λ all. all ≡ item ∷ []) }
{
    let mut all = Items::new(alloc);
    all.push(item)?;
    Ok(all)
}

#[tactic(auto, unfolding(dc_grammar::specs::Readers::next_name))]
fn next_name(alloc: Global, tokens: &[Token]) -> Result<(Name, &[Token]), Miss>
    ensures { Gives (λ x. (x.0, x.1.now)) result (spec.next_name tokens.now) }
{
    let rest = mark(tokens, Terminal::Comma)?;
    id(alloc, rest)
}

#[tactic(auto, unfolding(dc_grammar::specs::Readers::slice_part))]
fn slice_part(tokens: &[Token]) -> Result<(Suffix, &[Token]), Miss>
    ensures { Gives (λ x. (x.0, x.1.now)) result (spec.slice_part tokens.now) }
{
    let rest = mark(tokens, Terminal::LeftBracket)?;
    let rest = mark(rest, Terminal::RightBracket)?;
    Ok((Suffix::All, rest))
}

/// As many as there are.
pub(crate) fn next_names(alloc: Global, tokens: &[Token]) -> Result<(Items<Name>, &[Token]), Miss>
    ensures { Gives (λ x. (x.0, x.1.now)) result (spec.next_names tokens.now) }
{
    let mut found = Items::new(alloc);
    let mut rest = tokens;
    for _turn in 0..tokens.len() {
        match next_name(alloc, rest) {
            Ok((one, after)) => {
                found.push(one)?;
                rest = after;
            }
            Err(Miss::Nothing) => return Ok((found, rest)),
            Err(Miss::Memory) => return Err(Miss::Memory),
        }
    }
    Ok((found, rest))
}

/// As many as there are.
pub(crate) fn slices(alloc: Global, tokens: &[Token]) -> Result<(Items<Suffix>, &[Token]), Miss>
    ensures { Gives (λ x. (x.0, x.1.now)) result (spec.slices tokens.now) }
{
    let mut found = Items::new(alloc);
    let mut rest = tokens;
    for _turn in 0..tokens.len() {
        match slice_part(rest) {
            Ok((one, after)) => {
                found.push(one)?;
                rest = after;
            }
            Err(Miss::Nothing) => return Ok((found, rest)),
            Err(Miss::Memory) => return Err(Miss::Memory),
        }
    }
    Ok((found, rest))
}
