// Chains of branches with `else` between them.
ghost use Rattle.std.specs.Prelude.{◌≡◌, Bool};
ghost use Rattle.dc_grammar.specs.Terminals.{Tokens};
ghost use Rattle.dc_grammar.specs.Reading.{Reader};
ghost use Rattle.dc_grammar.specs.Statements as statements;
ghost use Rattle.dc_grammar.specs.StmtReaders as spec;
ghost use Rattle.dc_grammar.specs.Gives.{Gives};
ghost use Rattle.dc_parse.specs.Chains as chains;
ghost use Rattle.dc_parse.specs.Left.{left};
ghost use Rattle.dc_parse.specs.Calls.{Calls, Reads};
ghost use Rattle.dc_parse.specs.Nests.{Tests};

use crate::parts::Source;
use dc_grammar::{Miss, ReadExpr, Terminal, same_terminal};
use sqlite_items::Items;

/// Whether an `if` begins there.
pub(crate) fn begins_if<E: ReadExpr>(source: &Source<'_, E>, at: usize) -> bool
    ensures { result ≡ statements.begins_if (left source.now.tokens.now at) }
{
    same_terminal(source.ahead(at), Terminal::If)
}

/// Whether a `static if` or a `version` begins there.
pub(crate) fn begins_conditional<E: ReadExpr>(source: &Source<'_, E>, at: usize) -> bool
    ensures { result ≡ statements.begins_conditional (left source.now.tokens.now at) }
{
    (same_terminal(source.ahead(at), Terminal::Static)
        && same_terminal(source.second(at), Terminal::If))
        || same_terminal(source.ahead(at), Terminal::Version)
}

/// Branches, and what is done else. An `else` belongs to the nearest branch before it that takes one.
pub(crate) fn chain<E: ReadExpr, B: Drop, L: Drop, F, H, G>(
    source: &Source<'_, E>,
    at: usize,
    first: F,
    opens: H,
    other: G,
) -> Result<((bool, (Items<B>, Option<L>)), usize), Miss>
where
    F: Fn(usize) -> Result<((bool, B), usize), Miss>,
    H: Fn(usize) -> bool,
    G: Fn(usize) -> Result<((bool, L), usize), Miss>,
    requires branch { F.IsAlwaysCallable first }
    requires test { H.IsAlwaysCallable opens }
    requires last { G.IsAlwaysCallable other }
    ensures { (p : Reader (Bool × B)) (o : Tokens → Bool) (q : Reader (Bool × L)) → Calls p source.now.tokens.now (F.post first) → Tests o source.now.tokens.now (H.post opens) → Calls q source.now.tokens.now (G.post other) → Reads source.now.tokens.now (spec.chain p o q) at result }
{
    let mut found = Items::new(source.alloc);
    let mut back = at;
    let mut rest = at;
    for _turn in 0..source.count(at) {
        let ((takes_else, branch), after) = match first(rest) {
            Ok(read) => read,
            Err(Miss::Nothing) => return ended(source, found, back),
            Err(Miss::Memory) => return Err(Miss::Memory),
        };
        found.push(branch)?;
        if takes_else {
            return Ok(((true, (found, None)), after));
        }
        let behind = match source.mark(after, Terminal::Else) {
            Ok(behind) => behind,
            Err(Miss::Nothing) => return Ok(((true, (found, None)), after)),
            Err(Miss::Memory) => return Err(Miss::Memory),
        };
        if opens(behind) {
            back = after;
            rest = behind;
        } else {
            return closing(source, found, after, behind, other);
        }
    }
    ended(source, found, back)
}

/// The branches up to `back`, if there are any.
fn ended<E: ReadExpr, B: Drop, L: Drop>(
    source: &Source<'_, E>,
    found: Items<B>,
    back: usize,
) -> Result<((bool, (Items<B>, Option<L>)), usize), Miss>
    ensures { Gives (λ x. (x.0, left source.now.tokens.now x.1)) result (chains.ended found (left source.now.tokens.now back)) }
{
    if found.is_empty() {
        return Err(Miss::Nothing);
    }
    Ok(((true, (found, None)), back))
}

/// The branches, and what is done else where that stands behind the `else`.
fn closing<E: ReadExpr, B: Drop, L: Drop, G: Fn(usize) -> Result<((bool, L), usize), Miss>>(
    source: &Source<'_, E>,
    found: Items<B>,
    back: usize,
    behind: usize,
    other: G,
) -> Result<((bool, (Items<B>, Option<L>)), usize), Miss>
    requires { G.IsAlwaysCallable other }
    ensures { (q : Reader (Bool × L)) → Calls q source.now.tokens.now (G.post other) → Gives (λ x. (x.0, left source.now.tokens.now x.1)) result (chains.closing found (left source.now.tokens.now back) (q (left source.now.tokens.now behind))) }
{
    match other(behind) {
        Ok(((takes_else, last), end)) => Ok(((takes_else, (found, Some(last))), end)),
        Err(Miss::Nothing) => Ok(((true, (found, None)), back)),
        Err(Miss::Memory) => Err(Miss::Memory),
    }
}
