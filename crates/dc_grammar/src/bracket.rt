// What stands behind a bracket that is closed.
ghost use Rattle.std.specs.Prelude.{◌≡◌, ◌<◌, ◌-◌, ◌^◌};
ghost use Rattle.dc_grammar.specs.Brackets as spec;

use crate::{Terminal, ahead, same_terminal, terminal_of};
use dc_token::Token;

/// How many round brackets are open behind one more token; none where it closes the last of them.
fn open_behind(terminal: Terminal, depth: usize) -> Option<usize>
    requires { depth < 2 ^ 64 - 1 }
    ensures { result ≡ spec.open_behind terminal depth }
{
    match terminal {
        Terminal::LeftParen => Some(depth + 1),
        Terminal::RightParen if depth < 2 => None,
        Terminal::RightParen => Some(depth - 1),
        _ => Some(depth),
    }
}

/// The tokens behind the round bracket that closes the first one; none where it isn't closed. It looks at each token
/// once at most.
pub fn behind_parens(tokens: &[Token]) -> &[Token]
    ensures { result.now ≡ spec.behind_parens tokens.now }
{
    let mut depth = 0;
    let mut rest = tokens;
    while let [token, more @ ..] = rest {
        match open_behind(terminal_of(token), depth) {
            Some(now) => {
                depth = now;
                rest = more;
            }
            None => return more,
        }
    }
    rest
}

/// Whether a dot and a name begin the tokens.
pub fn names_member(tokens: &[Token]) -> bool
    ensures { result ≡ spec.names_member tokens.now }
{
    match tokens {
        [dot, more @ ..] => {
            same_terminal(terminal_of(dot), Terminal::Dot)
                && same_terminal(ahead(more), Terminal::Name)
        }
        [] => false,
    }
}
