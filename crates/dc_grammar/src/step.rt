// Functions that read one token.
ghost use Rattle.std.specs.Prelude.{◌≡◌};
ghost use Rattle.dc_grammar.specs.Reading as reading;
ghost use Rattle.dc_grammar.specs.Readers as readers;
ghost use Rattle.dc_grammar.specs.Gives.{Gives};

use crate::{Miss, Terminal, same_terminal, terminal_of};
use dc_ast::{Name, Spelling};
use dc_token::Token;
use std::alloc::Global;

/// What follows the terminal.
pub fn mark(tokens: &[Token], terminal: Terminal) -> Result<&[Token], Miss>
    ensures { Gives (λ x. (tt, x.now)) result (reading.mark terminal tokens.now) }
{
    match tokens {
        [token, rest @ ..] if same_terminal(terminal_of(token), terminal) => Ok(rest),
        _ => Err(Miss::Nothing),
    }
}

/// A name, and what follows it.
pub fn id(alloc: Global, tokens: &[Token]) -> Result<(Name, &[Token]), Miss>
    ensures { Gives (λ x. (x.0, x.1.now)) result (readers.id tokens.now) }
{
    match tokens {
        [token, rest @ ..] if same_terminal(terminal_of(token), Terminal::Name) => {
            let spelling = Spelling::copy_of(alloc, token.spelling.as_slice())?;
            let name = Name {
                spelling,
                at: token.start,
            };
            Ok((name, rest))
        }
        _ => Err(Miss::Nothing),
    }
}

/// The spelling of a literal, and what follows it.
pub fn word(
    alloc: Global,
    tokens: &[Token],
    terminal: Terminal,
) -> Result<(Spelling, &[Token]), Miss>
    ensures { Gives (λ x. (x.0, x.1.now)) result (readers.word terminal tokens.now) }
{
    match tokens {
        [token, rest @ ..] if same_terminal(terminal_of(token), terminal) => {
            Ok((Spelling::copy_of(alloc, token.spelling.as_slice())?, rest))
        }
        _ => Err(Miss::Nothing),
    }
}
