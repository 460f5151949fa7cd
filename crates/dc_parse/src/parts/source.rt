// What is read from.
ghost use Rattle.std.specs.Prelude.{◌≡◌, ◌∷◌, [], ◌≤◌, length, IfSome, MatchOption};
ghost use Rattle.dc_grammar.specs.Terminals as terminals;
ghost use Rattle.dc_grammar.specs.Statements as statements;
ghost use Rattle.dc_grammar.specs.Reading as reading;
ghost use Rattle.dc_grammar.specs.Readers as readers;
ghost use Rattle.dc_grammar.specs.Gives.{Gives};
ghost use Rattle.dc_parse.specs.Left.{left};
ghost use Rattle.dc_parse.specs.Calls.{Reads};

use dc_ast::{Expr, Name, Spelling, TypeTree};
use dc_grammar::{Miss, Read, ReadExpr, Terminal, same_terminal, terminal_of};
use dc_token::{Token, Tokens};
use std::alloc::Global;

/// The tokens of a text, and what reads the expressions among them. Its methods read what begins at a token, which is
/// named by its number, and answer the number of the token behind it.
#[derive(Drop)]
pub(crate) struct Source<'a, E> {
    pub(crate) alloc: Global,
    pub(crate) exprs: &'a E,
    pub(crate) tokens: &'a Tokens,
    /// How many statements and declarations may still open inside those that are open. The nesting of a text doesn't
    /// bound them, and each takes room on the stack.
    pub(crate) room: usize,
}

impl<'a, E: ReadExpr> Source<'a, E> {
    /// The same for what stands inside one more statement or declaration, where there is room for one.
    pub(crate) fn inside(&self) -> Option<Source<'a, E>>
        ensures { IfSome result (λ inside. inside.tokens.now ≡ self.now.tokens.now) }
    {
        let room = self.room.checked_sub(1)?;
        Some(Source {
            alloc: self.alloc,
            exprs: self.exprs,
            tokens: self.tokens,
            room,
        })
    }

    /// How many tokens there are from this one on.
    #[tactic(auto, unfolding(crate::specs::Left::left))]
    pub(crate) fn count(&self, at: usize) -> usize
        ensures { result ≡ length (left self.now.tokens.now at) }
    {
        self.tokens.len().saturating_sub(at)
    }

    /// The token, and the number of the next one.
    #[tactic(auto, unfolding(crate::specs::Left::left))]
    pub(crate) fn token(&self, at: usize) -> Option<(&Token, usize)>
        ensures { MatchOption result (left self.now.tokens.now at ≡ []) (λ x. left self.now.tokens.now at ≡ x.0.now ∷ left self.now.tokens.now x.1) }
    {
        let tokens = self.tokens.as_slice();
        if at >= tokens.len() {
            return None;
        }
        Some((&tokens[at], at + 1))
    }

    /// The terminal of the token.
    pub(crate) fn ahead(&self, at: usize) -> Terminal
        ensures { result ≡ terminals.ahead (left self.now.tokens.now at) }
    {
        match self.token(at) {
            Some((token, _)) => terminal_of(token),
            None => Terminal::End,
        }
    }

    /// The terminal of the token behind it.
    pub(crate) fn second(&self, at: usize) -> Terminal
        ensures { result ≡ statements.second (left self.now.tokens.now at) }
    {
        match self.token(at) {
            Some((_, after)) => self.ahead(after),
            None => Terminal::End,
        }
    }

    /// The offset of the token, 0 where there is none.
    pub(crate) fn start(&self, at: usize) -> u32
        ensures { result ≡ terminals.start_of (left self.now.tokens.now at) }
    {
        match self.token(at) {
            Some((token, _)) => token.start,
            None => 0,
        }
    }

    /// One terminal.
    pub(crate) fn mark(&self, at: usize, terminal: Terminal) -> Result<usize, Miss>
        ensures { Gives (λ x. (tt, left self.now.tokens.now x)) result (reading.mark terminal (left self.now.tokens.now at)) }
    {
        match self.token(at) {
            Some((token, after)) if same_terminal(terminal_of(token), terminal) => Ok(after),
            _ => Err(Miss::Nothing),
        }
    }

    /// A name.
    pub(crate) fn id(&self, at: usize) -> Result<(Name, usize), Miss>
        ensures { Reads self.now.tokens.now readers.id at result }
    {
        match self.token(at) {
            Some((token, after)) if same_terminal(terminal_of(token), Terminal::Name) => {
                let name = Name {
                    spelling: Spelling::copy_of(self.alloc, token.spelling.as_slice())?,
                    at: token.start,
                };
                Ok((name, after))
            }
            _ => Err(Miss::Nothing),
        }
    }

    /// The longest expression.
    pub(crate) fn expr(&self, at: usize) -> Result<(Expr, usize), Miss>
        ensures { Reads self.now.tokens.now readers.whole_expr at result }
    {
        if at > self.tokens.len() {
            return Err(Miss::Nothing);
        }
        match self.exprs.read(self.tokens, at) {
            Ok(Read::Found { tree, end }) => Ok((tree, end)),
            Ok(Read::Nothing) => Err(Miss::Nothing),
            Err(_) => Err(Miss::Memory),
        }
    }

    /// The longest type.
    pub(crate) fn of_type(&self, at: usize) -> Result<(TypeTree, usize), Miss>
        ensures { Reads self.now.tokens.now readers.whole_type at result }
    {
        if at > self.tokens.len() {
            return Err(Miss::Nothing);
        }
        match self.exprs.read_type(self.tokens, at) {
            Ok(Read::Found { tree, end }) => Ok((tree, end)),
            Ok(Read::Nothing) => Err(Miss::Nothing),
            Err(_) => Err(Miss::Memory),
        }
    }
}
