// What begins at a token.
ghost use Rattle.std.specs.Prelude.{IfOk};
ghost use Rattle.dc_grammar.specs.Grammar.{IsExpr, IsType};
ghost use Rattle.dc_grammar.specs.Reads.{IsReadAt};

use dc_ast::{Expr, TypeTree};
use dc_token::Tokens;
use dc_types::NoMemory;

/// What begins at a token: a tree and the number of the token behind it, or nothing of its kind.
#[derive(Drop)]
pub enum Read<T> {
    Found { tree: T, end: usize },
    Nothing,
}

/// Reads expressions and types, for parsers of what holds them. Nothing begins at the end of the tokens or behind it.
pub trait ReadExpr {
    /// The longest expression that begins at the token `from`.
    fn read(&self, tokens: &Tokens, from: usize) -> Result<Read<Expr>, NoMemory>
        ensures { IfOk result (λ found. IsReadAt IsExpr tokens.now from found) };

    /// The longest type that begins at the token `from`.
    fn read_type(&self, tokens: &Tokens, from: usize) -> Result<Read<TypeTree>, NoMemory>
        ensures { IfOk result (λ found. IsReadAt IsType tokens.now from found) };
}
