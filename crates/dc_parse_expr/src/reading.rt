// What begins at a token.
use crate::rules::{expr, type_at};
use dc_ast::{Expr, TypeTree};
use dc_grammar::{Level, Miss, Read, ReadExpr};
use dc_token::Tokens;
use dc_types::NoMemory;
use std::alloc::Global;

/// Reads the longest expression and the longest type at a token.
#[derive(Clone, Copy)]
pub struct ExprReader {
    pub alloc: Global,
}

impl ReadExpr for ExprReader {
    fn read(&self, tokens: &Tokens, from: usize) -> Result<Read<Expr>, NoMemory> {
        let tokens = tokens.as_slice();
        if from >= tokens.len() {
            return Ok(Read::Nothing);
        }
        let text = &tokens[from..];
        match expr(self.alloc, text, text.len(), Level::Whole) {
            Ok((tree, rest)) => Ok(Read::Found {
                tree,
                end: tokens.len() - rest.len(),
            }),
            Err(Miss::Nothing) => Ok(Read::Nothing),
            Err(Miss::Memory) => Err(NoMemory),
        }
    }

    fn read_type(&self, tokens: &Tokens, from: usize) -> Result<Read<TypeTree>, NoMemory> {
        let tokens = tokens.as_slice();
        if from >= tokens.len() {
            return Ok(Read::Nothing);
        }
        let text = &tokens[from..];
        match type_at(self.alloc, text) {
            Ok((tree, rest)) => Ok(Read::Found {
                tree,
                end: tokens.len() - rest.len(),
            }),
            Err(Miss::Nothing) => Ok(Read::Nothing),
            Err(Miss::Memory) => Err(NoMemory),
        }
    }
}
