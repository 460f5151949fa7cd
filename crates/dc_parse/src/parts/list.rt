// Lists, and what may be absent.
ghost use Rattle.std.specs.Prelude.{◌≡◌, [], ◌∷◌, IfOk};
ghost use Rattle.dc_grammar.specs.Reading as reading;
ghost use Rattle.dc_grammar.specs.Reading.{Reader};
ghost use Rattle.dc_grammar.specs.Readers as readers;
ghost use Rattle.dc_grammar.specs.PartReaders as parts;
ghost use Rattle.dc_parse.specs.Calls.{Calls, Reads};

use crate::parts::source::Source;
use dc_ast::Expr;
use dc_grammar::{Miss, ReadExpr, Terminal};
use sqlite_items::Items;
use std::alloc::{AllocError, Global};

/// An item before others.
pub(crate) fn with_first<T: Drop>(
    alloc: Global,
    first: T,
    others: Items<T>,
) -> Result<Items<T>, AllocError>
    ensures { IfOk result (λ all. all ≡ first ∷ others) }
{
    let mut all = Items::new(alloc);
    all.push(first)?;
    all.append(others)?;
    Ok(all)
}

pub(crate) fn one_item<T: Drop>(alloc: Global, item: T) -> Result<Items<T>, AllocError>
    ensures { IfOk result (λ all. all ≡ item ∷ []) }
{
    let mut all = Items::new(alloc);
    all.push(item)?;
    Ok(all)
}

pub(crate) fn two_items<T: Drop>(alloc: Global, first: T, second: T) -> Result<Items<T>, AllocError>
    ensures { IfOk result (λ all. all ≡ first ∷ second ∷ []) }
{
    let mut all = Items::new(alloc);
    all.push(first)?;
    all.push(second)?;
    Ok(all)
}

impl<'a, E: ReadExpr> Source<'a, E> {
    /// As many as there are.
    pub(crate) fn many<T: Drop, F: Fn(usize) -> Result<(T, usize), Miss>>(
        &self,
        at: usize,
        one: F,
    ) -> Result<(Items<T>, usize), Miss>
        requires { F.IsAlwaysCallable one }
        ensures { (p : Reader T) → Calls p self.now.tokens.now (F.post one) → Reads self.now.tokens.now (reading.many p) at result }
    {
        let mut found = Items::new(self.alloc);
        let mut rest = at;
        for _turn in 0..self.count(at) {
            match one(rest) {
                Ok((next, after)) => {
                    found.push(next)?;
                    rest = after;
                }
                Err(Miss::Nothing) => return Ok((found, rest)),
                Err(Miss::Memory) => return Err(Miss::Memory),
            }
        }
        Ok((found, rest))
    }

    /// One, where it is there.
    pub(crate) fn maybe<T: Drop, F: Fn(usize) -> Result<(T, usize), Miss>>(
        &self,
        at: usize,
        one: F,
    ) -> Result<(Option<T>, usize), Miss>
        requires { F.IsAlwaysCallable one }
        ensures { (p : Reader T) → Calls p self.now.tokens.now (F.post one) → Reads self.now.tokens.now (reading.maybe p) at result }
    {
        match one(at) {
            Ok((x, rest)) => Ok((Some(x), rest)),
            Err(Miss::Nothing) => Ok((None, at)),
            Err(Miss::Memory) => Err(Miss::Memory),
        }
    }

    /// One or more, with commas between them.
    pub(crate) fn listed<T: Drop, F: Fn(usize) -> Result<(T, usize), Miss>>(
        &self,
        at: usize,
        one: F,
    ) -> Result<(Items<T>, usize), Miss>
        requires { F.IsAlwaysCallable one }
        ensures { (p : Reader T) → Calls p self.now.tokens.now (F.post one) → Reads self.now.tokens.now (parts.listed p) at result }
    {
        let (first, rest) = one(at)?;
        let next = |at: usize| -> Result<(T, usize), Miss>
            requires { F.IsAlwaysCallable one }
            ensures { (p : Reader T) → Calls p self.entry.now.tokens.now (F.post one) → Reads self.entry.now.tokens.now (parts.next p) at result }
        {
            let rest = self.mark(at, Terminal::Comma)?;
            one(rest)
        };
        let (others, rest) = self.many(rest, next)?;
        Ok((with_first(self.alloc, first, others)?, rest))
    }

    /// Some with commas between them, or none.
    pub(crate) fn some_listed<T: Drop, F: Fn(usize) -> Result<(T, usize), Miss>>(
        &self,
        at: usize,
        one: F,
    ) -> Result<(Items<T>, usize), Miss>
        requires { F.IsAlwaysCallable one }
        ensures { (p : Reader T) → Calls p self.now.tokens.now (F.post one) → Reads self.now.tokens.now (parts.some_listed p) at result }
    {
        match self.listed(at, one) {
            Ok(found) => Ok(found),
            Err(Miss::Nothing) => Ok((Items::new(self.alloc), at)),
            Err(Miss::Memory) => Err(Miss::Memory),
        }
    }

    /// Whether the terminal stands there.
    pub(crate) fn flag(&self, at: usize, terminal: Terminal) -> Result<(bool, usize), Miss>
        ensures { Reads self.now.tokens.now (parts.flag terminal) at result }
    {
        match self.mark(at, terminal) {
            Ok(rest) => Ok((true, rest)),
            Err(Miss::Nothing) => Ok((false, at)),
            Err(Miss::Memory) => Err(Miss::Memory),
        }
    }

    /// An expression, where one is there.
    pub(crate) fn maybe_expr(&self, at: usize) -> Result<(Option<Expr>, usize), Miss>
        ensures { Reads self.now.tokens.now (reading.maybe readers.whole_expr) at result }
    {
        match self.expr(at) {
            Ok((x, rest)) => Ok((Some(x), rest)),
            Err(Miss::Nothing) => Ok((None, at)),
            Err(Miss::Memory) => Err(Miss::Memory),
        }
    }
}
