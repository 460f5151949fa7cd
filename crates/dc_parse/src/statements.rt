// The rules of statements take the reader of the statements inside as a parameter, so that each is proved by itself.
ghost use Rattle.dc_grammar.specs.StmtReaders as spec;
ghost use Rattle.dc_parse.specs.Calls.{Reads};
ghost use Rattle.dc_parse.specs.Nests.{Nests};

use crate::parts::Source;
use crate::simple::{
    alias, break_stmt, continue_stmt, empty, enum_stmt, import, mixin_or_expr, return_stmt,
    simple_stmt,
};
use dc_ast::{Stmt, StmtKind, Stmts};
use dc_grammar::{Miss, ReadExpr, Terminal};

/// The rules of statements, one method for each. What is read says whether an `else` that follows would belong to it.
#[derive(Drop)]
pub(crate) struct StmtRules<'a, E, F> {
    pub(crate) source: &'a Source<'a, E>,
    /// How deep statements may still nest.
    pub(crate) depth: usize,
    /// Reads the statements inside.
    pub(crate) inner: F,
}

impl<
    'a,
    E: ReadExpr,
    F: Fn(&Source<'_, E>, usize, usize) -> Result<((bool, Stmt), usize), Miss>,
> StmtRules<'a, E, F> {
    pub(crate) fn inner(&self, at: usize) -> Result<((bool, Stmt), usize), Miss>
        requires { Nests spec.stmt_to self.now.source.now.tokens.now self.now.depth (F.pre self.now.inner self.now.source) (F.post self.now.inner self.now.source) }
        ensures { Reads self.now.source.now.tokens.now (spec.stmt_to self.now.depth) at result }
    {
        (self.inner)(self.source, at, self.depth)
    }

    #[tactic(auto, unfolding(dc_grammar::specs::StmtReaders::stmt_kind))]
    fn stmt_kind(&self, at: usize) -> Result<((bool, StmtKind), usize), Miss>
        requires { Nests spec.stmt_to self.now.source.now.tokens.now self.now.depth (F.pre self.now.inner self.now.source) (F.post self.now.inner self.now.source) }
        ensures { Reads self.now.source.now.tokens.now (spec.stmt_kind (spec.stmt_to self.now.depth)) at result }
    {
        match self.source.ahead(at) {
            Terminal::LeftBrace => self.block(at),
            Terminal::Semicolon => empty(self.source, at),
            Terminal::Enum => enum_stmt(self.source, at),
            Terminal::Alias => alias(self.source, at),
            Terminal::Import => import(self.source, at),
            Terminal::Static => self.static_stmt(at),
            Terminal::Version => self.conditional_stmt(at),
            Terminal::Mixin => mixin_or_expr(self.source, at),
            Terminal::If => self.if_stmt(at),
            Terminal::While => self.while_stmt(at),
            Terminal::Do => self.do_stmt(at),
            Terminal::For => self.for_stmt(at),
            Terminal::Foreach => self.foreach_stmt(at),
            Terminal::Switch => self.switch_stmt(at),
            Terminal::Break => break_stmt(self.source, at),
            Terminal::Continue => continue_stmt(self.source, at),
            Terminal::Return => return_stmt(self.source, at),
            _ => simple_stmt(self.source, at),
        }
    }

    #[tactic(auto, unfolding(dc_grammar::specs::StmtReaders::one_stmt))]
    fn one_stmt(&self, at: usize) -> Result<((bool, Stmt), usize), Miss>
        requires { Nests spec.stmt_to self.now.source.now.tokens.now self.now.depth (F.pre self.now.inner self.now.source) (F.post self.now.inner self.now.source) }
        ensures { Reads self.now.source.now.tokens.now (spec.one_stmt (spec.stmt_to self.now.depth)) at result }
    {
        let start = self.source.start(at);
        let ((takes_else, kind), rest) = self.stmt_kind(at)?;
        Ok(((takes_else, Stmt { at: start, kind }), rest))
    }
}

/// The longest statement that begins at a token. Each further level of nesting takes a token, so `depth` is to be at
/// least the count of tokens. Past the room of the source it is want of memory.
pub(crate) fn stmt<E: ReadExpr>(
    source: &Source<'_, E>,
    at: usize,
    depth: usize,
) -> Result<((bool, Stmt), usize), Miss>
    ensures { Reads source.now.tokens.now (spec.stmt_to depth) at result }
{
    if depth == 0 {
        return Err(Miss::Nothing);
    }
    let Some(inside) = source.inside() else {
        return Err(Miss::Memory);
    };
    StmtRules {
        source: &inside,
        depth: depth - 1,
        inner: stmt::<E>,
    }
    .one_stmt(at)
}

/// Statements, as many as there are.
pub(crate) fn stmts<E: ReadExpr>(source: &Source<'_, E>, at: usize) -> Result<(Stmts, usize), Miss>
    ensures { Reads source.now.tokens.now spec.whole_stmts at result }
{
    StmtRules {
        source: &*source,
        depth: source.count(at),
        inner: stmt::<E>,
    }
    .items(at)
}
