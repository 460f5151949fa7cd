// Conditional statements.
ghost use Rattle.std.specs.Prelude.{◌≡◌};
ghost use Rattle.dc_grammar.specs.StmtReaders as spec;
ghost use Rattle.dc_parse.specs.Cases as cases;
ghost use Rattle.dc_grammar.specs.Statements.{begins_conditional, begins_if};
ghost use Rattle.dc_parse.specs.Calls.{Reads};
ghost use Rattle.dc_parse.specs.Left.{left};
ghost use Rattle.dc_parse.specs.Nests.{Nests};

use crate::chain::{begins_conditional, begins_if, chain};
use crate::parts::Source;
use crate::simple::{static_assert, static_import};
use crate::statements::StmtRules;
use dc_ast::{Branch, StaticStatement, Stmt, StmtBody, StmtBranch, StmtKind};
use dc_grammar::{Miss, ReadExpr, Terminal};
use sqlite_items::{Boxed, Items};

impl<
    'a,
    E: ReadExpr,
    F: Fn(&Source<'_, E>, usize, usize) -> Result<((bool, Stmt), usize), Miss>,
> StmtRules<'a, E, F> {
    fn opens_if(&self, at: usize) -> bool
        ensures { result ≡ begins_if (left self.now.source.now.tokens.now at) }
    {
        begins_if(self.source, at)
    }

    fn opens_conditional(&self, at: usize) -> bool
        ensures { result ≡ begins_conditional (left self.now.source.now.tokens.now at) }
    {
        begins_conditional(self.source, at)
    }

    #[tactic(auto, unfolding(dc_grammar::specs::StmtReaders::if_branch))]
    fn if_branch(&self, at: usize) -> Result<((bool, Branch), usize), Miss>
        requires { Nests spec.stmt_to self.now.source.now.tokens.now self.now.depth (F.pre self.now.inner self.now.source) (F.post self.now.inner self.now.source) }
        ensures { Reads self.now.source.now.tokens.now (spec.if_branch (spec.stmt_to self.now.depth)) at result }
    {
        let (condition, rest) = self.source.head(at, Terminal::If)?;
        let ((takes_else, body), rest) = self.inner(rest)?;
        Ok(((takes_else, Branch { condition, body }), rest))
    }

    fn branches(&self, at: usize) -> Result<((bool, (Items<Branch>, Option<Stmt>)), usize), Miss>
        requires { Nests spec.stmt_to self.now.source.now.tokens.now self.now.depth (F.pre self.now.inner self.now.source) (F.post self.now.inner self.now.source) }
        ensures { Reads self.now.source.now.tokens.now (spec.chain (spec.if_branch (spec.stmt_to self.now.depth)) begins_if (spec.stmt_to self.now.depth)) at result }
    {
        let first = |at: usize| -> Result<((bool, Branch), usize), Miss>
            requires { Nests spec.stmt_to self.now.source.now.tokens.now self.now.depth (F.pre self.now.inner self.now.source) (F.post self.now.inner self.now.source) }
            ensures { Reads self.entry.now.source.now.tokens.now (spec.if_branch (spec.stmt_to self.entry.now.depth)) at result }
        { self.if_branch(at) };
        let opens = |at: usize| -> bool
            ensures { result ≡ begins_if (left self.entry.now.source.now.tokens.now at) }
        { self.opens_if(at) };
        let other = |at: usize| -> Result<((bool, Stmt), usize), Miss>
            requires { Nests spec.stmt_to self.now.source.now.tokens.now self.now.depth (F.pre self.now.inner self.now.source) (F.post self.now.inner self.now.source) }
            ensures { Reads self.entry.now.source.now.tokens.now (spec.stmt_to self.entry.now.depth) at result }
        { self.inner(at) };
        chain(self.source, at, first, opens, other)
    }

    #[tactic(auto, unfolding(dc_grammar::specs::StmtReaders::if_stmt))]
    pub(crate) fn if_stmt(&self, at: usize) -> Result<((bool, StmtKind), usize), Miss>
        requires { Nests spec.stmt_to self.now.source.now.tokens.now self.now.depth (F.pre self.now.inner self.now.source) (F.post self.now.inner self.now.source) }
        ensures { Reads self.now.source.now.tokens.now (spec.if_stmt (spec.stmt_to self.now.depth)) at result }
    {
        let ((takes_else, (branches, last)), rest) = self.branches(at)?;
        let last = match last {
            Some(last) => Some(Boxed::new(self.source.alloc, last)?),
            None => None,
        };
        Ok(((takes_else, StmtKind::If(branches, last)), rest))
    }

    fn braces_body(&self, at: usize) -> Result<((bool, StmtBody), usize), Miss>
        requires { Nests spec.stmt_to self.now.source.now.tokens.now self.now.depth (F.pre self.now.inner self.now.source) (F.post self.now.inner self.now.source) }
        ensures { Reads self.now.source.now.tokens.now (cases.stmts_in_braces (spec.stmt_to self.now.depth)) at result }
    {
        let (found, rest) = self.in_braces(at)?;
        Ok(((false, StmtBody::Braces(found)), rest))
    }

    fn one_body(&self, at: usize) -> Result<((bool, StmtBody), usize), Miss>
        requires { Nests spec.stmt_to self.now.source.now.tokens.now self.now.depth (F.pre self.now.inner self.now.source) (F.post self.now.inner self.now.source) }
        ensures { Reads self.now.source.now.tokens.now (cases.one_stmt (spec.stmt_to self.now.depth)) at result }
    {
        let ((takes_else, found), rest) = self.inner(at)?;
        let body = StmtBody::One(Boxed::new(self.source.alloc, found)?);
        Ok(((takes_else, body), rest))
    }

    #[tactic(auto, unfolding(dc_grammar::specs::StmtReaders::stmt_body))]
    fn stmt_body(&self, at: usize) -> Result<((bool, StmtBody), usize), Miss>
        requires { Nests spec.stmt_to self.now.source.now.tokens.now self.now.depth (F.pre self.now.inner self.now.source) (F.post self.now.inner self.now.source) }
        ensures { Reads self.now.source.now.tokens.now (spec.stmt_body (spec.stmt_to self.now.depth)) at result }
    {
        match self.source.ahead(at) {
            Terminal::LeftBrace => self.braces_body(at),
            _ => self.one_body(at),
        }
    }

    #[tactic(auto, unfolding(dc_grammar::specs::StmtReaders::static_branch))]
    fn static_branch(&self, at: usize) -> Result<((bool, StmtBranch), usize), Miss>
        requires { Nests spec.stmt_to self.now.source.now.tokens.now self.now.depth (F.pre self.now.inner self.now.source) (F.post self.now.inner self.now.source) }
        ensures { Reads self.now.source.now.tokens.now (spec.static_branch (spec.stmt_to self.now.depth)) at result }
    {
        let start = self.source.start(at);
        let (test, rest) = self.source.static_test(at)?;
        let ((takes_else, body), rest) = self.stmt_body(rest)?;
        let branch = StmtBranch {
            at: start,
            test,
            body,
        };
        Ok(((takes_else, branch), rest))
    }

    fn static_branches(
        &self,
        at: usize,
    ) -> Result<((bool, (Items<StmtBranch>, Option<StmtBody>)), usize), Miss>
        requires { Nests spec.stmt_to self.now.source.now.tokens.now self.now.depth (F.pre self.now.inner self.now.source) (F.post self.now.inner self.now.source) }
        ensures { Reads self.now.source.now.tokens.now (spec.chain (spec.static_branch (spec.stmt_to self.now.depth)) begins_conditional (spec.stmt_body (spec.stmt_to self.now.depth))) at result }
    {
        let first = |at: usize| -> Result<((bool, StmtBranch), usize), Miss>
            requires { Nests spec.stmt_to self.now.source.now.tokens.now self.now.depth (F.pre self.now.inner self.now.source) (F.post self.now.inner self.now.source) }
            ensures { Reads self.entry.now.source.now.tokens.now (spec.static_branch (spec.stmt_to self.entry.now.depth)) at result }
        { self.static_branch(at) };
        let opens = |at: usize| -> bool
            ensures { result ≡ begins_conditional (left self.entry.now.source.now.tokens.now at) }
        { self.opens_conditional(at) };
        let other = |at: usize| -> Result<((bool, StmtBody), usize), Miss>
            requires { Nests spec.stmt_to self.now.source.now.tokens.now self.now.depth (F.pre self.now.inner self.now.source) (F.post self.now.inner self.now.source) }
            ensures { Reads self.entry.now.source.now.tokens.now (spec.stmt_body (spec.stmt_to self.entry.now.depth)) at result }
        { self.stmt_body(at) };
        chain(self.source, at, first, opens, other)
    }

    #[tactic(auto, unfolding(dc_grammar::specs::StmtReaders::conditional_stmt))]
    pub(crate) fn conditional_stmt(&self, at: usize) -> Result<((bool, StmtKind), usize), Miss>
        requires { Nests spec.stmt_to self.now.source.now.tokens.now self.now.depth (F.pre self.now.inner self.now.source) (F.post self.now.inner self.now.source) }
        ensures { Reads self.now.source.now.tokens.now (spec.conditional_stmt (spec.stmt_to self.now.depth)) at result }
    {
        let ((takes_else, (branches, last)), rest) = self.static_branches(at)?;
        let kind = StmtKind::Static(StaticStatement::Conditional(branches, last));
        Ok(((takes_else, kind), rest))
    }

    #[tactic(auto, unfolding(dc_grammar::specs::StmtReaders::static_foreach))]
    fn static_foreach(&self, at: usize) -> Result<((bool, StmtKind), usize), Miss>
        requires { Nests spec.stmt_to self.now.source.now.tokens.now self.now.depth (F.pre self.now.inner self.now.source) (F.post self.now.inner self.now.source) }
        ensures { Reads self.now.source.now.tokens.now (spec.static_foreach (spec.stmt_to self.now.depth)) at result }
    {
        let (range, rest) = self.source.static_over(at)?;
        let ((takes_else, body), rest) = self.stmt_body(rest)?;
        let kind = StmtKind::Static(StaticStatement::Foreach(range, body));
        Ok(((takes_else, kind), rest))
    }

    pub(crate) fn static_stmt(&self, at: usize) -> Result<((bool, StmtKind), usize), Miss>
        requires { Nests spec.stmt_to self.now.source.now.tokens.now self.now.depth (F.pre self.now.inner self.now.source) (F.post self.now.inner self.now.source) }
        ensures { Reads self.now.source.now.tokens.now (spec.static_stmt (spec.stmt_to self.now.depth)) at result }
    {
        match self.source.second(at) {
            Terminal::Import => static_import(self.source, at),
            Terminal::If => self.conditional_stmt(at),
            Terminal::Foreach => self.static_foreach(at),
            Terminal::Assert => static_assert(self.source, at),
            _ => Err(Miss::Nothing),
        }
    }
}
