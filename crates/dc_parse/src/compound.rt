// Statements with statements inside.
ghost use Rattle.dc_grammar.specs.StmtReaders as spec;
ghost use Rattle.dc_parse.specs.Calls.{Reads};
ghost use Rattle.dc_parse.specs.Nests.{Nests};

use crate::parts::Source;
use crate::statements::StmtRules;
use dc_ast::{Group, Stmt, StmtKind, Stmts};
use dc_grammar::{Miss, ReadExpr, Terminal};
use sqlite_items::{Boxed, Items};

impl<
    'a,
    E: ReadExpr,
    F: Fn(&Source<'_, E>, usize, usize) -> Result<((bool, Stmt), usize), Miss>,
> StmtRules<'a, E, F> {
    #[tactic(auto, unfolding(dc_grammar::specs::StmtReaders::one_item))]
    fn one_item(&self, at: usize) -> Result<(Stmt, usize), Miss>
        requires { Nests spec.stmt_to self.now.source.now.tokens.now self.now.depth (F.pre self.now.inner self.now.source) (F.post self.now.inner self.now.source) }
        ensures { Reads self.now.source.now.tokens.now (spec.one_item (spec.stmt_to self.now.depth)) at result }
    {
        let ((_, found), rest) = self.inner(at)?;
        Ok((found, rest))
    }

    pub(crate) fn items(&self, at: usize) -> Result<(Stmts, usize), Miss>
        requires { Nests spec.stmt_to self.now.source.now.tokens.now self.now.depth (F.pre self.now.inner self.now.source) (F.post self.now.inner self.now.source) }
        ensures { Reads self.now.source.now.tokens.now (spec.items (spec.stmt_to self.now.depth)) at result }
    {
        self.source.many(at, |at| self.one_item(at))
    }

    #[tactic(auto, unfolding(dc_grammar::specs::StmtReaders::in_braces))]
    pub(crate) fn in_braces(&self, at: usize) -> Result<(Stmts, usize), Miss>
        requires { Nests spec.stmt_to self.now.source.now.tokens.now self.now.depth (F.pre self.now.inner self.now.source) (F.post self.now.inner self.now.source) }
        ensures { Reads self.now.source.now.tokens.now (spec.in_braces (spec.stmt_to self.now.depth)) at result }
    {
        let rest = self.source.mark(at, Terminal::LeftBrace)?;
        let (found, rest) = self.items(rest)?;
        let rest = self.source.mark(rest, Terminal::RightBrace)?;
        Ok((found, rest))
    }

    #[tactic(auto, unfolding(dc_grammar::specs::StmtReaders::block))]
    pub(crate) fn block(&self, at: usize) -> Result<((bool, StmtKind), usize), Miss>
        requires { Nests spec.stmt_to self.now.source.now.tokens.now self.now.depth (F.pre self.now.inner self.now.source) (F.post self.now.inner self.now.source) }
        ensures { Reads self.now.source.now.tokens.now (spec.block (spec.stmt_to self.now.depth)) at result }
    {
        let (found, rest) = self.in_braces(at)?;
        Ok(((false, StmtKind::Block(found)), rest))
    }

    #[tactic(auto, unfolding(dc_grammar::specs::StmtReaders::while_stmt))]
    pub(crate) fn while_stmt(&self, at: usize) -> Result<((bool, StmtKind), usize), Miss>
        requires { Nests spec.stmt_to self.now.source.now.tokens.now self.now.depth (F.pre self.now.inner self.now.source) (F.post self.now.inner self.now.source) }
        ensures { Reads self.now.source.now.tokens.now (spec.while_stmt (spec.stmt_to self.now.depth)) at result }
    {
        let (condition, rest) = self.source.head(at, Terminal::While)?;
        let ((takes_else, body), rest) = self.inner(rest)?;
        let kind = StmtKind::While(condition, Boxed::new(self.source.alloc, body)?);
        Ok(((takes_else, kind), rest))
    }

    #[tactic(auto, unfolding(dc_grammar::specs::StmtReaders::do_stmt))]
    pub(crate) fn do_stmt(&self, at: usize) -> Result<((bool, StmtKind), usize), Miss>
        requires { Nests spec.stmt_to self.now.source.now.tokens.now self.now.depth (F.pre self.now.inner self.now.source) (F.post self.now.inner self.now.source) }
        ensures { Reads self.now.source.now.tokens.now (spec.do_stmt (spec.stmt_to self.now.depth)) at result }
    {
        let rest = self.source.mark(at, Terminal::Do)?;
        let ((_, body), rest) = self.inner(rest)?;
        let body = Boxed::new(self.source.alloc, body)?;
        let (condition, rest) = self.source.head(rest, Terminal::While)?;
        let rest = self.source.mark(rest, Terminal::Semicolon)?;
        Ok(((false, StmtKind::Do(body, condition)), rest))
    }

    #[tactic(auto, unfolding(dc_grammar::specs::StmtReaders::for_stmt))]
    pub(crate) fn for_stmt(&self, at: usize) -> Result<((bool, StmtKind), usize), Miss>
        requires { Nests spec.stmt_to self.now.source.now.tokens.now self.now.depth (F.pre self.now.inner self.now.source) (F.post self.now.inner self.now.source) }
        ensures { Reads self.now.source.now.tokens.now (spec.for_stmt (spec.stmt_to self.now.depth)) at result }
    {
        let rest = self.source.mark(at, Terminal::For)?;
        let rest = self.source.mark(rest, Terminal::LeftParen)?;
        let (start, rest) = self.source.for_start(rest)?;
        let (condition, rest) = self.source.maybe_expr(rest)?;
        let rest = self.source.mark(rest, Terminal::Semicolon)?;
        let (step, rest) = self.source.maybe_expr(rest)?;
        let rest = self.source.mark(rest, Terminal::RightParen)?;
        let ((takes_else, body), rest) = self.inner(rest)?;
        let body = Boxed::new(self.source.alloc, body)?;
        Ok((
            (takes_else, StmtKind::For(start, condition, step, body)),
            rest,
        ))
    }

    #[tactic(auto, unfolding(dc_grammar::specs::StmtReaders::foreach_stmt))]
    pub(crate) fn foreach_stmt(&self, at: usize) -> Result<((bool, StmtKind), usize), Miss>
        requires { Nests spec.stmt_to self.now.source.now.tokens.now self.now.depth (F.pre self.now.inner self.now.source) (F.post self.now.inner self.now.source) }
        ensures { Reads self.now.source.now.tokens.now (spec.foreach_stmt (spec.stmt_to self.now.depth)) at result }
    {
        let rest = self.source.mark(at, Terminal::Foreach)?;
        let rest = self.source.mark(rest, Terminal::LeftParen)?;
        let (names, rest) = self.source.loops(rest)?;
        let rest = self.source.mark(rest, Terminal::Semicolon)?;
        let (over, rest) = self.source.expr(rest)?;
        let (end, rest) = self.source.maybe_end(rest)?;
        let rest = self.source.mark(rest, Terminal::RightParen)?;
        let ((takes_else, body), rest) = self.inner(rest)?;
        let body = Boxed::new(self.source.alloc, body)?;
        Ok((
            (takes_else, StmtKind::Foreach(names, over, end, body)),
            rest,
        ))
    }

    #[tactic(auto, unfolding(dc_grammar::specs::StmtReaders::group_read))]
    fn group_read(&self, at: usize) -> Result<(Group, usize), Miss>
        requires { Nests spec.stmt_to self.now.source.now.tokens.now self.now.depth (F.pre self.now.inner self.now.source) (F.post self.now.inner self.now.source) }
        ensures { Reads self.now.source.now.tokens.now (spec.group_read (spec.stmt_to self.now.depth)) at result }
    {
        let start = self.source.start(at);
        let (label, rest) = self.source.label_read(at)?;
        let (body, rest) = self.items(rest)?;
        let group = Group {
            at: start,
            label,
            body,
        };
        Ok((group, rest))
    }

    fn groups(&self, at: usize) -> Result<(Items<Group>, usize), Miss>
        requires { Nests spec.stmt_to self.now.source.now.tokens.now self.now.depth (F.pre self.now.inner self.now.source) (F.post self.now.inner self.now.source) }
        ensures { Reads self.now.source.now.tokens.now (spec.groups (spec.stmt_to self.now.depth)) at result }
    {
        self.source.many(at, |at| self.group_read(at))
    }

    #[tactic(auto, unfolding(dc_grammar::specs::StmtReaders::switch_stmt))]
    pub(crate) fn switch_stmt(&self, at: usize) -> Result<((bool, StmtKind), usize), Miss>
        requires { Nests spec.stmt_to self.now.source.now.tokens.now self.now.depth (F.pre self.now.inner self.now.source) (F.post self.now.inner self.now.source) }
        ensures { Reads self.now.source.now.tokens.now (spec.switch_stmt (spec.stmt_to self.now.depth)) at result }
    {
        let (over, rest) = self.source.head(at, Terminal::Switch)?;
        let rest = self.source.mark(rest, Terminal::LeftBrace)?;
        let (before, rest) = self.items(rest)?;
        let (groups, rest) = self.groups(rest)?;
        let rest = self.source.mark(rest, Terminal::RightBrace)?;
        Ok(((false, StmtKind::Switch(over, before, groups)), rest))
    }
}
