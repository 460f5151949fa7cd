// Statements with no statement inside.
ghost use Rattle.dc_grammar.specs.StmtReaders as spec;
ghost use Rattle.dc_grammar.specs.Reading.{either};
ghost use Rattle.dc_parse.specs.Cases as cases;
ghost use Rattle.dc_parse.specs.Calls.{Reads};

use crate::parts::Source;
use dc_ast::{StaticStatement, StmtKind};
use dc_grammar::{Miss, ReadExpr, Terminal};

pub(crate) fn empty<E: ReadExpr>(
    source: &Source<'_, E>,
    at: usize,
) -> Result<((bool, StmtKind), usize), Miss>
    ensures { Reads source.now.tokens.now cases.empty_stmt at result }
{
    let rest = source.mark(at, Terminal::Semicolon)?;
    Ok(((false, StmtKind::Empty), rest))
}

pub(crate) fn alias<E: ReadExpr>(
    source: &Source<'_, E>,
    at: usize,
) -> Result<((bool, StmtKind), usize), Miss>
    ensures { Reads source.now.tokens.now cases.alias_stmt at result }
{
    let (tree, rest) = source.alias_read(at)?;
    Ok(((false, StmtKind::Alias(tree)), rest))
}

pub(crate) fn import<E: ReadExpr>(
    source: &Source<'_, E>,
    at: usize,
) -> Result<((bool, StmtKind), usize), Miss>
    ensures { Reads source.now.tokens.now cases.import_stmt at result }
{
    let (tree, rest) = source.imported(at, false)?;
    Ok(((false, StmtKind::Import(tree)), rest))
}

pub(crate) fn static_import<E: ReadExpr>(
    source: &Source<'_, E>,
    at: usize,
) -> Result<((bool, StmtKind), usize), Miss>
    ensures { Reads source.now.tokens.now cases.static_import_stmt at result }
{
    let (tree, rest) = source.static_import(at)?;
    Ok(((false, StmtKind::Import(tree)), rest))
}

pub(crate) fn static_assert<E: ReadExpr>(
    source: &Source<'_, E>,
    at: usize,
) -> Result<((bool, StmtKind), usize), Miss>
    ensures { Reads source.now.tokens.now cases.static_assert_stmt at result }
{
    let (tree, rest) = source.static_check(at)?;
    Ok((
        (false, StmtKind::Static(StaticStatement::Assert(tree))),
        rest,
    ))
}

#[tactic(auto, unfolding(dc_grammar::specs::StmtReaders::mixin_stmt))]
fn mixin_stmt<E: ReadExpr>(
    source: &Source<'_, E>,
    at: usize,
) -> Result<((bool, StmtKind), usize), Miss>
    ensures { Reads source.now.tokens.now spec.mixin_stmt at result }
{
    let (text, rest) = source.head(at, Terminal::Mixin)?;
    let rest = source.mark(rest, Terminal::Semicolon)?;
    Ok(((false, StmtKind::Mixin(text)), rest))
}

#[tactic(auto, unfolding(dc_grammar::specs::StmtReaders::expr_stmt))]
fn expr_stmt<E: ReadExpr>(
    source: &Source<'_, E>,
    at: usize,
) -> Result<((bool, StmtKind), usize), Miss>
    ensures { Reads source.now.tokens.now spec.expr_stmt at result }
{
    let (x, rest) = source.expr(at)?;
    let rest = source.mark(rest, Terminal::Semicolon)?;
    Ok(((false, StmtKind::Expr(x)), rest))
}

/// A statement that begins with `mixin`.
pub(crate) fn mixin_or_expr<E: ReadExpr>(
    source: &Source<'_, E>,
    at: usize,
) -> Result<((bool, StmtKind), usize), Miss>
    ensures { Reads source.now.tokens.now (either spec.mixin_stmt spec.expr_stmt) at result }
{
    match mixin_stmt(source, at) {
        Ok(found) => Ok(found),
        Err(Miss::Nothing) => expr_stmt(source, at),
        Err(Miss::Memory) => Err(Miss::Memory),
    }
}

#[tactic(auto, unfolding(dc_grammar::specs::StmtReaders::break_stmt))]
pub(crate) fn break_stmt<E: ReadExpr>(
    source: &Source<'_, E>,
    at: usize,
) -> Result<((bool, StmtKind), usize), Miss>
    ensures { Reads source.now.tokens.now spec.break_stmt at result }
{
    let rest = source.mark(at, Terminal::Break)?;
    let rest = source.mark(rest, Terminal::Semicolon)?;
    Ok(((false, StmtKind::Break), rest))
}

#[tactic(auto, unfolding(dc_grammar::specs::StmtReaders::continue_stmt))]
pub(crate) fn continue_stmt<E: ReadExpr>(
    source: &Source<'_, E>,
    at: usize,
) -> Result<((bool, StmtKind), usize), Miss>
    ensures { Reads source.now.tokens.now spec.continue_stmt at result }
{
    let rest = source.mark(at, Terminal::Continue)?;
    let rest = source.mark(rest, Terminal::Semicolon)?;
    Ok(((false, StmtKind::Continue), rest))
}

#[tactic(auto, unfolding(dc_grammar::specs::StmtReaders::return_stmt))]
pub(crate) fn return_stmt<E: ReadExpr>(
    source: &Source<'_, E>,
    at: usize,
) -> Result<((bool, StmtKind), usize), Miss>
    ensures { Reads source.now.tokens.now spec.return_stmt at result }
{
    let rest = source.mark(at, Terminal::Return)?;
    let (value, rest) = source.maybe_expr(rest)?;
    let rest = source.mark(rest, Terminal::Semicolon)?;
    Ok(((false, StmtKind::Return(value)), rest))
}

fn constant<E: ReadExpr>(
    source: &Source<'_, E>,
    at: usize,
) -> Result<((bool, StmtKind), usize), Miss>
    ensures { Reads source.now.tokens.now cases.constant_stmt at result }
{
    let (tree, rest) = source.manifest(at)?;
    Ok(((false, StmtKind::Constant(tree)), rest))
}

#[tactic(auto, unfolding(dc_grammar::specs::StmtReaders::enum_stmt))]
pub(crate) fn enum_stmt<E: ReadExpr>(
    source: &Source<'_, E>,
    at: usize,
) -> Result<((bool, StmtKind), usize), Miss>
    ensures { Reads source.now.tokens.now spec.enum_stmt at result }
{
    match source.enumeration(at) {
        Ok((tree, rest)) => Ok(((false, StmtKind::Enum(tree)), rest)),
        Err(Miss::Nothing) => constant(source, at),
        Err(Miss::Memory) => Err(Miss::Memory),
    }
}

/// What reads as a variable is one.
pub(crate) fn simple_stmt<E: ReadExpr>(
    source: &Source<'_, E>,
    at: usize,
) -> Result<((bool, StmtKind), usize), Miss>
    ensures { Reads source.now.tokens.now spec.simple_stmt at result }
{
    match source.variable_read(at) {
        Ok((tree, rest)) => Ok(((false, StmtKind::Variable(tree)), rest)),
        Err(Miss::Nothing) => expr_stmt(source, at),
        Err(Miss::Memory) => Err(Miss::Memory),
    }
}
