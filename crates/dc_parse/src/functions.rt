// Functions.
ghost use Rattle.dc_grammar.specs.DeclReaders as spec;
ghost use Rattle.dc_grammar.specs.Reading.{maybe};
ghost use Rattle.dc_grammar.specs.StmtReaders as statements;
ghost use Rattle.dc_parse.specs.Calls.{Reads};

use crate::parts::Source;
use crate::statements::stmt;
use dc_ast::{Expr, FunctionTree, Parameter, Stmt, Stmts, TemplateParameter};
use dc_grammar::{Miss, ReadExpr, Terminal};
use sqlite_items::Items;

#[tactic(auto, unfolding(dc_grammar::specs::DeclReaders::template_signature))]
fn template_signature<E: ReadExpr>(
    source: &Source<'_, E>,
    at: usize,
) -> Result<((Option<Items<TemplateParameter>>, Items<Parameter>), usize), Miss>
    ensures { Reads source.now.tokens.now spec.template_signature at result }
{
    let (templates, rest) = source.template_parameters(at)?;
    let (parameters, rest) = source.parameters(rest)?;
    Ok(((Some(templates), parameters), rest))
}

fn plain_signature<E: ReadExpr>(
    source: &Source<'_, E>,
    at: usize,
) -> Result<((Option<Items<TemplateParameter>>, Items<Parameter>), usize), Miss>
    ensures { Reads source.now.tokens.now spec.plain_signature at result }
{
    let (parameters, rest) = source.parameters(at)?;
    Ok(((None, parameters), rest))
}

/// The parameters of a template where there are two lists of parameters, and those of the function.
#[tactic(auto, unfolding(dc_grammar::specs::DeclReaders::signature))]
fn signature<E: ReadExpr>(
    source: &Source<'_, E>,
    at: usize,
) -> Result<((Option<Items<TemplateParameter>>, Items<Parameter>), usize), Miss>
    ensures { Reads source.now.tokens.now spec.signature at result }
{
    match template_signature(source, at) {
        Ok(found) => Ok(found),
        Err(Miss::Nothing) => plain_signature(source, at),
        Err(Miss::Memory) => Err(Miss::Memory),
    }
}

pub(crate) fn constraint<E: ReadExpr>(
    source: &Source<'_, E>,
    at: usize,
) -> Result<(Option<Expr>, usize), Miss>
    ensures { Reads source.now.tokens.now spec.constraint at result }
{
    source.maybe(at, |at| source.head(at, Terminal::If))
}

#[tactic(auto, unfolding(dc_grammar::specs::StmtReaders::one_item))]
fn body_stmt<E: ReadExpr>(source: &Source<'_, E>, at: usize) -> Result<(Stmt, usize), Miss>
    ensures { Reads source.now.tokens.now (statements.one_item statements.whole_stmt) at result }
{
    let ((_, found), rest) = stmt(source, at, source.count(at))?;
    Ok((found, rest))
}

fn body_stmts<E: ReadExpr>(source: &Source<'_, E>, at: usize) -> Result<(Stmts, usize), Miss>
    ensures { Reads source.now.tokens.now (statements.items statements.whole_stmt) at result }
{
    source.many(at, |at| body_stmt(source, at))
}

#[tactic(auto, unfolding(dc_grammar::specs::StmtReaders::in_braces))]
fn body<E: ReadExpr>(source: &Source<'_, E>, at: usize) -> Result<(Stmts, usize), Miss>
    ensures { Reads source.now.tokens.now (statements.in_braces statements.whole_stmt) at result }
{
    let rest = source.mark(at, Terminal::LeftBrace)?;
    let (found, rest) = body_stmts(source, rest)?;
    let rest = source.mark(rest, Terminal::RightBrace)?;
    Ok((found, rest))
}

#[tactic(auto, unfolding(dc_grammar::specs::DeclReaders::function_read))]
pub(crate) fn function_read<E: ReadExpr>(
    source: &Source<'_, E>,
    at: usize,
) -> Result<(FunctionTree, usize), Miss>
    ensures { Reads source.now.tokens.now spec.function_read at result }
{
    let ((result, name), rest) = source.strictly(at)?;
    let ((template_parameters, parameters), rest) = signature(source, rest)?;
    let (attributes, rest) = source.attributes(rest)?;
    let (constraint, rest) = constraint(source, rest)?;
    let (body, rest) = body(source, rest)?;
    let tree = FunctionTree {
        result,
        name,
        template_parameters,
        parameters,
        attributes,
        constraint,
        body,
    };
    Ok((tree, rest))
}

#[tactic(auto, unfolding(dc_grammar::specs::DeclReaders::template_head))]
pub(crate) fn template_head<E: ReadExpr>(
    source: &Source<'_, E>,
    at: usize,
) -> Result<((Items<TemplateParameter>, Option<Expr>), usize), Miss>
    ensures { Reads source.now.tokens.now spec.template_head at result }
{
    let (parameters, rest) = source.template_parameters(at)?;
    let (constraint, rest) = constraint(source, rest)?;
    Ok(((parameters, constraint), rest))
}

pub(crate) fn maybe_head<E: ReadExpr>(
    source: &Source<'_, E>,
    at: usize,
) -> Result<(Option<(Items<TemplateParameter>, Option<Expr>)>, usize), Miss>
    ensures { Reads source.now.tokens.now (maybe spec.template_head) at result }
{
    source.maybe(at, |at| template_head(source, at))
}
