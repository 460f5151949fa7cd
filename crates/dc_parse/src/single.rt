// Declarations with no declaration inside.
ghost use Rattle.dc_grammar.specs.DeclReaders as spec;
ghost use Rattle.dc_parse.specs.Cases as cases;
ghost use Rattle.dc_parse.specs.Calls.{Reads};

use crate::functions::function_read;
use crate::parts::Source;
use dc_ast::{DeclarationForm, DeclarationKind, StaticDeclaration};
use dc_grammar::{Miss, ReadExpr, Terminal};

pub(crate) fn import<E: ReadExpr>(
    source: &Source<'_, E>,
    at: usize,
) -> Result<((bool, DeclarationKind), usize), Miss>
    ensures { Reads source.now.tokens.now cases.import_decl at result }
{
    let (tree, rest) = source.imported(at, false)?;
    Ok(((false, DeclarationKind::Import(tree)), rest))
}

pub(crate) fn static_import<E: ReadExpr>(
    source: &Source<'_, E>,
    at: usize,
) -> Result<((bool, DeclarationKind), usize), Miss>
    ensures { Reads source.now.tokens.now cases.static_import_decl at result }
{
    let (tree, rest) = source.static_import(at)?;
    Ok(((false, DeclarationKind::Import(tree)), rest))
}

pub(crate) fn static_assert<E: ReadExpr>(
    source: &Source<'_, E>,
    at: usize,
) -> Result<((bool, DeclarationKind), usize), Miss>
    ensures { Reads source.now.tokens.now cases.static_assert_decl at result }
{
    let (tree, rest) = source.static_check(at)?;
    let kind = DeclarationKind::Static(StaticDeclaration::Assert(tree));
    Ok(((false, kind), rest))
}

pub(crate) fn alias<E: ReadExpr>(
    source: &Source<'_, E>,
    at: usize,
) -> Result<((bool, DeclarationKind), usize), Miss>
    ensures { Reads source.now.tokens.now cases.alias_decl at result }
{
    let (tree, rest) = source.alias_read(at)?;
    Ok(((false, DeclarationKind::Alias(tree)), rest))
}

#[tactic(auto, unfolding(dc_grammar::specs::DeclReaders::mixin_decl))]
pub(crate) fn mixin_decl<E: ReadExpr>(
    source: &Source<'_, E>,
    at: usize,
) -> Result<((bool, DeclarationKind), usize), Miss>
    ensures { Reads source.now.tokens.now spec.mixin_decl at result }
{
    let (text, rest) = source.head(at, Terminal::Mixin)?;
    let rest = source.mark(rest, Terminal::Semicolon)?;
    Ok(((false, DeclarationKind::Mixin(text)), rest))
}

fn constant<E: ReadExpr>(
    source: &Source<'_, E>,
    at: usize,
) -> Result<((bool, DeclarationKind), usize), Miss>
    ensures { Reads source.now.tokens.now cases.constant_decl at result }
{
    let (tree, rest) = source.manifest(at)?;
    Ok(((false, DeclarationKind::Constant(tree)), rest))
}

#[tactic(auto, unfolding(dc_grammar::specs::DeclReaders::enum_decl))]
pub(crate) fn enum_decl<E: ReadExpr>(
    source: &Source<'_, E>,
    at: usize,
) -> Result<((bool, DeclarationKind), usize), Miss>
    ensures { Reads source.now.tokens.now spec.enum_decl at result }
{
    match source.enumeration(at) {
        Ok((tree, rest)) => Ok(((false, DeclarationKind::Enum(tree)), rest)),
        Err(Miss::Nothing) => constant(source, at),
        Err(Miss::Memory) => Err(Miss::Memory),
    }
}

fn variable<E: ReadExpr>(
    source: &Source<'_, E>,
    at: usize,
) -> Result<((bool, DeclarationKind), usize), Miss>
    ensures { Reads source.now.tokens.now cases.variable_decl at result }
{
    let (tree, rest) = source.variable_read(at)?;
    Ok(((false, DeclarationKind::Variable(tree)), rest))
}

/// What begins with a type, or with a word that may stand for one.
#[tactic(auto, unfolding(dc_grammar::specs::DeclReaders::typed_decl))]
pub(crate) fn typed_decl<E: ReadExpr>(
    source: &Source<'_, E>,
    at: usize,
) -> Result<((bool, DeclarationKind), usize), Miss>
    ensures { Reads source.now.tokens.now spec.typed_decl at result }
{
    match function_read(source, at) {
        Ok((tree, rest)) => Ok(((false, DeclarationKind::Function(tree)), rest)),
        Err(Miss::Nothing) => variable(source, at),
        Err(Miss::Memory) => Err(Miss::Memory),
    }
}

#[tactic(auto, unfolding(dc_grammar::specs::DeclReaders::section))]
pub(crate) fn section<E: ReadExpr>(
    source: &Source<'_, E>,
    at: usize,
) -> Result<((bool, DeclarationForm), usize), Miss>
    ensures { Reads source.now.tokens.now spec.section at result }
{
    let (visibility, rest) = source.visibility(at)?;
    let rest = source.mark(rest, Terminal::Colon)?;
    Ok(((false, DeclarationForm::Section(visibility)), rest))
}

pub(crate) fn empty<E: ReadExpr>(
    source: &Source<'_, E>,
    at: usize,
) -> Result<((bool, DeclarationForm), usize), Miss>
    ensures { Reads source.now.tokens.now cases.empty_decl at result }
{
    let rest = source.mark(at, Terminal::Semicolon)?;
    Ok(((false, DeclarationForm::Empty), rest))
}
