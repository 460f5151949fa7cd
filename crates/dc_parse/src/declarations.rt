// The rules of declarations take the reader of the declarations inside as a parameter, so that each is proved by itself.
ghost use Rattle.dc_grammar.specs.Reading.{either, maybe};
ghost use Rattle.dc_grammar.specs.DeclReaders as spec;
ghost use Rattle.dc_parse.specs.Calls.{Reads};
ghost use Rattle.dc_parse.specs.Nests.{Nests};

use crate::parts::{Source, with_first};
use crate::single::{alias, empty, enum_decl, import, mixin_decl, section, typed_decl};
use dc_ast::{Declaration, DeclarationForm, DeclarationKind, Decls, ModuleLine, ModuleTree, Plain};
use dc_grammar::{Miss, ReadExpr, Terminal};

/// The rules of declarations, one method for each. What is read says whether an `else` that follows would belong to it.
#[derive(Drop)]
pub(crate) struct DeclRules<'a, E, F> {
    pub(crate) source: &'a Source<'a, E>,
    /// How deep declarations may still nest.
    pub(crate) depth: usize,
    /// Reads the declarations inside.
    pub(crate) inner: F,
}

impl<
    'a,
    E: ReadExpr,
    F: Fn(&Source<'_, E>, usize, usize) -> Result<((bool, Declaration), usize), Miss>,
> DeclRules<'a, E, F> {
    pub(crate) fn inner(&self, at: usize) -> Result<((bool, Declaration), usize), Miss>
        requires { Nests spec.decl_to self.now.source.now.tokens.now self.now.depth (F.pre self.now.inner self.now.source) (F.post self.now.inner self.now.source) }
        ensures { Reads self.now.source.now.tokens.now (spec.decl_to self.now.depth) at result }
    {
        (self.inner)(self.source, at, self.depth)
    }

    #[tactic(auto, unfolding(dc_grammar::specs::DeclReaders::decl_kind))]
    fn decl_kind(&self, at: usize) -> Result<((bool, DeclarationKind), usize), Miss>
        requires { Nests spec.decl_to self.now.source.now.tokens.now self.now.depth (F.pre self.now.inner self.now.source) (F.post self.now.inner self.now.source) }
        ensures { Reads self.now.source.now.tokens.now (spec.decl_kind (spec.decl_to self.now.depth)) at result }
    {
        match self.source.ahead(at) {
            Terminal::Import => import(self.source, at),
            Terminal::Enum => enum_decl(self.source, at),
            Terminal::Alias => alias(self.source, at),
            Terminal::Struct => self.struct_decl(at),
            Terminal::Template => self.template_decl(at),
            Terminal::Static => self.static_decl(at),
            Terminal::Version => self.conditional_decl(at),
            Terminal::Mixin => mixin_decl(self.source, at),
            _ => typed_decl(self.source, at),
        }
    }

    #[tactic(auto, unfolding(dc_grammar::specs::DeclReaders::plain_read))]
    fn plain_read(&self, at: usize) -> Result<((bool, Plain), usize), Miss>
        requires { Nests spec.decl_to self.now.source.now.tokens.now self.now.depth (F.pre self.now.inner self.now.source) (F.post self.now.inner self.now.source) }
        ensures { Reads self.now.source.now.tokens.now (spec.plain_read (spec.decl_to self.now.depth)) at result }
    {
        let start = self.source.start(at);
        let ((takes_else, kind), rest) = self.decl_kind(at)?;
        Ok(((takes_else, Plain { at: start, kind }), rest))
    }

    #[tactic(auto, unfolding(dc_grammar::specs::DeclReaders::plain_decl))]
    fn plain_decl(&self, at: usize) -> Result<((bool, DeclarationForm), usize), Miss>
        requires { Nests spec.decl_to self.now.source.now.tokens.now self.now.depth (F.pre self.now.inner self.now.source) (F.post self.now.inner self.now.source) }
        ensures { Reads self.now.source.now.tokens.now (spec.plain_decl (spec.decl_to self.now.depth)) at result }
    {
        let (attributes, rest) = self.source.attributes(at)?;
        let ((takes_else, plain), rest) = self.plain_read(rest)?;
        Ok((
            (takes_else, DeclarationForm::Plain(attributes, plain)),
            rest,
        ))
    }

    #[tactic(auto, unfolding(dc_grammar::specs::DeclReaders::group_decl))]
    fn group_decl(&self, at: usize) -> Result<((bool, DeclarationForm), usize), Miss>
        requires { Nests spec.decl_to self.now.source.now.tokens.now self.now.depth (F.pre self.now.inner self.now.source) (F.post self.now.inner self.now.source) }
        ensures { Reads self.now.source.now.tokens.now (spec.group_decl (spec.decl_to self.now.depth)) at result }
    {
        let (first, rest) = self.source.attribute(at)?;
        let (others, rest) = self.source.attributes(rest)?;
        let (members, rest) = self.in_braces(rest)?;
        let attributes = with_first(self.source.alloc, first, others)?;
        Ok(((false, DeclarationForm::Group(attributes, members)), rest))
    }

    fn group_or_plain(&self, at: usize) -> Result<((bool, DeclarationForm), usize), Miss>
        requires { Nests spec.decl_to self.now.source.now.tokens.now self.now.depth (F.pre self.now.inner self.now.source) (F.post self.now.inner self.now.source) }
        ensures { Reads self.now.source.now.tokens.now (either (spec.group_decl (spec.decl_to self.now.depth)) (spec.plain_decl (spec.decl_to self.now.depth))) at result }
    {
        match self.group_decl(at) {
            Ok(found) => Ok(found),
            Err(Miss::Nothing) => self.plain_decl(at),
            Err(Miss::Memory) => Err(Miss::Memory),
        }
    }

    fn section_or_more(&self, at: usize) -> Result<((bool, DeclarationForm), usize), Miss>
        requires { Nests spec.decl_to self.now.source.now.tokens.now self.now.depth (F.pre self.now.inner self.now.source) (F.post self.now.inner self.now.source) }
        ensures { Reads self.now.source.now.tokens.now (either spec.section (either (spec.group_decl (spec.decl_to self.now.depth)) (spec.plain_decl (spec.decl_to self.now.depth)))) at result }
    {
        match section(self.source, at) {
            Ok(found) => Ok(found),
            Err(Miss::Nothing) => self.group_or_plain(at),
            Err(Miss::Memory) => Err(Miss::Memory),
        }
    }

    #[tactic(auto, unfolding(dc_grammar::specs::DeclReaders::decl_form))]
    fn decl_form(&self, at: usize) -> Result<((bool, DeclarationForm), usize), Miss>
        requires { Nests spec.decl_to self.now.source.now.tokens.now self.now.depth (F.pre self.now.inner self.now.source) (F.post self.now.inner self.now.source) }
        ensures { Reads self.now.source.now.tokens.now (spec.decl_form (spec.decl_to self.now.depth)) at result }
    {
        match self.source.ahead(at) {
            Terminal::Semicolon => empty(self.source, at),
            _ => self.section_or_more(at),
        }
    }

    #[tactic(auto, unfolding(dc_grammar::specs::DeclReaders::one_decl))]
    fn one_decl(&self, at: usize) -> Result<((bool, Declaration), usize), Miss>
        requires { Nests spec.decl_to self.now.source.now.tokens.now self.now.depth (F.pre self.now.inner self.now.source) (F.post self.now.inner self.now.source) }
        ensures { Reads self.now.source.now.tokens.now (spec.one_decl (spec.decl_to self.now.depth)) at result }
    {
        let start = self.source.start(at);
        let ((takes_else, form), rest) = self.decl_form(at)?;
        Ok(((takes_else, Declaration { at: start, form }), rest))
    }
}

/// The longest declaration that begins at a token. Each further level of nesting takes a token, so `depth` is to be at
/// least the count of tokens. Past the room of the source it is want of memory.
fn decl<E: ReadExpr>(
    source: &Source<'_, E>,
    at: usize,
    depth: usize,
) -> Result<((bool, Declaration), usize), Miss>
    ensures { Reads source.now.tokens.now (spec.decl_to depth) at result }
{
    if depth == 0 {
        return Err(Miss::Nothing);
    }
    let Some(inside) = source.inside() else {
        return Err(Miss::Memory);
    };
    DeclRules {
        source: &inside,
        depth: depth - 1,
        inner: decl::<E>,
    }
    .one_decl(at)
}

/// Declarations, as many as there are.
pub(crate) fn decls<E: ReadExpr>(source: &Source<'_, E>, at: usize) -> Result<(Decls, usize), Miss>
    ensures { Reads source.now.tokens.now spec.whole_decls at result }
{
    DeclRules {
        source: &*source,
        depth: source.count(at),
        inner: decl::<E>,
    }
    .items(at)
}

#[tactic(auto, unfolding(dc_grammar::specs::DeclReaders::module_line))]
fn module_line<E: ReadExpr>(source: &Source<'_, E>, at: usize) -> Result<(ModuleLine, usize), Miss>
    ensures { Reads source.now.tokens.now spec.module_line at result }
{
    let start = source.start(at);
    let rest = source.mark(at, Terminal::Module)?;
    let (name, rest) = source.path(rest)?;
    let rest = source.mark(rest, Terminal::Semicolon)?;
    Ok((ModuleLine { at: start, name }, rest))
}

fn maybe_module_line<E: ReadExpr>(
    source: &Source<'_, E>,
    at: usize,
) -> Result<(Option<ModuleLine>, usize), Miss>
    ensures { Reads source.now.tokens.now (maybe spec.module_line) at result }
{
    source.maybe(at, |at| module_line(source, at))
}

/// The longest module that begins at a token.
#[tactic(auto, unfolding(dc_grammar::specs::DeclReaders::whole_module))]
pub(crate) fn module<E: ReadExpr>(
    source: &Source<'_, E>,
    at: usize,
) -> Result<(ModuleTree, usize), Miss>
    ensures { Reads source.now.tokens.now spec.whole_module at result }
{
    let (line, rest) = maybe_module_line(source, at)?;
    let (declarations, rest) = decls(source, rest)?;
    Ok((ModuleTree { line, declarations }, rest))
}
