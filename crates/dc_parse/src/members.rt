// Declarations with declarations inside.
ghost use Rattle.std.specs.Prelude.{◌≡◌};
ghost use Rattle.dc_grammar.specs.DeclReaders as spec;
ghost use Rattle.dc_grammar.specs.Reading.{maybe};
ghost use Rattle.dc_grammar.specs.StmtReaders as statements;
ghost use Rattle.dc_grammar.specs.Statements.{begins_conditional};
ghost use Rattle.dc_parse.specs.Cases as cases;
ghost use Rattle.dc_parse.specs.Calls.{Reads};
ghost use Rattle.dc_parse.specs.Left.{left};
ghost use Rattle.dc_parse.specs.Nests.{Nests};

use crate::chain::{begins_conditional, chain};
use crate::declarations::DeclRules;
use crate::functions::{maybe_head, template_head};
use crate::parts::Source;
use crate::single::{static_assert, static_import};
use dc_ast::{
    Declaration, DeclarationBody, DeclarationBranch, DeclarationKind, Decls, Expr, Name,
    StaticDeclaration, StructTree, TemplateParameter, TemplateTree,
};
use dc_grammar::{Miss, ReadExpr, Terminal};
use sqlite_items::{Boxed, Items};

fn struct_with(
    name: Name,
    head: Option<(Items<TemplateParameter>, Option<Expr>)>,
    members: Decls,
) -> StructTree
    ensures { result ≡ spec.struct_with name head members }
{
    match head {
        Some((parameters, constraint)) => StructTree {
            name,
            parameters: Some(parameters),
            constraint,
            members,
        },
        None => StructTree {
            name,
            parameters: None,
            constraint: None,
            members,
        },
    }
}

impl<
    'a,
    E: ReadExpr,
    F: Fn(&Source<'_, E>, usize, usize) -> Result<((bool, Declaration), usize), Miss>,
> DeclRules<'a, E, F> {
    fn opens_conditional(&self, at: usize) -> bool
        ensures { result ≡ begins_conditional (left self.now.source.now.tokens.now at) }
    {
        begins_conditional(self.source, at)
    }

    #[tactic(auto, unfolding(dc_grammar::specs::StmtReaders::one_item))]
    fn one_item(&self, at: usize) -> Result<(Declaration, usize), Miss>
        requires { Nests spec.decl_to self.now.source.now.tokens.now self.now.depth (F.pre self.now.inner self.now.source) (F.post self.now.inner self.now.source) }
        ensures { Reads self.now.source.now.tokens.now (statements.one_item (spec.decl_to self.now.depth)) at result }
    {
        let ((_, found), rest) = self.inner(at)?;
        Ok((found, rest))
    }

    pub(crate) fn items(&self, at: usize) -> Result<(Decls, usize), Miss>
        requires { Nests spec.decl_to self.now.source.now.tokens.now self.now.depth (F.pre self.now.inner self.now.source) (F.post self.now.inner self.now.source) }
        ensures { Reads self.now.source.now.tokens.now (statements.items (spec.decl_to self.now.depth)) at result }
    {
        self.source.many(at, |at| self.one_item(at))
    }

    #[tactic(auto, unfolding(dc_grammar::specs::StmtReaders::in_braces))]
    pub(crate) fn in_braces(&self, at: usize) -> Result<(Decls, usize), Miss>
        requires { Nests spec.decl_to self.now.source.now.tokens.now self.now.depth (F.pre self.now.inner self.now.source) (F.post self.now.inner self.now.source) }
        ensures { Reads self.now.source.now.tokens.now (statements.in_braces (spec.decl_to self.now.depth)) at result }
    {
        let rest = self.source.mark(at, Terminal::LeftBrace)?;
        let (found, rest) = self.items(rest)?;
        let rest = self.source.mark(rest, Terminal::RightBrace)?;
        Ok((found, rest))
    }

    #[tactic(auto, unfolding(dc_grammar::specs::DeclReaders::struct_decl))]
    pub(crate) fn struct_decl(&self, at: usize) -> Result<((bool, DeclarationKind), usize), Miss>
        requires { Nests spec.decl_to self.now.source.now.tokens.now self.now.depth (F.pre self.now.inner self.now.source) (F.post self.now.inner self.now.source) }
        ensures { Reads self.now.source.now.tokens.now (spec.struct_decl (spec.decl_to self.now.depth)) at result }
    {
        let rest = self.source.mark(at, Terminal::Struct)?;
        let (name, rest) = self.source.id(rest)?;
        let (head, rest) = maybe_head(self.source, rest)?;
        let (members, rest) = self.in_braces(rest)?;
        let tree = struct_with(name, head, members);
        Ok(((false, DeclarationKind::Struct(tree)), rest))
    }

    #[tactic(auto, unfolding(dc_grammar::specs::DeclReaders::template_decl))]
    pub(crate) fn template_decl(&self, at: usize) -> Result<((bool, DeclarationKind), usize), Miss>
        requires { Nests spec.decl_to self.now.source.now.tokens.now self.now.depth (F.pre self.now.inner self.now.source) (F.post self.now.inner self.now.source) }
        ensures { Reads self.now.source.now.tokens.now (spec.template_decl (spec.decl_to self.now.depth)) at result }
    {
        let rest = self.source.mark(at, Terminal::Template)?;
        let (name, rest) = self.source.id(rest)?;
        let ((parameters, constraint), rest) = template_head(self.source, rest)?;
        let (members, rest) = self.in_braces(rest)?;
        let tree = TemplateTree {
            name,
            parameters,
            constraint,
            members,
        };
        Ok(((false, DeclarationKind::Template(tree)), rest))
    }

    fn braces_body(&self, at: usize) -> Result<((bool, DeclarationBody), usize), Miss>
        requires { Nests spec.decl_to self.now.source.now.tokens.now self.now.depth (F.pre self.now.inner self.now.source) (F.post self.now.inner self.now.source) }
        ensures { Reads self.now.source.now.tokens.now (cases.decls_in_braces (spec.decl_to self.now.depth)) at result }
    {
        let (found, rest) = self.in_braces(at)?;
        Ok(((false, DeclarationBody::Braces(found)), rest))
    }

    fn one_body(&self, at: usize) -> Result<((bool, DeclarationBody), usize), Miss>
        requires { Nests spec.decl_to self.now.source.now.tokens.now self.now.depth (F.pre self.now.inner self.now.source) (F.post self.now.inner self.now.source) }
        ensures { Reads self.now.source.now.tokens.now (cases.one_decl (spec.decl_to self.now.depth)) at result }
    {
        let ((takes_else, found), rest) = self.inner(at)?;
        let body = DeclarationBody::One(Boxed::new(self.source.alloc, found)?);
        Ok(((takes_else, body), rest))
    }

    #[tactic(auto, unfolding(dc_grammar::specs::DeclReaders::decl_body))]
    fn decl_body(&self, at: usize) -> Result<((bool, DeclarationBody), usize), Miss>
        requires { Nests spec.decl_to self.now.source.now.tokens.now self.now.depth (F.pre self.now.inner self.now.source) (F.post self.now.inner self.now.source) }
        ensures { Reads self.now.source.now.tokens.now (spec.decl_body (spec.decl_to self.now.depth)) at result }
    {
        match self.source.ahead(at) {
            Terminal::LeftBrace => self.braces_body(at),
            _ => self.one_body(at),
        }
    }

    #[tactic(auto, unfolding(dc_grammar::specs::DeclReaders::static_branch))]
    fn static_branch(&self, at: usize) -> Result<((bool, DeclarationBranch), usize), Miss>
        requires { Nests spec.decl_to self.now.source.now.tokens.now self.now.depth (F.pre self.now.inner self.now.source) (F.post self.now.inner self.now.source) }
        ensures { Reads self.now.source.now.tokens.now (spec.static_branch (spec.decl_to self.now.depth)) at result }
    {
        let start = self.source.start(at);
        let (test, rest) = self.source.static_test(at)?;
        let ((takes_else, body), rest) = self.decl_body(rest)?;
        let branch = DeclarationBranch {
            at: start,
            test,
            body,
        };
        Ok(((takes_else, branch), rest))
    }

    fn static_branches(
        &self,
        at: usize,
    ) -> Result<
        (
            (bool, (Items<DeclarationBranch>, Option<DeclarationBody>)),
            usize,
        ),
        Miss,
    >
        requires { Nests spec.decl_to self.now.source.now.tokens.now self.now.depth (F.pre self.now.inner self.now.source) (F.post self.now.inner self.now.source) }
        ensures { Reads self.now.source.now.tokens.now (statements.chain (spec.static_branch (spec.decl_to self.now.depth)) begins_conditional (spec.decl_body (spec.decl_to self.now.depth))) at result }
    {
        let first = |at: usize| -> Result<((bool, DeclarationBranch), usize), Miss>
            requires { Nests spec.decl_to self.now.source.now.tokens.now self.now.depth (F.pre self.now.inner self.now.source) (F.post self.now.inner self.now.source) }
            ensures { Reads self.entry.now.source.now.tokens.now (spec.static_branch (spec.decl_to self.entry.now.depth)) at result }
        { self.static_branch(at) };
        let opens = |at: usize| -> bool
            ensures { result ≡ begins_conditional (left self.entry.now.source.now.tokens.now at) }
        { self.opens_conditional(at) };
        let other = |at: usize| -> Result<((bool, DeclarationBody), usize), Miss>
            requires { Nests spec.decl_to self.now.source.now.tokens.now self.now.depth (F.pre self.now.inner self.now.source) (F.post self.now.inner self.now.source) }
            ensures { Reads self.entry.now.source.now.tokens.now (spec.decl_body (spec.decl_to self.entry.now.depth)) at result }
        { self.decl_body(at) };
        chain(self.source, at, first, opens, other)
    }

    #[tactic(auto, unfolding(dc_grammar::specs::DeclReaders::conditional_decl))]
    pub(crate) fn conditional_decl(
        &self,
        at: usize,
    ) -> Result<((bool, DeclarationKind), usize), Miss>
        requires { Nests spec.decl_to self.now.source.now.tokens.now self.now.depth (F.pre self.now.inner self.now.source) (F.post self.now.inner self.now.source) }
        ensures { Reads self.now.source.now.tokens.now (spec.conditional_decl (spec.decl_to self.now.depth)) at result }
    {
        let ((takes_else, (branches, last)), rest) = self.static_branches(at)?;
        let kind = DeclarationKind::Static(StaticDeclaration::Conditional(branches, last));
        Ok(((takes_else, kind), rest))
    }

    #[tactic(auto, unfolding(dc_grammar::specs::DeclReaders::static_foreach))]
    fn static_foreach(&self, at: usize) -> Result<((bool, DeclarationKind), usize), Miss>
        requires { Nests spec.decl_to self.now.source.now.tokens.now self.now.depth (F.pre self.now.inner self.now.source) (F.post self.now.inner self.now.source) }
        ensures { Reads self.now.source.now.tokens.now (spec.static_foreach (spec.decl_to self.now.depth)) at result }
    {
        let (range, rest) = self.source.static_over(at)?;
        let ((takes_else, body), rest) = self.decl_body(rest)?;
        let kind = DeclarationKind::Static(StaticDeclaration::Foreach(range, body));
        Ok(((takes_else, kind), rest))
    }

    pub(crate) fn static_decl(&self, at: usize) -> Result<((bool, DeclarationKind), usize), Miss>
        requires { Nests spec.decl_to self.now.source.now.tokens.now self.now.depth (F.pre self.now.inner self.now.source) (F.post self.now.inner self.now.source) }
        ensures { Reads self.now.source.now.tokens.now (spec.static_decl (spec.decl_to self.now.depth)) at result }
    {
        match self.source.second(at) {
            Terminal::Import => static_import(self.source, at),
            Terminal::If => self.conditional_decl(at),
            Terminal::Foreach => self.static_foreach(at),
            Terminal::Assert => static_assert(self.source, at),
            _ => Err(Miss::Nothing),
        }
    }
}
