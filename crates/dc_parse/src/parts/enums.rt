// Enums, constants and aliases.
ghost use Rattle.dc_grammar.specs.PartReaders as spec;
ghost use Rattle.dc_grammar.specs.Reading.{many, maybe};
ghost use Rattle.dc_grammar.specs.Readers as readers;
ghost use Rattle.dc_parse.specs.Cases as cases;
ghost use Rattle.dc_parse.specs.Calls.{Reads};

use crate::parts::list::with_first;
use crate::parts::source::Source;
use dc_ast::{
    AliasTree, Argument, ConstantTree, EnumMember, EnumTree, Expr, Name, TemplateParameter,
    TypeTree,
};
use dc_grammar::{Miss, ReadExpr, Terminal};
use sqlite_items::Items;

impl<'a, E: ReadExpr> Source<'a, E> {
    #[tactic(auto, unfolding(dc_grammar::specs::PartReaders::value))]
    fn value(&self, at: usize) -> Result<(Expr, usize), Miss>
        ensures { Reads self.now.tokens.now spec.value at result }
    {
        let rest = self.mark(at, Terminal::Equals)?;
        self.expr(rest)
    }

    pub(crate) fn maybe_value(&self, at: usize) -> Result<(Option<Expr>, usize), Miss>
        ensures { Reads self.now.tokens.now spec.maybe_value at result }
    {
        self.maybe(at, |at| self.value(at))
    }

    #[tactic(auto, unfolding(dc_grammar::specs::PartReaders::enum_member))]
    fn enum_member(&self, at: usize) -> Result<(EnumMember, usize), Miss>
        ensures { Reads self.now.tokens.now spec.enum_member at result }
    {
        let (name, rest) = self.id(at)?;
        let (value, rest) = self.maybe_value(rest)?;
        Ok((EnumMember { name, value }, rest))
    }

    #[tactic(auto, unfolding(dc_grammar::specs::PartReaders::next_member))]
    fn next_member(&self, at: usize) -> Result<(EnumMember, usize), Miss>
        ensures { Reads self.now.tokens.now spec.next_member at result }
    {
        let rest = self.mark(at, Terminal::Comma)?;
        self.enum_member(rest)
    }

    fn maybe_id(&self, at: usize) -> Result<(Option<Name>, usize), Miss>
        ensures { Reads self.now.tokens.now (maybe readers.id) at result }
    {
        match self.id(at) {
            Ok((name, rest)) => Ok((Some(name), rest)),
            Err(Miss::Nothing) => Ok((None, at)),
            Err(Miss::Memory) => Err(Miss::Memory),
        }
    }

    fn next_members(&self, at: usize) -> Result<(Items<EnumMember>, usize), Miss>
        ensures { Reads self.now.tokens.now (many spec.next_member) at result }
    {
        self.many(at, |at| self.next_member(at))
    }

    #[tactic(auto, unfolding(dc_grammar::specs::PartReaders::members))]
    fn members(&self, at: usize) -> Result<(Items<EnumMember>, usize), Miss>
        ensures { Reads self.now.tokens.now spec.members at result }
    {
        let rest = self.mark(at, Terminal::LeftBrace)?;
        let (first, rest) = self.enum_member(rest)?;
        let (others, rest) = self.next_members(rest)?;
        let (_, rest) = self.flag(rest, Terminal::Comma)?;
        let rest = self.mark(rest, Terminal::RightBrace)?;
        Ok((with_first(self.alloc, first, others)?, rest))
    }

    #[tactic(auto, unfolding(dc_grammar::specs::PartReaders::base_type))]
    fn base_type(&self, at: usize) -> Result<(TypeTree, usize), Miss>
        ensures { Reads self.now.tokens.now spec.base_type at result }
    {
        let rest = self.mark(at, Terminal::Colon)?;
        self.of_type(rest)
    }

    fn maybe_base(&self, at: usize) -> Result<(Option<TypeTree>, usize), Miss>
        ensures { Reads self.now.tokens.now (maybe spec.base_type) at result }
    {
        self.maybe(at, |at| self.base_type(at))
    }

    /// An enum with its members (D specification, "Enums").
    #[tactic(auto, unfolding(dc_grammar::specs::PartReaders::enumeration))]
    pub(crate) fn enumeration(&self, at: usize) -> Result<(EnumTree, usize), Miss>
        ensures { Reads self.now.tokens.now spec.enumeration at result }
    {
        let rest = self.mark(at, Terminal::Enum)?;
        let (name, rest) = self.maybe_id(rest)?;
        let (base, rest) = self.maybe_base(rest)?;
        let (members, rest) = self.members(rest)?;
        let tree = EnumTree {
            name,
            base,
            members,
        };
        Ok((tree, rest))
    }

    fn maybe_template_parameters(
        &self,
        at: usize,
    ) -> Result<(Option<Items<TemplateParameter>>, usize), Miss>
        ensures { Reads self.now.tokens.now spec.maybe_template_parameters at result }
    {
        self.maybe(at, |at| self.template_parameters(at))
    }

    /// A manifest constant (D specification, "Enums", "Manifest Constants").
    #[tactic(auto, unfolding(dc_grammar::specs::PartReaders::manifest))]
    pub(crate) fn manifest(&self, at: usize) -> Result<(ConstantTree, usize), Miss>
        ensures { Reads self.now.tokens.now spec.manifest at result }
    {
        let rest = self.mark(at, Terminal::Enum)?;
        let ((of, name), rest) = self.maybe_typed(rest)?;
        let (parameters, rest) = self.maybe_template_parameters(rest)?;
        let rest = self.mark(rest, Terminal::Equals)?;
        let (value, rest) = self.expr(rest)?;
        let rest = self.mark(rest, Terminal::Semicolon)?;
        let tree = ConstantTree {
            of,
            name,
            parameters,
            value,
        };
        Ok((tree, rest))
    }

    fn type_argument(&self, at: usize) -> Result<(Argument, usize), Miss>
        ensures { Reads self.now.tokens.now cases.type_argument at result }
    {
        let (of, rest) = self.of_type(at)?;
        Ok((Argument::OfType(of), rest))
    }

    #[tactic(auto, unfolding(dc_grammar::specs::PartReaders::whole_argument))]
    fn whole_argument(&self, at: usize) -> Result<(Argument, usize), Miss>
        ensures { Reads self.now.tokens.now spec.whole_argument at result }
    {
        match self.expr(at) {
            Ok((x, rest)) => Ok((Argument::Value(x), rest)),
            Err(Miss::Nothing) => self.type_argument(at),
            Err(Miss::Memory) => Err(Miss::Memory),
        }
    }

    /// An alias (D specification, "Declarations", "Alias Declarations").
    #[tactic(auto, unfolding(dc_grammar::specs::PartReaders::alias_read))]
    pub(crate) fn alias_read(&self, at: usize) -> Result<(AliasTree, usize), Miss>
        ensures { Reads self.now.tokens.now spec.alias_read at result }
    {
        let rest = self.mark(at, Terminal::Alias)?;
        let (name, rest) = self.id(rest)?;
        let (parameters, rest) = self.maybe_template_parameters(rest)?;
        let rest = self.mark(rest, Terminal::Equals)?;
        let (target, rest) = self.whole_argument(rest)?;
        let rest = self.mark(rest, Terminal::Semicolon)?;
        let tree = AliasTree {
            name,
            parameters,
            target,
        };
        Ok((tree, rest))
    }
}
