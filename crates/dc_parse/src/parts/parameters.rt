// Parameters.
ghost use Rattle.dc_grammar.specs.PartReaders as spec;
ghost use Rattle.dc_parse.specs.Cases as cases;
ghost use Rattle.dc_parse.specs.Calls.{Reads};

use crate::parts::source::Source;
use dc_ast::{Name, Parameter, Storage, TemplateParameter, TypeTree};
use dc_grammar::{Miss, ReadExpr, Terminal};
use sqlite_items::Items;

impl<'a, E: ReadExpr> Source<'a, E> {
    #[tactic(auto, unfolding(dc_grammar::specs::PartReaders::type_name))]
    fn type_name(&self, at: usize) -> Result<((TypeTree, Name), usize), Miss>
        ensures { Reads self.now.tokens.now spec.type_name at result }
    {
        let (of, rest) = self.of_type(at)?;
        let (name, rest) = self.id(rest)?;
        Ok(((of, name), rest))
    }

    pub(crate) fn typed(&self, at: usize) -> Result<((Option<TypeTree>, Name), usize), Miss>
        ensures { Reads self.now.tokens.now spec.typed at result }
    {
        let ((of, name), rest) = self.type_name(at)?;
        Ok(((Some(of), name), rest))
    }

    fn untyped(&self, at: usize) -> Result<((Option<TypeTree>, Name), usize), Miss>
        ensures { Reads self.now.tokens.now spec.untyped at result }
    {
        let (name, rest) = self.id(at)?;
        Ok(((None, name), rest))
    }

    #[tactic(auto, unfolding(dc_grammar::specs::PartReaders::maybe_typed))]
    pub(crate) fn maybe_typed(&self, at: usize) -> Result<((Option<TypeTree>, Name), usize), Miss>
        ensures { Reads self.now.tokens.now spec.maybe_typed at result }
    {
        match self.typed(at) {
            Ok(found) => Ok(found),
            Err(Miss::Nothing) => self.untyped(at),
            Err(Miss::Memory) => Err(Miss::Memory),
        }
    }

    #[tactic(auto, unfolding(dc_grammar::specs::PartReaders::alias_parameter))]
    fn alias_parameter(&self, at: usize) -> Result<(TemplateParameter, usize), Miss>
        ensures { Reads self.now.tokens.now spec.alias_parameter at result }
    {
        let rest = self.mark(at, Terminal::Alias)?;
        let (name, rest) = self.id(rest)?;
        Ok((TemplateParameter::Alias(name), rest))
    }

    fn named_parameter(&self, at: usize) -> Result<(TemplateParameter, usize), Miss>
        ensures { Reads self.now.tokens.now cases.named_parameter at result }
    {
        let ((of, name), rest) = self.maybe_typed(at)?;
        let parameter = match of {
            Some(of) => TemplateParameter::Value(of, name),
            None => TemplateParameter::OfType(name),
        };
        Ok((parameter, rest))
    }

    #[tactic(auto, unfolding(dc_grammar::specs::PartReaders::template_parameter))]
    fn template_parameter(&self, at: usize) -> Result<(TemplateParameter, usize), Miss>
        ensures { Reads self.now.tokens.now spec.template_parameter at result }
    {
        match self.ahead(at) {
            Terminal::Alias => self.alias_parameter(at),
            _ => self.named_parameter(at),
        }
    }

    fn some_template_parameters(&self, at: usize) -> Result<(Items<TemplateParameter>, usize), Miss>
        ensures { Reads self.now.tokens.now (spec.some_listed spec.template_parameter) at result }
    {
        self.some_listed(at, |at| self.template_parameter(at))
    }

    /// The parameters of a template (D specification, "Templates").
    #[tactic(auto, unfolding(dc_grammar::specs::PartReaders::template_parameters))]
    pub(crate) fn template_parameters(
        &self,
        at: usize,
    ) -> Result<(Items<TemplateParameter>, usize), Miss>
        ensures { Reads self.now.tokens.now spec.template_parameters at result }
    {
        let rest = self.mark(at, Terminal::LeftParen)?;
        let (found, rest) = self.some_template_parameters(rest)?;
        let rest = self.mark(rest, Terminal::RightParen)?;
        Ok((found, rest))
    }

    #[tactic(auto, unfolding(dc_grammar::specs::PartReaders::stored_name))]
    fn stored_name(&self, at: usize) -> Result<((Option<Storage>, (TypeTree, Name)), usize), Miss>
        ensures { Reads self.now.tokens.now spec.stored_name at result }
    {
        let (storage, rest) = self.storage(at)?;
        let (named, rest) = self.type_name(rest)?;
        Ok(((Some(storage), named), rest))
    }

    fn plain_name(&self, at: usize) -> Result<((Option<Storage>, (TypeTree, Name)), usize), Miss>
        ensures { Reads self.now.tokens.now spec.plain_name at result }
    {
        let (named, rest) = self.type_name(at)?;
        Ok(((None, named), rest))
    }

    #[tactic(auto, unfolding(dc_grammar::specs::PartReaders::parameter_name))]
    fn parameter_name(
        &self,
        at: usize,
    ) -> Result<((Option<Storage>, (TypeTree, Name)), usize), Miss>
        ensures { Reads self.now.tokens.now spec.parameter_name at result }
    {
        match self.stored_name(at) {
            Ok(found) => Ok(found),
            Err(Miss::Nothing) => self.plain_name(at),
            Err(Miss::Memory) => Err(Miss::Memory),
        }
    }

    #[tactic(auto, unfolding(dc_grammar::specs::PartReaders::parameter_read))]
    fn parameter_read(&self, at: usize) -> Result<(Parameter, usize), Miss>
        ensures { Reads self.now.tokens.now spec.parameter_read at result }
    {
        let start = self.start(at);
        let (is_ref, rest) = self.flag(at, Terminal::Ref)?;
        let ((storage, (of, name)), rest) = self.parameter_name(rest)?;
        let parameter = Parameter {
            at: start,
            is_ref,
            storage,
            of,
            name,
        };
        Ok((parameter, rest))
    }

    fn some_parameters(&self, at: usize) -> Result<(Items<Parameter>, usize), Miss>
        ensures { Reads self.now.tokens.now (spec.some_listed spec.parameter_read) at result }
    {
        self.some_listed(at, |at| self.parameter_read(at))
    }

    /// The parameters of a function (D specification, "Functions").
    #[tactic(auto, unfolding(dc_grammar::specs::PartReaders::parameters))]
    pub(crate) fn parameters(&self, at: usize) -> Result<(Items<Parameter>, usize), Miss>
        ensures { Reads self.now.tokens.now spec.parameters at result }
    {
        let rest = self.mark(at, Terminal::LeftParen)?;
        let (found, rest) = self.some_parameters(rest)?;
        let rest = self.mark(rest, Terminal::RightParen)?;
        Ok((found, rest))
    }
}
