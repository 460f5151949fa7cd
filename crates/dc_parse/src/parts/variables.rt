// Variables.
ghost use Rattle.dc_grammar.specs.PartReaders as spec;
ghost use Rattle.dc_grammar.specs.Reading.{many};
ghost use Rattle.dc_parse.specs.Calls.{Reads};

use crate::parts::list::with_first;
use crate::parts::source::Source;
use dc_ast::{Expr, Name, TypeTree, Variable, VariableTree};
use dc_grammar::{Miss, ReadExpr, Terminal};
use sqlite_items::Items;

impl<'a, E: ReadExpr> Source<'a, E> {
    #[tactic(auto, unfolding(dc_grammar::specs::PartReaders::one))]
    fn one(&self, at: usize) -> Result<(Variable, usize), Miss>
        ensures { Reads self.now.tokens.now spec.one at result }
    {
        let (name, rest) = self.id(at)?;
        let (value, rest) = self.maybe_value(rest)?;
        Ok((Variable { name, value }, rest))
    }

    #[tactic(auto, unfolding(dc_grammar::specs::PartReaders::next_one))]
    fn next_one(&self, at: usize) -> Result<(Variable, usize), Miss>
        ensures { Reads self.now.tokens.now spec.next_one at result }
    {
        let rest = self.mark(at, Terminal::Comma)?;
        self.one(rest)
    }

    fn next_ones(&self, at: usize) -> Result<(Items<Variable>, usize), Miss>
        ensures { Reads self.now.tokens.now (many spec.next_one) at result }
    {
        self.many(at, |at| self.next_one(at))
    }

    #[tactic(auto, unfolding(dc_grammar::specs::PartReaders::variable_end))]
    fn variable_end(&self, at: usize) -> Result<((Option<Expr>, Items<Variable>), usize), Miss>
        ensures { Reads self.now.tokens.now spec.variable_end at result }
    {
        let (value, rest) = self.maybe_value(at)?;
        let (others, rest) = self.next_ones(rest)?;
        let rest = self.mark(rest, Terminal::Semicolon)?;
        Ok(((value, others), rest))
    }

    #[tactic(auto, unfolding(dc_grammar::specs::PartReaders::auto_name))]
    fn auto_name(&self, at: usize) -> Result<((Option<TypeTree>, Name), usize), Miss>
        ensures { Reads self.now.tokens.now spec.auto_name at result }
    {
        let rest = self.mark(at, Terminal::Auto)?;
        let (name, rest) = self.id(rest)?;
        Ok(((None, name), rest))
    }

    #[tactic(auto, unfolding(dc_grammar::specs::PartReaders::loosely))]
    fn loosely(&self, at: usize) -> Result<((Option<TypeTree>, Name), usize), Miss>
        ensures { Reads self.now.tokens.now spec.loosely at result }
    {
        match self.ahead(at) {
            Terminal::Auto => self.auto_name(at),
            _ => self.maybe_typed(at),
        }
    }

    /// `auto` or a type, and a name. There is no type where `auto` stands.
    #[tactic(auto, unfolding(dc_grammar::specs::PartReaders::strictly))]
    pub(crate) fn strictly(&self, at: usize) -> Result<((Option<TypeTree>, Name), usize), Miss>
        ensures { Reads self.now.tokens.now spec.strictly at result }
    {
        match self.ahead(at) {
            Terminal::Auto => self.auto_name(at),
            _ => self.typed(at),
        }
    }

    #[tactic(auto, unfolding(dc_grammar::specs::PartReaders::stored_variable))]
    fn stored_variable(&self, at: usize) -> Result<(VariableTree, usize), Miss>
        ensures { Reads self.now.tokens.now spec.stored_variable at result }
    {
        let (storage, rest) = self.storage(at)?;
        let ((of, name), rest) = self.loosely(rest)?;
        let ((value, others), rest) = self.variable_end(rest)?;
        let variables = with_first(self.alloc, Variable { name, value }, others)?;
        let tree = VariableTree {
            storage: Some(storage),
            of,
            variables,
        };
        Ok((tree, rest))
    }

    #[tactic(auto, unfolding(dc_grammar::specs::PartReaders::plain_variable))]
    fn plain_variable(&self, at: usize) -> Result<(VariableTree, usize), Miss>
        ensures { Reads self.now.tokens.now spec.plain_variable at result }
    {
        let ((of, name), rest) = self.strictly(at)?;
        let ((value, others), rest) = self.variable_end(rest)?;
        let variables = with_first(self.alloc, Variable { name, value }, others)?;
        let tree = VariableTree {
            storage: None,
            of,
            variables,
        };
        Ok((tree, rest))
    }

    /// Variables of one type (D specification, "Declarations").
    #[tactic(auto, unfolding(dc_grammar::specs::PartReaders::variable_read))]
    pub(crate) fn variable_read(&self, at: usize) -> Result<(VariableTree, usize), Miss>
        ensures { Reads self.now.tokens.now spec.variable_read at result }
    {
        match self.stored_variable(at) {
            Ok(found) => Ok(found),
            Err(Miss::Nothing) => self.plain_variable(at),
            Err(Miss::Memory) => Err(Miss::Memory),
        }
    }
}
