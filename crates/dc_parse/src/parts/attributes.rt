// Attributes, and other words.
ghost use Rattle.dc_grammar.specs.PartReaders as spec;
ghost use Rattle.dc_grammar.specs.Reading as reading;
ghost use Rattle.dc_grammar.specs.Words as words;
ghost use Rattle.dc_parse.specs.Calls.{Reads};

use crate::parts::source::Source;
use dc_ast::{Attribute, Expr, Storage, Visibility};
use dc_grammar::{
    Miss, ReadExpr, Terminal, at_word, attribute_word, same_terminal, storage, terminal_of,
    visibility,
};
use sqlite_items::Items;

impl<'a, E: ReadExpr> Source<'a, E> {
    /// A word and an expression in parentheses.
    #[tactic(auto, unfolding(dc_grammar::specs::PartReaders::head))]
    pub(crate) fn head(&self, at: usize, word: Terminal) -> Result<(Expr, usize), Miss>
        ensures { Reads self.now.tokens.now (spec.head word) at result }
    {
        let rest = self.mark(at, word)?;
        let rest = self.mark(rest, Terminal::LeftParen)?;
        let (x, rest) = self.expr(rest)?;
        let rest = self.mark(rest, Terminal::RightParen)?;
        Ok((x, rest))
    }

    /// The word of a storage class.
    pub(crate) fn storage(&self, at: usize) -> Result<(Storage, usize), Miss>
        ensures { Reads self.now.tokens.now (reading.means words.storage) at result }
    {
        match self.token(at) {
            Some((token, rest)) => match storage(terminal_of(token)) {
                Some(class) => Ok((class, rest)),
                None => Err(Miss::Nothing),
            },
            None => Err(Miss::Nothing),
        }
    }

    /// The word of a visibility.
    pub(crate) fn visibility(&self, at: usize) -> Result<(Visibility, usize), Miss>
        ensures { Reads self.now.tokens.now (reading.means words.visibility) at result }
    {
        match self.token(at) {
            Some((token, rest)) => match visibility(terminal_of(token)) {
                Some(visibility) => Ok((visibility, rest)),
                None => Err(Miss::Nothing),
            },
            None => Err(Miss::Nothing),
        }
    }

    fn attribute_word(&self, at: usize) -> Result<(Attribute, usize), Miss>
        ensures { Reads self.now.tokens.now (reading.means words.attribute_word) at result }
    {
        match self.token(at) {
            Some((token, rest)) => match attribute_word(terminal_of(token)) {
                Some(attribute) => Ok((attribute, rest)),
                None => Err(Miss::Nothing),
            },
            None => Err(Miss::Nothing),
        }
    }

    fn at_word(&self, at: usize) -> Result<(Attribute, usize), Miss>
        ensures { Reads self.now.tokens.now (spec.spelt words.at_word) at result }
    {
        match self.token(at) {
            Some((token, rest)) if same_terminal(terminal_of(token), Terminal::Name) => {
                match at_word(token.spelling.as_slice()) {
                    Some(attribute) => Ok((attribute, rest)),
                    None => Err(Miss::Nothing),
                }
            }
            _ => Err(Miss::Nothing),
        }
    }

    #[tactic(auto, unfolding(dc_grammar::specs::PartReaders::at_attribute))]
    fn at_attribute(&self, at: usize) -> Result<(Attribute, usize), Miss>
        ensures { Reads self.now.tokens.now spec.at_attribute at result }
    {
        let rest = self.mark(at, Terminal::At)?;
        self.at_word(rest)
    }

    /// An attribute (D specification, "Attributes").
    #[tactic(auto, unfolding(dc_grammar::specs::PartReaders::attribute))]
    pub(crate) fn attribute(&self, at: usize) -> Result<(Attribute, usize), Miss>
        ensures { Reads self.now.tokens.now spec.attribute at result }
    {
        match self.ahead(at) {
            Terminal::At => self.at_attribute(at),
            _ => self.attribute_word(at),
        }
    }

    /// Attributes, as many as there are.
    pub(crate) fn attributes(&self, at: usize) -> Result<(Items<Attribute>, usize), Miss>
        ensures { Reads self.now.tokens.now spec.attributes at result }
    {
        self.many(at, |at| self.attribute(at))
    }
}
