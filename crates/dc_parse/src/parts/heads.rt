// Heads of statements.
ghost use Rattle.dc_grammar.specs.PartReaders as spec;
ghost use Rattle.dc_grammar.specs.Reading.{maybe};
ghost use Rattle.dc_parse.specs.Cases as cases;
ghost use Rattle.dc_parse.specs.Calls.{Reads};

use crate::parts::list::{one_item, two_items};
use crate::parts::source::Source;
use dc_ast::{Expr, ForStart, Label, LoopName, StaticAssert, StaticRange, StaticTest};
use dc_grammar::{Miss, ReadExpr, Terminal};
use sqlite_items::Items;

impl<'a, E: ReadExpr> Source<'a, E> {
    #[tactic(auto, unfolding(dc_grammar::specs::PartReaders::static_if))]
    fn static_if(&self, at: usize) -> Result<(StaticTest, usize), Miss>
        ensures { Reads self.now.tokens.now spec.static_if at result }
    {
        let rest = self.mark(at, Terminal::Static)?;
        let (condition, rest) = self.head(rest, Terminal::If)?;
        Ok((StaticTest::If(condition), rest))
    }

    #[tactic(auto, unfolding(dc_grammar::specs::PartReaders::version))]
    fn version(&self, at: usize) -> Result<(StaticTest, usize), Miss>
        ensures { Reads self.now.tokens.now spec.version at result }
    {
        let rest = self.mark(at, Terminal::Version)?;
        let rest = self.mark(rest, Terminal::LeftParen)?;
        let (name, rest) = self.id(rest)?;
        let rest = self.mark(rest, Terminal::RightParen)?;
        Ok((StaticTest::Version(name), rest))
    }

    /// The head of a `static if` or a `version` (D specification, "Conditional Compilation").
    #[tactic(auto, unfolding(dc_grammar::specs::PartReaders::static_test))]
    pub(crate) fn static_test(&self, at: usize) -> Result<(StaticTest, usize), Miss>
        ensures { Reads self.now.tokens.now spec.static_test at result }
    {
        match self.ahead(at) {
            Terminal::Version => self.version(at),
            _ => self.static_if(at),
        }
    }

    #[tactic(auto, unfolding(dc_grammar::specs::PartReaders::range_end))]
    fn range_end(&self, at: usize) -> Result<(Expr, usize), Miss>
        ensures { Reads self.now.tokens.now spec.range_end at result }
    {
        let rest = self.mark(at, Terminal::DotDot)?;
        self.expr(rest)
    }

    /// `..` and the end of a range, where they are there.
    pub(crate) fn maybe_end(&self, at: usize) -> Result<(Option<Expr>, usize), Miss>
        ensures { Reads self.now.tokens.now spec.maybe_end at result }
    {
        self.maybe(at, |at| self.range_end(at))
    }

    /// The head of a `static foreach`.
    #[tactic(auto, unfolding(dc_grammar::specs::PartReaders::static_over))]
    pub(crate) fn static_over(&self, at: usize) -> Result<(StaticRange, usize), Miss>
        ensures { Reads self.now.tokens.now spec.static_over at result }
    {
        let rest = self.mark(at, Terminal::Static)?;
        let rest = self.mark(rest, Terminal::Foreach)?;
        let rest = self.mark(rest, Terminal::LeftParen)?;
        let (name, rest) = self.id(rest)?;
        let rest = self.mark(rest, Terminal::Semicolon)?;
        let (over, rest) = self.expr(rest)?;
        let (end, rest) = self.maybe_end(rest)?;
        let rest = self.mark(rest, Terminal::RightParen)?;
        Ok((StaticRange { name, over, end }, rest))
    }

    #[tactic(auto, unfolding(dc_grammar::specs::PartReaders::message))]
    fn message(&self, at: usize) -> Result<(Expr, usize), Miss>
        ensures { Reads self.now.tokens.now spec.message at result }
    {
        let rest = self.mark(at, Terminal::Comma)?;
        self.expr(rest)
    }

    fn maybe_message(&self, at: usize) -> Result<(Option<Expr>, usize), Miss>
        ensures { Reads self.now.tokens.now (maybe spec.message) at result }
    {
        self.maybe(at, |at| self.message(at))
    }

    /// A `static assert`.
    #[tactic(auto, unfolding(dc_grammar::specs::PartReaders::static_check))]
    pub(crate) fn static_check(&self, at: usize) -> Result<(StaticAssert, usize), Miss>
        ensures { Reads self.now.tokens.now spec.static_check at result }
    {
        let rest = self.mark(at, Terminal::Static)?;
        let rest = self.mark(rest, Terminal::Assert)?;
        let rest = self.mark(rest, Terminal::LeftParen)?;
        let (condition, rest) = self.expr(rest)?;
        let (message, rest) = self.maybe_message(rest)?;
        let rest = self.mark(rest, Terminal::RightParen)?;
        let rest = self.mark(rest, Terminal::Semicolon)?;
        Ok((StaticAssert { condition, message }, rest))
    }

    #[tactic(auto, unfolding(dc_grammar::specs::PartReaders::for_expr))]
    fn for_expr(&self, at: usize) -> Result<(ForStart, usize), Miss>
        ensures { Reads self.now.tokens.now spec.for_expr at result }
    {
        let (first, rest) = self.maybe_expr(at)?;
        let rest = self.mark(rest, Terminal::Semicolon)?;
        Ok((ForStart::Expr(first), rest))
    }

    /// What a `for` begins with. What reads as variables is variables.
    #[tactic(auto, unfolding(dc_grammar::specs::PartReaders::for_start))]
    pub(crate) fn for_start(&self, at: usize) -> Result<(ForStart, usize), Miss>
        ensures { Reads self.now.tokens.now spec.for_start at result }
    {
        match self.variable_read(at) {
            Ok((variables, rest)) => {
                let at = self.start(at);
                Ok((ForStart::Variable { at, variables }, rest))
            }
            Err(Miss::Nothing) => self.for_expr(at),
            Err(Miss::Memory) => Err(Miss::Memory),
        }
    }

    #[tactic(auto, unfolding(dc_grammar::specs::PartReaders::loop_read))]
    fn loop_read(&self, at: usize) -> Result<(LoopName, usize), Miss>
        ensures { Reads self.now.tokens.now spec.loop_read at result }
    {
        let (is_ref, rest) = self.flag(at, Terminal::Ref)?;
        let ((of, name), rest) = self.maybe_typed(rest)?;
        Ok((LoopName { is_ref, of, name }, rest))
    }

    #[tactic(auto, unfolding(dc_grammar::specs::PartReaders::next_loop))]
    fn next_loop(&self, at: usize) -> Result<(LoopName, usize), Miss>
        ensures { Reads self.now.tokens.now spec.next_loop at result }
    {
        let rest = self.mark(at, Terminal::Comma)?;
        self.loop_read(rest)
    }

    /// The names of a `foreach`, one or two.
    #[tactic(auto, unfolding(dc_grammar::specs::PartReaders::loops))]
    pub(crate) fn loops(&self, at: usize) -> Result<(Items<LoopName>, usize), Miss>
        ensures { Reads self.now.tokens.now spec.loops at result }
    {
        let (first, rest) = self.loop_read(at)?;
        match self.next_loop(rest) {
            Ok((second, rest)) => Ok((two_items(self.alloc, first, second)?, rest)),
            Err(Miss::Nothing) => Ok((one_item(self.alloc, first)?, rest)),
            Err(Miss::Memory) => Err(Miss::Memory),
        }
    }

    #[tactic(auto, unfolding(crate::specs::Cases::one_expr))]
    fn one_expr(&self, at: usize) -> Result<(Expr, usize), Miss>
        ensures { Reads self.now.tokens.now cases.one_expr at result }
    {
        self.expr(at)
    }

    fn exprs(&self, at: usize) -> Result<(Items<Expr>, usize), Miss>
        ensures { Reads self.now.tokens.now (spec.listed cases.one_expr) at result }
    {
        self.listed(at, |at| self.one_expr(at))
    }

    #[tactic(auto, unfolding(dc_grammar::specs::PartReaders::case_label, crate::specs::Cases::one_expr))]
    fn case_label(&self, at: usize) -> Result<(Label, usize), Miss>
        ensures { Reads self.now.tokens.now spec.case_label at result }
    {
        let rest = self.mark(at, Terminal::Case)?;
        let (values, rest) = self.exprs(rest)?;
        let rest = self.mark(rest, Terminal::Colon)?;
        Ok((Label::Case(values), rest))
    }

    #[tactic(auto, unfolding(dc_grammar::specs::PartReaders::default_label))]
    fn default_label(&self, at: usize) -> Result<(Label, usize), Miss>
        ensures { Reads self.now.tokens.now spec.default_label at result }
    {
        let rest = self.mark(at, Terminal::Default)?;
        let rest = self.mark(rest, Terminal::Colon)?;
        Ok((Label::Default, rest))
    }

    /// A label of a `switch` (D specification, "Statements", "Switch Statement").
    #[tactic(auto, unfolding(dc_grammar::specs::PartReaders::label_read))]
    pub(crate) fn label_read(&self, at: usize) -> Result<(Label, usize), Miss>
        ensures { Reads self.now.tokens.now spec.label_read at result }
    {
        match self.ahead(at) {
            Terminal::Default => self.default_label(at),
            _ => self.case_label(at),
        }
    }
}
