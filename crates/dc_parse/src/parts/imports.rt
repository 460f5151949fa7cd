// Paths and imports.
ghost use Rattle.dc_grammar.specs.PartReaders as spec;
ghost use Rattle.dc_parse.specs.Calls.{Reads};

use crate::parts::list::with_first;
use crate::parts::source::Source;
use dc_ast::{Bind, ImportItem, ImportTree, Name, Path};
use dc_grammar::{Miss, ReadExpr, Terminal};
use sqlite_items::Items;

impl<'a, E: ReadExpr> Source<'a, E> {
    #[tactic(auto, unfolding(dc_grammar::specs::PartReaders::next_part))]
    fn next_part(&self, at: usize) -> Result<(Name, usize), Miss>
        ensures { Reads self.now.tokens.now spec.next_part at result }
    {
        let rest = self.mark(at, Terminal::Dot)?;
        self.id(rest)
    }

    /// A name of parts, as `a.b.c`.
    #[tactic(auto, unfolding(dc_grammar::specs::PartReaders::path))]
    pub(crate) fn path(&self, at: usize) -> Result<(Path, usize), Miss>
        ensures { Reads self.now.tokens.now spec.path at result }
    {
        let (first, rest) = self.id(at)?;
        let (others, rest) = self.many(rest, |at| self.next_part(at))?;
        Ok((with_first(self.alloc, first, others)?, rest))
    }

    #[tactic(auto, unfolding(dc_grammar::specs::PartReaders::renamed_item))]
    fn renamed_item(&self, at: usize) -> Result<(ImportItem, usize), Miss>
        ensures { Reads self.now.tokens.now spec.renamed_item at result }
    {
        let start = self.start(at);
        let (name, rest) = self.id(at)?;
        let rest = self.mark(rest, Terminal::Equals)?;
        let (path, rest) = self.path(rest)?;
        let item = ImportItem {
            at: start,
            renamed: Some(name),
            path,
        };
        Ok((item, rest))
    }

    #[tactic(auto, unfolding(dc_grammar::specs::PartReaders::plain_item))]
    fn plain_item(&self, at: usize) -> Result<(ImportItem, usize), Miss>
        ensures { Reads self.now.tokens.now spec.plain_item at result }
    {
        let start = self.start(at);
        let (path, rest) = self.path(at)?;
        let item = ImportItem {
            at: start,
            renamed: None,
            path,
        };
        Ok((item, rest))
    }

    #[tactic(auto, unfolding(dc_grammar::specs::PartReaders::item))]
    fn item(&self, at: usize) -> Result<(ImportItem, usize), Miss>
        ensures { Reads self.now.tokens.now spec.item at result }
    {
        match self.renamed_item(at) {
            Ok(found) => Ok(found),
            Err(Miss::Nothing) => self.plain_item(at),
            Err(Miss::Memory) => Err(Miss::Memory),
        }
    }

    #[tactic(auto, unfolding(dc_grammar::specs::PartReaders::original))]
    fn original(&self, at: usize) -> Result<(Name, usize), Miss>
        ensures { Reads self.now.tokens.now spec.original at result }
    {
        let rest = self.mark(at, Terminal::Equals)?;
        self.id(rest)
    }

    #[tactic(auto, unfolding(dc_grammar::specs::PartReaders::bind))]
    fn bind(&self, at: usize) -> Result<(Bind, usize), Miss>
        ensures { Reads self.now.tokens.now spec.bind at result }
    {
        let (name, rest) = self.id(at)?;
        let (original, rest) = self.maybe(rest, |at| self.original(at))?;
        Ok((Bind { name, original }, rest))
    }

    fn bind_list(&self, at: usize) -> Result<(Items<Bind>, usize), Miss>
        ensures { Reads self.now.tokens.now (spec.listed spec.bind) at result }
    {
        self.listed(at, |at| self.bind(at))
    }

    #[tactic(auto, unfolding(dc_grammar::specs::PartReaders::binds))]
    fn binds(&self, at: usize) -> Result<(Items<Bind>, usize), Miss>
        ensures { Reads self.now.tokens.now spec.binds at result }
    {
        let rest = self.mark(at, Terminal::Colon)?;
        self.bind_list(rest)
    }

    fn some_binds(&self, at: usize) -> Result<(Items<Bind>, usize), Miss>
        ensures { Reads self.now.tokens.now spec.some_binds at result }
    {
        match self.binds(at) {
            Ok(found) => Ok(found),
            Err(Miss::Nothing) => Ok((Items::new(self.alloc), at)),
            Err(Miss::Memory) => Err(Miss::Memory),
        }
    }

    fn item_list(&self, at: usize) -> Result<(Items<ImportItem>, usize), Miss>
        ensures { Reads self.now.tokens.now (spec.listed spec.item) at result }
    {
        self.listed(at, |at| self.item(at))
    }

    /// An import from its word `import` on (D specification, "Modules", "Import Declaration").
    #[tactic(auto, unfolding(dc_grammar::specs::PartReaders::imported))]
    pub(crate) fn imported(&self, at: usize, is_static: bool) -> Result<(ImportTree, usize), Miss>
        ensures { Reads self.now.tokens.now (spec.imported is_static) at result }
    {
        let rest = self.mark(at, Terminal::Import)?;
        let (items, rest) = self.item_list(rest)?;
        let (binds, rest) = self.some_binds(rest)?;
        let rest = self.mark(rest, Terminal::Semicolon)?;
        let tree = ImportTree {
            is_static,
            items,
            binds,
        };
        Ok((tree, rest))
    }

    /// A static import.
    #[tactic(auto, unfolding(dc_grammar::specs::PartReaders::static_import))]
    pub(crate) fn static_import(&self, at: usize) -> Result<(ImportTree, usize), Miss>
        ensures { Reads self.now.tokens.now spec.static_import at result }
    {
        let rest = self.mark(at, Terminal::Static)?;
        self.imported(rest, true)
    }
}
