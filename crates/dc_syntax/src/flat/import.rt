// Imports as nodes.
use crate::flat::Flat;
use crate::syntax::put;
use crate::{Form, ImportNode, ItemNode, List, Want};
use dc_ast::{Bind, ImportItem, ImportTree};

impl Flat<'_> {
    fn import_item(&mut self, item: &ImportItem) -> Result<ItemNode, Want> {
        let path = self.dotted(&item.path)?;
        let path_at = match item.path.as_slice() {
            [first, ..] => first.at,
            [] => item.at,
        };
        let (renamed, renamed_at) = match &item.renamed {
            Some(name) => (Some(self.name(name)?), name.at),
            None => (None, path_at),
        };
        Ok(ItemNode {
            renamed,
            renamed_at,
            path,
            path_at,
        })
    }

    fn import_items(&mut self, items: &[ImportItem]) -> Result<List, Want> {
        let mut numbers = Vec::new(self.alloc);
        for item in items {
            let node = self.import_item(item)?;
            numbers.push(put(&mut self.syntax.items, node)?)?;
        }
        self.list(numbers.as_slice())
    }

    /// A name behind the colon of an import. Where one name stands, it is both.
    fn bind(&mut self, bind: &Bind) -> Result<ItemNode, Want> {
        let renamed = self.name(&bind.name)?;
        let (path, path_at) = match &bind.original {
            Some(name) => (self.name(name)?, name.at),
            None => (renamed, bind.name.at),
        };
        Ok(ItemNode {
            renamed: Some(renamed),
            renamed_at: bind.name.at,
            path,
            path_at,
        })
    }

    fn binds(&mut self, binds: &[Bind]) -> Result<List, Want> {
        let mut numbers = Vec::new(self.alloc);
        for bind in binds {
            let node = self.bind(bind)?;
            numbers.push(put(&mut self.syntax.items, node)?)?;
        }
        self.list(numbers.as_slice())
    }

    pub(crate) fn import(&mut self, tree: &ImportTree) -> Result<Form, Want> {
        let items = self.import_items(tree.items.as_slice())?;
        let binds = self.binds(tree.binds.as_slice())?;
        let node = ImportNode {
            is_static: tree.is_static,
            items,
            binds,
        };
        Ok(Form::Import(put(&mut self.syntax.imports, node)?))
    }
}
