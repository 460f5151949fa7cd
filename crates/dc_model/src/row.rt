// Rows: what the declarations and imports of units introduce.
use crate::CondId;
use dc_syntax::{NameId, Want};
use dc_tree::{DeclId, UnitId, Where};
use indexmap::IndexMap;
use std::alloc::Global;

/// The number of a row.
#[derive(Clone, Copy, PartialEq, Eq, PartialOrd, Ord, Hash)]
pub struct RowId(pub u32);

/// A name that a unit has, or an import of it.
#[derive(Clone, Copy)]
pub struct Row {
    pub unit: UnitId,
    pub at: Where,
    pub hidden: bool,
    /// Whether it is that of a function or a function template.
    pub callable: bool,
    pub decl: Option<DeclId>,
    pub import: Option<Import>,
    /// The conditional that introduced it.
    pub by: Option<CondId>,
    /// The row before it of the same name, or the import before it.
    pub before: Option<RowId>,
}

#[derive(Clone, Copy)]
pub struct Import {
    pub path: NameId,
    pub path_at: Where,
    pub is_public: bool,
    pub form: ImportForm,
}

#[derive(Clone, Copy, PartialEq, Eq)]
pub enum ImportForm {
    Plain,
    Static,
    Renamed,
    /// A name that is imported by itself: as it is called here, and in its module.
    Selected(NameId, NameId),
}

#[derive(Clone, Copy, PartialEq, Eq, Hash)]
struct Key {
    unit: UnitId,
    name: NameId,
}

/// The rows of all units, by unit and name.
#[derive(Drop)]
pub struct Rows {
    all: Vec<Row>,
    named: IndexMap<Key, RowId>,
    imports: IndexMap<UnitId, RowId>,
}

impl Rows {
    pub fn new(alloc: Global) -> Rows {
        Rows {
            all: Vec::new(alloc),
            named: IndexMap::new(alloc),
            imports: IndexMap::new(alloc),
        }
    }

    pub fn get(&self, id: RowId) -> Option<Row> {
        self.all.get(id.0 as usize).copied()
    }

    /// The last row of that name, from which `before` leads to the others.
    pub fn last_named(&self, unit: UnitId, name: NameId) -> Option<RowId> {
        self.named.get(&Key { unit, name }).copied()
    }

    /// The last import of a unit, from which `before` leads to the others.
    pub fn last_import(&self, unit: UnitId) -> Option<RowId> {
        self.imports.get(&unit).copied()
    }

    fn push(&mut self, row: Row) -> Result<RowId, Want> {
        match u32::try_from(self.all.len()) {
            Ok(n) => {
                self.all.push(row)?;
                Ok(RowId(n))
            }
            Err(_) => Err(Want),
        }
    }

    /// Adds a row of that name.
    pub fn add_named(&mut self, name: NameId, row: Row) -> Result<RowId, Want> {
        let key = Key {
            unit: row.unit,
            name,
        };
        let before = self.named.get(&key).copied();
        let id = self.push(Row { before, ..row })?;
        self.named.insert(key, id)?;
        Ok(id)
    }

    /// Adds an import of its unit.
    pub fn add_import(&mut self, row: Row) -> Result<RowId, Want> {
        let before = self.last_import(row.unit);
        let id = self.push(Row { before, ..row })?;
        self.imports.insert(row.unit, id)?;
        Ok(id)
    }

    /// Adds an import of a block, which has the one before it.
    pub fn add_local_import(&mut self, row: Row) -> Result<RowId, Want> {
        self.push(row)
    }
}
