// The fields of structs.
use crate::{DeclId, TypeId, UnitId, ValueId};
use dc_syntax::{NameId, Want};
use indexmap::IndexMap;
use std::alloc::Global;

/// A field of a struct.
#[derive(Clone, Copy)]
pub struct Field {
    pub decl: DeclId,
    pub name: NameId,
    pub of: TypeId,
    pub start: ValueId,
    /// The cells of the fields before it.
    pub offset: u32,
}

/// Where the fields of a struct stand in the table, and its cells.
#[derive(Clone, Copy)]
pub struct Layout {
    pub from: u32,
    pub len: u32,
    pub cells: u32,
}

/// The layouts of the structs that have one.
#[derive(Drop)]
pub struct Layouts {
    fields: Vec<Field>,
    of: IndexMap<UnitId, Layout>,
    offsets: IndexMap<DeclId, u32>,
}

impl Layouts {
    pub fn new(alloc: Global) -> Layouts {
        Layouts {
            fields: Vec::new(alloc),
            of: IndexMap::new(alloc),
            offsets: IndexMap::new(alloc),
        }
    }

    pub fn add(&mut self, unit: UnitId, fields: &[Field], cells: u32) -> Result<(), Want> {
        let from = match u32::try_from(self.fields.len()) {
            Ok(n) => n,
            Err(_) => return Err(Want),
        };
        let len = match u32::try_from(fields.len()) {
            Ok(n) => n,
            Err(_) => return Err(Want),
        };
        self.fields.extend_from_slice(fields)?;
        for field in fields {
            self.offsets.insert(field.decl, field.offset)?;
        }
        self.of.insert(unit, Layout { from, len, cells })?;
        Ok(())
    }

    pub fn get(&self, unit: UnitId) -> Option<Layout> {
        self.of.get(&unit).copied()
    }

    pub fn fields(&self, layout: Layout) -> &[Field] {
        let from = layout.from as usize;
        match self.fields.get(from..from + layout.len as usize) {
            Some(fields) => fields,
            None => &[],
        }
    }

    /// The cells of a struct before one of its fields.
    pub fn offset(&self, field: DeclId) -> Option<u32> {
        self.offsets.get(&field).copied()
    }
}
