// Names of bodies, and names of rounds.
use crate::{RowId, Symbol};
use dc_syntax::{NameId, Want};
use dc_tree::{UnitId, Where};
use indexmap::IndexMap;
use std::alloc::Global;

/// The number of a block.
#[derive(Clone, Copy, PartialEq, Eq, PartialOrd, Ord, Hash)]
pub struct BlockId(pub u32);

/// A block of a body, or a scope that holds one name: then what is declared in it goes further out.
#[derive(Clone, Copy)]
pub struct Block {
    pub outer: Option<BlockId>,
    pub is_transparent: bool,
    /// The last import that was read in it.
    pub imports: Option<RowId>,
}

/// The number of a name of a `static foreach` among declarations.
#[derive(Clone, Copy, PartialEq, Eq)]
pub struct BindId(pub u32);

/// The name of a `static foreach` among the declarations of a unit, and those around it in the same
/// text.
#[derive(Clone, Copy)]
pub struct Bind {
    pub unit: UnitId,
    pub name: NameId,
    pub symbol: Symbol,
    pub outer: Option<BindId>,
}

#[derive(Clone, Copy, PartialEq, Eq, Hash)]
struct Key {
    block: BlockId,
    name: NameId,
}

/// What a name stands for in a block, and where it is declared.
#[derive(Clone, Copy)]
struct Declared {
    symbol: Symbol,
    at: Where,
}

/// All blocks and the names that are declared in them.
#[derive(Drop)]
pub struct Locals {
    blocks: Vec<Block>,
    names: IndexMap<Key, Declared>,
}

impl Locals {
    pub fn new(alloc: Global) -> Locals {
        Locals {
            blocks: Vec::new(alloc),
            names: IndexMap::new(alloc),
        }
    }

    pub fn open(&mut self, outer: Option<BlockId>, is_transparent: bool) -> Result<BlockId, Want> {
        let n = match u32::try_from(self.blocks.len()) {
            Ok(n) => n,
            Err(_) => return Err(Want),
        };
        self.blocks.push(Block {
            outer,
            is_transparent,
            imports: None,
        })?;
        Ok(BlockId(n))
    }

    pub fn block(&self, id: BlockId) -> Option<Block> {
        self.blocks.get(id.0 as usize).copied()
    }

    pub fn set_imports(&mut self, id: BlockId, row: RowId) {
        if let Some(block) = self.blocks.get_mut(id.0 as usize) {
            block.imports = Some(row);
        }
    }

    fn declared(&self, from: Option<BlockId>, name: NameId) -> Option<Declared> {
        let mut at = from;
        for _ in 0..u64::MAX {
            let block = at?;
            if let Some(declared) = self.names.get(&Key { block, name }) {
                return Some(*declared);
            }
            at = self.block(block)?.outer;
        }
        None
    }

    /// What a name stands for in the innermost block that declares it.
    pub fn find(&self, from: Option<BlockId>, name: NameId) -> Option<Symbol> {
        self.declared(from, name).map(|declared| declared.symbol)
    }

    /// Whether a block or one around it declares a name at another place. A statement that is
    /// judged again declares its names again at their places.
    pub fn is_taken(&self, from: Option<BlockId>, name: NameId, at: Where) -> bool {
        match self.declared(from, name) {
            Some(declared) => declared.at != at,
            None => false,
        }
    }

    /// The block that takes what is declared in a block.
    pub fn home(&self, from: BlockId) -> BlockId {
        let mut at = from;
        for _ in 0..u64::MAX {
            match self.block(at) {
                Some(
                    Block {
                        outer: Some(outer),
                        is_transparent: true,
                        ..
                    },
                ) => at = outer,
                _ => break,
            }
        }
        at
    }

    /// Declares a name in a block itself.
    pub fn put(
        &mut self,
        block: BlockId,
        name: NameId,
        symbol: Symbol,
        at: Where,
    ) -> Result<(), Want> {
        self.names
            .insert(Key { block, name }, Declared { symbol, at })?;
        Ok(())
    }
}
