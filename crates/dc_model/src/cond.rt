// Conditionals of units, and what stands in units in text order.
use dc_syntax::{NodeId, View};
use dc_tree::{DeclId, UnitId, Where};

/// The number of a conditional.
#[derive(Clone, Copy, PartialEq, Eq, PartialOrd, Ord, Hash)]
pub struct CondId(pub u32);

/// A `static if`, `static foreach` or mixin among the declarations of a unit.
#[derive(Clone, Copy)]
pub struct Cond {
    pub node: NodeId,
    pub at: Where,
    pub unit: UnitId,
    /// How the declarations that it introduces are seen, where they don't say so.
    pub view: View,
    /// The conditional that is settled after it.
    pub next: Option<CondId>,
    pub item: ItemId,
}

/// The number of an item.
#[derive(Clone, Copy, PartialEq, Eq)]
pub struct ItemId(pub u32);

/// What stands in a unit, in text order: a list with lists in place of settled conditionals.
#[derive(Clone, Copy)]
pub struct Item {
    pub kind: ItemKind,
    pub next: Option<ItemId>,
}

#[derive(Clone, Copy)]
pub enum ItemKind {
    Decl(DeclId),
    /// What a conditional has introduced so far.
    Cond(CondId, Option<ItemId>),
}
