// Units.
use crate::{Args, CondId, ItemId};
use dc_syntax::NameId;
use dc_tree::{DeclId, SpotId, UnitId, Where};

/// A module, a struct or a template's instance.
#[derive(Clone, Copy)]
pub struct Unit {
    pub kind: UnitKind,
    pub at: Where,
    /// The spot of the texts that stand in it.
    pub spot: SpotId,
    pub outer: Option<UnitId>,
    /// The name of the module or of the declaration.
    pub name: NameId,
    /// The declaration of a struct, or the template of an instance.
    pub decl: Option<DeclId>,
    /// Of an instance: its arguments.
    pub args: Option<Args>,
    /// Of an instance: its declaration without parameters.
    pub own: Option<DeclId>,
    /// The first conditional that isn't settled.
    pub pending: Option<CondId>,
    pub first: Option<ItemId>,
    /// Whether its declarations are questions of the program.
    pub is_named: bool,
    /// Whether its rows were introduced.
    pub is_built: bool,
}

#[derive(Clone, Copy, PartialEq, Eq)]
pub enum UnitKind {
    Module,
    Struct,
    Instance,
}
