// The lookups that a judging makes, in their order.
use crate::{BlockId, RowId};
use dc_syntax::NameId;
use dc_tree::{PlaceId, SpotId, UnitId};

/// How a name was looked for.
#[derive(Clone, Copy, PartialEq, Eq)]
pub enum Lookup {
    /// From the unit and the block outwards.
    Plain(Option<BlockId>),
    /// As of `x.f(a)`: without locals and members of structs.
    Free(Option<BlockId>),
    /// In a unit alone.
    Within(UnitId),
}

/// A lookup from a unit with conditionals that weren't settled.
#[derive(Clone, Copy)]
pub struct Noted {
    pub unit: UnitId,
    pub spot: SpotId,
    pub name: NameId,
    pub place: PlaceId,
    pub lookup: Lookup,
    /// The rows that were found: a stretch of the table of found rows.
    pub from: u32,
    pub len: u32,
    /// Whether something that is no row was found, as a word or a template's parameter.
    pub other: bool,
}

/// What a judging has looked up so far.
#[derive(Drop)]
pub struct Trace {
    pub noted: Vec<Noted>,
    pub found: Vec<RowId>,
}
