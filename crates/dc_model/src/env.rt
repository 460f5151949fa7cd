// Where something is judged.
use crate::BlockId;
use dc_tree::{SpotId, TypeId, UnitId};

/// Where code is judged.
#[derive(Clone, Copy)]
pub struct Env {
    /// The unit in which it stands.
    pub unit: UnitId,
    /// The spot of its text.
    pub spot: SpotId,
    /// The innermost block of a body.
    pub block: Option<BlockId>,
    /// The type of `this`.
    pub this: Option<TypeId>,
    /// The loop, `switch` or `static foreach` around it.
    pub flow: Option<FlowId>,
    /// Whether no value is needed, as in `typeof`.
    pub in_typeof: bool,
    /// Whether it is judged for template parameters that are no real types.
    pub in_trial: bool,
    /// How many parameter types of candidates are open around it.
    pub guards: u8,
}

/// The number of a flow.
#[derive(Clone, Copy, PartialEq, Eq)]
pub struct FlowId(pub u32);

/// A loop, a `switch` or a `static foreach` around a statement.
#[derive(Clone, Copy)]
pub struct Flow {
    pub kind: FlowKind,
    pub outer: Option<FlowId>,
    /// Whether a `break` leaves it.
    pub broke: bool,
}

#[derive(Clone, Copy, PartialEq, Eq)]
pub enum FlowKind {
    Loop,
    Switch,
    Rounds,
}
