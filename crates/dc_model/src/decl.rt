// Declarations.
use crate::Env;
use dc_syntax::{NameId, NodeId};
use dc_tree::{DeclId, UnitId, Where};

/// A declaration in a certain round or instance.
#[derive(Clone, Copy)]
pub struct Decl {
    pub kind: DeclKind,
    pub node: NodeId,
    /// Where it stands: the spot of its text, and its offset.
    pub at: Where,
    pub unit: UnitId,
    /// Nothing for an enum without a name and for a `static assert`.
    pub name: Option<NameId>,
    pub hidden: bool,
    /// The number of a variable in its declaration, or of a member in its enum.
    pub index: u32,
    /// The first member of an enum, or the next one behind a member.
    pub other: Option<DeclId>,
    /// The enum of a member.
    pub owner: Option<DeclId>,
    /// Whether it has template parameters that no instance binds.
    pub is_template: bool,
    /// The unit of a struct, or of the instance whose declaration this is.
    pub inner: Option<UnitId>,
    /// Where it is judged, if it stands in a body.
    pub local: Option<Env>,
}

#[derive(Clone, Copy, PartialEq, Eq)]
pub enum DeclKind {
    /// `write`, `writeln`, `to`, `text`
    Builtin,
    Function,
    Template,
    Struct,
    Constant,
    Alias,
    Enum,
    Member,
    Variable,
    StaticAssert,
}
