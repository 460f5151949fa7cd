// The parts of forms that have many.
use crate::{List, NameId, NodeId};
use dc_ast::Storage;

/// Who sees a declaration, as the words before it say.
#[derive(Clone, Copy, PartialEq, Eq)]
pub enum View {
    /// As the conditional around it, or everybody.
    Inherited,
    Private,
    Public,
}

/// `static import items : binds;` (D specification, "Modules", "Import Declaration").
#[derive(Clone, Copy)]
pub struct ImportNode {
    pub is_static: bool,
    /// Numbers of `ItemNode`s.
    pub items: List,
    /// Numbers of `ItemNode`s, whose path is the name in the imported module.
    pub binds: List,
}

/// `x = a.b` of an import, or `f = g` behind its colon.
#[derive(Clone, Copy)]
pub struct ItemNode {
    /// The name before the `=`; of a bind without one its only name.
    pub renamed: Option<NameId>,
    /// The offset of that name, else that of the path.
    pub renamed_at: u32,
    /// The dotted name of the module; of a bind the name in that module.
    pub path: NameId,
    pub path_at: u32,
}

/// `enum name : base { members }` (D specification, "Enums").
#[derive(Clone, Copy)]
pub struct EnumNode {
    pub name: Option<NameId>,
    pub base: Option<NodeId>,
    pub members: List,
}

/// `enum T name(parameters) = value;`
#[derive(Clone, Copy)]
pub struct ConstantNode {
    pub of: Option<NodeId>,
    pub name: NameId,
    pub parameters: Option<List>,
    pub value: NodeId,
}

/// `alias name(parameters) = target;`: an expression or a type.
#[derive(Clone, Copy)]
pub struct AliasNode {
    pub name: NameId,
    pub parameters: Option<List>,
    pub target: NodeId,
}

/// `struct name(parameters) if (constraint) { members }`, and `template` likewise.
#[derive(Clone, Copy)]
pub struct StructNode {
    pub name: NameId,
    pub parameters: Option<List>,
    pub constraint: Option<NodeId>,
    pub members: List,
}

/// A function (D specification, "Functions").
#[derive(Clone, Copy)]
pub struct FunctionNode {
    /// Nothing where `auto` stands.
    pub result: Option<NodeId>,
    pub name: NameId,
    pub template_parameters: Option<List>,
    pub parameters: List,
    pub constraint: Option<NodeId>,
    pub body: List,
}

/// A parameter of a function.
#[derive(Clone, Copy)]
pub struct ParameterNode {
    pub is_ref: bool,
    pub storage: Option<Storage>,
    pub of: NodeId,
    pub name: NameId,
}

/// `const T a = 1, b;`
#[derive(Clone, Copy)]
pub struct VariableNode {
    pub storage: Option<Storage>,
    /// Nothing where the type is that of the value.
    pub of: Option<NodeId>,
    /// `One`s.
    pub variables: List,
}

/// `for (start; condition; step) body`
#[derive(Clone, Copy)]
pub struct ForNode {
    /// A statement.
    pub start: Option<NodeId>,
    pub condition: Option<NodeId>,
    pub step: Option<NodeId>,
    pub body: NodeId,
}

/// `foreach (names; over .. end) body`
#[derive(Clone, Copy)]
pub struct ForeachNode {
    /// The first of two names.
    pub index: Option<LoopNode>,
    pub element: LoopNode,
    pub over: NodeId,
    pub end: Option<NodeId>,
    pub body: NodeId,
}

/// A name of a `foreach`.
#[derive(Clone, Copy)]
pub struct LoopNode {
    pub is_ref: bool,
    pub of: Option<NodeId>,
    pub name: NameId,
    pub name_at: u32,
}

/// `static foreach (name; over .. end) { body }`
#[derive(Clone, Copy)]
pub struct StaticForeachNode {
    pub name: NameId,
    pub name_at: u32,
    pub over: NodeId,
    pub end: Option<NodeId>,
    pub body: List,
}

/// `switch (on) { before groups }`: groups are `Case`s and `Default`s.
#[derive(Clone, Copy)]
pub struct SwitchNode {
    pub on: NodeId,
    pub before: List,
    pub groups: List,
}
