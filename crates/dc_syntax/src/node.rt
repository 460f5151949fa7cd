// Nodes and their forms.
use crate::NameId;
use dc_ast::{AssignOperator, BasicType, BinaryOperator, IsRelation, UnaryOperator};
use dc_types::Kind;

/// The number of a node.
#[derive(Clone, Copy, PartialEq, Eq, PartialOrd, Ord, Hash)]
pub struct NodeId(pub u32);

/// A stretch of the table of numbers.
#[derive(Clone, Copy, PartialEq, Eq)]
pub struct List {
    pub from: u32,
    pub len: u32,
}

/// A part of a text: the offset of its first byte in its text, and its form.
///
/// The offset is that of the place which a refusal names: of a declaration the first byte after its
/// attributes, of an operation the first byte of its first operand, of an enum's member or a
/// further variable its name.
#[derive(Clone, Copy)]
pub struct Node {
    pub at: u32,
    pub form: Form,
}

/// The forms of nodes. A number in a side table of the same name stands where a form has many
/// parts.
#[derive(Clone, Copy)]
pub enum Form {
    // ---- expressions
    /// An integer literal: its kind, and its value as a word.
    Integer(Kind, u64),
    /// The bytes of a string literal.
    Str(NameId),
    Char(u8),
    Null,
    True,
    False,
    This,
    /// `$`
    Dollar,
    Name(NameId),
    /// `name!(arguments)`
    Instance(NameId, List),
    /// `(e)`
    Paren(NodeId),
    /// `[a, b]`
    Array(List),
    /// `mixin(e)`
    Mixin(NodeId),
    /// `is(T)`
    Is(NodeId),
    /// `is(T == U, names)`: a type, and the names that are bound, each a `Name`.
    IsType(NodeId, IsRelation, NodeId, List),
    /// `is(T == struct)`
    IsStruct(NodeId),
    /// `__traits(name, arguments)`, and the offset of the name.
    Traits(NameId, u32, List),
    Assert(NodeId, Option<NodeId>),
    /// `new T[](n)`, `new T[n]`: the type of the new array, and its length.
    New(NodeId, NodeId),
    /// An operand and what follows it, from left to right: nodes of the next seven forms.
    Postfix(NodeId, List),
    /// `.name`: a `Name` or an `Instance` at the offset of the name.
    Member(NodeId),
    Call(List),
    /// `[]`
    All,
    Index(NodeId),
    Slice(NodeId, NodeId),
    PostIncrement,
    PostDecrement,
    Unary(UnaryOperator, NodeId),
    /// `cast(T) e`
    Cast(NodeId, NodeId),
    /// Operators of one level from left to right: nodes of the form `Step`.
    Chain(NodeId, List),
    Step(BinaryOperator, NodeId),
    Compare(NodeId, BinaryOperator, NodeId),
    Conditional(NodeId, NodeId, NodeId),
    Assign(NodeId, AssignOperator, NodeId),
    // ---- types
    Basic(BasicType),
    /// `a.b!c`: nodes of the forms `Name` and `Instance`, at least one.
    Named(List),
    TypeOf(NodeId),
    ImmutableChar,
    /// A base and its brackets, from left to right: `All` and `Index`, at least one.
    Brackets(NodeId, List),
    // ---- declarations and statements that may stand among both
    /// A declaration with what the words before it say: in lists of declarations.
    Declared(crate::View, NodeId),
    Import(u32),
    Enum(u32),
    /// A member of an enum, at its name, and its value.
    EnumMember(NameId, Option<NodeId>),
    Constant(u32),
    Alias(u32),
    Struct(u32),
    /// Also a `StructNode`.
    Template(u32),
    Function(u32),
    Variable(u32),
    /// A variable of a declaration: at the declaration for the first, else at its name.
    One(NameId, u32, Option<NodeId>),
    /// `static if (e) { .. } else { .. }`
    StaticIf(NodeId, List, List),
    Version(NameId, List, List),
    StaticForeach(u32),
    StaticAssert(NodeId, Option<NodeId>),
    /// `mixin(e);`
    MixinHere(NodeId),
    // ---- parameters
    /// A type parameter of a template.
    TypeParameter(NameId),
    /// A value parameter of a template: its type.
    ValueParameter(NodeId, NameId),
    AliasParameter(NameId),
    Parameter(u32),
    // ---- statements
    Block(List),
    Empty,
    Expression(NodeId),
    /// Branches, each an `IfBranch`, and the last `else`.
    If(List, Option<NodeId>),
    IfBranch(NodeId, NodeId),
    While(NodeId, NodeId),
    /// A body, and the condition behind it.
    Do(NodeId, NodeId),
    For(u32),
    Foreach(u32),
    Switch(u32),
    /// The statements behind `case` labels, of these values.
    Case(List, List),
    /// The statements behind `default:`.
    Default(List),
    Break,
    Continue,
    Return(Option<NodeId>),
}
