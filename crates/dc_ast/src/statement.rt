// The trees of statements, and of the declarations that may stand among them.
use crate::{Argument, Expr, Name, Path, Storage, TypeTree};
use sqlite_items::{Boxed, Items};

/// A list of statements.
pub type Stmts = Items<Stmt>;

/// A statement, and where it begins (D specification, "Statements").
#[cycle(statements)]
#[derive(Drop)]
pub struct Stmt {
    pub at: u32,
    pub kind: StmtKind,
}

/// The forms of statements.
#[cycle(statements)]
#[derive(Drop)]
pub enum StmtKind {
    Block(Items<Stmt>),
    /// `;`
    Empty,
    Variable(VariableTree),
    Enum(EnumTree),
    Constant(ConstantTree),
    Alias(AliasTree),
    Import(ImportTree),
    Static(StaticStatement),
    /// `e;`
    Expr(Expr),
    /// `mixin(e);`
    Mixin(Expr),
    /// `if (a) s else if (b) s else s`: at least one branch, and the last `else` where one is written.
    If(Items<Branch>, Option<Boxed<Stmt>>),
    While(Expr, Boxed<Stmt>),
    /// `do s while (e);`
    Do(Boxed<Stmt>, Expr),
    /// `for (start condition; step) s`
    For(ForStart, Option<Expr>, Option<Expr>, Boxed<Stmt>),
    /// `foreach (i, x; a .. b) s`: one or two names, and the end where `..` is written.
    Foreach(Items<LoopName>, Expr, Option<Expr>, Boxed<Stmt>),
    /// `switch (e) { .. }`: the statements before the first label, and the groups.
    Switch(Expr, Items<Stmt>, Items<Group>),
    Break,
    Continue,
    Return(Option<Expr>),
}

/// A condition of an `if`, and the statement behind it.
#[cycle(statements)]
#[derive(Drop)]
pub struct Branch {
    pub condition: Expr,
    pub body: Stmt,
}

/// Labels of a `switch`, and the statements behind them.
#[cycle(statements)]
#[derive(Drop)]
pub struct Group {
    pub at: u32,
    pub label: Label,
    pub body: Items<Stmt>,
}

#[cycle(statements)]
#[derive(Drop)]
pub enum StaticStatement {
    /// `static if` and `version`, each behind the `else` of the one before; at least one, and the last `else`.
    Conditional(Items<StmtBranch>, Option<StmtBody>),
    Foreach(StaticRange, StmtBody),
    Assert(StaticAssert),
}

#[cycle(statements)]
#[derive(Drop)]
pub struct StmtBranch {
    pub at: u32,
    pub test: StaticTest,
    pub body: StmtBody,
}

/// What a conditional takes in.
#[cycle(statements)]
#[derive(Drop)]
pub enum StmtBody {
    One(Boxed<Stmt>),
    Braces(Items<Stmt>),
}

/// What a `for` begins with, before its condition.
#[derive(Drop)]
pub enum ForStart {
    /// `int i = 0, j;`, and where it begins.
    Variable { at: u32, variables: VariableTree },
    /// `i = 0;`, or the `;` alone.
    Expr(Option<Expr>),
}

/// A name of a `foreach`.
#[derive(Drop)]
pub struct LoopName {
    pub is_ref: bool,
    pub of: Option<TypeTree>,
    pub name: Name,
}

#[derive(Drop)]
pub enum Label {
    /// `case a, b:`, at least one value.
    Case(Items<Expr>),
    Default,
}

#[derive(Drop)]
pub enum StaticTest {
    /// `static if (e)`
    If(Expr),
    /// `version (name)`
    Version(Name),
}

/// `static foreach (name; over .. end)`
#[derive(Drop)]
pub struct StaticRange {
    pub name: Name,
    pub over: Expr,
    pub end: Option<Expr>,
}

/// `static assert (condition, message);`
#[derive(Drop)]
pub struct StaticAssert {
    pub condition: Expr,
    pub message: Option<Expr>,
}

/// `const int a = 1, b;` (D specification, "Declarations").
#[derive(Drop)]
pub struct VariableTree {
    pub storage: Option<Storage>,
    /// Nothing where the type is that of the value.
    pub of: Option<TypeTree>,
    /// At least one.
    pub variables: Items<Variable>,
}

#[derive(Drop)]
pub struct Variable {
    pub name: Name,
    pub value: Option<Expr>,
}

/// `enum name : base { a, b = 1 }` (D specification, "Enums").
#[derive(Drop)]
pub struct EnumTree {
    pub name: Option<Name>,
    pub base: Option<TypeTree>,
    /// At least one.
    pub members: Items<EnumMember>,
}

#[derive(Drop)]
pub struct EnumMember {
    pub name: Name,
    pub value: Option<Expr>,
}

/// `enum type name(parameters) = value;` (D specification, "Enums", "Manifest Constants").
#[derive(Drop)]
pub struct ConstantTree {
    pub of: Option<TypeTree>,
    pub name: Name,
    pub parameters: Option<Items<TemplateParameter>>,
    pub value: Expr,
}

/// `alias name(parameters) = target;`
#[derive(Drop)]
pub struct AliasTree {
    pub name: Name,
    pub parameters: Option<Items<TemplateParameter>>,
    pub target: Argument,
}

/// A parameter of a template (D specification, "Templates").
#[derive(Drop)]
pub enum TemplateParameter {
    /// A type of any kind.
    OfType(Name),
    Value(TypeTree, Name),
    Alias(Name),
}

/// `static import a = b.c, d : x = y, z;` (D specification, "Modules", "Import Declaration").
#[derive(Drop)]
pub struct ImportTree {
    pub is_static: bool,
    /// At least one.
    pub items: Items<ImportItem>,
    pub binds: Items<Bind>,
}

#[derive(Drop)]
pub struct ImportItem {
    pub at: u32,
    /// The name before a `=`.
    pub renamed: Option<Name>,
    pub path: Path,
}

/// A name that is imported by itself, and the name that it has in the module where that is another one.
#[derive(Drop)]
pub struct Bind {
    pub name: Name,
    pub original: Option<Name>,
}
