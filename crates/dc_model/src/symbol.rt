// What names stand for.
use dc_syntax::{List, NameId};
use dc_tree::{DeclId, TreeId, TypeId, UnitId, ValueId, VarId};

/// The number of overload sets.
#[derive(Clone, Copy, PartialEq, Eq)]
pub struct SetId(pub u32);

/// What a name, or an expression that is read as one, stands for.
#[derive(Clone, Copy)]
pub enum Symbol {
    Type(TypeId),
    Value(TypeId, ValueId),
    Local(VarId),
    /// The length in `$`, held by a hidden variable.
    Dollar(VarId),
    /// A module variable.
    Variable(DeclId),
    Field(DeclId),
    Functions(SetId),
    Template(DeclId),
    Module(UnitId),
    /// An instance of a template without a member of its name.
    Instance(UnitId),
    /// Names that begin dotted names of modules.
    Package(Package),
    /// A value that isn't a name.
    Tree(TreeId),
    /// Member functions of a value.
    Method(TreeId, SetId),
    /// What the question about a declaration answers.
    Asked(DeclId),
    /// Of the answer of a variable or a field: its type.
    VariableType(TypeId),
}

/// A dotted name that begins names of modules which are imported.
#[derive(Clone, Copy)]
pub struct Package {
    /// The name so far.
    pub prefix: NameId,
    /// The dotted names of the modules: a stretch of the table of paths.
    pub paths: List,
    /// The longest module so far.
    pub best: Option<UnitId>,
    /// The names behind that module: a stretch of the table of dotted names.
    pub rest: List,
}

/// A name behind a `.`, and its offset.
#[derive(Clone, Copy)]
pub struct Dotted {
    pub name: NameId,
    pub at: u32,
}

/// Functions of one name, in sets: one for each unit that they stand in.
#[derive(Clone, Copy)]
pub struct FunctionSet {
    /// Numbers of declarations in the table of sets, each behind the number of its set.
    pub members: List,
    /// The arguments behind `!`: a stretch of the table of arguments.
    pub explicit: Option<crate::Args>,
}
