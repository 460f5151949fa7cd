// The trees of declarations and modules.
use crate::{
    AliasTree, Attribute, ConstantTree, EnumTree, Expr, ImportTree, Name, Path, StaticAssert,
    StaticRange, StaticTest, Stmt, Storage, TemplateParameter, TypeTree, VariableTree, Visibility,
};
use sqlite_items::{Boxed, Items};

/// A list of declarations.
pub type Decls = Items<Declaration>;

/// A module: the line that names it, where there is one, and its declarations (D specification, "Modules").
#[derive(Drop)]
pub struct ModuleTree {
    pub line: Option<ModuleLine>,
    pub declarations: Decls,
}

/// `module a.b;`, and where it begins.
#[derive(Drop)]
pub struct ModuleLine {
    pub at: u32,
    pub name: Path,
}

/// A declaration, and where it begins, with the words before it (D specification, "Attributes").
#[cycle(declarations)]
#[derive(Drop)]
pub struct Declaration {
    pub at: u32,
    pub form: DeclarationForm,
}

/// What stands at the place of a declaration.
#[cycle(declarations)]
#[derive(Drop)]
pub enum DeclarationForm {
    Plain(Items<Attribute>, Plain),
    /// `private { .. }`: at least one word.
    Group(Items<Attribute>, Items<Declaration>),
    /// `private:`
    Section(Visibility),
    /// `;`
    Empty,
}

/// A declaration, and where it begins behind the words before it.
#[cycle(declarations)]
#[derive(Drop)]
pub struct Plain {
    pub at: u32,
    pub kind: DeclarationKind,
}

/// The forms of declarations.
#[cycle(declarations)]
#[derive(Drop)]
pub enum DeclarationKind {
    Import(ImportTree),
    Enum(EnumTree),
    Constant(ConstantTree),
    Alias(AliasTree),
    Struct(StructTree),
    Template(TemplateTree),
    Function(FunctionTree),
    Variable(VariableTree),
    Static(StaticDeclaration),
    /// `mixin(e);`
    Mixin(Expr),
}

/// `struct name(parameters) if (constraint) { .. }` (D specification, "Structs and Unions").
#[cycle(declarations)]
#[derive(Drop)]
pub struct StructTree {
    pub name: Name,
    pub parameters: Option<Items<TemplateParameter>>,
    pub constraint: Option<Expr>,
    pub members: Items<Declaration>,
}

/// `template name(parameters) if (constraint) { .. }` (D specification, "Templates").
#[cycle(declarations)]
#[derive(Drop)]
pub struct TemplateTree {
    pub name: Name,
    pub parameters: Items<TemplateParameter>,
    pub constraint: Option<Expr>,
    pub members: Items<Declaration>,
}

#[cycle(declarations)]
#[derive(Drop)]
pub enum StaticDeclaration {
    /// `static if` and `version`, each behind the `else` of the one before; at least one, and the last `else`.
    Conditional(Items<DeclarationBranch>, Option<DeclarationBody>),
    Foreach(StaticRange, DeclarationBody),
    Assert(StaticAssert),
}

#[cycle(declarations)]
#[derive(Drop)]
pub struct DeclarationBranch {
    pub at: u32,
    pub test: StaticTest,
    pub body: DeclarationBody,
}

/// What a conditional takes in.
#[cycle(declarations)]
#[derive(Drop)]
pub enum DeclarationBody {
    One(Boxed<Declaration>),
    Braces(Items<Declaration>),
}

/// `int name(types)(parameters) pure if (constraint) { .. }` (D specification, "Functions").
#[derive(Drop)]
pub struct FunctionTree {
    /// Nothing where `auto` stands.
    pub result: Option<TypeTree>,
    pub name: Name,
    pub template_parameters: Option<Items<TemplateParameter>>,
    pub parameters: Items<Parameter>,
    pub attributes: Items<Attribute>,
    pub constraint: Option<Expr>,
    pub body: Items<Stmt>,
}

/// A parameter of a function, and where it begins.
#[derive(Drop)]
pub struct Parameter {
    pub at: u32,
    pub is_ref: bool,
    pub storage: Option<Storage>,
    pub of: TypeTree,
    pub name: Name,
}
