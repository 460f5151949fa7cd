//! The trees of a program's text: expressions, types, statements, declarations and modules.
//!
//! There is one variant for each form of the grammar. An `at` is the offset of a first byte, counted in bytes from
//! the start of the text that the tree was read from.
#![tactic(auto)]

mod declaration;
mod expression;
mod name;
mod statement;
#[cfg(test)]
mod tests;
mod types;
mod word;

pub use declaration::{
    Declaration, DeclarationBody, DeclarationBranch, DeclarationForm, DeclarationKind, Decls,
    FunctionTree, ModuleLine, ModuleTree, Parameter, Plain, StaticDeclaration, StructTree,
    TemplateTree,
};
pub use expression::{Argument, Expr, ExprKind, IsAgainst, IsTest, IsTree, Step, Suffix, Symbol};
pub use name::{Name, Path, Spelling, copy_name};
pub use statement::{
    AliasTree, Bind, Branch, ConstantTree, EnumMember, EnumTree, ForStart, Group, ImportItem,
    ImportTree, Label, LoopName, StaticAssert, StaticRange, StaticStatement, StaticTest, Stmt,
    StmtBody, StmtBranch, StmtKind, Stmts, TemplateParameter, Variable, VariableTree,
};
pub use types::{Base, Bracket, TypeTree};
pub use word::{
    AssignOperator, Attribute, BasicType, BinaryOperator, IsRelation, Storage, UnaryOperator,
    Visibility,
};
