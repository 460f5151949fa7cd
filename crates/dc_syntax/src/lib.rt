//! The trees of texts as numbered nodes: declarations, statements, expressions and types in one
//! table.
//!
//! Judging a program goes over its trees many times and keeps them for long. So they are plain data
//! that is copied by its number: a node says its form and the numbers of its parts, and a list is a
//! stretch of a table of numbers.
#![tactic(auto)]

mod flat;
mod names;
mod node;
mod parts;
mod syntax;

pub use flat::{flat_declarations, flat_expression, flat_module, flat_statements};
pub use names::{NameId, Names};
pub use node::{Form, List, Node, NodeId};
pub use parts::{
    AliasNode, ConstantNode, EnumNode, ForNode, ForeachNode, FunctionNode, ImportNode, ItemNode,
    LoopNode, ParameterNode, StaticForeachNode, StructNode, SwitchNode, VariableNode, View,
};
pub use syntax::{Syntax, Want, next_number};
