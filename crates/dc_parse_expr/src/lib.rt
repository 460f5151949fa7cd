//! The parser of expressions and types.
#![tactic(auto)]

mod list;
mod operands;
mod operators;
mod parse;
mod reading;
mod rules;
mod single;
mod suffixes;
mod tree;
mod types;

pub use parse::parse_expression;
pub use reading::ExprReader;
