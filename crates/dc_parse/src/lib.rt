//! The parser of statements, declarations and modules.
#![tactic(auto)]

mod chain;
mod compound;
mod conditional;
mod declarations;
mod functions;
mod members;
mod parse;
mod parts;
mod simple;
mod single;
mod statements;

pub use parse::{parse_declarations, parse_module, parse_statements};
