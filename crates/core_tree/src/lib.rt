//! Programs whose names and types are known, and what they mean.
#![tactic(auto)]

mod body;
mod flow;
mod laws;
mod stmt;
mod table;
mod tree;
mod weight;

pub use body::{Bodies, Body, Starts};
pub use flow::complete;
pub use laws::ticks_bound;
pub use stmt::{Branch, Stmt, Stmts};
pub use table::Table;
pub use tree::{Operation, Tree, Trees, Variable, Variables};
pub use weight::{TOO_HEAVY, body_weight, tree_weight};
