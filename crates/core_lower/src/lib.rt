//! From resolved bodies to code.
#![tactic(auto)]

mod bodies;
mod names;
mod starts;
mod stmt;
mod whole;

pub use whole::lower_bodies;
