//! The lines of a report: how a program is refused, and how a run ends.
#![tactic(auto)]

mod lines;
mod number;
mod point;
mod shown;
mod words;

pub use lines::{bound_line, ended_line, read_fault_line, refused_line, trap_line, usage_line};
pub use shown::append_place;
pub use words::{rule_name, trap_name};
