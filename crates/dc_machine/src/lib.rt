//! The machine runs code over a sink.
#![tactic(auto)]

mod act;
mod finish;
mod frames;
mod locals;
mod machine;
mod numbers;
mod prints;
mod report;
mod run;
mod simple;
mod start;
mod state;
mod words;

pub use machine::Machine;
pub use report::{RunEnd, RunReport};
pub use simple::is_simple_code;
