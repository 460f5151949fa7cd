//! The machine: code that grows while it runs, and its runs.
//!
//! A program is the instructions of `dc_code`, of which each run keeps its own state. A run that leaves at an
//! instruction stands unchanged before it, so it goes on where the program has grown by what was wanted.
#![tactic(auto)]

mod blocks;
mod fast;
mod fuse;
mod grow;
mod hot;
mod machine;
mod memory;
mod number;
mod print;
mod program;
mod slow;
mod steps;

pub use machine::{Exit, Machine};
pub use number::{compare_words, unary_words, wrap_word};
pub use program::{DATA, DataCode, FnCode, GlobalCode, Program};
