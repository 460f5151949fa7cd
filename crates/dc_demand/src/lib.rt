//! Elaborating a program: questions about its declarations are answered one step at a time, in any order.
//!
//! Here alone facts change: an answer is added, and the rows and instances that it introduces.
#![tactic(auto)]

mod answering;
mod breaks;
mod due;
mod engine;
mod instances;
mod introduce;
mod modules;
mod order;
mod picker;
mod settling;

pub use answering::Mixed;
pub use engine::{Engine, Progress, Unfinished};
pub use picker::{Order, elaborate};
