//! Evaluation at compile time: an expression is lowered, run under the limits, and its value kept.
#![tactic(auto)]

mod evaluation;
mod freezing;

pub use evaluation::{Evaluation, Went};
pub use freezing::freeze;
