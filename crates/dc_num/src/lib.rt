//! Whole-number arithmetic in the kinds of numbers (D specification, "Expressions").
#![tactic(auto)]

mod operators;
mod reduce;
mod text;

pub use operators::{binary, compare, unary};
pub use reduce::wrap;
pub use text::decimal;
