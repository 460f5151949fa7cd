//! Numbers that are computed while judging: of any two numbers, where the arithmetic itself asks
//! for numbers of the kind.
#![tactic(auto)]

mod fold;

pub use fold::{binary, joined_range};
