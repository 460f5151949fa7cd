//! From resolved expressions to code.
#![tactic(auto)]

mod lower;
mod slots;
mod word;

pub use lower::{lower_at, lower_expr, lowering_law, put_op};
pub use slots::Slots;
