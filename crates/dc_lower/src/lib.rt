//! From resolved trees to the machine's code.
#![tactic(auto)]

mod arrays;
mod conditions;
mod constants;
mod lowering;
mod places;
mod prints;
mod sizes;
mod slots;
mod statements;
mod values;

pub use constants::lower_global;
pub use lowering::{Entry, Lowering};
pub use sizes::cells;
pub use statements::{lower_body, lower_entry, lower_start};
