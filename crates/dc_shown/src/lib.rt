//! The texts of types and values, as a program sees them.
#![tactic(auto)]

mod naming;
mod shown;

pub use naming::Naming;
pub use shown::{shown_laws, stringof_text, value_text};
