//! Cuts a D text into tokens.
#![tactic(auto)]

mod comment;
mod lead;
mod name;
mod number;
mod plain;
mod scan;
mod set;
mod sign;
mod spaces;
mod string;
mod token_string;

pub use name::is_name;
pub use scan::{first_unreadable, laws, lex};
pub use spaces::space_moves;
