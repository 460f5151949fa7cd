//! Answering questions about declarations: what a name stands for, the fields of a struct, what a function takes, and
//! what conditionals come to.
#![tactic(auto)]

mod conditional;
mod constant;
mod enumeration;
mod fields;
mod signing;
mod standing;

pub use conditional::{holds_condition, rounds_of};
pub use constant::{initial_value, start_of};
pub use enumeration::member_env;
pub use fields::judge_layout;
pub use signing::{judge_signature, signed};
pub use standing::{alias_target, check_auto, judge_symbol};

/// How deep judging may go.
pub const DEEP: u32 = 12_000;
