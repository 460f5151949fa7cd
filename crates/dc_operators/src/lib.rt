//! What needs no judging of an expression of its own: operators over judged operands, updates,
//! literals, and how well arguments fit.
#![tactic(auto)]

mod basics;
mod copies;
mod literals;
mod operators;
mod patterns;
mod ranks;
mod updates;

pub use basics::{as_type, basic, check_element, slice_type};
pub use copies::{bare_node, filled, is_literal, is_part};
pub use literals::{conditional, literal, members_node};
pub use operators::{cast_number, chained, check_condition, compare, is_logical, unary_number};
pub use patterns::{
    bind_type, has_open, is_unfit, mentions, parameter_in, parameter_of_length, parameter_type,
    set, softened,
};
pub use ranks::{builtin_level, call_level, level_behind};
pub use updates::{
    Update, appended, arithmetic, check_writable, element_start, length_place, updated,
};
