//! Judging types and expressions over what is known of a program: names, templates, overloads, guards and the values
//! of constants.
//!
//! A judging ends with a resolved tree, with the first question that has to be answered before, or with the first rule
//! that is broken. It adds to tables and changes no fact.
#![tactic(auto)]

mod aggregates;
mod assigns;
mod calls;
mod deduce;
mod elements;
mod evals;
mod expression;
mod guards;
mod mixins;
mod overloads;
mod properties;
mod resolution;
mod steps;
mod taking;
mod templates;
mod types;

pub use evals::evaluate;
pub use expression::{condition, judge, judge_to};
pub use guards::all_members;
pub use mixins::mixin_text;
pub use resolution::resolve;
pub use taking::parameters;
pub use types::judge_type;
