//! Judging the bodies of functions: statements, the names that they declare, and how they end.
//!
//! A body goes on at the statement of its outermost block at which it stopped; what was judged before stays.
#![tactic(auto)]

mod body;
mod conditionals;
mod declarations;
mod loops;
mod statements;
mod switches;
mod weights;

pub use body::{BodyWork, judge_body, open_body};
pub use conditionals::settle_local;
