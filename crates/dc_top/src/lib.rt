//! The whole of the compiler behind one call.
//!
//! The call reads and judges first, and writes after: the plan that comes between holds all that is to be done.
#![tactic(auto)]

mod front;
mod laws;
mod names;
mod perform;
mod program;
mod report;
mod run;
mod text;
mod told;
mod top;
mod way;
mod words;

pub use laws::{
    counts_are_decimals, each_text_is_settled, one_text_verdict, texts_have_one_verdict,
    tokens_are_spelled,
};
pub use top::dpc;
pub use way::{core_file, is_core};
