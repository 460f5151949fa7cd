//! Questions that elaboration asks, and their order.
#![tactic(auto)]

mod laws;
mod question;

pub use laws::order_laws;
pub use question::{Asked, Question, copy_question};
