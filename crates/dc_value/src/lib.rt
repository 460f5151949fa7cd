//! Values as they are while an evaluation goes on.
#![tactic(auto)]

mod value;

pub use value::{Span, Spot, Value, Values, copy_span, copy_spot, copy_value, copy_values};
