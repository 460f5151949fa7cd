//! Candidates of a call, what a conversion has to know of an argument, and types with parameters of a template in them.
#![tactic(auto)]

mod candidate;
mod param;
mod pattern;
mod range;

pub use candidate::{
    CallParam, Candidate, Candidates, OverloadSet, copy_call_param, copy_call_params,
    copy_candidate, copy_candidates, copy_overload_set,
};
pub use param::{Param, Params, Takes, copy_param, copy_params, copy_takes};
pub use pattern::{
    IsBy, IsForm, Length, Pattern, Patterns, copy_is_form, copy_pattern, copy_patterns,
};
pub use range::{ArgTypes, Level, Range, Source, copy_arg_types, copy_source};
