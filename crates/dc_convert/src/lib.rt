//! How values go from type to type, and among which numbers the results of operations lie (D specification,
//! "Types", "Implicit Conversions").
#![tactic(auto)]

mod laws;
mod levels;
mod numbers;
mod ranges;

pub use laws::{choice_laws, common_law, conversion_law, loss_law, outcome_laws};
pub use levels::{converts, number_goes};
pub use numbers::{Joint, choice_type, common, kind_of, parts_type, promoted, result_type};
pub use ranges::{hull, lies, range_as, range_of, whole};
