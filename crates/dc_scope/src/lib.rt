//! Looking for a name: in the scopes around it, in what they import, and in one unit alone.
//!
//! A lookup stops with the need for a conditional where a unit that it comes to isn't settled.
#![tactic(auto)]

mod imports;
mod lookup;
mod packages;
mod record;
mod within;

pub use lookup::{Found, Patience, find};
pub use packages::{is_finished, longer};
pub use record::{first_contradiction, note};
pub use within::find_within;
