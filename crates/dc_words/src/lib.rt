//! What the words of a command line ask for.
#![tactic(auto)]

mod count;
mod job;
mod options;
mod versions;

pub use job::{Files, Job, job_of};
pub use versions::{first_version, later_versions};
