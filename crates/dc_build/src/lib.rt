//! Programs of the whole language: from the words of a command and the files to the status.
#![tactic(auto)]

mod audit;
mod command;
mod load;
mod made;
mod run;

pub use command::whole;
