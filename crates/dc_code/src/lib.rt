//! Code for the machine, and what the machine does with it.
#![tactic(auto)]

mod check;
mod code;
mod copy;
mod instr;
mod laws;
mod places;
mod run;
mod slots;

pub use code::{Code, Draft, Words};
pub use copy::copy_code;
pub use instr::{Function, Instr, Op};
pub use laws::{ends_well, is_sound, keeps_standing, runs_once, ticks_bound};
pub use run::{Block, Caller, Nest};
