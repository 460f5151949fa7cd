// Programs that can be run, and how their runs end.
use core_tree::{Bodies, Tree};
use dc_types::{Text, Trap};

/// Functions with their bodies, and the expression with which a run begins, which is the call of `main`.
#[derive(Drop)]
pub struct Program {
    pub bodies: Bodies,
    pub start: Tree,
}

/// A program that is to be run.
#[derive(Drop)]
pub struct Run {
    pub program: Program,
    /// The text that the offsets of the program's places count in.
    pub text: Text,
    /// The most function entries and loop turns together.
    pub ticks: u64,
}

/// How the run of a program ended.
#[derive(Drop)]
pub enum Ending {
    /// With the number that `main` gave, or with 0 where it gives nothing.
    Number(i64),
    Trapped(Trap),
    /// Before an event for which there was no tick.
    Bound,
}
