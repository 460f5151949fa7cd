//! The front: from the tree of a module to resolved bodies.
#![tactic(auto)]

mod built;
mod front;
mod functions;
mod judge_programs;
mod judge_statements;
mod judge_values;
mod judged;
mod laws;
mod miss;
mod programs;
mod scope;
mod statements;
mod values;

pub use built::{Action, Arithmetic, Branch, Function, Link, Parameter, Program, Test, Value};
pub use front::{judge, spelling_at};
pub use functions::Functions;
pub use judged::{
    Arguments, Callee, Chosen, Known, Moved, Operands, Resolution, State, Stepped, Typed,
};
pub use laws::refusal_law;
pub use miss::Miss;
pub use scope::{Local, Scope};
