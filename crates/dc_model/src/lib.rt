//! What judging knows: units, declarations, rows, answers, and where something is judged.
//!
//! Judging reads these tables and never changes a fact. Answers, rows and instances are introduced
//! by the engine alone.
#![tactic(auto)]

mod answer;
mod arg;
mod cond;
mod decl;
mod env;
mod local;
mod row;
mod stop;
mod symbol;
mod trace;
mod unit;
mod world;

pub use answer::{Answer, Ask, Question, Work, WorkId};
pub use arg::{Arg, Args};
pub use cond::{Cond, CondId, Item, ItemId, ItemKind};
pub use decl::{Decl, DeclKind};
pub use env::{Env, Flow, FlowId, FlowKind};
pub use local::{Bind, BindId, Block, BlockId, Locals};
pub use row::{Import, ImportForm, Row, RowId, Rows};
pub use stop::{Refused, Stop};
pub use symbol::{Dotted, FunctionSet, Package, SetId, Symbol};
pub use trace::{Lookup, Noted, Trace};
pub use unit::{Unit, UnitKind};
pub use world::World;
