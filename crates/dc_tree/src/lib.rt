//! The data of judging: places, types, values and resolved trees, each kept once and known by its
//! number.
//!
//! A number leads to plain data that is copied; nothing here is changed once it is there, but for
//! what a variable or a temporary needs.
#![tactic(auto)]

mod body;
mod layout;
mod place;
mod pool;
mod range;
mod stmt;
mod tree;
mod types;
mod value;

pub use body::{Bodies, Body, Signature, Taken, VarId, Variable, Variables};
pub use layout::{Field, Layout, Layouts};
pub use place::{PlaceId, PlaceStep, Places, Spot, SpotId, Where};
pub use pool::{DeclId, Pool, UnitId};
pub use range::{Range, RangeId, Ranges};
pub use stmt::{CaseNode, Stmt, StmtForm, StmtId, Stmts, WalkNode};
pub use tree::{CallNode, LengthNode, Tree, TreeForm, TreeId, Trees};
pub use types::{Type, TypeId, Types};
pub use value::{Value, ValueId, Values};
