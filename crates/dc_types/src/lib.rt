//! The plain data that every layer of the compiler shares: texts, lists, places, refusals, kinds, events, types and
//! constants.
#![tactic(auto)]

mod constant;
mod event;
mod file;
mod kind;
mod laws;
mod list;
mod place;
mod refusal;
mod status;
mod text;
mod ty;

pub use constant::{CTree, Const, copy_const, copy_tree};
pub use event::{CallCount, Event, Limits, ProbeState, Trap, TrapKind};
pub use file::File;
pub use kind::{BinOp, CmpOp, Kind, UnOp};
pub use laws::{comparison_laws, list_law, order_laws};
pub use list::Items;
pub use place::{Place, Step, copy_place, copy_step, copy_steps};
pub use refusal::{Fail, Refusal};
pub use status::{NoMemory, Status};
pub use text::Text;
pub use ty::{Ty, Types, copy_ty, same_ty};

/// The steps of a place, from the file inwards.
pub type Steps = Items<Step>;

pub type Places = Items<Place>;

pub type Names = Items<Text>;

pub type Files = Items<File>;
