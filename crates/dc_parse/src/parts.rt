// What declarations and statements are made of.
//
// Each method of `Source` reads the longest text of its kind that begins at a token. It answers the tree and the
// number of the token behind it, `Miss::Nothing` where no such text begins there, and `Miss::Memory` where memory
// or the room for open statements and declarations runs out.

mod attributes;
mod enums;
mod heads;
mod imports;
mod list;
mod parameters;
mod source;
mod variables;

pub(crate) use list::with_first;
pub(crate) use source::Source;
