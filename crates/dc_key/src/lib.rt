//! Key texts: the text of a template's arguments, which no other arguments have, and its reader.
#![tactic(auto)]

mod arg;
mod key;
mod key_reader;
mod key_scan;

pub use arg::{Arg, Args, Binding, Bindings, copy_arg, copy_args, copy_binding, copy_bindings};
pub use key::{byte, key_laws, key_text, kind_text};
pub use key_reader::{Reader, args_in, args_of};
