//! Reading of texts: files as modules, and the texts of mixins.
//!
//! A text that breaks a rule stops the reading with that rule at its place in the program. The
//! texts are kept, since a report counts lines in them.
#![tactic(auto)]

mod breach;
mod cut;
mod file;
mod files;
mod mixed;
mod named;
mod texts;

pub use file::{ModuleText, read_module};
pub use files::read_modules;
pub use mixed::{mixed_declarations, mixed_expression, mixed_statements};
pub use named::default_name;
pub use texts::Texts;
