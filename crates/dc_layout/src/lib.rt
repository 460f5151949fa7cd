//! Layouts: the fields of structs and the first members of enums, the cells that follow from them, and start values.
#![tactic(auto)]

mod layout;
mod start;

pub use layout::{
    Field, Fields, LayoutDraft, Layouts, cells, copy_field, copy_fields, copy_layout_draft,
    copy_layouts,
};
pub use start::init;
