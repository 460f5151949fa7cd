//! What judging asks of declarations: signatures, layouts, symbols and start values; the texts of
//! keys; and what is in a tree.
#![tactic(auto)]

mod facts;
mod keys;
mod parts;

pub use facts::{
    Holding, TYPE_CELLS, cells, check_cells, decl_env, deeper, fields_of, holds, place_of,
    signature_of, start_value, symbol_of, this_of, this_unit, unit_env, variable_type,
};
pub use keys::{KEY_BYTES, key_text, kind_word, push_name, push_number};
pub use parts::{WEIGHT, first_local, push_parts, weight};
