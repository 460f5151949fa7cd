//! Making trees, how well a value goes to a type, and the conversions that go without a word.
#![tactic(auto)]

mod conversion;
mod levels;
mod make;

pub use conversion::{
    as_kind, as_slice, as_text, at_of, coerce, convert, converted_value, own, renumbered, slice_of,
    whole,
};
pub use levels::{NONE, SAME, Source, bits, level, type_of};
pub use make::{
    add, add_number, aggregate, bare, binary, compared, const_of, constant, fitted, known, logical,
    number, range, truth, unary,
};
