//! The grammar: what is a tree of which tokens, and what its readers promise.
#![tactic(auto)]

mod attribute;
mod bracket;
mod law;
mod level;
mod levels;
mod miss;
mod operator;
mod reading;
mod sign;
mod step;
mod terminal;

pub use attribute::{
    AT_WORDS, at_word, at_word_sign, attribute_word, attribute_word_sign, storage, storage_sign,
    visibility, visibility_sign,
};
pub use bracket::{behind_parens, names_member};
pub use law::{
    else_is_nearest, expr_first, lists_divide, nearest_if, new_divides, one_item, one_tree,
    past_exactly, variable_first,
};
pub use level::Level;
pub use levels::{Effect, first_outside, first_past, nesting};
pub use miss::Miss;
pub use operator::{
    adds, and_operator, assign_operator, basic_type, bit_and_operator, bit_or_operator,
    bit_xor_operator, compares, is_relation, multiplies, or_operator, shifts, unary_operator,
};
pub use reading::{Read, ReadExpr};
pub use sign::{
    adds_sign, and_operator_sign, assign_operator_sign, basic_type_sign, bit_and_operator_sign,
    bit_or_operator_sign, bit_xor_operator_sign, compares_sign, is_relation_sign, multiplies_sign,
    or_operator_sign, shifts_sign, unary_operator_sign,
};
pub use step::{id, mark, word};
pub use terminal::{SIGNS, Terminal, WORDS, ahead, same_terminal, start_of, terminal_of};
