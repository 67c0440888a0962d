//! Words of values, and the order of all bits of a problem.
//!
//! The word of a value is its list of bits: a Boolean's one bit; an integer's offset from its variable's least value,
//! in binary; for a set one bit an element of its variable's universe. A `Layout` puts the bits of all variables of a
//! problem in one order: those of Booleans and integers in file order, and then those of sets, element by element.
//! Definitions stand in specs/Words and specs/Order.
#![tactic(auto)]

mod laws;
mod layout;
mod places;
mod words;

pub use laws::{
    bits_are_in_order, integers_have_offsets, orders_are_one, values_have_words, widths_are_least,
    words_have_one_value, words_of_sets_have_values,
};
pub use layout::{Bit, Layout};
pub use places::Place;
pub use words::width;
