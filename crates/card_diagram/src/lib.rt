//! The diagrams of cardinalities: `set_card(a, n)`, over variables and constants.
//!
//! The relation is a linear sum (`linear_terms`): the set counts as its cardinality, and the integer is taken from it. It is read beside the
//! machine of initial values, so that every node is a part of the result.
#![tactic(auto)]

mod machines;
mod shapes;
mod sums;

pub use shapes::{card_shape, is_card_shape};
