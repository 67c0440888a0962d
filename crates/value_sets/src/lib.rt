//! Sets of values of one variable, as diagrams over the variable's bits.
//!
//! A value set is a domain that may be empty: the diagram of some of a variable's initial values. Callers of this crate
//! speak of values alone: the operations answer the values of the result, and the laws say what stays and when two sets
//! are one. The definitions are in `specs/Sets`.
#![tactic(auto)]

mod comparing;
mod laws;
mod operations;
mod words;

pub use comparing::{is_empty, is_inside};
pub use laws::{
    domains_are_value_sets, sets_of_the_same_values_are_one, value_sets_are_of_words,
    value_sets_have_initial_values, value_sets_meet_or_are_apart, value_sets_stay,
};
pub use operations::{difference, intersection, union};
