//! How many elements a set has, read bit by bit.
//!
//! `Count` is the shape of the sets of one variable that have so many elements; `counts_are_sizes` says what it accepts.
#![tactic(auto)]

mod count;
mod laws;

pub use count::Count;
pub use laws::counts_are_sizes;
