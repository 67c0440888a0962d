//! The initial values of an integer variable that are at least, or at most, a bound.
//!
//! Under an objective an answer covers each solution whose objective is not better. So the box of an answer has one
//! side, the objective's values that are not better than the answer's. This crate makes that side.
#![tactic(auto)]

mod cutting;
mod sense;
mod sides;

pub use sense::Sense;
pub use sides::values_beyond;
