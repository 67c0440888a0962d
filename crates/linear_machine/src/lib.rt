//! The machine of a linear sum over weighted bits, compared with 0.
//!
//! A `Linear` has a weight for each bit that it reads, a constant, and how their sum is to compare with 0: it accepts the words for
//! which the constant and the weights of the true bits together compare so (`specs/Sums`, law `accepts_by_its_sum`). Comparisons of
//! integers, linear sums, cardinalities and clauses are each one such machine over the bits of their variables.
//!
//! Its state is the sum so far, until the weights to come can no longer change the answer: all words that are surely accepted then share
//! one state, and so do all that are surely refused.
#![tactic(auto)]

mod comparison;
mod laws;
mod linear;
mod state;

pub use comparison::Comparison;
pub use laws::accepts_by_its_sum;
pub use linear::Linear;
pub use state::State;
