//! Linear sums that the values of several variables can give.
//!
//! A relation that is one linear sum, compared with 0, is written as terms of variables (`sum_of`). `some_fit` says whether some numbers,
//! one from the list of each variable, give it a total that compares as asked: it carries the partial sums from variable to variable, each
//! once. `sums_are_weighted` is the law that joins the two.
#![tactic(auto)]

mod comparison;
mod distinct;
mod forms;
mod reaching;
mod sums;
mod weights;

pub use comparison::Comparison;
pub use forms::{LinearSum, LinearTerm};
pub use reaching::some_fit;
pub use sums::{is_sum, sum_of};
pub use weights::sums_are_weighted;
