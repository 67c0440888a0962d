//! A variable of a constraint that is given a value.
//!
//! `fixed` puts a value in the place of a variable, `others` leaves out the variable's side. Some values in the sides satisfy a
//! constraint exactly where, for some value of the variable in its side, others satisfy the constraint that has the value in place:
//! `fixing_is_exact` is that law.
#![tactic(auto)]

mod fixing;
mod laws;

pub use fixing::{fixed, others};
pub use laws::fixing_is_exact;
