//! Linear sums over the variables of a problem, as machines that read the bits of a scope.
//!
//! A term is a coefficient and a variable; a Boolean counts as 0 or 1, an integer as itself, a set as its cardinality (`specs/Terms`).
//! `linear_over` makes the machine that compares a constant and such terms with 0: comparisons, linear sums, cardinalities, clauses and
//! the channel from Booleans to integers are each one. It reads what words give to the variables, and does not ask whether they are
//! words of initial values: for that it is put beside a machine that does.
#![tactic(auto)]

mod laws;
mod sums;
mod terms;

pub use laws::{linear_sums_have_words, scopes_have_the_bits_of_terms};
pub use terms::{LinearTerm, linear_over};
