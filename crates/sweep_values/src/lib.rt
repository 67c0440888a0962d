//! The words of a variable's initial values, as a shape.
#![tactic(auto)]

mod domain;
mod part;

pub use domain::{Domain, domains_accept_values};
pub use part::Part;
