//! The problem of a text keeps the limits that diagrams need.
#![tactic(auto)]

mod laws;

pub use laws::{problems_of_texts_have_small_sets, problems_of_texts_keep_limits};
