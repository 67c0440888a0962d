//! A problem over sets, integers and Booleans as a problem of `search_rules`, so that the laws of the search can be read at it.
//!
//! The definitions are in `specs/`: which problem it is (`Posed`), and the branching rule over families of values (`Branching`).
//! The laws lead from constraints and solutions there to those of `set_meaning`.
#![tactic(auto)]

mod laws;
mod posed;

pub use laws::{
    answers_cover_as_in_the_rules, constraints_are_those_of_the_rules,
    initial_domains_are_the_initial_family, solutions_are_those_of_the_rules,
};
pub use posed::Posed;
