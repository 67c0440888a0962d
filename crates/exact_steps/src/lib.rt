//! The exact step of a constraint over decision diagrams.
//!
//! A constraint is given by its diagram over the bits of its scope, and each variable's domain by its diagram. `step` leaves each
//! variable of the scope exactly the values that extend: those that some assignment within the domains which satisfies the
//! constraint has there (domain consistency; Hawkins, Lagoon and Stuckey, JAIR 2005). The definitions are in `specs/`: domains and
//! their family (`Domains`), supports and what a step answers (`Steps`), and which nodes it may make (`Parts`).
//!
//! The laws lead from the condition that a diagram states to that of a constraint, and to the steps of `search_rules`.
#![tactic(auto)]

mod comparing;
mod gathering;
mod laws;
mod projecting;
mod steps;

pub use laws::{
    diagrams_of_variables_are_domains, diagrams_state_their_conditions,
    domains_stay_as_tables_grow, initial_values_pass_their_test, meanings_are_of_words,
    narrowed_domains, steps_are_those_of_the_rules, steps_of_a_condition,
};
pub use steps::{StepResult, step};
