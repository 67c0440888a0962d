//! Whether some initial values in the sides of a box satisfy a constraint.
//!
//! `possible` is what the checker of a log asks of an axiom. What it answers is a word of `log_rules`.
#![tactic(auto)]

mod axioms;
mod choices;
mod parts;
mod readings;
mod scalars;
mod sets;
mod swept;
mod trials;

pub use axioms::possible;
