//! The branching rule of the search over diagrams, and the answer that is read where nothing is left to branch on.
//!
//! `specs/Decisions` has the words of the contracts. The rule itself is `IsDecision` of problem_rules.
#![tactic(auto)]

mod deciding;
mod keeping;
mod reading;

pub use deciding::decision;
pub use reading::single_values;
