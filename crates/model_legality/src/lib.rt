//! The problem of a text is a problem: its kinds are legal, each variable has a name, each constraint has the
//! arguments of its relation, the objective is an integer variable, and what is shown is there.
#![tactic(auto)]

mod laws;

pub use laws::problems_of_texts_are_problems;
