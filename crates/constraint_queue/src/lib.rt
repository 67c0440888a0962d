//! A queue of constraints: which of them are to be taken again, and which comes next.
#![tactic(auto)]

mod flags;
mod queue;
mod readers;

pub use queue::ConstraintQueue;
