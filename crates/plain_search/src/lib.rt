//! The plain, slow program of a conflict-driven search, over explicit lists of values.
//!
//! It takes the steps of the constraints and of the learned boxes one at a time, decides where none narrows, and from a
//! conflict walks back over its trail, learns a box and goes back. It stops at the first solution. The real search is
//! compared with it, so it keeps to the definitions of `search_rules` and takes no shortcuts.
#![tactic(auto)]

mod back;
mod deciding;
mod finding;
mod learning;
mod posed;
mod solving;
mod standing;
mod trail;
mod turn;
mod walking;

pub use solving::{Answer, Outcome, solve};

#[cfg(test)]
mod tests;
