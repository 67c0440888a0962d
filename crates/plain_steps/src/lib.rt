//! The steps of the search over explicit lists of values: plain, slow and exact.
//!
//! A task is a problem whose initial sets are lists and whose constraints say of given values whether they satisfy them. The
//! exact step of a constraint tries all values of its variables. Families and boxes are lists of sets, one for each variable.
//! What each call answers is said in the words of `search_rules`.
#![tactic(auto)]

mod reason;
mod set;
mod step;
mod table;
mod task;

pub use reason::{conflict_box, narrowing_box};
pub use set::{Set, both, copied, either, has, lies, meets, without};
pub use step::{Step, box_step, extending, satisfiable, step_of};
pub use table::{next_outside, resolvent, set_of, table_copied};
pub use task::Task;

#[cfg(test)]
mod tests;
