//! Propagation in the search: steps of constraints and of stored boxes narrow the domains of a trail until nothing
//! changes, or there is a conflict.
//!
//! The definitions are in `specs/`: what propagation begins with and leaves (`Quiet`), and which nodes it may make
//! (`Nodes`). A unit of work is the step of one constraint or of one box, named as a conflict of it would be.
#![tactic(auto)]

mod flagging;
mod laws;
mod propagating;
mod putting;
mod rounds;
mod stepping;
mod turning;
mod units;

pub use propagating::{Found, propagate};
