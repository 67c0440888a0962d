//! The diagrams of relations of integers and Booleans, and of an integer's membership in a set.
//!
//! Each is one linear sum that is compared with 0, or a choice of branches in each of which two such facts hold (`forms`). It is read beside
//! the machine of initial values, so that every node is a part of the result.
#![tactic(auto)]

mod branches;
mod choices;
mod forms;
mod machines;
mod members;
mod shapes;
mod sums;

pub use shapes::{is_scalar_shape, scalar_shape};
