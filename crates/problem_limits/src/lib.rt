//! The limits on sizes that diagrams need, which every problem of a text keeps, and whether a problem keeps them.
//!
//! Definitions stand in specs/Limits. Where a layer above asks for a problem within the limits, `keeps_limits` is the
//! test.
#![tactic(auto)]

mod constraints;
mod kinds;
mod legality;
mod problems;

pub use constraints::is_within_limits;
pub use kinds::are_within_limits;
pub use problems::keeps_limits;
