//! The trail of the search: the domains of the variables, the narrowings that led to them, and how they are undone.
//!
//! The domains and the domains from before stay pinned. Contracts see a trail as its domains, its entries and its level
//! (`specs/Trail`).
#![tactic(auto)]

mod entries;
mod laws;
mod trails;

pub use entries::{Entry, Reason};
pub use laws::undoing_keeps_levels;
pub use trails::Trail;
