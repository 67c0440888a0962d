//! The running box of a walk back over the trail: the box of a conflict, and its resolvents with the reason boxes of
//! entries.
//!
//! A running box is a list of pinned refs, a set of values for each variable. `begin` makes that of a conflict, and
//! `resolve`, a unit of work, resolves it with the reason box of the newest entry. The definitions are in `specs/`:
//! boxes and resolvents in `Running`, and which nodes a resolvent may make in `Nodes`.
#![tactic(auto)]

mod beginning;
mod laws;
mod listing;
mod putting;
mod reasons;
mod resolving;

pub use beginning::{Conflict, begin};
pub use listing::sides_of;
pub use resolving::resolve;
