//! The walk from a conflict back over the trail, and the box that it derives (conflict analysis to a first unique
//! implication point, with boxes in place of clauses, after the lazily explained clauses of Gange, Stuckey and Lagoon,
//! JAIR 2010).
//!
//! The running box begins as the conflict's and is resolved, entry by entry, with the reason boxes of the entries that
//! matter. Each such step is a unit of work between which nodes may be reclaimed. The definitions are those of
//! `search_rules`, read on the trail and the boxes by `search_state`; `specs/` has what a walk leaves.
#![tactic(auto)]

mod analysing;
mod holding;
mod mattering;
mod returning;
mod walking;

pub use analysing::{AnalyseStop, Learned, analyse};
