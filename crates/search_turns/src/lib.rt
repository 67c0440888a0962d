//! The turns of the search: from one state to the next answer, or to the end.
//!
//! `find` propagates, decides, and takes conflicts back until every domain has one value or nothing is left. `resume`
//! goes on after an answer, whose box it stores. The state is that of `search_state`: a trail, stored boxes and the
//! compiled problem, in one pool. `specs/` says what stands in between (`States`), what is found (`Outcomes`) and what
//! holds after an answer (`Answers`).
#![tactic(auto)]

mod answering;
mod deciding;
mod excluding;
mod finding;
mod laws;
mod narrowing;
mod outcomes;
mod storing;
mod turning;

pub use answering::{answers_keep_their_boxes, single_states_are_answers};
pub use excluding::resume;
pub use finding::find;
pub use outcomes::{FindStop, Found};
