//! The state of a search over diagrams, as the laws of `search_rules` read it.
//!
//! The definitions are in `specs/`: how a trail and stored boxes are read, and when they are a trail and a legal state
//! by the rules (`Readings`); narrowings and the turn of a conflict (`Turns`).
//!
//! Each function here does nothing: its contract is a law, which a caller cites by calling it.
#![tactic(auto)]

mod changing;
mod keeping;
mod placing;
mod staying;
mod storing;
mod walking;

pub use changing::{
    added_boxes_read_as_stored, narrowings_read_as_entries, partly_undone_trails_go_back_alike,
    trails_undone_to_a_level_read_back, undone_trails_read_back,
};
pub use keeping::{
    answers_keep_states_legal, conflict_turns_keep_states_legal, first_states_are_legal,
    legal_states_have_trails, narrowings_keep_states_legal, undone_states_are_legal,
};
pub use placing::{entries_read_by_place, scanned_entries_read_as_scanned};
pub use staying::{readings_stay, states_stay};
pub use storing::{
    conflicts_have_boxes, stored_boxes_speak_of_variables, stored_boxes_stand_under_ids,
};
pub use walking::walks_follow_undone_trails;
