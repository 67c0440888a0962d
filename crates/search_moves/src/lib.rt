//! The moves of the search, and what the code of the search has to know of them.
//!
//! A move is a relation between two states of the search (`specs/Moves`): a narrowing, a decision, the whole turn of a
//! conflict, an answer, or a stored box. Every move keeps the state legal, and the first three make the measure fall.
//!
//! The other laws are what propagation, the walk from a conflict and the answers stand on. Each function here does
//! nothing: its contract is a law, which a caller cites by calling it.
#![tactic(auto)]

mod excluding;
mod levels;
mod moving;
mod reading;
mod scanning;
mod singling;

pub use excluding::reasons_exclude_what_violates;
pub use levels::{level_0_is_steps, levels_below_are_quiet};
pub use moving::{
    box_narrowing_is_a_part, moves_keep_the_state_legal, narrowings_of_one_step,
    undoing_keeps_the_state_legal,
};
pub use reading::{box_steps_read_what_leaves_their_sides, steps_read_their_scope};
pub use scanning::{
    newest_other_by_scan, passing_changes_nothing, scans_find_what_matters, walk_goes_on,
    walk_stops,
};
pub use singling::{
    answers_have_boxes, single_values_are_a_new_answer, single_values_stand_in_no_box,
};
