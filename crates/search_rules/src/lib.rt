//! The rules of the search: what a conflict-driven search over finite domains with boxes means, and the laws on which its
//! walk, its learning and its end stand.
//!
//! The definitions are in `specs/`: families and the exact step of a constraint (`Family`, `Problem`), boxes (`Box`), the
//! trail with its reasons and levels (`Trail`), the walk from a conflict (`Walk`), the legal state (`State`) and the measure
//! (`Measure`). They are over plain values and know nothing of diagrams or logs.
//!
//! Each function here does nothing: its contract is a law, which a caller cites by calling it.
#![tactic(auto)]

ghost use Rattle.search_rules.specs.Problem.{Problem};

mod boxes;
mod learning;
mod steps;
mod turns;
mod walks;

pub use boxes::{box_step_is_the_step_outside, resolvent_lies_in_its_boxes};
pub use learning::{
    derived_box_is_new, derived_box_narrows, level_to_go_back_to, stop_goes_back_as_the_trail,
};
pub use steps::{
    exact_step_goes_by_variables, parts_of_steps, single_values_are_a_solution,
    steps_keep_solutions, steps_reach_the_root_family, violated_constraint_refutes,
};
pub use turns::{
    answer_keeps_the_state_legal, conflict_turn, decision_keeps_the_state_legal,
    going_back_keeps_the_state_legal, narrowing_keeps_the_state_legal,
    safe_box_keeps_the_state_legal, the_first_state_is_legal, trails_stay_within,
};
pub use walks::{
    walk_holds_what_is_excluded, walk_past_the_first_entry, walk_resolves_no_decision,
    walk_stops_for_one_variable,
};

/// A type whose values stand for problems.
///
/// A solver implements it for its own problem type, and so reads the laws at its own variables, values and constraints.
pub trait Rules {
    /// A value of a variable.
    type Value;

    ghost problem: { Self → Problem Self.Value };
}
