//! The laws that the search stands on.
ghost use Rattle.search_turns.specs.Laws.{LowerLaws, TurnLaws};

use exact_steps::narrowed_domains;
use problem_rules::{Posed, constraints_are_those_of_the_rules};
use propagators::compiled_stays;
use search_moves::{
    answers_have_boxes, levels_below_are_quiet, steps_read_their_scope, walk_stops,
};
use search_rules::{derived_box_narrows, walk_holds_what_is_excluded, walk_past_the_first_entry};
use search_state::{
    added_boxes_read_as_stored, answers_keep_states_legal, conflict_turns_keep_states_legal,
    narrowings_keep_states_legal, readings_stay, states_stay, stored_boxes_stand_under_ids,
};
use set_meaning::Problem;
use value_sets::{domains_are_value_sets, value_sets_stay};

/// The laws of domains, readings and stored boxes.
pub(crate) fn laws()
    ensures { LowerLaws }
{
    domains_are_value_sets();
    value_sets_stay();
    narrowed_domains();
    readings_stay();
    states_stay();
    compiled_stays();
    added_boxes_read_as_stored();
}

/// The laws of the turns of a search.
pub(crate) fn turn_laws(p: &Problem)
    ensures { TurnLaws p.now }
{
    derived_box_narrows(&Posed { problem: p });
    walk_stops(&Posed { problem: p });
    walk_holds_what_is_excluded(&Posed { problem: p });
    walk_past_the_first_entry(&Posed { problem: p });
    levels_below_are_quiet(&Posed { problem: p });
    steps_read_their_scope(&Posed { problem: p });
    answers_have_boxes(&Posed { problem: p });
    conflict_turns_keep_states_legal(p);
    answers_keep_states_legal(p);
    narrowings_keep_states_legal(p);
    stored_boxes_stand_under_ids();
    constraints_are_those_of_the_rules();
}
