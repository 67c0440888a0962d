//! The laws that running boxes rest on.
ghost use Rattle.running_boxes.specs.Laws.{LowerLaws};

use problem_rules::{constraints_are_those_of_the_rules, initial_domains_are_the_initial_family};
use propagators::compiled_stays;
use search_state::{readings_stay, states_stay};
use value_sets::{value_sets_are_of_words, value_sets_stay};

/// The laws of the crates below.
pub(crate) fn laws()
    ensures { LowerLaws }
{
    value_sets_are_of_words();
    value_sets_stay();
    constraints_are_those_of_the_rules();
    initial_domains_are_the_initial_family();
    compiled_stays();
    readings_stay();
    states_stay();
}
