//! The laws that propagation rests on.
ghost use Rattle.propagation.specs.Laws.{StayLaws, NarrowLaws, BoxLaws};

use propagators::compiled_stays;
use search_state::{
    conflicts_have_boxes, narrowings_keep_states_legal, narrowings_read_as_entries, readings_stay,
    states_stay, stored_boxes_stand_under_ids,
};
use set_meaning::Problem;

/// The laws of the crates below.
pub(crate) fn laws(p: &Problem)
    ensures stay { StayLaws }
    ensures narrow { NarrowLaws p.now }
    ensures boxes { BoxLaws }
{
    compiled_stays();
    readings_stay();
    states_stay();
    narrowings_read_as_entries();
    narrowings_keep_states_legal(p);
    stored_boxes_stand_under_ids();
    conflicts_have_boxes();
}
