//! Boxes are stored: a derived one as learned, a running one unmarked.
ghost use Rattle.std.specs.Prelude.{◌≡◌, ◌≢◌, ◌<◌, ◌^◌, ◌↔◌, [], ◌∷◌, ◌++◌, IsTrue, IfOk, IfSome, OnOk, OnErr};
ghost use Rattle.std.specs.Prelude.{Err, Some, length, true, false};
ghost use Rattle.node_reclaim.specs.Holders.{AreHeld};
ghost use Rattle.pin_lists.specs.Units.{Moves};
ghost use Rattle.box_clauses.specs.Sides.{sets_of};
ghost use Rattle.box_clauses.specs.Stored.{stored, stored_sets};
ghost use Rattle.explain.specs.Walks.{held_at};
ghost use Rattle.search_turns.specs.States.{learned_count};
ghost use Rattle.search_turns.specs.Outcomes.{UnlessMemory};
ghost use Rattle.search_turns.specs.Work.{IsKept};

use crate::outcomes::FindStop;
use box_clauses::{BoxStore, Held};
use diagram_ops::Ops;
use explain::AnalyseStop;
use set_meaning::BoxId;
use std::alloc::AllocError;

/// Stores the box of these sides. Where it has no room, the pins of the sides are spent: an `Err` is want of memory, or
/// of numbers, where there are 2^32 - 1 boxes.
pub(crate) fn store(
    ops: &mut Ops,
    boxes: &mut BoxStore,
    held: Held,
    learned: bool,
) -> Result<BoxId, AllocError>
    requires few { length boxes.old < 2 ^ 32 }
    requires held { AreHeld ops.old (sets_of held) }
    ensures id { IfOk result (λ b. b.0 ≡ length boxes.old) }
    ensures stored { OnOk result (boxes.new ≡ boxes.old ++ stored held 0 learned ∷ []) }
    ensures same { OnErr result (boxes.new ≡ boxes.old) }
    ensures few { length boxes.new < 2 ^ 32 }
    ensures moved { Moves ops.old ops.new (stored_sets boxes.old ++ sets_of held) (stored_sets boxes.new) }
    ensures only { ops.new ≡ record ops.old { counts = ops.new.counts } }
{
    if boxes.len() == u32::MAX {
        held.release(ops);
        return Err(AllocError);
    }
    match boxes.add(ops, held, 0, learned) {
        Ok(id) => Ok(id),
        Err(refused) => Err(refused),
    }
}

/// Stores the derived box as a learned one. At the number of conflicts, if one is given, the search stops right then.
pub(crate) fn learn(
    ops: &mut Ops,
    boxes: &mut BoxStore,
    held: Held,
    conflicts: Option<u64>,
    learned: &mut u64,
) -> Result<BoxId, FindStop>
    requires few { length boxes.old < 2 ^ 32 }
    requires held { AreHeld ops.old (sets_of held) }
    requires counted { learned.old ≡ learned_count boxes.old }
    requires capped { IfSome conflicts (λ n. learned.old < n) }
    ensures id { IfOk result (λ b. b.0 ≡ length boxes.old) }
    ensures stored { UnlessMemory result (boxes.new ≡ boxes.old ++ stored held 0 true ∷ []) }
    ensures few { length boxes.new < 2 ^ 32 }
    ensures moved { Moves ops.old ops.new (stored_sets boxes.old ++ sets_of held) (stored_sets boxes.new) }
    ensures only { ops.new ≡ record ops.old { counts = ops.new.counts } }
    ensures not_full { result ≢ Err FindStop.Full }
    ensures conflicts { result ≡ Err FindStop.Conflicts → conflicts ≡ Some learned.new }
    ensures counted { learned.new ≡ learned_count boxes.new }
    ensures capped { OnOk result (IfSome conflicts (λ n. learned.new < n)) }
{
    match store(ops, boxes, held, true) {
        Ok(id) => {
            *learned += 1;
            if is_reached(conflicts, *learned) {
                return Err(FindStop::Conflicts);
            }
            Ok(id)
        }
        Err(_) => Err(FindStop::Memory),
    }
}

/// Whether the number of conflicts, if one is given, is this one.
fn is_reached(conflicts: Option<u64>, count: u64) -> bool
    ensures { IsTrue result ↔ (conflicts ≡ Some count) }
{
    match conflicts {
        Some(limit) => limit == count,
        None => false,
    }
}

/// Stores, unmarked, the running box of a walk that found no room.
pub(crate) fn keep_running(ops: &mut Ops, boxes: &mut BoxStore, stop: AnalyseStop) -> FindStop
    requires few { length boxes.old < 2 ^ 32 }
    requires held { AreHeld ops.old (held_at stop) }
    ensures kept { IsKept boxes.old boxes.new result stop }
    ensures counted { learned_count boxes.new ≡ learned_count boxes.old }
    ensures moved { Moves ops.old ops.new (stored_sets boxes.old ++ held_at stop) (stored_sets boxes.new) }
    ensures only { ops.new ≡ record ops.old { counts = ops.new.counts } }
    ensures not_conflicts { result ≢ FindStop.Conflicts }
{
    match stop {
        AnalyseStop::Full(held) => match store(ops, boxes, held, false) {
            Ok(_) => FindStop::Full,
            Err(_) => FindStop::Memory,
        },
        AnalyseStop::Memory => FindStop::Memory,
    }
}
