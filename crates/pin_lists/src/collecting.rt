//! Making room between two tries of a unit.
ghost use Rattle.pin_lists.specs.Units.{Collects};

use diagram_ops::Ops;
use node_reclaim::pinned_refs_are_kept;

/// Frees the nodes that no pin reaches, and forgets results. What is pinned keeps its meaning, and no set of words is new. Takes no memory.
pub fn collect(ops: &mut Ops)
    ensures { Collects ops.old ops.new }
{
    // What holds of every reclamation.
    pinned_refs_are_kept();
    ops.collect();
}
