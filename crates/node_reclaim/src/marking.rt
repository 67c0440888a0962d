//! Marks on what is reached, for a reclamation.
ghost use Rattle.std.specs.Prelude.{◌≡◌, ◌<◌, false};
ghost use Rattle.diagram_arena.specs.declared.nodes.NodeId.{NodeId};
ghost use Rattle.diagram_arena.specs.Table.{IsLive};
ghost use Rattle.diagram_arena.specs.Arena.{table, has_mark, MarksReachDown};
ghost use Rattle.node_reclaim.specs.Marking.{count_of, MarksReached, MarksCounted};

use diagram_arena::{Arena, NodeId, Ref};
use std::collections::BTreeMap;

/// Marks every node that a node with a pin reaches.
pub(crate) fn mark_counted(arena: &mut Arena, pins: &BTreeMap<NodeId, u64>)
    requires live { (i : NodeId) → 0 < count_of pins.now.entries i → IsLive (table arena.old) (Ref.Node i) }
    requires unmarked { (i : NodeId) → has_mark arena.old i ≡ false }
    ensures { MarksCounted arena.old arena.new pins.now.entries }
{
    for (id, count) in pins {
        if *count == 0 {
            continue;
        }
        mark_reached(arena, Ref::Node(*id));
    }
}

/// Marks every node that `r` reaches, each after its children, so that the children of a marked node are marked at
/// every moment. It recurs as deep as the bits of a path.
fn mark_reached(arena: &mut Arena, r: Ref)
    requires live { IsLive (table arena.old) r }
    requires down { MarksReachDown arena.old }
    ensures { MarksReached arena.old arena.new r }
{
    match r {
        Ref::Zero => {}
        Ref::One => {}
        Ref::Node(id) => {
            let node = *arena.node(id);
            if node.mark {
                return;
            }
            mark_reached(arena, node.lo);
            mark_reached(arena, node.hi);
            arena.set_mark(id, true);
        }
    }
}
