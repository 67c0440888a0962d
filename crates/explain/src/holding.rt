//! The sides of a running box, with pins of their own.
ghost use Rattle.std.specs.Prelude.{◌≡◌, ◌++◌, [], IfOk, OnErr};
ghost use Rattle.diagram_arena.specs.declared.nodes.Ref.{Ref as AnyRef};
ghost use Rattle.diagram_arena.specs.Arena.{table};
ghost use Rattle.node_reclaim.specs.Pool.{IsPinned};
ghost use Rattle.node_reclaim.specs.Holders.{Gains, AreHeld};
ghost use Rattle.pin_lists.specs.Units.{Moves};
ghost use Rattle.propagators.specs.Compiled.{AreInitialDomains};
ghost use Rattle.box_clauses.specs.Sides.{sets_of};
ghost use Rattle.running_boxes.specs.Running.{AreRunning, AreSidesOfRunning};

use bit_layout::Layout;
use box_clauses::Held;
use diagram_arena::Ref;
use diagram_ops::Ops;
use pin_lists::PinList;
use running_boxes::sides_of;
use std::alloc::{AllocError, Global};
use value_sets::sets_of_the_same_values_are_one;

/// The sides that are not all initial values, with a pin each; the pins of the running box are spent. What was pinned
/// still is.
pub(crate) fn take_sides(
    alloc: Global,
    ops: &mut Ops,
    layout: &Layout,
    start: &[Ref],
    running: PinList,
) -> Result<Held, AllocError>
    requires start { AreInitialDomains layout.now (table ops.old.arena) start.now }
    requires running { AreRunning layout.now (table ops.old.arena) running }
    requires held { AreHeld ops.old (start.now ++ running) }
    ensures sides { IfOk result (AreSidesOfRunning layout.now (table ops.old.arena) running) }
    ensures moved { IfOk result (λ held. Moves ops.old ops.new running (sets_of held)) }
    ensures still { IfOk result (λ _. (r : AnyRef) → IsPinned ops.old r → IsPinned ops.new r) }
    ensures spent { OnErr result (Moves ops.old ops.new running []) }
    ensures only { ops.new ≡ record ops.old { counts = ops.new.counts } }
{
    // What holds of layouts, of every pool and of sets of values.
    layout.obeys_order();
    let _ = ops.pool();
    sets_of_the_same_values_are_one();
    match hold_sides(alloc, ops, layout, start, running.refs()) {
        Ok(held) => {
            running.release(ops);
            Ok(held)
        }
        Err(refused) => {
            running.release(ops);
            Err(refused)
        }
    }
}

/// The sides that are not all initial values, with a pin each.
fn hold_sides(
    alloc: Global,
    ops: &mut Ops,
    layout: &Layout,
    start: &[Ref],
    running: &[Ref],
) -> Result<Held, AllocError>
    requires start { AreInitialDomains layout.now (table ops.old.arena) start.now }
    requires running { AreRunning layout.now (table ops.old.arena) running.now }
    ensures sides { IfOk result (AreSidesOfRunning layout.now (table ops.old.arena) running.now) }
    ensures gained { IfOk result (λ held. Gains ops.old ops.new (sets_of held)) }
    ensures ungained { OnErr result (Gains ops.old ops.new []) }
    ensures only { ops.new ≡ record ops.old { counts = ops.new.counts } }
{
    // What holds of layouts: they have few variables.
    layout.obeys_order();
    let sides = sides_of(alloc, start, running)?;
    Held::new(alloc, ops, sides.as_slice())
}
