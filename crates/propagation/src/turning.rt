//! The turn of a unit: its step, and the flags that its narrowings set.
ghost use Rattle.std.specs.Prelude.{◌≡◌, Err, IfOk, length};
ghost use Rattle.diagram_arena.specs.Arena.{table};
ghost use Rattle.node_reclaim.specs.Growth.{IsFull};
ghost use Rattle.exact_steps.specs.Domains.{family};
ghost use Rattle.propagators.specs.Compiled.{IsCompiled};
ghost use Rattle.running_boxes.specs.Running.{IsConflictOf};
ghost use Rattle.propagation.specs.Quiet.{IsQueueOf};
ghost use Rattle.propagation.specs.Nodes.{AreReachedOrOfUnit};
ghost use Rattle.propagation.specs.Work.{IsReady, IsOnward, AreQuietBut, IsTurn};

use crate::flagging::{measure, stir};
use crate::units::take;
use bit_layout::Layout;
use box_clauses::BoxStore;
use constraint_queue::ConstraintQueue;
use diagram_arena::Stop;
use diagram_ops::Ops;
use domain_trail::Trail;
use propagators::{Compiled, StepResult};
use running_boxes::Conflict;
use set_meaning::Problem;
use std::alloc::Global;

/// What units did to the domains.
#[derive(Clone, Copy, PartialEq, Eq)]
pub(crate) enum Turned {
    /// Nothing: they leave the domains as they are.
    Same,
    /// They took values away.
    Narrowed,
    /// One of them is in conflict with the domains.
    Conflict(Conflict),
}

/// Takes the step of the unit, and flags the constraints that may narrow more after it.
pub(crate) fn turn(
    alloc: Global,
    ops: &mut Ops,
    p: &Problem,
    layout: &Layout,
    compiled: &Compiled,
    trail: &mut Trail,
    boxes: &BoxStore,
    queue: &mut ConstraintQueue,
    sizes: &mut Vec<u64>,
    unit: Conflict,
) -> Result<Turned, Stop>
    requires known { IsConflictOf p.now boxes.now unit }
    requires ready { IsReady p.now layout.now ops.old compiled.now boxes.now trail.old }
    requires queue { IsQueueOf compiled.now queue.old }
    requires settled { let f = family layout.now (table ops.old.arena) trail.old.domains in
        AreQuietBut p.now f queue.old unit }
    ensures turned { let t = table ops.old.arena in let u = table ops.new.arena in
        IfOk result (IsTurn p.now layout.now t u boxes.now unit trail.old trail.new queue.old queue.new) }
    ensures onward { IsOnward p.now layout.now boxes.now ops.old ops.new trail.old trail.new }
    ensures queue { IsQueueOf compiled.now queue.new }
    ensures sizes { length sizes.new.items ≡ length sizes.old.items }
    ensures full { result ≡ Err Stop.Full → IsFull ops.new }
    ensures stopped { result ≡ Err Stop.Full
        → AreReachedOrOfUnit p.now layout.now boxes.now trail.new.domains ops.new }
{
    // What holds of every pool.
    let _ = ops.pool();
    match take(alloc, ops, p, layout, compiled, trail, boxes, unit)? {
        StepResult::Same => Ok(Turned::Same),
        StepResult::Narrowed(kept) => {
            measure(alloc, ops, kept.as_slice(), sizes, trail.level())?;
            stir(
                queue,
                unit,
                kept.as_slice(),
                sizes.as_slice(),
                trail.level(),
            );
            Ok(Turned::Narrowed)
        }
        StepResult::Empty => Ok(Turned::Conflict(unit)),
    }
}
