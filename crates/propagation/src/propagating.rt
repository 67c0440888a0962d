//! Propagation: until nothing changes, or a conflict.
ghost use Rattle.std.specs.Prelude.{◌≡◌, ◌<◌, ◌^◌, ◌++◌, Err, IfOk, length};
ghost use Rattle.diagram_arena.specs.Arena.{table};
ghost use Rattle.node_reclaim.specs.Growth.{IsFull};
ghost use Rattle.node_reclaim.specs.Holders.{AreHeld};
ghost use Rattle.pin_lists.specs.Units.{UnitsLeave};
ghost use Rattle.exact_steps.specs.Domains.{family};
ghost use Rattle.propagators.specs.Compiled.{pinned_by, IsCompiled};
ghost use Rattle.domain_trail.specs.Trail.{held};
ghost use Rattle.box_clauses.specs.Stored.{stored_sets};
ghost use Rattle.search_state.specs.Readings.{IsTrailOf};
ghost use Rattle.propagation.specs.Quiet.{IsQueueOf, AreSettled, HasNarrowed, IsFound};
ghost use Rattle.propagation.specs.Nodes.{IsOfPropagation, AreReachedOrOfUnit};
ghost use Rattle.propagation.specs.Work.{IsReady, IsOnward, AreQuietBut, AreBoxesQuiet, IsCalmed, IsNearer};

use crate::laws::laws;
use crate::rounds::calm;
use crate::turning::{Turned, turn};
use bit_layout::Layout;
use box_clauses::BoxStore;
use constraint_queue::ConstraintQueue;
use diagram_arena::Stop;
use diagram_ops::Ops;
use domain_trail::Trail;
use propagators::Compiled;
use running_boxes::Conflict;
use set_meaning::{ConId, Problem};
use std::alloc::Global;

/// What propagation came to.
#[derive(Clone, Copy, Debug, PartialEq, Eq)]
pub enum Found {
    /// Each constraint and each stored box leaves the domains as they are.
    Quiet,
    /// No values in the domains satisfy this constraint, or all domains lie in this box.
    Conflict(Conflict),
}

/// Narrows the domains of the trail by steps of constraints and of stored boxes, at its level, until nothing changes or
/// there is a conflict. A constraint without a flag must be settled. The boxes are stepped first, as they are cheap,
/// and again after each change; then one constraint that has a flag. Flags that are left at a conflict or an Err mean
/// nothing: `clear` them.
///
/// `sizes` has the number of nodes of each variable's domain at level 0, by which constraints are ordered there; above
/// level 0 the first that was flagged comes first.
///
/// Each step is a unit. Where it finds no room, the nodes that no pin reaches are freed and it is tried once more; a
/// second refusal is Full, and the unit has changed nothing. After each Err too, the trail is as narrowings left it.
pub fn propagate(
    alloc: Global,
    ops: &mut Ops,
    p: &Problem,
    layout: &Layout,
    compiled: &Compiled,
    trail: &mut Trail,
    boxes: &BoxStore,
    queue: &mut ConstraintQueue,
    sizes: &mut Vec<u64>,
) -> Result<Found, Stop>
    requires compiled { IsCompiled layout.now p.now (table ops.old.arena) compiled.now }
    requires trail { IsTrailOf p.now layout.now (table ops.old.arena) boxes.now trail.old }
    requires few { length boxes.now < 2 ^ 32 }
    requires queue { IsQueueOf compiled.now queue.old }
    requires settled { AreSettled p.now (family layout.now (table ops.old.arena) trail.old.domains) queue.old }
    requires held { AreHeld ops.old (pinned_by compiled.now ++ (held trail.old ++ stored_sets boxes.now)) }
    ensures found { let u = table ops.new.arena in
        IfOk result (IsFound p.now layout.now u boxes.now trail.new.domains queue.new) }
    ensures narrowed { let t = table ops.old.arena in
        HasNarrowed p.now layout.now t (table ops.new.arena) boxes.now trail.old trail.new }
    ensures left { UnitsLeave (IsOfPropagation p.now layout.now) ops.old ops.new (held trail.old) (held trail.new) }
    ensures queue { IsQueueOf compiled.now queue.new }
    ensures sizes { length sizes.new.items ≡ length sizes.old.items }
    ensures full { result ≡ Err Stop.Full → IsFull ops.new }
    ensures stopped { result ≡ Err Stop.Full
        → AreReachedOrOfUnit p.now layout.now boxes.now trail.new.domains ops.new }
{
    // What holds of every pool.
    let _ = ops.pool();
    laws(p);
    match calm(alloc, ops, p, layout, compiled, trail, boxes, queue, sizes)? {
        Some(conflict) => return Ok(Found::Conflict(conflict)),
        None => {}
    }
    let _ = ops.pool();
    'steps: while let Some(c) = queue.next() {
        match advance(
            alloc, ops, p, layout, compiled, trail, boxes, queue, sizes, c,
        )? {
            Some(conflict) => return Ok(Found::Conflict(conflict)),
            None => {}
        }
    }
    Ok(Found::Quiet)
}

/// Takes the step of a constraint that has lost its flag, and where that narrowed, those of all boxes.
fn advance(
    alloc: Global,
    ops: &mut Ops,
    p: &Problem,
    layout: &Layout,
    compiled: &Compiled,
    trail: &mut Trail,
    boxes: &BoxStore,
    queue: &mut ConstraintQueue,
    sizes: &mut Vec<u64>,
    c: ConId,
) -> Result<Option<Conflict>, Stop>
    requires known { c.0 < length p.now.constraints }
    requires ready { IsReady p.now layout.now ops.old compiled.now boxes.now trail.old }
    requires few { length boxes.now < 2 ^ 32 }
    requires queue { IsQueueOf compiled.now queue.old }
    requires settled { let f = family layout.now (table ops.old.arena) trail.old.domains in
        AreQuietBut p.now f queue.old (Conflict.Constraint c) }
    requires boxes { let t = table ops.old.arena in let f = family layout.now t trail.old.domains in
        AreBoxesQuiet layout.now t boxes.now f (length boxes.now) }
    ensures calmed { let u = table ops.new.arena in
        IfOk result (IsCalmed p.now layout.now u boxes.now trail.new queue.new) }
    ensures nearer { let t = table ops.old.arena in let u = table ops.new.arena in
        IfOk result (IsNearer p.now layout.now t u trail.old trail.new queue.old queue.new) }
    ensures onward { IsOnward p.now layout.now boxes.now ops.old ops.new trail.old trail.new }
    ensures queue { IsQueueOf compiled.now queue.new }
    ensures sizes { length sizes.new.items ≡ length sizes.old.items }
    ensures full { result ≡ Err Stop.Full → IsFull ops.new }
    ensures stopped { result ≡ Err Stop.Full
        → AreReachedOrOfUnit p.now layout.now boxes.now trail.new.domains ops.new }
{
    // What holds of every pool.
    let _ = ops.pool();
    laws(p);
    match turn(
        alloc,
        ops,
        p,
        layout,
        compiled,
        trail,
        boxes,
        queue,
        sizes,
        Conflict::Constraint(c),
    )? {
        Turned::Same => Ok(None),
        Turned::Narrowed => calm(alloc, ops, p, layout, compiled, trail, boxes, queue, sizes),
        Turned::Conflict(conflict) => Ok(Some(conflict)),
    }
}
