//! Rounds over the stored boxes, until none changes anything.
ghost use Rattle.std.specs.Prelude.{◌≡◌, ◌<◌, ◌↔◌, ◌^◌, Err, IfOk, IsTrue, length};
ghost use Rattle.diagram_arena.specs.Arena.{table};
ghost use Rattle.node_reclaim.specs.Growth.{IsFull};
ghost use Rattle.exact_steps.specs.Domains.{family};
ghost use Rattle.propagation.specs.Quiet.{IsQueueOf};
ghost use Rattle.propagation.specs.Nodes.{AreReachedOrOfUnit};
ghost use Rattle.propagation.specs.Work.{IsReady, IsOnward, AreQuietApart, IsRound, IsCalmed};
ghost use Rattle.propagation.specs.Work.{joined, IsOfConflict};

use crate::laws::laws;
use crate::turning::{Turned, turn};
use bit_layout::Layout;
use box_clauses::BoxStore;
use constraint_queue::ConstraintQueue;
use diagram_arena::Stop;
use diagram_ops::Ops;
use domain_trail::Trail;
use propagators::Compiled;
use running_boxes::Conflict;
use set_meaning::{BoxId, Problem};
use std::alloc::Global;

/// Steps all boxes in store until none changes anything, or one is in conflict.
pub(crate) fn calm(
    alloc: Global,
    ops: &mut Ops,
    p: &Problem,
    layout: &Layout,
    compiled: &Compiled,
    trail: &mut Trail,
    boxes: &BoxStore,
    queue: &mut ConstraintQueue,
    sizes: &mut Vec<u64>,
) -> Result<Option<Conflict>, Stop>
    requires ready { IsReady p.now layout.now ops.old compiled.now boxes.now trail.old }
    requires few { length boxes.now < 2 ^ 32 }
    requires queue { IsQueueOf compiled.now queue.old }
    requires settled { let f = family layout.now (table ops.old.arena) trail.old.domains in
        AreQuietApart p.now f queue.old }
    ensures calmed { let u = table ops.new.arena in
        IfOk result (IsCalmed p.now layout.now u boxes.now trail.new queue.new) }
    ensures onward { IsOnward p.now layout.now boxes.now ops.old ops.new trail.old trail.new }
    ensures queue { IsQueueOf compiled.now queue.new }
    ensures sizes { length sizes.new.items ≡ length sizes.old.items }
    ensures full { result ≡ Err Stop.Full → IsFull ops.new }
    ensures stopped { result ≡ Err Stop.Full
        → AreReachedOrOfUnit p.now layout.now boxes.now trail.new.domains ops.new }
{
    // What holds of every pool, and of what stays.
    let _ = ops.pool();
    laws(p);
    'rounds: loop {
        match round(alloc, ops, p, layout, compiled, trail, boxes, queue, sizes)? {
            Turned::Same => return Ok(None),
            Turned::Narrowed => {}
            Turned::Conflict(c) => return Ok(Some(c)),
        }
    }
}

/// Steps each box once, in order, or up to the first that is in conflict.
fn round(
    alloc: Global,
    ops: &mut Ops,
    p: &Problem,
    layout: &Layout,
    compiled: &Compiled,
    trail: &mut Trail,
    boxes: &BoxStore,
    queue: &mut ConstraintQueue,
    sizes: &mut Vec<u64>,
) -> Result<Turned, Stop>
    requires ready { IsReady p.now layout.now ops.old compiled.now boxes.now trail.old }
    requires few { length boxes.now < 2 ^ 32 }
    requires queue { IsQueueOf compiled.now queue.old }
    requires settled { let f = family layout.now (table ops.old.arena) trail.old.domains in
        AreQuietApart p.now f queue.old }
    ensures round { let t = table ops.old.arena in let u = table ops.new.arena in let n = length boxes.now in
        IfOk result (IsRound p.now layout.now t u boxes.now n trail.old trail.new queue.old queue.new) }
    ensures onward { IsOnward p.now layout.now boxes.now ops.old ops.new trail.old trail.new }
    ensures queue { IsQueueOf compiled.now queue.new }
    ensures sizes { length sizes.new.items ≡ length sizes.old.items }
    ensures full { result ≡ Err Stop.Full → IsFull ops.new }
    ensures stopped { result ≡ Err Stop.Full
        → AreReachedOrOfUnit p.now layout.now boxes.now trail.new.domains ops.new }
{
    // What holds of every pool, and of what stays.
    let _ = ops.pool();
    laws(p);
    let mut so_far = Turned::Same;
    'boxes: for b in 0..boxes.len() {
        let turned = turn(
            alloc,
            ops,
            p,
            layout,
            compiled,
            trail,
            boxes,
            queue,
            sizes,
            Conflict::Box(BoxId(b)),
        )?;
        so_far = join(so_far, turned);
        if is_conflict(so_far) {
            return Ok(so_far);
        }
    }
    Ok(so_far)
}

/// What both did, one after the other.
fn join(first: Turned, second: Turned) -> Turned
    ensures { result ≡ joined first second }
{
    match second {
        Turned::Same => first,
        Turned::Narrowed => Turned::Narrowed,
        Turned::Conflict(c) => Turned::Conflict(c),
    }
}

/// Whether it is a conflict.
fn is_conflict(turned: Turned) -> bool
    ensures { IsTrue result ↔ IsOfConflict turned }
{
    match turned {
        Turned::Same => false,
        Turned::Narrowed => false,
        Turned::Conflict(_) => true,
    }
}
