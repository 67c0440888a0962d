//! From a state to single values that everything leaves as they are, or to the end.
ghost use Rattle.std.specs.Prelude.{◌≡◌, ◌<◌, IfOk, IfSome, OnOk, Err, Some, length};
ghost use Rattle.diagram_arena.specs.Arena.{table};
ghost use Rattle.node_reclaim.specs.Growth.{IsFull};
ghost use Rattle.pin_lists.specs.Units.{UnitsLeave};
ghost use Rattle.exact_steps.specs.Domains.{family};
ghost use Rattle.propagation.specs.Quiet.{IsQueueOf, AreSettled};
ghost use Rattle.search_turns.specs.States.{held_by_search, learned_count, IsStanding, IsLegalForSome, IsFurther};
ghost use Rattle.search_turns.specs.Outcomes.{UnlessMemory, IsFoundFrom};
ghost use Rattle.search_turns.specs.Nodes.{IsOfSearch};
ghost use Rattle.search_turns.specs.Work.{TurnLeaves, FlagsReaders};

use crate::deciding::take_decision;
use crate::laws::{laws, turn_laws};
use crate::outcomes::{FindStop, Found, Turn};
use crate::turning::turn;
use bit_layout::Layout;
use box_clauses::BoxStore;
use constraint_queue::ConstraintQueue;
use diagram_arena::Stop;
use diagram_ops::Ops;
use domain_trail::Trail;
use propagation::{Found as Propagated, propagate};
use propagators::Compiled;
use set_meaning::{Problem, VarId};
use std::alloc::Global;

/// Propagates, decides and takes conflicts back until every variable has one value, or nothing is left. The queue is
/// that of the compiled constraints, and those without a flag are settled. `learned` counts the learned boxes; where
/// they are as many as `conflicts` says, the search stops right after the last of them was stored.
///
/// A unit is a step, a box step, a resolvent, the narrowing by a learned box or a decision. Where it finds no room, the
/// nodes that no pin reaches are freed and it is tried once more; a second refusal is Full. After each stop but want of
/// memory the state is legal still. After want of memory what the trail and the boxes pin is pinned.
pub fn find(
    alloc: Global,
    ops: &mut Ops,
    p: &Problem,
    layout: &Layout,
    compiled: &Compiled,
    trail: &mut Trail,
    boxes: &mut BoxStore,
    queue: &mut ConstraintQueue,
    sizes: &mut Vec<u64>,
    conflicts: Option<u64>,
    learned: &mut u64,
) -> Result<Found, FindStop>
    requires standing { IsStanding p.now layout.now ops.old compiled.now boxes.old trail.old }
    requires legal { IsLegalForSome p.now layout.now (table ops.old.arena) boxes.old trail.old }
    requires queue { IsQueueOf compiled.now queue.old }
    requires settled { AreSettled p.now (family layout.now (table ops.old.arena) trail.old.domains) queue.old }
    requires counted { learned.old ≡ learned_count boxes.old }
    requires capped { IfSome conflicts (λ n. learned.old < n) }
    ensures found { let t = table ops.old.arena in let u = table ops.new.arena in
        IfOk result (IsFoundFrom p.now layout.now t u boxes.old trail.old boxes.new trail.new) }
    ensures further { let t = table ops.old.arena in let u = table ops.new.arena in
        UnlessMemory result (IsFurther p.now layout.now t u boxes.old trail.old boxes.new trail.new) }
    ensures standing { OnOk result (IsStanding p.now layout.now ops.new compiled.now boxes.new trail.new) }
    ensures left { UnitsLeave (IsOfSearch p.now layout.now) ops.old ops.new
        (held_by_search trail.old boxes.old) (held_by_search trail.new boxes.new) }
    ensures full { result ≡ Err FindStop.Full → IsFull ops.new }
    ensures conflicts { result ≡ Err FindStop.Conflicts → conflicts ≡ Some learned.new }
    ensures counted { learned.new ≡ learned_count boxes.new }
    ensures capped { OnOk result (IfSome conflicts (λ n. learned.new < n)) }
    ensures queue { IsQueueOf compiled.now queue.new }
    ensures sizes { length sizes.new.items ≡ length sizes.old.items }
{
    // What holds of turns, and of every pool.
    turn_laws(p);
    let _ = ops.pool();
    'turns: loop {
        match advance(
            alloc, ops, p, layout, compiled, trail, boxes, queue, sizes, conflicts, learned,
        ) {
            Ok(Turn::Ended(found)) => return Ok(found),
            Ok(Turn::Narrowed(v)) => wake(queue, v, sizes.as_slice()),
            Err(stop) => return Err(stop),
        }
    }
}

/// One turn of the search: propagation, and then a decision or the turn of a conflict.
fn advance(
    alloc: Global,
    ops: &mut Ops,
    p: &Problem,
    layout: &Layout,
    compiled: &Compiled,
    trail: &mut Trail,
    boxes: &mut BoxStore,
    queue: &mut ConstraintQueue,
    sizes: &mut Vec<u64>,
    conflicts: Option<u64>,
    learned: &mut u64,
) -> Result<Turn, FindStop>
    requires standing { IsStanding p.now layout.now ops.old compiled.now boxes.old trail.old }
    requires legal { IsLegalForSome p.now layout.now (table ops.old.arena) boxes.old trail.old }
    requires queue { IsQueueOf compiled.now queue.old }
    requires settled { AreSettled p.now (family layout.now (table ops.old.arena) trail.old.domains) queue.old }
    requires counted { learned.old ≡ learned_count boxes.old }
    requires capped { IfSome conflicts (λ n. learned.old < n) }
    ensures left { TurnLeaves p.now layout.now compiled.now ops.old ops.new boxes.old trail.old boxes.new trail.new
        result }
    ensures conflicts { result ≡ Err FindStop.Conflicts → conflicts ≡ Some learned.new }
    ensures counted { learned.new ≡ learned_count boxes.new }
    ensures capped { OnOk result (IfSome conflicts (λ n. learned.new < n)) }
    ensures queue { IsQueueOf compiled.now queue.new }
    ensures sizes { length sizes.new.items ≡ length sizes.old.items }
{
    // What holds of states, of turns and of every pool.
    laws();
    turn_laws(p);
    let _ = ops.pool();
    match propagate(alloc, ops, p, layout, compiled, trail, boxes, queue, sizes) {
        Ok(Propagated::Quiet) => take_decision(ops, p, layout, compiled, trail, boxes),
        Ok(Propagated::Conflict(conflict)) => turn(
            alloc, ops, p, layout, compiled, trail, boxes, conflict, conflicts, learned,
        ),
        Err(Stop::Full) => Err(FindStop::Full),
        Err(Stop::Memory) => Err(FindStop::Memory),
    }
}

/// Flags the constraints that read the variable, and no others.
pub(crate) fn wake(queue: &mut ConstraintQueue, v: VarId, sizes: &[u64])
    ensures { FlagsReaders queue.old queue.new v }
{
    queue.clear();
    queue.flag_readers(v, None, sizes);
}
