//! Going on after an answer.
ghost use Rattle.std.specs.Prelude.{◌≡◌, ◌<◌, ◌^◌, IfOk, IfSome, OnOk, OnErr, Err, Some, length};
ghost use Rattle.diagram_arena.specs.Arena.{table};
ghost use Rattle.node_reclaim.specs.Growth.{IsFull};
ghost use Rattle.pin_lists.specs.Units.{UnitsLeave, Moves};
ghost use Rattle.search_rules.specs.Family.{AllLie};
ghost use Rattle.exact_steps.specs.Domains.{AreDomains, family};
ghost use Rattle.propagators.specs.Compiled.{AreInitialDomains};
ghost use Rattle.box_clauses.specs.Boxes.{box_of};
ghost use Rattle.box_clauses.specs.Stored.{stored_sets};
ghost use Rattle.search_state.specs.Readings.{sides_at};
ghost use Rattle.propagation.specs.Quiet.{IsQueueOf};
ghost use Rattle.search_turns.specs.States.{held_by_search, learned_count, IsStanding, IsLegalForSome};
ghost use Rattle.search_turns.specs.Outcomes.{UnlessMemory, IsSingleState};
ghost use Rattle.search_turns.specs.Answers.{IsLegalAtAnswer, IsResumed, IsFoundAfter};
ghost use Rattle.search_turns.specs.Nodes.{IsOfSearch};
ghost use Rattle.search_turns.specs.Work.{FindLeaves, HasStoredDomains};

use crate::finding::{find, wake};
use crate::laws::{laws, turn_laws};
use crate::outcomes::{FindStop, Found, Turn};
use crate::storing::store;
use crate::turning::turn;
use bit_layout::Layout;
use box_clauses::{BoxStore, Held};
use constraint_queue::ConstraintQueue;
use diagram_ops::Ops;
use domain_trail::Trail;
use propagators::Compiled;
use running_boxes::{Conflict, sides_of};
use search_state::conflicts_have_boxes;
use set_meaning::{BoxId, Goal, Problem};
use std::alloc::{AllocError, Global};

/// Goes on after single values were found and given as an answer: stores their box, takes the turn of its conflict, and
/// then does as `find`. The goal is that every solution is asked for. What the queue has flagged makes no difference.
pub fn resume(
    alloc: Global,
    ops: &mut Ops,
    p: &Problem,
    layout: &Layout,
    compiled: &Compiled,
    trail: &mut Trail,
    boxes: &mut BoxStore,
    queue: &mut ConstraintQueue,
    sizes: &mut Vec<u64>,
    conflicts: Option<u64>,
    learned: &mut u64,
) -> Result<Found, FindStop>
    requires satisfy { p.now.goal ≡ Goal.Satisfy }
    requires standing { IsStanding p.now layout.now ops.old compiled.now boxes.old trail.old }
    requires single { IsSingleState p.now layout.now (table ops.old.arena) boxes.old trail.old }
    requires answered { IsLegalAtAnswer p.now layout.now (table ops.old.arena) boxes.old trail.old }
    requires queue { IsQueueOf compiled.now queue.old }
    requires counted { learned.old ≡ learned_count boxes.old }
    requires capped { IfSome conflicts (λ n. learned.old < n) }
    ensures found { let t = table ops.old.arena in let u = table ops.new.arena in
        IfOk result (IsFoundAfter p.now layout.now t u boxes.old trail.old boxes.new trail.new) }
    ensures resumed { let t = table ops.old.arena in let u = table ops.new.arena in
        UnlessMemory result (IsResumed p.now layout.now t u boxes.old trail.old boxes.new trail.new) }
    ensures standing { OnOk result (IsStanding p.now layout.now ops.new compiled.now boxes.new trail.new) }
    ensures left { UnitsLeave (IsOfSearch p.now layout.now) ops.old ops.new
        (held_by_search trail.old boxes.old) (held_by_search trail.new boxes.new) }
    ensures full { result ≡ Err FindStop.Full → IsFull ops.new }
    ensures conflicts { result ≡ Err FindStop.Conflicts → conflicts ≡ Some learned.new }
    ensures counted { learned.new ≡ learned_count boxes.new }
    ensures capped { OnOk result (IfSome conflicts (λ n. learned.new < n)) }
    ensures queue { IsQueueOf compiled.now queue.new }
    ensures sizes { length sizes.new.items ≡ length sizes.old.items }
{
    // What holds of states, of turns and of every pool.
    laws();
    turn_laws(p);
    let _ = ops.pool();
    match exclude(alloc, ops, layout, compiled, trail, boxes) {
        Ok(id) => go_on(
            alloc, ops, p, layout, compiled, trail, boxes, queue, sizes, id, conflicts, learned,
        ),
        Err(_) => Err(FindStop::Memory),
    }
}

/// Stores the box of what the domains have, unmarked.
fn exclude(
    alloc: Global,
    ops: &mut Ops,
    layout: &Layout,
    compiled: &Compiled,
    trail: &Trail,
    boxes: &mut BoxStore,
) -> Result<BoxId, AllocError>
    requires start { AreInitialDomains layout.now (table ops.old.arena) compiled.now.start }
    requires domains { AreDomains layout.now (table ops.old.arena) trail.now.domains }
    requires few { length boxes.old < 2 ^ 32 }
    ensures stored { let t = table ops.old.arena in
        IfOk result (HasStoredDomains layout.now t boxes.old trail.now boxes.new) }
    ensures same { OnErr result (boxes.new ≡ boxes.old) }
    ensures counted { learned_count boxes.new ≡ learned_count boxes.old }
    ensures few { length boxes.new < 2 ^ 32 }
    ensures moved { Moves ops.old ops.new (stored_sets boxes.old) (stored_sets boxes.new) }
    ensures only { ops.new ≡ record ops.old { counts = ops.new.counts } }
{
    // What holds of states.
    laws();
    layout.obeys_order();
    let sides = sides_of(alloc, compiled.start(), trail.domains())?;
    let held = Held::new(alloc, ops, sides.as_slice())?;
    match store(ops, boxes, held, false) {
        Ok(id) => Ok(id),
        Err(refused) => Err(refused),
    }
}

/// Takes the turn of the conflict that all domains lie in this box, and goes on from there.
fn go_on(
    alloc: Global,
    ops: &mut Ops,
    p: &Problem,
    layout: &Layout,
    compiled: &Compiled,
    trail: &mut Trail,
    boxes: &mut BoxStore,
    queue: &mut ConstraintQueue,
    sizes: &mut Vec<u64>,
    id: BoxId,
    conflicts: Option<u64>,
    learned: &mut u64,
) -> Result<Found, FindStop>
    requires standing { IsStanding p.now layout.now ops.old compiled.now boxes.old trail.old }
    requires legal { IsLegalForSome p.now layout.now (table ops.old.arena) boxes.old trail.old }
    requires known { id.0 < length boxes.old }
    requires inside { let l = layout.now in let t = table ops.old.arena in
        AllLie (family l t trail.old.domains) (box_of l t (sides_at boxes.old id.0)) }
    requires queue { IsQueueOf compiled.now queue.old }
    requires counted { learned.old ≡ learned_count boxes.old }
    requires capped { IfSome conflicts (λ n. learned.old < n) }
    ensures left { FindLeaves p.now layout.now compiled.now ops.old ops.new boxes.old trail.old boxes.new trail.new
        result }
    ensures conflicts { result ≡ Err FindStop.Conflicts → conflicts ≡ Some learned.new }
    ensures counted { learned.new ≡ learned_count boxes.new }
    ensures capped { OnOk result (IfSome conflicts (λ n. learned.new < n)) }
    ensures queue { IsQueueOf compiled.now queue.new }
    ensures sizes { length sizes.new.items ≡ length sizes.old.items }
{
    // What holds of turns and of stored boxes.
    turn_laws(p);
    conflicts_have_boxes();
    match turn(
        alloc,
        ops,
        p,
        layout,
        compiled,
        trail,
        boxes,
        Conflict::Box(id),
        conflicts,
        learned,
    ) {
        Ok(Turn::Ended(found)) => Ok(found),
        Ok(Turn::Narrowed(v)) => {
            wake(queue, v, sizes.as_slice());
            find(
                alloc, ops, p, layout, compiled, trail, boxes, queue, sizes, conflicts, learned,
            )
        }
        Err(stop) => Err(stop),
    }
}
