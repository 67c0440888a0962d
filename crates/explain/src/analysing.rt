//! The analysis of a conflict.
ghost use Rattle.std.specs.Prelude.{◌≡◌, ◌++◌, [], Err, IfOk, IfErr, MatchOption};
ghost use Rattle.diagram_arena.specs.Arena.{table};
ghost use Rattle.node_reclaim.specs.Growth.{IsFull};
ghost use Rattle.node_reclaim.specs.Holders.{AreHeld};
ghost use Rattle.pin_lists.specs.Units.{UnitsLeave};
ghost use Rattle.exact_steps.specs.Domains.{family};
ghost use Rattle.problem_rules.specs.Posed.{problem_of};
ghost use Rattle.propagators.specs.Compiled.{pinned_by, IsCompiled};
ghost use Rattle.search_rules.specs.Walk.{IsConflictBox};
ghost use Rattle.domain_trail.specs.Trail.{held};
ghost use Rattle.box_clauses.specs.Stored.{stored_sets};
ghost use Rattle.search_state.specs.Readings.{boxes_of, IsTrailOf};
ghost use Rattle.running_boxes.specs.Running.{IsConflictOf, box_of_conflict};
ghost use Rattle.running_boxes.specs.Nodes.{IsOfVariable, AreReachedOrMade};
ghost use Rattle.explain.specs.Walks.{IsLearnedFrom, IsStopped, IsFullAt, held_by, held_at};
ghost use Rattle.explain.specs.Work.{IsOnWalk, IsPassed};
ghost use Rattle.explain.specs.Returning.{IsTurned};

use crate::holding::take_sides;
use crate::returning::{BackTo, exclusion_laws, go_back};
use bit_layout::Layout;
use box_clauses::{BoxStore, Held};
use diagram_arena::Stop;
use diagram_ops::Ops;
use domain_trail::Trail;
use pin_lists::PinList;
use propagators::{Compiled, compiled_stays};
use running_boxes::{Conflict, begin};
use set_meaning::{Problem, VarId};
use std::alloc::Global;

/// What the walk derived.
pub enum Learned {
    /// It passed the first entry: what the stored boxes and the constraints leave is nothing.
    Root,
    /// A box, and the level to which the trail went back: there the domain of `var` alone does not lie in its side, and
    /// has a value in it.
    Asserting { held: Held, var: VarId, level: u32 },
}

/// Why nothing was derived.
pub enum AnalyseStop {
    /// There was no room for a node of one resolvent, right after a reclamation too. The sides of the running box.
    Full(Held),
    /// Want of memory.
    Memory,
}

/// Walks back over the trail from a conflict of its domains: a constraint that no values in them satisfy, or a stored
/// box in which they all lie. The running box begins as the conflict's. An entry that matters is resolved with its
/// reason box, another is passed.
///
/// Above level 0 the walk stops as soon as all entries that matter at the highest level that still has one are of one
/// variable. Then the trail goes back to the least level at which at most that variable's domain does not lie in its
/// side. At level 0 the walk passes every entry. `boxes` has the boxes that the trail's reasons name. `compiled` is the
/// problem with its layout.
///
/// For each entry that is passed it is asked once whether its domain from before lies in a side, without a node; for
/// each that matters one reason box and one resolvent are made. Such a resolvent is a unit: where it finds no room,
/// what no pin reaches is reclaimed, and it is tried once more; a second refusal is Full. After Memory the trail and
/// the boxes can be released or left.
pub fn analyse(
    alloc: Global,
    p: &Problem,
    layout: &Layout,
    compiled: &Compiled,
    ops: &mut Ops,
    trail: &mut Trail,
    boxes: &BoxStore,
    conflict: Conflict,
) -> Result<Learned, AnalyseStop>
    requires compiled { IsCompiled layout.now p.now (table ops.old.arena) compiled.now }
    requires trail { IsTrailOf p.now layout.now (table ops.old.arena) boxes.now trail.old }
    requires known { IsConflictOf p.now boxes.now conflict }
    requires conflict { let l = layout.now in let t = table ops.old.arena in
        IsConflictBox (problem_of p.now) (boxes_of l t boxes.now) (family l t trail.old.domains)
        (box_of_conflict p.now l t boxes.now trail.old.domains conflict) }
    requires held { let rs = held trail.old ++ stored_sets boxes.now in
        AreHeld ops.old (pinned_by compiled.now ++ rs) }
    ensures learned { let l = layout.now in let t = table ops.old.arena in let u = table ops.new.arena in
        IfOk result (IsLearnedFrom p.now l t u boxes.now trail.old trail.new) }
    ensures pinned { let s = trail.new in IfOk result (λ learned.
        UnitsLeave (IsOfVariable layout.now) ops.old ops.new (held trail.old) (held s ++ held_by learned)) }

    // What is left where there was no room for a resolvent.
    ensures stopped { let l = layout.now in let t = table ops.old.arena in let u = table ops.new.arena in
        IfErr result (IsStopped p.now l t u boxes.now trail.old trail.new
        (box_of_conflict p.now l t boxes.now trail.old.domains conflict)) }
    ensures held_on { let s = trail.new in IfErr result (λ stop.
        UnitsLeave (IsOfVariable layout.now) ops.old ops.new (held trail.old) (held s ++ held_at stop)) }
    ensures full { IfErr result (λ stop. IsFullAt layout.now stop ops.new) }
{
    // What holds of walks and of compiled problems.
    exclusion_laws(p);
    compiled_stays();
    let mut running = PinList::new(alloc);
    match derive(
        alloc,
        p,
        layout,
        compiled,
        ops,
        trail,
        boxes,
        conflict,
        &mut running,
    ) {
        Ok(None) => {
            running.release(ops);
            Ok(Learned::Root)
        }
        Ok(Some(to)) => match take_sides(alloc, ops, layout, compiled.start(), running) {
            Ok(held) => Ok(Learned::Asserting {
                held,
                var: to.var,
                level: to.level,
            }),
            Err(_) => Err(AnalyseStop::Memory),
        },
        Err(Stop::Full) => match take_sides(alloc, ops, layout, compiled.start(), running) {
            Ok(held) => Err(AnalyseStop::Full(held)),
            Err(_) => Err(AnalyseStop::Memory),
        },
        Err(Stop::Memory) => {
            running.release(ops);
            Err(AnalyseStop::Memory)
        }
    }
}

/// From the conflict, with no running box yet, to where the trail went back.
fn derive(
    alloc: Global,
    p: &Problem,
    layout: &Layout,
    compiled: &Compiled,
    ops: &mut Ops,
    trail: &mut Trail,
    boxes: &BoxStore,
    conflict: Conflict,
    running: &mut PinList,
) -> Result<Option<BackTo>, Stop>
    requires compiled { IsCompiled layout.now p.now (table ops.old.arena) compiled.now }
    requires trail { IsTrailOf p.now layout.now (table ops.old.arena) boxes.now trail.old }
    requires known { IsConflictOf p.now boxes.now conflict }
    requires conflict { let l = layout.now in let t = table ops.old.arena in
        IsConflictBox (problem_of p.now) (boxes_of l t boxes.now) (family l t trail.old.domains)
        (box_of_conflict p.now l t boxes.now trail.old.domains conflict) }
    requires held { let rs = held trail.old ++ stored_sets boxes.now in
        AreHeld ops.old (pinned_by compiled.now ++ rs) }
    requires none { running.old ≡ [] }
    ensures derived { let l = layout.now in let t = table ops.old.arena in let u = table ops.new.arena in
        let first = box_of_conflict p.now l t boxes.now trail.old.domains conflict in
        IfOk result (λ found. MatchOption found
        (IsPassed p.now l t u boxes.now trail.old trail.new first running.new)
        (IsTurned p.now l t u boxes.now trail.old trail.new running.new)) }
    ensures left { UnitsLeave (IsOfVariable layout.now) ops.old ops.new
        (held trail.old) (held trail.new ++ running.new) }
    ensures full { result ≡ Err Stop.Full → IsFull ops.new }
    ensures way { let l = layout.now in let t = table ops.old.arena in let u = table ops.new.arena in
        let first = box_of_conflict p.now l t boxes.now trail.old.domains conflict in
        result ≡ Err Stop.Full → IsOnWalk p.now l t u boxes.now trail.old trail.new first running.new }
    ensures made { result ≡ Err Stop.Full → AreReachedOrMade layout.now ops.new }
{
    // What holds of every pool.
    let _ = ops.pool();
    begin(ops, p, layout, compiled, trail, boxes, conflict, running)?;
    go_back(alloc, p, layout, compiled, ops, trail, boxes, running)
}
