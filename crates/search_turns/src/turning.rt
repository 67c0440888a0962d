//! The turn of a conflict: a box is learned, the search goes back, and the box narrows there.
ghost use Rattle.std.specs.Prelude.{◌≡◌, ◌<◌, IfSome, OnOk, Err, Some};
ghost use Rattle.diagram_arena.specs.Arena.{table};
ghost use Rattle.search_rules.specs.Walk.{IsConflictBox};
ghost use Rattle.exact_steps.specs.Domains.{family};
ghost use Rattle.problem_rules.specs.Posed.{problem_of};
ghost use Rattle.search_state.specs.Readings.{boxes_of};
ghost use Rattle.running_boxes.specs.Running.{IsConflictOf, box_of_conflict};
ghost use Rattle.search_turns.specs.States.{learned_count, IsStanding, IsLegalForSome};
ghost use Rattle.search_turns.specs.Work.{IsReadyToAssert, AssertLeaves, TurnLeaves};

use crate::laws::{laws, turn_laws};
use crate::narrowing::narrow_outside;
use crate::outcomes::{FindStop, Found, Turn};
use crate::storing::{keep_running, learn};
use bit_layout::Layout;
use box_clauses::{BoxStore, Held};
use diagram_arena::Stop;
use diagram_ops::Ops;
use domain_trail::Trail;
use explain::{Learned, analyse};
use propagators::Compiled;
use running_boxes::Conflict;
use set_meaning::{Problem, VarId};
use std::alloc::Global;

/// Takes the turn of a conflict. `learned` counts the learned boxes; where they are as many as `conflicts` says, the
/// search stops right after the box was stored.
pub(crate) fn turn(
    alloc: Global,
    ops: &mut Ops,
    p: &Problem,
    layout: &Layout,
    compiled: &Compiled,
    trail: &mut Trail,
    boxes: &mut BoxStore,
    conflict: Conflict,
    conflicts: Option<u64>,
    learned: &mut u64,
) -> Result<Turn, FindStop>
    requires standing { IsStanding p.now layout.now ops.old compiled.now boxes.old trail.old }
    requires legal { IsLegalForSome p.now layout.now (table ops.old.arena) boxes.old trail.old }
    requires known { IsConflictOf p.now boxes.old conflict }
    requires conflict { let l = layout.now in let t = table ops.old.arena in
        IsConflictBox (problem_of p.now) (boxes_of l t boxes.old) (family l t trail.old.domains)
        (box_of_conflict p.now l t boxes.old trail.old.domains conflict) }
    requires counted { learned.old ≡ learned_count boxes.old }
    requires capped { IfSome conflicts (λ n. learned.old < n) }
    ensures left { TurnLeaves p.now layout.now compiled.now ops.old ops.new boxes.old trail.old boxes.new trail.new
        result }
    ensures conflicts { result ≡ Err FindStop.Conflicts → conflicts ≡ Some learned.new }
    ensures counted { learned.new ≡ learned_count boxes.new }
    ensures capped { OnOk result (IfSome conflicts (λ n. learned.new < n)) }
{
    // What holds of states, of turns and of every pool.
    laws();
    turn_laws(p);
    let _ = ops.pool();
    match analyse(alloc, p, layout, compiled, ops, trail, boxes, conflict) {
        Ok(Learned::Root) => Ok(Turn::Ended(Found::Complete)),
        Ok(Learned::Asserting { held, var, level }) => {
            let _ = level;
            match assert_box(ops, layout, trail, boxes, held, var, conflicts, learned) {
                Ok(()) => Ok(Turn::Narrowed(var)),
                Err(stop) => Err(stop),
            }
        }
        Err(stop) => {
            let _ = ops.pool();
            Err(keep_running(ops, boxes, stop))
        }
    }
}

/// Learns the derived box, and narrows the variable by it.
fn assert_box(
    ops: &mut Ops,
    layout: &Layout,
    trail: &mut Trail,
    boxes: &mut BoxStore,
    held: Held,
    v: VarId,
    conflicts: Option<u64>,
    learned: &mut u64,
) -> Result<(), FindStop>
    requires ready { IsReadyToAssert layout.now ops.old boxes.old trail.old held v }
    requires counted { learned.old ≡ learned_count boxes.old }
    requires capped { IfSome conflicts (λ n. learned.old < n) }
    ensures left { AssertLeaves layout.now ops.old ops.new boxes.old trail.old boxes.new trail.new held v result }
    ensures conflicts { result ≡ Err FindStop.Conflicts → conflicts ≡ Some learned.new }
    ensures counted { learned.new ≡ learned_count boxes.new }
    ensures capped { OnOk result (IfSome conflicts (λ n. learned.new < n)) }
{
    // What holds of states, and of every pool.
    laws();
    let _ = ops.pool();
    match learn(ops, boxes, held, conflicts, learned) {
        Ok(id) => match narrow_outside(ops, layout, trail, boxes, id, v) {
            Ok(()) => Ok(()),
            Err(Stop::Full) => Err(FindStop::Full),
            Err(Stop::Memory) => Err(FindStop::Memory),
        },
        Err(stop) => Err(stop),
    }
}
