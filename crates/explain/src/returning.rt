//! Where the trail goes back to.
ghost use Rattle.std.specs.Prelude.{◌≡◌, ◌++◌, Err, List, All, IfOk, MatchOption};
ghost use Rattle.diagram_arena.specs.Arena.{table};
ghost use Rattle.node_reclaim.specs.Growth.{IsFull};
ghost use Rattle.node_reclaim.specs.Holders.{AreHeld};
ghost use Rattle.pin_lists.specs.Units.{Moves, UnitsLeave};
ghost use Rattle.exact_steps.specs.Domains.{family};
ghost use Rattle.problem_rules.specs.Posed.{problem_of};
ghost use Rattle.propagators.specs.Compiled.{AreInitialDomains, IsCompiled};
ghost use Rattle.search_rules.specs.Walk.{IsConflictBox, IsNewestOther};
ghost use Rattle.domain_trail.specs.Trail.{held, IsUndoneTo};
ghost use Rattle.box_clauses.specs.declared.store.StoredBox.{StoredBox};
ghost use Rattle.search_state.specs.Readings.{boxes_of, entries_of, IsTrailOf};
ghost use Rattle.running_boxes.specs.Running.{AreRunning};
ghost use Rattle.running_boxes.specs.Nodes.{IsOfVariable, AreReachedOrMade};
ghost use Rattle.explain.specs.Scans.{IsOld};
ghost use Rattle.explain.specs.Work.{pinned_on_walk, IsOnWalk, IsPassed};
ghost use Rattle.explain.specs.Returning.{IsTurned};
ghost use Rattle.explain.specs.DerivedLaws.{ExclusionLaws, TurnLaws};

use crate::mattering::level_back;
use crate::walking::walk;
use bit_layout::Layout;
use box_clauses::BoxStore;
use diagram_arena::{Ref, Stop};
use diagram_ops::Ops;
use domain_trail::Trail;
use pin_lists::PinList;
use problem_rules::Posed;
use propagators::{Compiled, compiled_stays};
use search_rules::{
    derived_box_is_new, derived_box_narrows, level_to_go_back_to, stop_goes_back_as_the_trail,
    walk_holds_what_is_excluded,
};
use search_state::trails_undone_to_a_level_read_back;
use set_meaning::{Problem, VarId};
use std::alloc::{AllocError, Global};

/// The variable for which a walk stopped, and the level to which the trail went back.
#[derive(Clone, Copy, Drop)]
pub(crate) struct BackTo {
    pub(crate) var: VarId,
    pub(crate) level: u32,
}

/// Walks back with the running box of a conflict. Where the walk stops, the trail goes back to the level of the newest
/// entry of another variable that matters. None where the walk passes the first entry.
pub(crate) fn go_back(
    alloc: Global,
    p: &Problem,
    layout: &Layout,
    compiled: &Compiled,
    ops: &mut Ops,
    trail: &mut Trail,
    boxes: &BoxStore,
    running: &mut PinList,
) -> Result<Option<BackTo>, Stop>
    requires compiled { IsCompiled layout.now p.now (table ops.old.arena) compiled.now }
    requires trail { IsTrailOf p.now layout.now (table ops.old.arena) boxes.now trail.old }
    requires running { AreRunning layout.now (table ops.old.arena) running.old }
    requires conflict { let l = layout.now in let t = table ops.old.arena in
        IsConflictBox (problem_of p.now)
        (boxes_of l t boxes.now) (family l t trail.old.domains) (family l t running.old) }
    requires held { AreHeld ops.old (pinned_on_walk compiled.now trail.old boxes.now running.old) }
    ensures derived { let l = layout.now in let t = table ops.old.arena in let u = table ops.new.arena in
        let first = family l t running.old in
        IfOk result (λ found. MatchOption found
        (IsPassed p.now l t u boxes.now trail.old trail.new first running.new)
        (IsTurned p.now l t u boxes.now trail.old trail.new running.new)) }
    ensures left { UnitsLeave (IsOfVariable layout.now) ops.old ops.new
        (held trail.old ++ running.old) (held trail.new ++ running.new) }
    ensures full { result ≡ Err Stop.Full → IsFull ops.new }
    ensures way { let l = layout.now in let t = table ops.old.arena in let u = table ops.new.arena in
        let first = family l t running.old in result ≡ Err Stop.Full
        → IsOnWalk p.now l t u boxes.now trail.old trail.new first running.new }
    ensures made { result ≡ Err Stop.Full → AreReachedOrMade layout.now ops.new }
{
    // What holds of walks, of turns, and of compiled problems.
    exclusion_laws(p);
    turn_laws(p);
    compiled_stays();
    match walk(alloc, ops, p, layout, compiled, trail, boxes, running)? {
        None => Ok(None),
        Some(var) => {
            let level = back_from(ops, layout, compiled.start(), trail, running.refs(), var)?;
            Ok(Some(BackTo { var, level }))
        }
    }
}

/// The laws of what a walk's box holds.
pub(crate) fn exclusion_laws(p: &Problem)
    ensures { ExclusionLaws p.now }
{
    walk_holds_what_is_excluded(&Posed { problem: p });
}

/// The laws of the way back from where a walk stopped.
fn turn_laws(p: &Problem)
    ensures { TurnLaws p.now }
{
    level_to_go_back_to(&Posed { problem: p });
    derived_box_narrows(&Posed { problem: p });
    stop_goes_back_as_the_trail(&Posed { problem: p });
    derived_box_is_new(&Posed { problem: p });
    trails_undone_to_a_level_read_back();
}

/// Undoes the trail to the level of the newest entry of another variable that matters, 0 where there is none.
fn back_from(
    ops: &mut Ops,
    layout: &Layout,
    start: &[Ref],
    trail: &mut Trail,
    running: &[Ref],
    v: VarId,
) -> Result<u32, AllocError>
    requires entries { All (IsOld layout.now (table ops.old.arena)) trail.old.entries }
    requires start { AreInitialDomains layout.now (table ops.old.arena) start.now }
    requires running { AreRunning layout.now (table ops.old.arena) running.now }
    requires held { AreHeld ops.old (held trail.old) }
    ensures level { let l = layout.now in let t = table ops.old.arena in
        let b = family l t running.now in (stored : List StoredBox)
        → IfOk result (IsNewestOther (entries_of l t stored trail.old.entries) b v.0) }
    ensures undone { IfOk result (λ level. IsUndoneTo level trail.old trail.new) }
    ensures only { ops.new ≡ record ops.old { counts = ops.new.counts } }
    ensures moved { Moves ops.old ops.new (held trail.old) (held trail.new) }
{
    let level = level_back(ops, layout, start, trail, running, v)?;
    trail.undo_to(ops, level);
    Ok(level)
}
