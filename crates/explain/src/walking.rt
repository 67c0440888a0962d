//! The walk itself.
ghost use Rattle.std.specs.Prelude.{◌≡◌, ◌++◌, ◌+◌, ◌<◌, ◌↔◌, Err, IfOk, OnOk, IsTrue, MatchBool, MatchOption};
ghost use Rattle.std.specs.Prelude.{length, take, drop};
ghost use Rattle.diagram_arena.specs.Arena.{table};
ghost use Rattle.node_reclaim.specs.Growth.{IsFull};
ghost use Rattle.node_reclaim.specs.Holders.{AreHeld};
ghost use Rattle.pin_lists.specs.Units.{UnitsLeave, Moves};
ghost use Rattle.exact_steps.specs.Domains.{family};
ghost use Rattle.problem_rules.specs.Posed.{problem_of};
ghost use Rattle.propagators.specs.Compiled.{AreInitialDomains, IsCompiled};
ghost use Rattle.search_rules.specs.Walk.{IsConflictBox, GoesOn};
ghost use Rattle.domain_trail.specs.Trail.{held};
ghost use Rattle.search_state.specs.Readings.{boxes_of, entries_of, IsTrailOf};
ghost use Rattle.running_boxes.specs.Running.{AreRunning};
ghost use Rattle.running_boxes.specs.Nodes.{IsOfVariable, AreReachedOrMade};
ghost use Rattle.explain.specs.Scans.{IsNewest};
ghost use Rattle.explain.specs.WalkLaws.{GoingLaws, StayingLaws, StoppingLaws};
ghost use Rattle.explain.specs.Work.{pinned_on_walk, IsOnWalk, IsStop, IsPassed, IsStopAt, AreUndone};

use crate::mattering::{has_other, newest};
use bit_layout::Layout;
use box_clauses::BoxStore;
use diagram_arena::{Ref, Stop};
use diagram_ops::Ops;
use domain_trail::Trail;
use pin_lists::PinList;
use problem_rules::Posed;
use propagators::{Compiled, compiled_stays};
use running_boxes::resolve;
use search_moves::{passing_changes_nothing, walk_goes_on, walk_stops};
use search_rules::walk_resolves_no_decision;
use search_state::{
    entries_read_by_place, partly_undone_trails_go_back_alike, readings_stay,
    scanned_entries_read_as_scanned, states_stay, undone_trails_read_back,
    walks_follow_undone_trails,
};
use set_meaning::{Problem, Value, VarId};
use std::alloc::{AllocError, Global};

/// Walks back over the trail with the running box, which is that of a conflict, and takes entries back on the way. It
/// stops above level 0 and answers the one variable whose entries matter at the highest level; None where no entry that
/// is left matters.
pub(crate) fn walk(
    alloc: Global,
    ops: &mut Ops,
    p: &Problem,
    layout: &Layout,
    compiled: &Compiled,
    trail: &mut Trail,
    boxes: &BoxStore,
    running: &mut PinList,
) -> Result<Option<VarId>, Stop>
    requires compiled { IsCompiled layout.now p.now (table ops.old.arena) compiled.now }
    requires trail { IsTrailOf p.now layout.now (table ops.old.arena) boxes.now trail.old }
    requires running { AreRunning layout.now (table ops.old.arena) running.old }
    requires conflict { let l = layout.now in let t = table ops.old.arena in
        IsConflictBox (problem_of p.now) (boxes_of l t boxes.now)
        (family l t trail.old.domains) (family l t running.old) }
    requires held { AreHeld ops.old (pinned_on_walk compiled.now trail.old boxes.now running.old) }
    ensures walked { let l = layout.now in let t = table ops.old.arena in
        let u = table ops.new.arena in let first = family l t running.old in
        IfOk result (λ found. MatchOption found
        (IsPassed p.now l t u boxes.now trail.old trail.new first running.new)
        (IsStop p.now l t u boxes.now trail.old trail.new first running.new)) }
    ensures left { UnitsLeave (IsOfVariable layout.now) ops.old ops.new
        (held trail.old ++ running.old) (held trail.new ++ running.new) }

    // What is left where there was no room for a resolvent.
    ensures full { result ≡ Err Stop.Full → IsFull ops.new }
    ensures way { let l = layout.now in let t = table ops.old.arena in
        let u = table ops.new.arena in let first = family l t running.old in
        result ≡ Err Stop.Full
        → IsOnWalk p.now l t u boxes.now trail.old trail.new first running.new }
    ensures made { result ≡ Err Stop.Full → AreReachedOrMade layout.now ops.new }
{
    // How the walk goes on and stops, what stays in another table, and what holds of every pool.
    going(p);
    stopping(p);
    staying(p);
    let _ = ops.pool();
    loop {
        match newest(ops, layout, compiled.start(), trail, running.refs())? {
            None => return Ok(None),
            Some(place) => {
                if stops(
                    ops,
                    p,
                    layout,
                    compiled.start(),
                    trail,
                    boxes,
                    running.refs(),
                    place,
                )? {
                    return Ok(Some(trail.entry(place).var));
                }
                beyond(
                    alloc, ops, p, layout, compiled, trail, boxes, running, place,
                )?;
            }
        }
    }
}

/// Whether the walk stops here, where the entry at that place is the newest that matters. On level 0 it does not.
fn stops(
    ops: &mut Ops,
    p: &Problem,
    layout: &Layout,
    start: &[Ref],
    trail: &Trail,
    boxes: &BoxStore,
    running: &[Ref],
    place: usize,
) -> Result<bool, AllocError>
    requires trail { IsTrailOf p.now layout.now (table ops.old.arena) boxes.now trail.now }
    requires start { AreInitialDomains layout.now (table ops.old.arena) start.now }
    requires running { AreRunning layout.now (table ops.old.arena) running.now }
    requires newest { let t = table ops.old.arena in
        IsNewest layout.now t running.now trail.now.entries place }
    ensures stops { let l = layout.now in let t = table ops.old.arena in
        let es = trail.now.entries in
        IfOk result (λ s. MatchBool s (IsStopAt l t boxes.now es place running.now)
        (GoesOn (entries_of l t boxes.now es) (family l t running.now))) }
    ensures same { ops.new ≡ ops.old }
{
    // Where it stops.
    stopping(p);
    let entry = trail.entry(place);
    if is_root(entry.level) {
        return Ok(false);
    }
    let other = has_other(ops, layout, start, trail, running, place)?;
    Ok(!other)
}

/// Whether the level is that of the entries before each decision.
fn is_root(level: u32) -> bool
    ensures { IsTrue result ↔ level ≡ 0 }
{
    level == 0
}

/// Takes the walk beyond the entry at that place, the newest that matters: takes back the later ones, resolves the
/// running box with its reason box, and takes it back too.
fn beyond(
    alloc: Global,
    ops: &mut Ops,
    p: &Problem,
    layout: &Layout,
    compiled: &Compiled,
    trail: &mut Trail,
    boxes: &BoxStore,
    running: &mut PinList,
    place: usize,
) -> Result<(), Stop>
    requires compiled { IsCompiled layout.now p.now (table ops.old.arena) compiled.now }
    requires trail { IsTrailOf p.now layout.now (table ops.old.arena) boxes.now trail.old }
    requires running { AreRunning layout.now (table ops.old.arena) running.old }
    requires held { AreHeld ops.old (pinned_on_walk compiled.now trail.old boxes.now running.old) }
    requires newest { let t = table ops.old.arena in
        IsNewest layout.now t running.old trail.old.entries place }
    requires on { let l = layout.now in let t = table ops.old.arena in
        GoesOn (entries_of l t boxes.now trail.old.entries) (family l t running.old) }
    ensures way { let l = layout.now in let t = table ops.old.arena in
        let u = table ops.new.arena in let first = family l t running.old in
        OnOk result (IsOnWalk p.now l t u boxes.now trail.old trail.new first running.new) }
    ensures less { OnOk result (length trail.new.entries < length trail.old.entries) }
    ensures left { UnitsLeave (IsOfVariable layout.now) ops.old ops.new
        (held trail.old ++ running.old) (held trail.new ++ running.new) }
    ensures full { result ≡ Err Stop.Full → IsFull ops.new }
    ensures full_way { let l = layout.now in let t = table ops.old.arena in
        let u = table ops.new.arena in let first = family l t running.old in
        result ≡ Err Stop.Full
        → IsOnWalk p.now l t u boxes.now trail.old trail.new first running.new }
    ensures made { result ≡ Err Stop.Full → AreReachedOrMade layout.now ops.new }
{
    // How the walk goes on, what stays in another table, and what holds of every pool.
    going(p);
    staying(p);
    let _ = ops.pool();
    pass(ops, trail, place);
    let _ = ops.pool();
    resolve(alloc, ops, p, layout, compiled, trail, boxes, running)?;
    let _ = ops.pool();
    trail.undo_one(ops);
    Ok(())
}

/// How the walk goes on over the trail.
fn going(p: &Problem)
    ensures { GoingLaws p.now }
{
    walks_follow_undone_trails();
    undone_trails_read_back();
    partly_undone_trails_go_back_alike();
    passing_changes_nothing::<Value>();
    walk_resolves_no_decision(&Posed { problem: p });
}

/// What of a trail and of a compiled problem stays in another table.
fn staying(p: &Problem)
    ensures { StayingLaws p.now }
{
    readings_stay();
    states_stay();
    compiled_stays();
}

/// Where the walk goes on and where it stops.
fn stopping(p: &Problem)
    ensures { StoppingLaws p.now }
{
    entries_read_by_place();
    scanned_entries_read_as_scanned();
    walk_goes_on(&Posed { problem: p });
    walk_stops(&Posed { problem: p });
}

/// Takes back the entries after that place.
fn pass(ops: &mut Ops, trail: &mut Trail, place: usize)
    requires place { place < length trail.old.entries }
    requires held { AreHeld ops.old (held trail.old) }
    ensures left { trail.new.entries ≡ take (place + 1) trail.old.entries }
    ensures undone { AreUndone (drop (place + 1) trail.old.entries) trail.old trail.new }
    ensures only { ops.new ≡ record ops.old { counts = ops.new.counts } }
    ensures moved { Moves ops.old ops.new (held trail.old) (held trail.new) }
{
    while trail.len() > place + 1 {
        trail.undo_one(ops);
    }
}
