//! Which entries of a trail matter to a box.
ghost use Rattle.std.specs.Prelude.{◌≡◌, ◌<◌, ◌≤◌, List, All, Any, AllPairs, Some, length, slice_get, take};
ghost use Rattle.std.specs.Prelude.{IfOk, MatchBool, MatchOption};
ghost use Rattle.diagram_arena.specs.Arena.{table};
ghost use Rattle.exact_steps.specs.Domains.{family};
ghost use Rattle.propagators.specs.Compiled.{AreInitialDomains};
ghost use Rattle.search_rules.specs.Walk.{IsNewestOther};
ghost use Rattle.domain_trail.specs.declared.entries.Entry.{Entry as AnyEntry};
ghost use Rattle.box_clauses.specs.declared.store.StoredBox.{StoredBox};
ghost use Rattle.search_state.specs.Readings.{entries_of};
ghost use Rattle.running_boxes.specs.Running.{AreRunning};
ghost use Rattle.explain.specs.Scans.{IsOld, Matters, Passes, MattersOf, PassesOrIs, IsNewest, IsOther, IsNoOther};

use bit_layout::Layout;
use diagram_arena::Ref;
use diagram_ops::Ops;
use domain_trail::{Entry, Trail};
use search_moves::newest_other_by_scan;
use search_state::{entries_read_by_place, scanned_entries_read_as_scanned};
use set_meaning::{Value, VarId};
use std::alloc::AllocError;
use value_sets::{domains_are_value_sets, is_inside};

/// Whether the domain of the entry from before does not lie in the side of its variable. `start` has the initial
/// domains.
fn matters(
    ops: &mut Ops,
    layout: &Layout,
    start: &[Ref],
    running: &[Ref],
    entry: Entry,
) -> Result<bool, AllocError>
    requires entry { IsOld layout.now (table ops.old.arena) entry }
    requires start { AreInitialDomains layout.now (table ops.old.arena) start.now }
    requires running { AreRunning layout.now (table ops.old.arena) running.now }
    ensures matters { let l = layout.now in let t = table ops.old.arena in
        IfOk result (λ m. MatchBool m
        (Matters l t running.now entry) (Passes l t running.now entry)) }
    ensures same { ops.new ≡ ops.old }
{
    // What domains are.
    domains_are_value_sets();
    let side = running[entry.var.0 as usize];
    if side == start[entry.var.0 as usize] {
        return Ok(false);
    }
    let inside = is_inside(ops, layout, entry.var, entry.before, side)?;
    Ok(!inside)
}

/// The place of the newest entry that matters.
pub(crate) fn newest(
    ops: &mut Ops,
    layout: &Layout,
    start: &[Ref],
    trail: &Trail,
    running: &[Ref],
) -> Result<Option<usize>, AllocError>
    requires entries { All (IsOld layout.now (table ops.old.arena)) trail.now.entries }
    requires start { AreInitialDomains layout.now (table ops.old.arena) start.now }
    requires running { AreRunning layout.now (table ops.old.arena) running.now }
    ensures newest { let l = layout.now in let t = table ops.old.arena in
        IfOk result (λ found. MatchOption found
        (All (Passes l t running.now) trail.now.entries)
        (IsNewest l t running.now trail.now.entries)) }
    ensures same { ops.new ≡ ops.old }
{
    let mut at = trail.len();
    while at > 0 {
        at -= 1;
        if matters(ops, layout, start, running, trail.entry(at))? {
            return Ok(Some(at));
        }
    }
    Ok(None)
}

/// Whether an entry before that place, of another variable and at its level, matters.
pub(crate) fn has_other(
    ops: &mut Ops,
    layout: &Layout,
    start: &[Ref],
    trail: &Trail,
    running: &[Ref],
    place: usize,
) -> Result<bool, AllocError>
    requires place { place < length trail.now.entries }
    requires entries { All (IsOld layout.now (table ops.old.arena)) trail.now.entries }
    requires levels { AllPairs (λ (a : AnyEntry) (b : AnyEntry). a.level ≤ b.level)
        trail.now.entries }
    requires start { AreInitialDomains layout.now (table ops.old.arena) start.now }
    requires running { AreRunning layout.now (table ops.old.arena) running.now }
    ensures other { let l = layout.now in let t = table ops.old.arena in
        let before = take place trail.now.entries in
        (e : AnyEntry) → slice_get trail.now.entries place ≡ Some e
        → IfOk result (λ other. MatchBool other
        (Any (IsOther l t running.now e.level e.var) before)
        (All (IsNoOther l t running.now e.level e.var) before)) }
    ensures same { ops.new ≡ ops.old }
{
    let newest = trail.entry(place);
    let mut at = place;
    while at > 0 {
        at -= 1;
        let entry = trail.entry(at);
        if entry.level < newest.level {
            return Ok(false);
        }
        if is_other(ops, layout, start, running, entry, newest.var)? {
            return Ok(true);
        }
    }
    Ok(false)
}

/// Whether the entry matters and is of another variable than `v`.
fn is_other(
    ops: &mut Ops,
    layout: &Layout,
    start: &[Ref],
    running: &[Ref],
    entry: Entry,
    v: VarId,
) -> Result<bool, AllocError>
    requires entry { IsOld layout.now (table ops.old.arena) entry }
    requires start { AreInitialDomains layout.now (table ops.old.arena) start.now }
    requires running { AreRunning layout.now (table ops.old.arena) running.now }
    ensures other { let l = layout.now in let t = table ops.old.arena in
        IfOk result (λ other. MatchBool other
        (MattersOf l t running.now v entry) (PassesOrIs l t running.now v entry)) }
    ensures same { ops.new ≡ ops.old }
{
    if entry.var == v {
        return Ok(false);
    }
    matters(ops, layout, start, running, entry)
}

/// The level of the newest entry of another variable that matters, 0 where there is none.
pub(crate) fn level_back(
    ops: &mut Ops,
    layout: &Layout,
    start: &[Ref],
    trail: &Trail,
    running: &[Ref],
    v: VarId,
) -> Result<u32, AllocError>
    requires entries { All (IsOld layout.now (table ops.old.arena)) trail.now.entries }
    requires start { AreInitialDomains layout.now (table ops.old.arena) start.now }
    requires running { AreRunning layout.now (table ops.old.arena) running.now }
    ensures level { let l = layout.now in let t = table ops.old.arena in
        let b = family l t running.now in
        (stored : List StoredBox)
        → IfOk result (IsNewestOther (entries_of l t stored trail.now.entries) b v.0) }
    ensures same { ops.new ≡ ops.old }
{
    // How entries read by place, and where the newest other stands.
    entries_read_by_place();
    scanned_entries_read_as_scanned();
    newest_other_by_scan::<Value>();
    let mut at = trail.len();
    while at > 0 {
        at -= 1;
        let entry = trail.entry(at);
        if is_other(ops, layout, start, running, entry, v)? {
            return Ok(entry.level);
        }
    }
    Ok(0)
}
