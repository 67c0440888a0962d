//! The resolvent of the running box with the reason box of the newest entry: a unit of work.
ghost use Rattle.std.specs.Prelude.{◌≡◌, ◌≢◌, ◌<◌, [], ◌∷◌, ◌++◌, Err, IfOk, OnOk, length, All};
ghost use Rattle.diagram_arena.specs.Arena.{table};
ghost use Rattle.node_reclaim.specs.Growth.{IsFull, Stays, NewAre};
ghost use Rattle.node_reclaim.specs.Holders.{AreHeld};
ghost use Rattle.pin_lists.specs.Units.{UnitsLeave};
ghost use Rattle.value_sets.specs.Sets.{IsValueSet, IsSetOf, both};
ghost use Rattle.exact_steps.specs.Domains.{values_in, family};
ghost use Rattle.propagators.specs.Compiled.{pinned_by, IsInitialDomain, AreInitialDomains, IsCompiled};
ghost use Rattle.domain_trail.specs.declared.entries.Entry.{Entry as AnyEntry};
ghost use Rattle.domain_trail.specs.Trail.{held};
ghost use Rattle.box_clauses.specs.Boxes.{IsSide};
ghost use Rattle.box_clauses.specs.Stored.{stored_sets};
ghost use Rattle.search_state.specs.Readings.{IsTrailOf};
ghost use Rattle.running_boxes.specs.Running.{AreRunning, IsRunning, IsNewest, resolvent_of, IsResolved};
ghost use Rattle.running_boxes.specs.Nodes.{IsPartOfValues, IsOfVariable, IsMadeOf, AreReachedOrMade};
ghost use Rattle.running_boxes.specs.Work.{AreChanges, IsResolvedSide, AreResolved, IsOfResolved};
ghost use Rattle.running_boxes.specs.Work.{resolved_values, IsReady};

use crate::laws::laws;
use crate::putting::put;
use crate::reasons::{is_same, removed_sides, set_at};
use bit_layout::Layout;
use box_clauses::{BoxStore, Side};
use diagram_arena::{Ref, Stop};
use diagram_ops::Ops;
use domain_trail::{Entry, Reason, Trail};
use pin_lists::{PinList, collect};
use propagators::Compiled;
use set_meaning::{BoxId, ConId, Problem, VarId};
use std::alloc::{AllocError, Global};
use value_sets::{difference, intersection, union};

/// Resolves the running box with the reason box of the trail's newest entry, which must be no decision: union at the
/// entry's variable, intersection elsewhere. The trail stays as it is; the entry's domain must still be pinned, so undo
/// the entry afterwards.
///
/// Where there is no room, the nodes that no pin reaches are freed and it is tried once more; a second refusal is Full,
/// and the running box is as it was, with the same sets. After Memory some of its sets may be those of the resolvent.
pub fn resolve(
    alloc: Global,
    ops: &mut Ops,
    p: &Problem,
    layout: &Layout,
    compiled: &Compiled,
    trail: &Trail,
    boxes: &BoxStore,
    running: &mut PinList,
) -> Result<(), Stop>
    requires some { 0 < length trail.now.entries }
    requires reason { (e : AnyEntry) → IsNewest trail.now e → e.reason ≢ Reason.Decision }
    requires compiled { IsCompiled layout.now p.now (table ops.old.arena) compiled.now }
    requires trail { IsTrailOf p.now layout.now (table ops.old.arena) boxes.now trail.now }
    requires running { AreRunning layout.now (table ops.old.arena) running.old }
    requires held { let rs = stored_sets boxes.now ++ running.old in
        AreHeld ops.old (pinned_by compiled.now ++ (held trail.now ++ rs)) }
    ensures resolved { let s = trail.now in let t = table ops.old.arena in
        OnOk result (IsResolved p.now layout.now t (table ops.new.arena) boxes.now s running.old running.new) }
    ensures left { UnitsLeave (IsOfVariable layout.now) ops.old ops.new running.old running.new }
    ensures full { result ≡ Err Stop.Full → IsFull ops.new }
    ensures same { result ≡ Err Stop.Full → running.new ≡ running.old }
    ensures reads { let f = family layout.now (table ops.old.arena) running.old in
        result ≡ Err Stop.Full → IsRunning layout.now (table ops.new.arena) f running.new }
    ensures made { result ≡ Err Stop.Full → AreReachedOrMade layout.now ops.new }
{
    // What holds of value sets, trails and compiled problems, and of every pool.
    laws();
    let _ = ops.pool();
    ops.begin_unit();
    match attempt(alloc, ops, p, layout, compiled, trail, boxes, running) {
        Ok(()) => Ok(()),
        Err(Stop::Memory) => Err(Stop::Memory),
        Err(Stop::Full) => {
            collect(ops);
            ops.begin_unit();
            let _ = ops.pool();
            attempt(alloc, ops, p, layout, compiled, trail, boxes, running)
        }
    }
}

/// One try of that unit.
fn attempt(
    alloc: Global,
    ops: &mut Ops,
    p: &Problem,
    layout: &Layout,
    compiled: &Compiled,
    trail: &Trail,
    boxes: &BoxStore,
    running: &mut PinList,
) -> Result<(), Stop>
    requires some { 0 < length trail.now.entries }
    requires reason { (e : AnyEntry) → IsNewest trail.now e → e.reason ≢ Reason.Decision }
    requires ready { IsReady p.now layout.now ops.old compiled.now trail.now boxes.now running.old }
    ensures resolved { let s = trail.now in let t = table ops.old.arena in
        OnOk result (IsResolved p.now layout.now t (table ops.new.arena) boxes.now s running.old running.new) }
    ensures left { UnitsLeave (IsOfVariable layout.now) ops.old ops.new running.old running.new }
    ensures full { result ≡ Err Stop.Full → IsFull ops.new }
    ensures same { result ≡ Err Stop.Full → running.new ≡ running.old }
    ensures stays { result ≡ Err Stop.Full → Stays ops.old ops.new }
    ensures made { result ≡ Err Stop.Full
        → NewAre (table ops.old.arena) (table ops.new.arena) (IsMadeOf layout.now ops.old) }
{
    // What holds of every pool, and of value sets.
    let _ = ops.pool();
    laws();
    let entry = newest(trail);
    let sides = changes(
        alloc,
        ops,
        p,
        layout,
        compiled,
        trail,
        boxes,
        running.refs(),
        entry,
    )?;
    put(ops, running, sides.as_slice())?;
    Ok(())
}

/// The newest entry.
fn newest(trail: &Trail) -> Entry
    requires { 0 < length trail.now.entries }
    ensures { IsNewest trail.now result }
{
    trail.entry(trail.len() - 1)
}

/// The sides at which the resolvent may differ from the running box.
fn changes(
    alloc: Global,
    ops: &mut Ops,
    p: &Problem,
    layout: &Layout,
    compiled: &Compiled,
    trail: &Trail,
    boxes: &BoxStore,
    running: &[Ref],
    entry: Entry,
) -> Result<Vec<Side>, Stop>
    requires newest { IsNewest trail.now entry }
    requires reason { entry.reason ≢ Reason.Decision }
    requires ready { IsReady p.now layout.now ops.old compiled.now trail.now boxes.now running.now }
    ensures sides { let t = table ops.old.arena in
        let g = resolvent_of p.now layout.now t boxes.now trail.now entry running.now in
        let u = table ops.new.arena in
        IfOk result (λ sides. AreChanges layout.now t u running.now g sides.items) }
    ensures stays { Stays ops.old ops.new }
    ensures full { result ≡ Err Stop.Full → IsFull ops.new }
    ensures made { NewAre (table ops.old.arena) (table ops.new.arena) (IsMadeOf layout.now ops.old) }
{
    match entry.reason {
        Reason::Decision => unreachable!(),
        Reason::Constraint(c) => {
            by_constraint(
                alloc, ops, p, layout, compiled, trail, boxes, running, entry, c,
            )
        }
        Reason::Box(b) => by_box(
            alloc, ops, p, layout, compiled, trail, boxes, running, entry, b,
        ),
    }
}

/// Those sides where the entry was made by a constraint.
fn by_constraint(
    alloc: Global,
    ops: &mut Ops,
    p: &Problem,
    layout: &Layout,
    compiled: &Compiled,
    trail: &Trail,
    boxes: &BoxStore,
    running: &[Ref],
    entry: Entry,
    c: ConId,
) -> Result<Vec<Side>, Stop>
    requires newest { IsNewest trail.now entry }
    requires reason { entry.reason ≡ Reason.Constraint c }
    requires ready { IsReady p.now layout.now ops.old compiled.now trail.now boxes.now running.now }
    ensures sides { let t = table ops.old.arena in
        let g = resolvent_of p.now layout.now t boxes.now trail.now entry running.now in
        let u = table ops.new.arena in
        IfOk result (λ sides. AreChanges layout.now t u running.now g sides.items) }
    ensures stays { Stays ops.old ops.new }
    ensures full { result ≡ Err Stop.Full → IsFull ops.new }
    ensures made { NewAre (table ops.old.arena) (table ops.new.arena) (IsMadeOf layout.now ops.old) }
{
    // What holds of every layout and every pool, and of value sets and constraints.
    layout.obeys_order();
    let _ = ops.pool();
    laws();
    let domains = trail.domains();
    let domain = set_at(domains, entry.var);
    let removed = difference(ops, layout, entry.var, entry.before, domain)?;
    let sides = removed_sides(alloc, compiled.scope(c), domains, entry.var, removed)?;
    resolved_sides(
        alloc,
        ops,
        layout,
        compiled.start(),
        running,
        sides.as_slice(),
        entry.var,
    )
}

/// Those sides where the entry was made by a box.
fn by_box(
    alloc: Global,
    ops: &mut Ops,
    p: &Problem,
    layout: &Layout,
    compiled: &Compiled,
    trail: &Trail,
    boxes: &BoxStore,
    running: &[Ref],
    entry: Entry,
    b: BoxId,
) -> Result<Vec<Side>, Stop>
    requires newest { IsNewest trail.now entry }
    requires reason { entry.reason ≡ Reason.Box b }
    requires ready { IsReady p.now layout.now ops.old compiled.now trail.now boxes.now running.now }
    ensures sides { let t = table ops.old.arena in
        let g = resolvent_of p.now layout.now t boxes.now trail.now entry running.now in
        let u = table ops.new.arena in
        IfOk result (λ sides. AreChanges layout.now t u running.now g sides.items) }
    ensures stays { Stays ops.old ops.new }
    ensures full { result ≡ Err Stop.Full → IsFull ops.new }
    ensures made { NewAre (table ops.old.arena) (table ops.new.arena) (IsMadeOf layout.now ops.old) }
{
    // What holds of every layout and every pool, and of value sets.
    layout.obeys_order();
    let _ = ops.pool();
    laws();
    resolved_sides(
        alloc,
        ops,
        layout,
        compiled.start(),
        running,
        boxes.sides(b),
        entry.var,
    )
}

/// The sides of the resolvent on `v` at the variables of these sides.
fn resolved_sides(
    alloc: Global,
    ops: &mut Ops,
    layout: &Layout,
    start: &[Ref],
    running: &[Ref],
    sides: &[Side],
    v: VarId,
) -> Result<Vec<Side>, Stop>
    requires start { AreInitialDomains layout.now (table ops.old.arena) start.now }
    requires running { AreRunning layout.now (table ops.old.arena) running.now }
    requires sides { All (IsSide layout.now (table ops.old.arena)) sides.now }
    ensures resolved { let t = table ops.old.arena in
        let u = table ops.new.arena in
        IfOk result (λ resolved. AreResolved layout.now t u running.now v sides.now resolved.items) }
    ensures stays { Stays ops.old ops.new }
    ensures full { result ≡ Err Stop.Full → IsFull ops.new }
    ensures made { let t = table ops.old.arena in
        NewAre t (table ops.new.arena) (IsOfResolved layout.now t running.now v sides.now) }
{
    // What holds of every pool, and of value sets.
    let _ = ops.pool();
    laws();
    let mut resolved = Vec::new(alloc);
    for side in sides {
        let changed = resolved_side(ops, layout, start, running, *side, v)?;
        append(&mut resolved, changed)?;
    }
    Ok(resolved)
}

/// Adds the side at the end.
fn append(sides: &mut Vec<Side>, side: Side) -> Result<(), AllocError>
    ensures { OnOk result (sides.new.items ≡ sides.old.items ++ side ∷ []) }
{
    sides.push(side)?;
    Ok(())
}

/// One of them.
fn resolved_side(
    ops: &mut Ops,
    layout: &Layout,
    start: &[Ref],
    running: &[Ref],
    side: Side,
    v: VarId,
) -> Result<Side, Stop>
    requires start { AreInitialDomains layout.now (table ops.old.arena) start.now }
    requires running { AreRunning layout.now (table ops.old.arena) running.now }
    requires side { IsSide layout.now (table ops.old.arena) side }
    ensures side { let t = table ops.old.arena in
        IfOk result (IsResolvedSide layout.now t (table ops.new.arena) running.now v side) }
    ensures stays { Stays ops.old ops.new }
    ensures full { result ≡ Err Stop.Full → IsFull ops.new }
    ensures made { let t = table ops.old.arena in let f = resolved_values layout.now t running.now v side in
        NewAre t (table ops.new.arena) (IsPartOfValues layout.now side.var f) }
{
    let own = set_at(running, side.var);
    let set = if side.var.0 == v.0 {
        union(ops, layout, side.var, own, side.set)?
    } else {
        meet(
            ops,
            layout,
            side.var,
            set_at(start, side.var),
            own,
            side.set,
        )?
    };
    Ok(Side { var: side.var, set })
}

/// The values in both sets. Where one of them has all initial values, those of `whole`, this is the other, and nothing
/// is made.
fn meet(
    ops: &mut Ops,
    layout: &Layout,
    v: VarId,
    whole: Ref,
    own: Ref,
    set: Ref,
) -> Result<Ref, Stop>
    requires known { v.0 < length layout.now.kinds }
    requires whole { IsInitialDomain layout.now (table ops.old.arena) v whole }
    requires own { IsValueSet layout.now (table ops.old.arena) v own }
    requires set { IsValueSet layout.now (table ops.old.arena) v set }
    ensures set { let t = table ops.old.arena in
        let s = both (values_in layout.now t v own) (values_in layout.now t v set) in
        IfOk result (IsSetOf layout.now (table ops.new.arena) v s) }
    ensures stays { Stays ops.old ops.new }
    ensures full { result ≡ Err Stop.Full → IsFull ops.new }
    ensures made { let t = table ops.old.arena in
        let s = both (values_in layout.now t v own) (values_in layout.now t v set) in
        NewAre t (table ops.new.arena) (IsPartOfValues layout.now v s) }
{
    // What holds of every pool.
    let _ = ops.pool();
    if is_same(own, whole) {
        return Ok(set);
    }
    if is_same(set, whole) {
        return Ok(own);
    }
    intersection(ops, layout, v, own, set)
}
