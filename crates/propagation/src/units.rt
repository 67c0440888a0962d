//! A unit: one step, and its narrowings put onto the trail, tried once more after a collection.
ghost use Rattle.std.specs.Prelude.{◌≡◌, Err, IfOk};
ghost use Rattle.diagram_arena.specs.Arena.{table};
ghost use Rattle.node_reclaim.specs.Growth.{IsFull, Stays, NewAre};
ghost use Rattle.exact_steps.specs.Domains.{family};
ghost use Rattle.domain_trail.specs.declared.entries.Reason.{Reason as AnyReason};
ghost use Rattle.running_boxes.specs.Running.{IsConflictOf};
ghost use Rattle.propagation.specs.Nodes.{IsOfUnit, AreReachedOrOfUnit};
ghost use Rattle.propagation.specs.Work.{reason_for, IsReady, IsOnward, IsStepped};

use crate::laws::laws;
use crate::putting::put;
use crate::stepping::{narrowings, step_of};
use bit_layout::Layout;
use box_clauses::BoxStore;
use diagram_arena::Stop;
use diagram_ops::Ops;
use domain_trail::{Reason, Trail};
use pin_lists::collect;
use propagators::{Compiled, StepResult};
use running_boxes::Conflict;
use set_meaning::Problem;
use std::alloc::Global;

/// Takes the step of the unit, and narrows the trail by what it answers.
pub(crate) fn take(
    alloc: Global,
    ops: &mut Ops,
    p: &Problem,
    layout: &Layout,
    compiled: &Compiled,
    trail: &mut Trail,
    boxes: &BoxStore,
    unit: Conflict,
) -> Result<StepResult, Stop>
    requires known { IsConflictOf p.now boxes.now unit }
    requires ready { IsReady p.now layout.now ops.old compiled.now boxes.now trail.old }
    ensures stepped { let t = table ops.old.arena in let u = table ops.new.arena in
        IfOk result (IsStepped p.now layout.now t u boxes.now unit trail.old trail.new) }
    ensures onward { IsOnward p.now layout.now boxes.now ops.old ops.new trail.old trail.new }
    ensures full { result ≡ Err Stop.Full → IsFull ops.new }
    ensures stopped { result ≡ Err Stop.Full
        → AreReachedOrOfUnit p.now layout.now boxes.now trail.new.domains ops.new }
{
    // What holds of every pool, and of what stays.
    let _ = ops.pool();
    laws(p);
    ops.begin_unit();
    match attempt(alloc, ops, p, layout, compiled, trail, boxes, unit) {
        Ok(answer) => Ok(answer),
        Err(Stop::Memory) => Err(Stop::Memory),
        Err(Stop::Full) => {
            collect(ops);
            ops.begin_unit();
            let _ = ops.pool();
            attempt(alloc, ops, p, layout, compiled, trail, boxes, unit)
        }
    }
}

/// One try of that unit.
fn attempt(
    alloc: Global,
    ops: &mut Ops,
    p: &Problem,
    layout: &Layout,
    compiled: &Compiled,
    trail: &mut Trail,
    boxes: &BoxStore,
    unit: Conflict,
) -> Result<StepResult, Stop>
    requires known { IsConflictOf p.now boxes.now unit }
    requires ready { IsReady p.now layout.now ops.old compiled.now boxes.now trail.old }
    ensures stepped { let t = table ops.old.arena in let u = table ops.new.arena in
        IfOk result (IsStepped p.now layout.now t u boxes.now unit trail.old trail.new) }
    ensures onward { IsOnward p.now layout.now boxes.now ops.old ops.new trail.old trail.new }
    ensures full { result ≡ Err Stop.Full → IsFull ops.new }
    ensures same { result ≡ Err Stop.Full → trail.new ≡ trail.old }
    ensures stays { result ≡ Err Stop.Full → Stays ops.old ops.new }
    ensures made { let t = table ops.old.arena in let f = family layout.now t trail.old.domains in
        result ≡ Err Stop.Full
        → NewAre t (table ops.new.arena) (IsOfUnit p.now layout.now t boxes.now f unit) }
{
    // What holds of every pool, and of what stays.
    let _ = ops.pool();
    laws(p);
    let answer = step_of(alloc, ops, p, layout, compiled, trail, boxes, unit)?;
    put(
        ops,
        p,
        layout,
        trail,
        boxes,
        reason_of(unit),
        narrowings(&answer),
    )?;
    Ok(answer)
}

/// Why the unit narrows.
fn reason_of(unit: Conflict) -> Reason
    ensures { result ≡ reason_for unit }
{
    match unit {
        Conflict::Constraint(c) => Reason::Constraint(c),
        Conflict::Box(b) => Reason::Box(b),
    }
}
