//! The step of a unit: of a constraint, or of a box in store.
ghost use Rattle.std.specs.Prelude.{◌≡◌, ◌<◌, Err, IfOk, length};
ghost use Rattle.diagram_arena.specs.Arena.{table};
ghost use Rattle.node_reclaim.specs.Growth.{IsFull, Stays, NewAre};
ghost use Rattle.exact_steps.specs.Domains.{family};
ghost use Rattle.running_boxes.specs.Running.{IsConflictOf};
ghost use Rattle.propagation.specs.Nodes.{IsOfUnit};
ghost use Rattle.propagation.specs.Work.{IsReady, IsAnswerOf, IsListed, narrowings_in};

use crate::laws::laws;
use bit_layout::Layout;
use box_clauses::{BoxResult, BoxStore, box_step};
use diagram_arena::{Ref, Stop};
use diagram_ops::Ops;
use domain_trail::Trail;
use propagators::{Compiled, StepResult, step};
use running_boxes::Conflict;
use set_meaning::{BoxId, ConId, Problem, VarId};
use std::alloc::{AllocError, Global};

/// The step of the unit on the domains of the trail. Nothing is pinned.
pub(crate) fn step_of(
    alloc: Global,
    ops: &mut Ops,
    p: &Problem,
    layout: &Layout,
    compiled: &Compiled,
    trail: &Trail,
    boxes: &BoxStore,
    unit: Conflict,
) -> Result<StepResult, Stop>
    requires known { IsConflictOf p.now boxes.now unit }
    requires ready { IsReady p.now layout.now ops.old compiled.now boxes.now trail.now }
    ensures answer { let u = table ops.new.arena in let f = family layout.now u trail.now.domains in
        IfOk result (IsAnswerOf p.now layout.now u boxes.now f unit) }
    ensures stays { Stays ops.old ops.new }
    ensures full { result ≡ Err Stop.Full → IsFull ops.new }
    ensures made { let t = table ops.old.arena in let f = family layout.now t trail.now.domains in
        NewAre t (table ops.new.arena) (IsOfUnit p.now layout.now t boxes.now f unit) }
{
    match unit {
        Conflict::Constraint(c) => {
            by_constraint(alloc, ops, p, layout, compiled, trail, boxes, c)
        }
        Conflict::Box(b) => by_box(alloc, ops, p, layout, compiled, trail, boxes, b),
    }
}

/// The step of a constraint.
fn by_constraint(
    alloc: Global,
    ops: &mut Ops,
    p: &Problem,
    layout: &Layout,
    compiled: &Compiled,
    trail: &Trail,
    boxes: &BoxStore,
    c: ConId,
) -> Result<StepResult, Stop>
    requires known { c.0 < length p.now.constraints }
    requires ready { IsReady p.now layout.now ops.old compiled.now boxes.now trail.now }
    ensures answer { let u = table ops.new.arena in let f = family layout.now u trail.now.domains in
        IfOk result (IsAnswerOf p.now layout.now u boxes.now f (Conflict.Constraint c)) }
    ensures stays { Stays ops.old ops.new }
    ensures full { result ≡ Err Stop.Full → IsFull ops.new }
    ensures made { let t = table ops.old.arena in let f = family layout.now t trail.now.domains in
        NewAre t (table ops.new.arena) (IsOfUnit p.now layout.now t boxes.now f (Conflict.Constraint c)) }
{
    // What holds of every layout and every pool.
    layout.obeys_order();
    let _ = ops.pool();
    laws(p);
    step(alloc, ops, layout, compiled, c, trail.domains())
}

/// The step of a box.
fn by_box(
    alloc: Global,
    ops: &mut Ops,
    p: &Problem,
    layout: &Layout,
    compiled: &Compiled,
    trail: &Trail,
    boxes: &BoxStore,
    b: BoxId,
) -> Result<StepResult, Stop>
    requires known { b.0 < length boxes.now }
    requires ready { IsReady p.now layout.now ops.old compiled.now boxes.now trail.now }
    ensures answer { let u = table ops.new.arena in let f = family layout.now u trail.now.domains in
        IfOk result (IsAnswerOf p.now layout.now u boxes.now f (Conflict.Box b)) }
    ensures stays { Stays ops.old ops.new }
    ensures full { result ≡ Err Stop.Full → IsFull ops.new }
    ensures made { let t = table ops.old.arena in let f = family layout.now t trail.now.domains in
        NewAre t (table ops.new.arena) (IsOfUnit p.now layout.now t boxes.now f (Conflict.Box b)) }
{
    // What holds of every pool.
    let _ = ops.pool();
    laws(p);
    let answer = box_step(ops, layout, boxes.sides(b), trail.domains())?;
    let listed = in_list(alloc, answer)?;
    Ok(listed)
}

/// The answer of a box, its narrowing as a list.
fn in_list(alloc: Global, answer: BoxResult) -> Result<StepResult, AllocError>
    ensures { IfOk result (IsListed answer) }
{
    match answer {
        BoxResult::Same => Ok(StepResult::Same),
        BoxResult::Narrowed(v, r) => {
            let kept = Vec::from_slice(alloc, &[(v, r)])?;
            Ok(StepResult::Narrowed(kept))
        }
        BoxResult::Empty => Ok(StepResult::Empty),
    }
}

/// What a step narrows.
pub(crate) fn narrowings(answer: &StepResult) -> &[(VarId, Ref)]
    ensures { result.now ≡ narrowings_in answer.now }
{
    match answer {
        StepResult::Same => &[],
        StepResult::Narrowed(kept) => kept.as_slice(),
        StepResult::Empty => &[],
    }
}
