//! The narrowing by a box that was learned: a unit of work.
ghost use Rattle.std.specs.Prelude.{◌≡◌, ◌<◌, List, Err, OnOk, OnErr, Some, length, slice_get};
ghost use Rattle.diagram_arena.specs.declared.nodes.Ref.{Ref as AnyRef};
ghost use Rattle.diagram_arena.specs.Arena.{table};
ghost use Rattle.node_reclaim.specs.Growth.{IsFull};
ghost use Rattle.node_reclaim.specs.Holders.{AreHeld, MeansTheSame};
ghost use Rattle.pin_lists.specs.Units.{UnitsLeave};
ghost use Rattle.domain_trail.specs.Trail.{held};
ghost use Rattle.running_boxes.specs.Nodes.{IsOfVariable};
ghost use Rattle.search_turns.specs.Work.{set_of, IsNarrowedOutside, IsReadyToNarrow};

use crate::laws::laws;
use bit_layout::Layout;
use box_clauses::{BoxStore, Side};
use diagram_arena::{Ref, Stop};
use diagram_ops::Ops;
use domain_trail::{Reason, Trail};
use pin_lists::collect;
use set_meaning::{BoxId, VarId};
use value_sets::difference;

/// Narrows the variable to what is outside its side in the stored box: a unit. Where it finds no room, the nodes that
/// no pin reaches are freed and it is tried once more; after a second refusal the trail is as it was.
pub(crate) fn narrow_outside(
    ops: &mut Ops,
    layout: &Layout,
    trail: &mut Trail,
    boxes: &BoxStore,
    id: BoxId,
    v: VarId,
) -> Result<(), Stop>
    requires ready { IsReadyToNarrow layout.now ops.old boxes.now trail.old id v }
    ensures narrowed { let u = table ops.new.arena in
        OnOk result (IsNarrowedOutside layout.now u boxes.now id v trail.old trail.new) }
    ensures same { OnErr result (trail.new ≡ trail.old) }
    ensures left { UnitsLeave (IsOfVariable layout.now) ops.old ops.new (held trail.old) (held trail.new) }
    ensures kept { (rs : List AnyRef) → AreHeld ops.old rs
        → MeansTheSame (table ops.old.arena) (table ops.new.arena) rs }
    ensures full { result ≡ Err Stop.Full → IsFull ops.new }
{
    // What holds of domains and readings, and of every pool.
    laws();
    let _ = ops.pool();
    ops.begin_unit();
    match attempt(ops, layout, trail, boxes, id, v) {
        Ok(()) => Ok(()),
        Err(Stop::Memory) => Err(Stop::Memory),
        Err(Stop::Full) => {
            collect(ops);
            ops.begin_unit();
            attempt(ops, layout, trail, boxes, id, v)
        }
    }
}

/// One try of that unit.
fn attempt(
    ops: &mut Ops,
    layout: &Layout,
    trail: &mut Trail,
    boxes: &BoxStore,
    id: BoxId,
    v: VarId,
) -> Result<(), Stop>
    requires ready { IsReadyToNarrow layout.now ops.old boxes.now trail.old id v }
    ensures narrowed { let u = table ops.new.arena in
        OnOk result (IsNarrowedOutside layout.now u boxes.now id v trail.old trail.new) }
    ensures same { OnErr result (trail.new ≡ trail.old) }
    ensures left { UnitsLeave (IsOfVariable layout.now) ops.old ops.new (held trail.old) (held trail.new) }
    ensures kept { (rs : List AnyRef) → AreHeld ops.old rs
        → MeansTheSame (table ops.old.arena) (table ops.new.arena) rs }
    ensures full { result ≡ Err Stop.Full → IsFull ops.new }
{
    // What holds of domains and readings, and of every pool.
    laws();
    let _ = ops.pool();
    match set_of(boxes.sides(id), v) {
        Some(side) => {
            let domain = set_at(trail.domains(), v);
            let to = difference(ops, layout, v, domain, side)?;
            trail.narrow(ops, v, to, Reason::Box(id))?;
            Ok(())
        }
        None => unreachable!(),
    }
}

/// The set of the variable in a list that has one for each.
fn set_at(sets: &[Ref], v: VarId) -> Ref
    requires { v.0 < length sets.now }
    ensures { slice_get sets.now v.0 ≡ Some result }
{
    sets[v.0 as usize]
}

/// The set of the side of the variable, if it has one.
fn set_of(sides: &[Side], v: VarId) -> Option<Ref>
    ensures { result ≡ set_of sides.now v.0 }
{
    match sides.iter().find(|side| side.var.0 == v.0) {
        Some(side) => Some(side.set),
        None => None,
    }
}
