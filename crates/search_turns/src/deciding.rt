//! A decision, where everything leaves the domains as they are: a unit of work.
ghost use Rattle.std.specs.Prelude.{◌≡◌, ◌≢◌, ◌<◌, ◌+◌, List, Err, IfOk, OnOk, length};
ghost use Rattle.diagram_arena.specs.declared.nodes.Ref.{Ref as AnyRef};
ghost use Rattle.diagram_arena.specs.Table.{IsLive};
ghost use Rattle.diagram_arena.specs.Arena.{table};
ghost use Rattle.node_reclaim.specs.Growth.{IsFull};
ghost use Rattle.node_reclaim.specs.Holders.{AreHeld, MeansTheSame};
ghost use Rattle.pin_lists.specs.Units.{UnitsLeave};
ghost use Rattle.pin_lists.specs.Units.{Moves};
ghost use Rattle.domain_trail.specs.Trail.{narrowed, held};
ghost use Rattle.running_boxes.specs.Nodes.{IsOfVariable};
ghost use Rattle.propagation.specs.Quiet.{AreAllQuiet};
ghost use Rattle.search_turns.specs.States.{IsStanding, IsLegalForSome};
ghost use Rattle.search_turns.specs.Work.{IsReadyToDecide, IsDecisionTaken, TurnLeaves};

use crate::laws::{laws, turn_laws};
use crate::outcomes::{FindStop, Found, Turn};
use bit_layout::Layout;
use box_clauses::BoxStore;
use branching::decision;
use diagram_arena::{Ref, Stop};
use diagram_ops::Ops;
use domain_trail::{Reason, Trail};
use pin_lists::collect;
use propagators::Compiled;
use set_meaning::{Problem, VarId};
use std::alloc::AllocError;

/// Takes the decision of the branching rule, where everything leaves the domains as they are; or every domain has one
/// value.
pub(crate) fn take_decision(
    ops: &mut Ops,
    p: &Problem,
    layout: &Layout,
    compiled: &Compiled,
    trail: &mut Trail,
    boxes: &BoxStore,
) -> Result<Turn, FindStop>
    requires standing { IsStanding p.now layout.now ops.old compiled.now boxes.now trail.old }
    requires legal { IsLegalForSome p.now layout.now (table ops.old.arena) boxes.now trail.old }
    requires quiet { AreAllQuiet p.now layout.now (table ops.old.arena) boxes.now trail.old.domains }
    ensures left { TurnLeaves p.now layout.now compiled.now ops.old ops.new boxes.now trail.old boxes.now trail.new
        result }
    ensures not_conflicts { result ≢ Err FindStop.Conflicts }
{
    // What holds of states, of turns and of every pool.
    laws();
    turn_laws(p);
    let _ = ops.pool();
    match decide(ops, layout, trail) {
        Ok(Some(v)) => Ok(Turn::Narrowed(v)),
        Ok(None) => Ok(Turn::Ended(Found::Single)),
        Err(Stop::Full) => Err(FindStop::Full),
        Err(Stop::Memory) => Err(FindStop::Memory),
    }
}

/// Opens a level with the decision of the branching rule, and answers its variable; None where every domain has one
/// value. A unit: where it finds no room, the nodes that no pin reaches are freed and it is tried once more; after a
/// second refusal the trail is as it was.
fn decide(ops: &mut Ops, layout: &Layout, trail: &mut Trail) -> Result<Option<VarId>, Stop>
    requires ready { IsReadyToDecide layout.now ops.old trail.old }
    ensures taken { IfOk result (IsDecisionTaken layout.now (table ops.new.arena) trail.old trail.new) }
    ensures same { result ≡ Err Stop.Full → trail.new ≡ trail.old }
    ensures left { UnitsLeave (IsOfVariable layout.now) ops.old ops.new (held trail.old) (held trail.new) }
    ensures kept { (rs : List AnyRef) → AreHeld ops.old rs
        → MeansTheSame (table ops.old.arena) (table ops.new.arena) rs }
    ensures full { result ≡ Err Stop.Full → IsFull ops.new }
{
    // What holds of domains, and of every pool.
    laws();
    let _ = ops.pool();
    ops.begin_unit();
    match attempt(ops, layout, trail) {
        Ok(decided) => Ok(decided),
        Err(Stop::Memory) => Err(Stop::Memory),
        Err(Stop::Full) => {
            collect(ops);
            ops.begin_unit();
            attempt(ops, layout, trail)
        }
    }
}

/// One try of that unit.
fn attempt(ops: &mut Ops, layout: &Layout, trail: &mut Trail) -> Result<Option<VarId>, Stop>
    requires ready { IsReadyToDecide layout.now ops.old trail.old }
    ensures taken { IfOk result (IsDecisionTaken layout.now (table ops.new.arena) trail.old trail.new) }
    ensures same { result ≡ Err Stop.Full → trail.new ≡ trail.old }
    ensures left { UnitsLeave (IsOfVariable layout.now) ops.old ops.new (held trail.old) (held trail.new) }
    ensures kept { (rs : List AnyRef) → AreHeld ops.old rs
        → MeansTheSame (table ops.old.arena) (table ops.new.arena) rs }
    ensures full { result ≡ Err Stop.Full → IsFull ops.new }
{
    // What holds of domains, and of every pool.
    laws();
    let _ = ops.pool();
    match decision(ops, layout, trail.domains(), 0) {
        Ok(None) => Ok(None),
        Ok(Some((v, to))) => {
            open(ops, trail, v, to)?;
            Ok(Some(v))
        }
        Err(stop) => Err(stop),
    }
}

/// Opens a level and gives the variable this domain. An `Err` is want of memory, or of numbers.
fn open(ops: &mut Ops, trail: &mut Trail, v: VarId, to: Ref) -> Result<(), AllocError>
    requires known { v.0 < length trail.old.domains }
    requires live { IsLive (table ops.old.arena) to }
    ensures opened { OnOk result
        (trail.new ≡ narrowed (record trail.old { level = trail.old.level + 1 }) v to Reason.Decision) }
    ensures moved { Moves ops.old ops.new (held trail.old) (held trail.new) }
    ensures only { ops.new ≡ record ops.old { counts = ops.new.counts } }
{
    trail.new_level()?;
    trail.narrow(ops, v, to, Reason::Decision)?;
    Ok(())
}
