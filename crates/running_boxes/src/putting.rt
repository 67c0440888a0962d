//! Sets that are pinned in place of others.
ghost use Rattle.std.specs.Prelude.{◌≡◌, ◌<◌, OnOk, length, All};
ghost use Rattle.diagram_arena.specs.Table.{IsLive};
ghost use Rattle.diagram_arena.specs.Arena.{table};
ghost use Rattle.node_reclaim.specs.Holders.{AreHeld};
ghost use Rattle.pin_lists.specs.Units.{Moves};
ghost use Rattle.running_boxes.specs.Work.{put_sides, domain_sides};

use box_clauses::Side;
use diagram_arena::Ref;
use diagram_ops::Ops;
use pin_lists::PinList;
use set_meaning::VarId;
use std::alloc::AllocError;

/// Pins the set of each side at its variable's place, in place of what was there.
pub(crate) fn put(ops: &mut Ops, running: &mut PinList, sides: &[Side]) -> Result<(), AllocError>
    requires known { All (λ s. s.var.0 < length running.old) sides.now }
    requires live { All (λ s. IsLive (table ops.old.arena) s.set) sides.now }
    requires held { AreHeld ops.old running.old }
    ensures put { OnOk result (running.new ≡ put_sides sides.now running.old) }
    ensures moved { Moves ops.old ops.new running.old running.new }
    ensures only { ops.new ≡ record ops.old { counts = ops.new.counts } }
{
    for side in sides {
        running.replace(ops, side.var.0 as usize, side.set)?;
    }
    Ok(())
}

/// Pins the domain of each of these variables at its place, in place of what was there.
pub(crate) fn put_domains(
    ops: &mut Ops,
    running: &mut PinList,
    scope: &[VarId],
    domains: &[Ref],
) -> Result<(), AllocError>
    requires known { All (λ v. v.0 < length running.old) scope.now }
    requires long { length domains.now ≡ length running.old }
    requires live { All (IsLive (table ops.old.arena)) domains.now }
    requires held { AreHeld ops.old running.old }
    ensures put { let sides = domain_sides domains.now scope.now in
        OnOk result (running.new ≡ put_sides sides running.old) }
    ensures moved { Moves ops.old ops.new running.old running.new }
    ensures only { ops.new ≡ record ops.old { counts = ops.new.counts } }
{
    for v in scope {
        let at = v.0 as usize;
        running.replace(ops, at, domains[at])?;
    }
    Ok(())
}
