//! Narrowings that are put onto the trail, one after another.
ghost use Rattle.std.specs.Prelude.{◌≡◌, ◌≢◌, OnOk};
ghost use Rattle.diagram_arena.specs.Arena.{table};
ghost use Rattle.pin_lists.specs.Units.{Moves};
ghost use Rattle.exact_steps.specs.Domains.{family};
ghost use Rattle.domain_trail.specs.Trail.{held};
ghost use Rattle.search_state.specs.Readings.{IsKnown, IsTrailOf};
ghost use Rattle.propagation.specs.Quiet.{HasNarrowed};
ghost use Rattle.propagation.specs.Work.{AreNarrowings, narrowed_by};

use crate::laws::laws;
use bit_layout::Layout;
use box_clauses::BoxStore;
use diagram_arena::Ref;
use diagram_ops::Ops;
use domain_trail::{Reason, Trail};
use set_meaning::{Problem, VarId};
use std::alloc::AllocError;

/// Gives each of these variables its domain, for this reason. An `Err` is want of memory; some narrowings may then be
/// on the trail.
pub(crate) fn put(
    ops: &mut Ops,
    p: &Problem,
    layout: &Layout,
    trail: &mut Trail,
    boxes: &BoxStore,
    reason: Reason,
    kept: &[(VarId, Ref)],
) -> Result<(), AllocError>
    requires kinds { layout.now.kinds ≡ p.now.kinds }
    requires legal { IsTrailOf p.now layout.now (table ops.old.arena) boxes.now trail.old }
    requires known { IsKnown boxes.now reason }
    requires step { reason ≢ Reason.Decision }
    requires narrowings { let t = table ops.old.arena in let f = family layout.now t trail.old.domains in
        AreNarrowings p.now layout.now t boxes.now reason f kept.now }
    ensures only { ops.new ≡ record ops.old { counts = ops.new.counts } }
    ensures put { OnOk result (trail.new ≡ narrowed_by reason kept.now trail.old) }
    ensures narrowed { let t = table ops.old.arena in
        HasNarrowed p.now layout.now t t boxes.now trail.old trail.new }
    ensures moved { Moves ops.old ops.new (held trail.old) (held trail.new) }
{
    laws(p);
    for (v, r) in kept {
        trail.narrow(ops, *v, *r, reason)?;
    }
    Ok(())
}
