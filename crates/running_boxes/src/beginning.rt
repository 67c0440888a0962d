//! The running box at the beginning of a walk.
ghost use Rattle.std.specs.Prelude.{◌≡◌, [], OnOk};
ghost use Rattle.diagram_arena.specs.Arena.{table};
ghost use Rattle.pin_lists.specs.Units.{Moves};
ghost use Rattle.propagators.specs.Compiled.{IsCompiled};
ghost use Rattle.search_state.specs.Readings.{AreReadable};
ghost use Rattle.running_boxes.specs.Running.{IsConflictOf, box_of_conflict, IsRunning};

use crate::laws::laws;
use crate::putting::{put, put_domains};
use bit_layout::Layout;
use box_clauses::BoxStore;
use diagram_ops::Ops;
use domain_trail::Trail;
use pin_lists::PinList;
use propagators::Compiled;
use set_meaning::{BoxId, ConId, Problem};
use std::alloc::AllocError;

/// Where a conflict was found.
#[derive(Clone, Copy, Debug, PartialEq, Eq)]
pub enum Conflict {
    /// No values in the domains satisfy this constraint.
    Constraint(ConId),
    /// All domains lie in this box.
    Box(BoxId),
}

/// Makes the box of the conflict the running box, which has no sets before, and pins its sets. For a constraint these
/// are the domains of its scope, for a box in store its sides; elsewhere they are the initial domains. That there is a
/// conflict is not asked for.
///
/// An `Err` is want of memory; it comes also where a node has 2^64 - 1 pins. Some sets may then be pinned.
pub fn begin(
    ops: &mut Ops,
    p: &Problem,
    layout: &Layout,
    compiled: &Compiled,
    trail: &Trail,
    boxes: &BoxStore,
    conflict: Conflict,
    running: &mut PinList,
) -> Result<(), AllocError>
    requires compiled { IsCompiled layout.now p.now (table ops.old.arena) compiled.now }
    requires readable { AreReadable layout.now (table ops.old.arena) boxes.now trail.now }
    requires known { IsConflictOf p.now boxes.now conflict }
    requires none { running.old ≡ [] }
    ensures begun { let t = table ops.old.arena in
        let f = box_of_conflict p.now layout.now t boxes.now trail.now.domains conflict in
        OnOk result (IsRunning layout.now (table ops.new.arena) f running.new) }
    ensures moved { Moves ops.old ops.new [] running.new }
    ensures only { ops.new ≡ record ops.old { counts = ops.new.counts } }
{
    // What holds of initial domains, constraints and sides.
    laws();
    running.hold_all(ops, compiled.start())?;
    match conflict {
        Conflict::Constraint(c) => put_domains(ops, running, compiled.scope(c), trail.domains()),
        Conflict::Box(b) => put(ops, running, boxes.sides(b)),
    }
}
