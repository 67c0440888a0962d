//! The sides of a running box.
ghost use Rattle.std.specs.Prelude.{◌≡◌, ◌<◌, ◌^◌, IfOk, length};
ghost use Rattle.bit_layout.specs.Order.{LayoutState};
ghost use Rattle.diagram_arena.specs.Table.{Table};
ghost use Rattle.propagators.specs.Compiled.{AreInitialDomains};
ghost use Rattle.running_boxes.specs.Running.{AreRunning, AreSidesOfRunning};

use crate::reasons::is_same;
use box_clauses::Side;
use diagram_arena::Ref;
use set_meaning::VarId;
use std::alloc::{AllocError, Global};

/// The sides of the running box that differ from the initial domains `start`, ascending by variable: those of the box
/// to be stored. There must be fewer than 2^32 variables. An `Err` is want of memory.
pub fn sides_of(alloc: Global, start: &[Ref], running: &[Ref]) -> Result<Vec<Side>, AllocError>
    requires few { length running.now < 2 ^ 32 }
    requires long { length start.now ≡ length running.now }
    ensures { (l : LayoutState) (t : Table) → AreInitialDomains l t start.now
        → AreRunning l t running.now
        → IfOk result (λ sides. AreSidesOfRunning l t running.now sides.items) }
{
    let mut sides = Vec::new(alloc);
    for i in 0..running.len() {
        if !is_same(running[i], start[i]) {
            sides.push(Side {
                var: VarId(i as u32),
                set: running[i],
            })?;
        }
    }
    Ok(sides)
}
