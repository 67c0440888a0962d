//! How many nodes a diagram has.
ghost use Rattle.std.specs.Prelude.{◌≡◌, IfOk};
ghost use Rattle.diagram_arena.specs.Table.{IsLive};
ghost use Rattle.diagram_arena.specs.Arena.{table};
ghost use Rattle.diagram_view.specs.Residuals.{CountsResiduals};
ghost use Rattle.diagram_view.specs.Visits.{IsClosed, Visits};

use crate::steps::laws;
use diagram_arena::{Arena, NodeId, Ref};
use std::alloc::{AllocError, Global};
use std::collections::HashSet;

/// The number of nodes that `f` reaches, which must be live; Zero and One are not counted. It is the
/// residual count of the words of `f` over any list of bits that ascends and holds every bit under `f`,
/// the same for each (Bryant, IEEE Transactions on Computers, 1986). Each node is visited once. The error
/// is want of memory alone.
pub fn node_count(alloc: Global, arena: &Arena, f: Ref) -> Result<u64, AllocError>
    requires live { IsLive (table arena.now) f }
    ensures residuals { IfOk result (CountsResiduals (table arena.now) f) }
{
    laws(arena);
    let mut seen = HashSet::new(alloc);
    visit(arena, f, &mut seen)?;
    Ok(seen.len() as u64)
}

/// Adds to `seen` the nodes that `r` reaches. Whatever `seen` holds, it holds what that reaches.
fn visit(arena: &Arena, r: Ref, seen: &mut HashSet<NodeId>) -> Result<(), AllocError>
    requires live { IsLive (table arena.now) r }
    requires closed { IsClosed (table arena.now) seen.old.keys }
    ensures { IfOk result (λ _. Visits (table arena.now) r seen.old.keys seen.new.keys) }
{
    match r {
        Ref::Zero => Ok(()),
        Ref::One => Ok(()),
        Ref::Node(id) => {
            if seen.contains(&id) {
                return Ok(());
            }
            let node = arena.node(id);
            visit(arena, node.lo, seen)?;
            visit(arena, node.hi, seen)?;
            seen.insert(id)?;
            Ok(())
        }
    }
}
