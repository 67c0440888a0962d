//! The flags of constraints and the sizes of domains, after narrowings.
ghost use Rattle.std.specs.Prelude.{◌≡◌, length, All};
ghost use Rattle.diagram_arena.specs.Table.{IsLive};
ghost use Rattle.diagram_arena.specs.Arena.{table};
ghost use Rattle.propagation.specs.Work.{constraint_in, AreStirred};

use constraint_queue::ConstraintQueue;
use diagram_arena::Ref;
use diagram_ops::Ops;
use diagram_view::node_count;
use running_boxes::Conflict;
use set_meaning::{ConId, VarId};
use std::alloc::{AllocError, Global};

/// Puts the number of nodes of each of these domains at its variable's place, if the level is 0.
pub(crate) fn measure(
    alloc: Global,
    ops: &Ops,
    kept: &[(VarId, Ref)],
    sizes: &mut Vec<u64>,
    level: u32,
) -> Result<(), AllocError>
    requires { All (λ e. IsLive (table ops.now.arena) e.1) kept.now }
    ensures { length sizes.new.items ≡ length sizes.old.items }
{
    if level > 0 {
        return Ok(());
    }
    for (v, domain) in kept {
        let count = size_of(alloc, ops, *domain)?;
        set_size(sizes, *v, count);
    }
    Ok(())
}

/// The number of nodes of a domain.
fn size_of(alloc: Global, ops: &Ops, domain: Ref) -> Result<u64, AllocError>
    requires { IsLive (table ops.now.arena) domain }
{
    node_count(alloc, ops.pool().arena(), domain)
}

/// Puts the size at the variable's place, if there is one.
fn set_size(sizes: &mut Vec<u64>, v: VarId, count: u64)
    ensures { length sizes.new.items ≡ length sizes.old.items }
{
    if let Some(size) = sizes.get_mut(v.0 as usize) {
        *size = count;
    }
}

/// Flags the constraints that read one of these variables, but that of the unit. At level 0 they wait by the sizes,
/// above it in the order in which they are flagged.
pub(crate) fn stir(
    queue: &mut ConstraintQueue,
    unit: Conflict,
    kept: &[(VarId, Ref)],
    sizes: &[u64],
    level: u32,
)
    ensures { AreStirred queue.old queue.new (constraint_in unit) kept.now }
{
    let but = named(unit);
    if level > 0 {
        flag_each(queue, but, kept, &[]);
    } else {
        flag_each(queue, but, kept, sizes);
    }
}

/// The constraint that the unit is the step of.
fn named(unit: Conflict) -> Option<ConId>
    ensures { result ≡ constraint_in unit }
{
    match unit {
        Conflict::Constraint(c) => Some(c),
        Conflict::Box(_) => None,
    }
}

/// Flags the constraints that read one of these variables, but the one that is named.
fn flag_each(queue: &mut ConstraintQueue, but: Option<ConId>, kept: &[(VarId, Ref)], sizes: &[u64])
    ensures { AreStirred queue.old queue.new but kept.now }
{
    for (v, _) in kept {
        queue.flag_readers(*v, but, sizes);
    }
}
