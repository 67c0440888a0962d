//! The queue of constraints on the way to the root family, and the sizes of the domains, by which it is ordered.
ghost use Rattle.std.specs.Prelude.{◌≡◌, ◌<◌, length, IfOk, Some, slice_get, All};
ghost use Rattle.diagram_arena.specs.Table.{IsLive};
ghost use Rattle.diagram_arena.specs.Arena.{table};
ghost use Rattle.problem_limits.specs.Limits.{KeepsLimits};
ghost use Rattle.exact_steps.specs.Domains.{AreDomains};
ghost use Rattle.propagators.specs.Compiled.{IsCompiled};
ghost use Rattle.learn_search.specs.Way.{IsQueueOf, AreStirred};

use bit_layout::Layout;
use constraint_queue::ConstraintQueue;
use diagram_arena::Ref;
use diagram_ops::Ops;
use diagram_view::node_count;
use listed::Listed;
use propagators::Compiled;
use set_meaning::{ConId, Problem, VarId};
use std::alloc::{AllocError, Global};

/// The number of nodes of each domain.
pub(crate) fn sizes_of(
    alloc: Global,
    ops: &Ops,
    layout: &Layout,
    domains: &[Ref],
) -> Result<Vec<u64>, AllocError>
    requires { AreDomains layout.now (table ops.now.arena) domains.now }
{
    let mut sizes = Vec::new(alloc);
    for domain in domains {
        sizes.push(size_of(alloc, ops, *domain)?)?;
    }
    Ok(sizes)
}

/// The number of nodes of a domain.
fn size_of(alloc: Global, ops: &Ops, domain: Ref) -> Result<u64, AllocError>
    requires { IsLive (table ops.now.arena) domain }
{
    node_count(alloc, ops.pool().arena(), domain)
}

/// A queue of the constraints of the problem, with no flags.
pub(crate) fn queue_of(
    alloc: Global,
    ops: &Ops,
    layout: &Layout,
    p: &Problem,
    compiled: &Compiled,
) -> Result<ConstraintQueue, AllocError>
    requires limits { KeepsLimits p.now }
    requires compiled { IsCompiled layout.now p.now (table ops.now.arena) compiled.now }
    ensures { IfOk result (IsQueueOf p.now compiled.now) }
{
    let _ = ops.pool();
    let mut scopes = Vec::new(alloc);
    for c in 0..p.constraints.items().len() as u32 {
        scopes.push(scope_of(alloc, compiled, ConId(c))?)?;
    }
    let queue = ConstraintQueue::new(alloc, p.kinds.items().len(), scopes)?;
    Ok(queue)
}

/// The scope of the constraint.
fn scope_of(alloc: Global, compiled: &Compiled, c: ConId) -> Result<Listed<VarId>, AllocError>
    requires { c.0 < length compiled.now.scopes }
    ensures { IfOk result (λ scope. slice_get compiled.now.scopes c.0 ≡ Some scope) }
{
    let scope = Vec::from_slice(alloc, compiled.scope(c))?;
    Ok(Listed::of(scope))
}

/// Puts the number of nodes of each of these domains at its variable's place.
pub(crate) fn measure_each(
    alloc: Global,
    ops: &Ops,
    kept: &[(VarId, Ref)],
    sizes: &mut Vec<u64>,
) -> Result<(), AllocError>
    requires { All (λ e. IsLive (table ops.now.arena) e.1) kept.now }
{
    for (v, domain) in kept {
        let count = size_of(alloc, ops, *domain)?;
        if let Some(size) = sizes.get_mut(v.0 as usize) {
            *size = count;
        }
    }
    Ok(())
}

/// Flags the constraints that read one of these variables, but the one that narrowed them.
pub(crate) fn flag_each(queue: &mut ConstraintQueue, kept: &[(VarId, Ref)], c: ConId, sizes: &[u64])
    ensures { AreStirred queue.old queue.new c.0 kept.now }
{
    for (v, _) in kept {
        queue.flag_readers(*v, Some(c), sizes);
    }
}
