//! The rows of the root family: bounds and sizes of its domains.
ghost use Rattle.std.specs.Prelude.{◌≡◌, ◌<◌, IfOk, length};
ghost use Rattle.diagram_arena.specs.Arena.{table};
ghost use Rattle.problem_limits.specs.Limits.{KeepsLimits};
ghost use Rattle.exact_steps.specs.Domains.{IsDomain, AreDomains};
ghost use Rattle.learn_search.specs.Way.{IsRowAt, AreRowsAt};

use bit_layout::Layout;
use diagram_arena::Ref;
use diagram_ops::Ops;
use diagram_view::node_count;
use propagators::root_bounds;
use set_meaning::{Bounds, Problem, VarId};
use std::alloc::{AllocError, Global};

/// For each domain its bounds and the number of its nodes.
pub(crate) fn rows(
    alloc: Global,
    ops: &Ops,
    layout: &Layout,
    p: &Problem,
    domains: &[Ref],
) -> Result<Vec<(Bounds, u64)>, AllocError>
    requires limits { KeepsLimits p.now }
    requires layout { layout.now.kinds ≡ p.now.kinds }
    requires domains { AreDomains layout.now (table ops.now.arena) domains.now }
    ensures { IfOk result (λ rows. AreRowsAt layout.now (table ops.now.arena) domains.now (length domains.now) rows.items) }
{
    let mut rows = Vec::new(alloc);
    for (v, domain) in domains.iter().enumerate() {
        rows.push(row(alloc, ops, layout, p, VarId(v as u32), *domain)?)?;
    }
    Ok(rows)
}

/// The bounds of a domain, and the number of its nodes.
fn row(
    alloc: Global,
    ops: &Ops,
    layout: &Layout,
    p: &Problem,
    v: VarId,
    domain: Ref,
) -> Result<(Bounds, u64), AllocError>
    requires layout { layout.now.kinds ≡ p.now.kinds }
    requires known { v.0 < length p.now.kinds }
    requires domain { IsDomain layout.now (table ops.now.arena) v domain }
    ensures { IfOk result (IsRowAt layout.now (table ops.now.arena) v.0 domain) }
{
    let bounds = root_bounds(alloc, ops, layout, p, v, domain)?;
    let nodes = node_count(alloc, ops.pool().arena(), domain)?;
    Ok((bounds, nodes))
}
