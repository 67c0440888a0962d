//! The step: the words that are in the constraint and in all domains of its scope are projected to each variable, and what changed is listed.
ghost use Rattle.std.specs.Prelude.{◌≡◌, ◌<◌, IfOk, length, All};
ghost use Rattle.std.specs.Ordering.{nat_cmp};
ghost use Rattle.std.specs.List.Sorted.{IsStrictlySortedBy};
ghost use Rattle.diagram_arena.specs.Arena.{table};
ghost use Rattle.node_reclaim.specs.Growth.{IsFull, Stays};
ghost use Rattle.scope_words.specs.Words.{IsDiagramOf, NewReachOnlyScope};
ghost use Rattle.exact_steps.specs.Domains.{AreDomains, family};
ghost use Rattle.exact_steps.specs.Steps.{IsInDiagram, IsStepOf};
ghost use Rattle.exact_steps.specs.Parts.{NewAreWanted};

use crate::comparing::answer;
use crate::gathering::domains_of_scope;
use crate::projecting::projected;
use bit_layout::Layout;
use diagram_arena::{Ref, Stop};
use diagram_ops::Ops;
use set_meaning::VarId;
use std::alloc::Global;

/// What the exact step of a constraint does to the domains.
#[derive(Drop)]
pub enum StepResult {
    /// Some values in the domains satisfy the constraint, and each value of each variable of the scope extends. For an empty scope: it is true.
    Same,
    /// Some values in the domains satisfy the constraint. The variables some of whose values do not extend, at least one, ascending, each
    /// with its new domain: exactly the values that extend.
    Narrowed(Vec<(VarId, Ref)>),
    /// No values in the domains satisfy the constraint. For an empty scope: it is false.
    Empty,
}

/// The exact step of a constraint. `scope` has its variables, ascending, each once; `constraint` is its diagram, live, which has exactly
/// the words that give the scope initial values which satisfy the constraint; `domains` has for each variable of the problem, in order,
/// its domain: live, not empty, over the bits of this variable alone, and with words of its initial values only.
///
/// One `product_is_empty` is asked, and unless there is no support then one `project_product` for each variable of the scope whose domain has
/// more than one value. Its time and nodes may be exponential in the bits of the other variables. Nothing is pinned. Full and Memory come as
/// from these calls; memory is also wanted for the list. Nodes that were made before a refusal stay.
pub fn step(
    alloc: Global,
    ops: &mut Ops,
    layout: &Layout,
    scope: &[VarId],
    constraint: Ref,
    domains: &[Ref],
) -> Result<StepResult, Stop>
    requires known { All (λ v. v.0 < length layout.now.kinds) scope.now }
    requires ascending { IsStrictlySortedBy (λ v w. nat_cmp v.0 w.0) scope.now }
    requires constraint { let t = table ops.old.arena in IsDiagramOf layout.now scope.now (IsInDiagram layout.now t constraint) t constraint }
    requires domains { AreDomains layout.now (table ops.old.arena) domains.now }
    ensures answer { let t = table ops.old.arena in
        IfOk result (IsStepOf layout.now scope.now (IsInDiagram layout.now t constraint) (family layout.now t domains.now) (table ops.new.arena)) }
    ensures stays { Stays ops.old ops.new }
    ensures full { result ≡ Err Stop.Full → IsFull ops.new }
    ensures parts { let t = table ops.old.arena in
        NewAreWanted layout.now scope.now (IsInDiagram layout.now t constraint) (family layout.now t domains.now) t (table ops.new.arena) }
    ensures reach { NewReachOnlyScope layout.now scope.now (table ops.old.arena) (table ops.new.arena) }
{
    // What holds of every layout and every pool.
    layout.obeys_order();
    let _ = ops.pool();
    let gathered = domains_of_scope(alloc, scope, domains)?;
    let own = gathered.as_slice();
    let none = ops.product_is_empty(constraint, own)?;
    if none {
        return Ok(StepResult::Empty);
    }
    let kept = projected(alloc, ops, layout, scope, constraint, domains, own)?;
    Ok(answer(kept))
}
