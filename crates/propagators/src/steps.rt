//! The exact step of a compiled constraint.
ghost use Rattle.std.specs.Prelude.{◌≡◌, ◌<◌, List, length, IfOk, Err};
ghost use Rattle.set_meaning.specs.declared.problems.VarId.{VarId as Variable};
ghost use Rattle.set_meaning.specs.declared.problems.Constraint.{Constraint as AnyConstraint};
ghost use Rattle.set_meaning.specs.Relations.{Holds};
ghost use Rattle.diagram_arena.specs.Arena.{table};
ghost use Rattle.node_reclaim.specs.Growth.{IsFull, Stays};
ghost use Rattle.scope_words.specs.Words.{NewReachOnlyScope};
ghost use Rattle.exact_steps.specs.Domains.{AreDomains, family};
ghost use Rattle.exact_steps.specs.Steps.{IsStepOf};
ghost use Rattle.exact_steps.specs.Parts.{NewAreWanted};
ghost use Rattle.propagators.specs.Compiled.{IsCompiledOfSome, IsConstraintAt};

use crate::compiled::Compiled;
use bit_layout::Layout;
use diagram_arena::{Ref, Stop};
use diagram_ops::Ops;
use exact_steps::{StepResult, diagrams_state_their_conditions, steps_of_a_condition};
use set_meaning::{ConId, Constraint};
use std::alloc::Global;

/// The exact step of constraint number `c` of a compiled problem on the domains, one for each variable, in file order: live, not empty and
/// inside the variable's initial domain. `layout` is the problem's. What is answered, what it costs and when Full and Memory come is as in
/// `exact_steps::step`: Same where each value of each variable of the scope extends, Narrowed with exactly the variables some of whose
/// values do not, each with the values that do, and Empty where no values in the domains satisfy the constraint. Nothing is pinned.
pub fn step(
    alloc: Global,
    ops: &mut Ops,
    layout: &Layout,
    compiled: &Compiled,
    c: ConId,
    domains: &[Ref],
) -> Result<StepResult, Stop>
    requires compiled { IsCompiledOfSome layout.now (table ops.old.arena) compiled.now }
    requires constraint { c.0 < length compiled.now.scopes }
    requires domains { AreDomains layout.now (table ops.old.arena) domains.now }
    ensures answer { let t = table ops.old.arena in (con : AnyConstraint) (scope : List Variable) → IsConstraintAt layout.now t compiled.now c con scope
        → IfOk result (IsStepOf layout.now scope (Holds con) (family layout.now t domains.now) (table ops.new.arena)) }
    ensures stays { Stays ops.old ops.new }
    ensures full { result ≡ Err Stop.Full → IsFull ops.new }
    ensures parts { let t = table ops.old.arena in (con : AnyConstraint) (scope : List Variable) → IsConstraintAt layout.now t compiled.now c con scope
        → NewAreWanted layout.now scope (Holds con) (family layout.now t domains.now) t (table ops.new.arena) }
    ensures reach { let t = table ops.old.arena in (con : AnyConstraint) (scope : List Variable) → IsConstraintAt layout.now t compiled.now c con scope
        → NewReachOnlyScope layout.now scope t (table ops.new.arena) }
{
    // What holds of every layout, and of the steps of a condition.
    layout.obeys_order();
    diagrams_state_their_conditions::<Constraint>();
    steps_of_a_condition::<Constraint>();
    exact_steps::step(
        alloc,
        ops,
        layout,
        compiled.scope(c),
        compiled.diagram(c),
        domains,
    )
}
