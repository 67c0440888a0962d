//! The diagram of a constraint, its truth value included.
ghost use Rattle.std.specs.Prelude.{◌≡◌, ◌++◌, All, Some, slice_get, Err, IfOk, OnOk};
ghost use Rattle.std.specs.List.{filter_map};
ghost use Rattle.set_meaning.specs.declared.kinds.Kind.TheVariants as any_kind;
ghost use Rattle.set_meaning.specs.declared.problems.Term.TheVariants as any_term;
ghost use Rattle.set_meaning.specs.Relations.{variable_of, variables_of};
ghost use Rattle.set_meaning.specs.Rows.{FitsRow};
ghost use Rattle.diagram_arena.specs.Arena.{table};
ghost use Rattle.scope_words.specs.Words.{variables_in, IsDiagramOf};
ghost use Rattle.problem_limits.specs.Limits.{HasSmallNumbers, IsWithinLimits};
ghost use Rattle.propagators.specs.Compiled.{IsDiagramOfConstraint};
ghost use Rattle.propagators.specs.Units.{Relates, Fails, IsRelated, HasTruthOfRelation};
ghost use Rattle.scope_words.specs.Words.{HaveFewBits};
ghost use Rattle.propagators.specs.Work.{LeavesFor, truth_of};
ghost use Rattle.node_reclaim.specs.Growth.{IsFull};

use crate::initial::initial_words;
use crate::relations::relation_diagram;
use bit_layout::Layout;
use diagram_arena::{Ref, Stop};
use diagram_ops::Ops;
use set_meaning::{Arg, Constraint, Problem, Term, Value, VarId};
use std::alloc::{AllocError, Global};
use table_machine::values_fit_together;

/// The diagram of the words that give the constraint's variables values which satisfy it. Where it names a truth value, they have this
/// value and the relation holds, or the other one and the relation fails.
pub(crate) fn constraint_diagram(
    alloc: Global,
    ops: &mut Ops,
    layout: &Layout,
    p: &Problem,
    c: &Constraint,
) -> Result<Ref, Stop>
    requires fits { FitsRow p.now.kinds c.now }
    requires layout { layout.now.kinds ≡ p.now.kinds }
    requires few { HaveFewBits layout.now (variables_in c.now.args) }
    requires numbers { All HasSmallNumbers p.now.kinds }
    requires limits { IsWithinLimits p.now.kinds c.now }
    ensures diagram { IfOk result (IsDiagramOfConstraint layout.now (table ops.new.arena) c.now) }
    ensures leaves { LeavesFor layout.now c.now ops.old ops.new }
    ensures full { result ≡ Err Stop.Full → IsFull ops.new }
{
    // What holds of every layout and pool.
    layout.obeys_order();
    let _ = ops.pool();
    let holding = relation_diagram(alloc, ops, layout, p, c)?;
    match &c.reif {
        None => Ok(holding),
        Some(term) => with_truth(alloc, ops, layout, p, c, term, holding),
    }
}

/// The diagram of a constraint that names a truth value, from that of its relation.
fn with_truth(
    alloc: Global,
    ops: &mut Ops,
    layout: &Layout,
    p: &Problem,
    c: &Constraint,
    term: &Term,
    holding: Ref,
) -> Result<Ref, Stop>
    requires fits { FitsRow p.now.kinds c.now }
    requires layout { layout.now.kinds ≡ p.now.kinds }
    requires few { HaveFewBits layout.now (variables_in c.now.args) }
    requires term { c.now.reif ≡ Some term.now }
    requires holding { IsDiagramOf layout.now (variables_in c.now.args) (Relates c.now) (table ops.old.arena) holding }
    ensures diagram { IfOk result (IsDiagramOfConstraint layout.now (table ops.new.arena) c.now) }
    ensures leaves { LeavesFor layout.now c.now ops.old ops.new }
    ensures full { result ≡ Err Stop.Full → IsFull ops.new }
{
    match term {
        Term::Const(value) => with_fixed_truth(alloc, ops, layout, p, c, value, holding),
        Term::Var(v) => with_free_truth(alloc, ops, layout, p, c, *v, holding),
    }
}

/// Where the truth value is the constant `true`, the relation holds, and where it is `false`, it fails.
fn with_fixed_truth(
    alloc: Global,
    ops: &mut Ops,
    layout: &Layout,
    p: &Problem,
    c: &Constraint,
    truth: &Value,
    holding: Ref,
) -> Result<Ref, Stop>
    requires fits { FitsRow p.now.kinds c.now }
    requires layout { layout.now.kinds ≡ p.now.kinds }
    requires few { HaveFewBits layout.now (variables_in c.now.args) }
    requires truth { c.now.reif ≡ Some (any_term.Const truth.now) }
    requires holding { IsDiagramOf layout.now (variables_in c.now.args) (Relates c.now) (table ops.old.arena) holding }
    ensures diagram { IfOk result (IsDiagramOfConstraint layout.now (table ops.new.arena) c.now) }
    ensures leaves { LeavesFor layout.now c.now ops.old ops.new }
    ensures full { result ≡ Err Stop.Full → IsFull ops.new }
{
    // What holds of every pool.
    let _ = ops.pool();
    if is_true(truth) {
        return Ok(holding);
    }
    failing(alloc, ops, layout, p, c, holding)
}

/// Where the truth value is a variable, both cases count.
fn with_free_truth(
    alloc: Global,
    ops: &mut Ops,
    layout: &Layout,
    p: &Problem,
    c: &Constraint,
    v: VarId,
    holding: Ref,
) -> Result<Ref, Stop>
    requires fits { FitsRow p.now.kinds c.now }
    requires layout { layout.now.kinds ≡ p.now.kinds }
    requires few { HaveFewBits layout.now (variables_in c.now.args) }
    requires truth { c.now.reif ≡ Some (any_term.Var v) }
    requires holding { IsDiagramOf layout.now (variables_in c.now.args) (Relates c.now) (table ops.old.arena) holding }
    ensures diagram { IfOk result (IsDiagramOfConstraint layout.now (table ops.new.arena) c.now) }
    ensures leaves { LeavesFor layout.now c.now ops.old ops.new }
    ensures full { result ≡ Err Stop.Full → IsFull ops.new }
{
    // What holds of every layout.
    layout.obeys_order();
    let failing = failing(alloc, ops, layout, p, c, holding)?;
    cases_joined(ops, layout, c, v, holding, failing)
}

/// Whether the value is the Boolean `true`.
fn is_true(value: &Value) -> bool
    ensures { result ≡ truth_of value.now }
{
    match value {
        Value::Bool(truth) => *truth,
        Value::Int(_) => false,
        Value::Set(_) => false,
    }
}

/// The words of initial values of the arguments' variables on which the relation fails.
fn failing(
    alloc: Global,
    ops: &mut Ops,
    layout: &Layout,
    p: &Problem,
    c: &Constraint,
    holding: Ref,
) -> Result<Ref, Stop>
    requires fits { FitsRow p.now.kinds c.now }
    requires layout { layout.now.kinds ≡ p.now.kinds }
    requires few { HaveFewBits layout.now (variables_in c.now.args) }
    requires holding { IsDiagramOf layout.now (variables_in c.now.args) (Relates c.now) (table ops.old.arena) holding }
    ensures diagram { IfOk result (IsDiagramOf layout.now (variables_in c.now.args) (Fails c.now) (table ops.new.arena)) }
    ensures leaves { LeavesFor layout.now c.now ops.old ops.new }
    ensures full { result ≡ Err Stop.Full → IsFull ops.new }
{
    // What holds of every layout and pool.
    layout.obeys_order();
    let _ = ops.pool();
    match argument_variables(alloc, c.args.items()) {
        Ok(variables) => beyond(alloc, ops, layout, p, c, variables.as_slice(), holding),
        Err(_) => Err(Stop::Memory),
    }
}

/// The words of initial values of these variables, those of the arguments, that are not in `holding`.
fn beyond(
    alloc: Global,
    ops: &mut Ops,
    layout: &Layout,
    p: &Problem,
    c: &Constraint,
    variables: &[VarId],
    holding: Ref,
) -> Result<Ref, Stop>
    requires fits { FitsRow p.now.kinds c.now }
    requires layout { layout.now.kinds ≡ p.now.kinds }
    requires few { HaveFewBits layout.now variables.now }
    requires variables { variables.now ≡ variables_in c.now.args }
    requires holding { IsDiagramOf layout.now (variables_in c.now.args) (Relates c.now) (table ops.old.arena) holding }
    ensures diagram { IfOk result (IsDiagramOf layout.now (variables_in c.now.args) (Fails c.now) (table ops.new.arena)) }
    ensures leaves { LeavesFor layout.now c.now ops.old ops.new }
    ensures full { result ≡ Err Stop.Full → IsFull ops.new }
{
    // What holds of every layout.
    layout.obeys_order();
    let initial = initial_words(alloc, ops, layout, p.kinds.items(), variables)?;
    ops.diff(initial, holding)
}

/// The words with a true truth value on which the relation holds, and those with a false one on which it fails.
fn cases_joined(
    ops: &mut Ops,
    layout: &Layout,
    c: &Constraint,
    v: VarId,
    holding: Ref,
    failing: Ref,
) -> Result<Ref, Stop>
    requires truth { c.now.reif ≡ Some (any_term.Var v) }
    requires boolean { slice_get layout.now.kinds v.0 ≡ Some any_kind.Bool }
    requires holding { IsDiagramOf layout.now (variables_in c.now.args) (Relates c.now) (table ops.old.arena) holding }
    requires failing { IsDiagramOf layout.now (variables_in c.now.args) (Fails c.now) (table ops.old.arena) failing }
    ensures diagram { IfOk result (IsDiagramOfConstraint layout.now (table ops.new.arena) c.now) }
    ensures leaves { LeavesFor layout.now c.now ops.old ops.new }
    ensures full { result ≡ Err Stop.Full → IsFull ops.new }
{
    let on_true = with_literal(ops, layout, c, v, true, holding)?;
    let on_false = with_literal(ops, layout, c, v, false, failing)?;
    ops.or(on_true, on_false)
}

/// The words of the truth value's variable with this value, and with the values on which the relation has it.
fn with_literal(
    ops: &mut Ops,
    layout: &Layout,
    c: &Constraint,
    v: VarId,
    value: bool,
    related: Ref,
) -> Result<Ref, Stop>
    requires truth { c.now.reif ≡ Some (any_term.Var v) }
    requires boolean { slice_get layout.now.kinds v.0 ≡ Some any_kind.Bool }
    requires related { IsDiagramOf layout.now (variables_in c.now.args) (IsRelated c.now value) (table ops.old.arena) related }
    ensures diagram { IfOk result (IsDiagramOf layout.now (variables_of c.now) (HasTruthOfRelation c.now value) (table ops.new.arena)) }
    ensures leaves { LeavesFor layout.now c.now ops.old ops.new }
    ensures full { result ≡ Err Stop.Full → IsFull ops.new }
{
    // What holds of every layout and pool, and of values.
    layout.obeys_order();
    let _ = ops.pool();
    values_fit_together();
    let literal = ops.literal(layout.bit(v, 0), value)?;
    ops.and(literal, related)
}

/// The variables that stand in the arguments, in order.
fn argument_variables(alloc: Global, args: &[Arg]) -> Result<Vec<VarId>, AllocError>
    ensures { IfOk result (λ vs. vs.items ≡ variables_in args.now) }
{
    let mut variables = Vec::new(alloc);
    for arg in args {
        push_variables(&mut variables, arg.terms())?;
    }
    Ok(variables)
}

fn push_variables(variables: &mut Vec<VarId>, terms: &[Term]) -> Result<(), AllocError>
    ensures { OnOk result (variables.new.items ≡ variables.old.items ++ filter_map variable_of terms.now) }
{
    for term in terms {
        if let Term::Var(variable) = term {
            variables.push(*variable)?;
        }
    }
    Ok(())
}
