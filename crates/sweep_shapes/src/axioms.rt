//! Whether an axiom's constraint can hold in its sides.
ghost use Rattle.std.specs.Prelude.{◌≡◌, ◌↔◌, ◌<◌, ◌≤◌, length, slice_get, IsTrue, IfOk, IfSome, All, Some, pos, true};
ghost use Rattle.set_meaning.specs.declared.problems.Constraint.{Constraint as AnyConstraint};
ghost use Rattle.set_meaning.specs.declared.problems.Term.TheVariants.{Var};
ghost use Rattle.set_meaning.specs.Kinds.{InKind, IsAssignment};
ghost use Rattle.set_meaning.specs.Problems.{IsKind, IsProblem};
ghost use Rattle.set_meaning.specs.Rows.{FitsRow};
ghost use Rattle.set_meaning.specs.Relations.{IsScope};
ghost use Rattle.bit_layout.specs.Words.{least};
ghost use Rattle.log_rules.specs.Boxes.{AreSides, SomeSatisfy};
ghost use Rattle.log_rules.specs.Rules.{StandsIn};
ghost use Rattle.sweep_shapes.specs.Slots.{AreSetVariables, AsksFor, IsCardinality, IsReading};

use crate::choices::{Choice, values_within};
use crate::parts::{are_sets, cardinality, membership, tried_first, truth_asked};
use crate::readings::{Said, said_of};
use crate::scalars::{is_possible_of_sum, is_read_as_sum};
use crate::sets::{is_possible_of_count, is_possible_of_member, is_possible_of_sets};
use crate::trials::{holds_for_some, open};
use bit_layout::Layout;
use set_meaning::{ConId, Constraint, Kind, Problem, SetValue, Value, VarId, scope};
use std::alloc::{AllocError, Global};
use sweep_fixing::{fixed, fixing_is_exact, others};
use sweep_sets::is_between_sets;
use sweep_table::Table;

/// Whether some list of initial values in the sides satisfies constraint `c`. A side is a variable's number and a node of
/// the table, which accepts the words of the variable's values; a variable without a side has all its initial values. Each
/// side must be of a variable that stands in the constraint.
///
/// The Boolean that names a truth value, the integer of a membership, a cardinality or a place of an array, and the truth
/// value of an array are tried one value after another. What is left over up to three set variables is swept through the
/// sides: the time is of the order of the bits times the states that occur beside nodes of the sides.
///
/// Of what is one linear sum partial sums are carried from variable to variable, if its constants are within the limits on
/// problems and there are at most 2,048 variables. Of anything else the values in the sides are tried, one list after
/// another: the time is of the order of their product. An `Err` is want of memory.
pub fn possible(
    alloc: Global,
    p: &Problem,
    layout: &Layout,
    table: &Table,
    c: ConId,
    sides: &[(u64, u64)],
) -> Result<bool, AllocError>
    requires problem { IsProblem p.now }
    requires layout { layout.now.kinds ≡ p.now.kinds }
    requires there { c.0 < length p.now.constraints }
    requires sides { AreSides p.now.kinds table.now sides.now }
    requires scope { (k : AnyConstraint) → slice_get p.now.constraints c.0 ≡ Some k → All (λ side. StandsIn k side.0) sides.now }
    ensures { IfOk result (λ yes. (k : AnyConstraint) → slice_get p.now.constraints c.0 ≡ Some k → IsTrue yes ↔ SomeSatisfy p.now.kinds table.now sides.now k) }
{
    let constraint = constraint_at(p.constraints.items(), c);
    let yes = is_possible(alloc, p.kinds.items(), layout, table, constraint, sides)?;
    Ok(yes)
}

fn constraint_at(constraints: &[Constraint], c: ConId) -> &Constraint
    requires { c.0 < length constraints.now }
    ensures { slice_get constraints.now c.0 ≡ Some result.now }
{
    &constraints[c.0 as usize]
}

/// Where a variable is to be tried first, its values in its side are put in its place one after another, and each such
/// constraint is decided the same way. The depth of the recursion is at most the number of variables.
fn is_possible(
    alloc: Global,
    kinds: &[Kind],
    layout: &Layout,
    table: &Table,
    c: &Constraint,
    sides: &[(u64, u64)],
) -> Result<bool, AllocError>
    requires legal { All IsKind kinds.now }
    requires layout { layout.now.kinds ≡ kinds.now }
    requires fits { FitsRow kinds.now c.now }
    requires sides { AreSides kinds.now table.now sides.now }
    requires scope { All (λ side. StandsIn c.now side.0) sides.now }
    ensures { IfOk result (λ yes. IsTrue yes ↔ SomeSatisfy kinds.now table.now sides.now c.now) }
{
    match tried_first(c) {
        None => decided(alloc, kinds, layout, table, c, sides),
        Some(v) => {
            fixing_is_exact();
            let own = values_within(alloc, kinds, layout, table, sides, v)?;
            let left = others(alloc, sides, v)?;
            let left = left.as_slice();
            let tried = own.as_slice();
            for x in tried {
                let one = fixed(alloc, c, v, x)?;
                let found = is_possible(alloc, kinds, layout, table, &one, left)?;
                if found {
                    return Ok(true);
                }
            }
            Ok(false)
        }
    }
}

fn decided(
    alloc: Global,
    kinds: &[Kind],
    layout: &Layout,
    table: &Table,
    c: &Constraint,
    sides: &[(u64, u64)],
) -> Result<bool, AllocError>
    requires legal { All IsKind kinds.now }
    requires layout { layout.now.kinds ≡ kinds.now }
    requires fits { FitsRow kinds.now c.now }
    requires sides { AreSides kinds.now table.now sides.now }
    requires scope { All (λ side. StandsIn c.now side.0) sides.now }
    ensures { IfOk result (λ yes. IsTrue yes ↔ SomeSatisfy kinds.now table.now sides.now c.now) }
{
    let variables = scope(alloc, c)?;
    let variables = variables.as_slice();
    match truth_asked(&c.reif) {
        Some(truth) => {
            if truth {
                return decided_plainly(alloc, kinds, layout, table, c, sides, variables);
            }
            decided_as(alloc, kinds, layout, table, c, sides, variables, c, truth)
        }
        None => is_possible_by_trials(alloc, kinds, layout, table, c, sides, variables),
    }
}

/// The same of a constraint whose relation is to be true.
fn decided_plainly(
    alloc: Global,
    kinds: &[Kind],
    layout: &Layout,
    table: &Table,
    c: &Constraint,
    sides: &[(u64, u64)],
    variables: &[VarId],
) -> Result<bool, AllocError>
    requires legal { All IsKind kinds.now }
    requires layout { layout.now.kinds ≡ kinds.now }
    requires fits { FitsRow kinds.now c.now }
    requires sides { AreSides kinds.now table.now sides.now }
    requires scope { All (λ side. StandsIn c.now side.0) sides.now }
    requires variables { IsScope c.now variables.now }
    requires asks { AsksFor true c.now.reif }
    ensures { IfOk result (λ yes. IsTrue yes ↔ SomeSatisfy kinds.now table.now sides.now c.now) }
{
    match said_of(alloc, kinds, c, variables)? {
        Said::Never => Ok(false),
        Said::By(read, truth) => {
            decided_as(
                alloc, kinds, layout, table, c, sides, variables, &read, truth,
            )
        }
        Said::Same => decided_as(alloc, kinds, layout, table, c, sides, variables, c, true),
    }
}

/// The same of a constraint over these variables which says that the relation of `read` has this truth value.
fn decided_as(
    alloc: Global,
    kinds: &[Kind],
    layout: &Layout,
    table: &Table,
    c: &Constraint,
    sides: &[(u64, u64)],
    variables: &[VarId],
    read: &Constraint,
    truth: bool,
) -> Result<bool, AllocError>
    requires legal { All IsKind kinds.now }
    requires layout { layout.now.kinds ≡ kinds.now }
    requires fits { FitsRow kinds.now c.now }
    requires sides { AreSides kinds.now table.now sides.now }
    requires scope { All (λ side. StandsIn c.now side.0) sides.now }
    requires variables { IsScope c.now variables.now }
    requires read { IsReading kinds.now c.now variables.now read.now truth }
    ensures { IfOk result (λ yes. IsTrue yes ↔ SomeSatisfy kinds.now table.now sides.now c.now) }
{
    if are_few_sets(kinds, variables) {
        return decided_of_sets(
            alloc, kinds, layout, table, c, sides, variables, read, truth,
        );
    }
    if is_read_as_sum(alloc, kinds, read, variables)? {
        return is_possible_of_sum(
            alloc, kinds, layout, table, c, sides, variables, read, truth,
        );
    }
    is_possible_by_trials(alloc, kinds, layout, table, c, sides, variables)
}

/// The same where these are one, two or three set variables.
fn decided_of_sets(
    alloc: Global,
    kinds: &[Kind],
    layout: &Layout,
    table: &Table,
    c: &Constraint,
    sides: &[(u64, u64)],
    variables: &[VarId],
    read: &Constraint,
    truth: bool,
) -> Result<bool, AllocError>
    requires legal { All IsKind kinds.now }
    requires layout { layout.now.kinds ≡ kinds.now }
    requires fits { FitsRow kinds.now c.now }
    requires sides { AreSides kinds.now table.now sides.now }
    requires scope { All (λ side. StandsIn c.now side.0) sides.now }
    requires variables { IsScope c.now variables.now }
    requires read { IsReading kinds.now c.now variables.now read.now truth }
    requires sets { AreSetVariables kinds.now variables.now }
    requires some { 0 < length variables.now }
    requires few { length variables.now ≤ 3 }
    ensures { IfOk result (λ yes. IsTrue yes ↔ SomeSatisfy kinds.now table.now sides.now c.now) }
{
    if is_between_sets(read.relation) {
        return is_possible_of_sets(
            alloc, kinds, layout, table, c, sides, variables, read, truth,
        );
    }
    if let Some((member, set)) = membership(read) {
        return is_possible_of_member(
            alloc, kinds, layout, table, c, sides, variables, read, truth, member, set,
        );
    }
    if let Some((size, set)) = size_asked(read, variables, truth) {
        return is_possible_of_count(
            alloc, kinds, layout, table, c, sides, variables, read, size, set,
        );
    }
    is_possible_by_trials(alloc, kinds, layout, table, c, sides, variables)
}

/// The number of elements and the set variable, where there is just one variable and the constraint is that this set has
/// so many elements.
fn size_asked(read: &Constraint, variables: &[VarId], truth: bool) -> Option<(u64, VarId)>
    ensures size { IfSome result (λ m. IsCardinality read.now (pos m.0) (Var m.1)) }
    ensures one { IfSome result (λ _. length variables.now ≡ 1) }
    ensures truth { IfSome result (λ _. truth ≡ true) }
{
    if !truth {
        return None;
    }
    if variables.len() != 1 {
        return None;
    }
    cardinality(read)
}

/// Whether there are one, two or three variables, and all are set variables.
fn are_few_sets(kinds: &[Kind], variables: &[VarId]) -> bool
    ensures sets { IsTrue result → AreSetVariables kinds.now variables.now }
    ensures some { IsTrue result → 0 < length variables.now }
    ensures few { IsTrue result → length variables.now ≤ 3 }
{
    if variables.is_empty() {
        return false;
    }
    if variables.len() > 3 {
        return false;
    }
    are_sets(kinds, variables)
}

fn is_possible_by_trials(
    alloc: Global,
    kinds: &[Kind],
    layout: &Layout,
    table: &Table,
    c: &Constraint,
    sides: &[(u64, u64)],
    variables: &[VarId],
) -> Result<bool, AllocError>
    requires legal { All IsKind kinds.now }
    requires layout { layout.now.kinds ≡ kinds.now }
    requires fits { FitsRow kinds.now c.now }
    requires variables { IsScope c.now variables.now }
    requires scope { All (λ side. StandsIn c.now side.0) sides.now }
    ensures { IfOk result (λ yes. IsTrue yes ↔ SomeSatisfy kinds.now table.now sides.now c.now) }
{
    let mut values = first_values(alloc, kinds)?;
    let slots = values.as_mut_slice();
    let mut choices: Vec<Choice> = Vec::new(alloc);
    for v in variables {
        let own = values_within(alloc, kinds, layout, table, sides, *v)?;
        open(slots, &mut choices, *v, own)?;
    }
    let yes = holds_for_some(alloc, c, choices.as_slice(), slots)?;
    Ok(yes)
}

/// An initial value of each kind.
fn first_values(alloc: Global, kinds: &[Kind]) -> Result<Vec<Value>, AllocError>
    requires { All IsKind kinds.now }
    ensures { IfOk result (λ values. IsAssignment kinds.now values.items) }
{
    let mut values = Vec::new(alloc);
    for kind in kinds {
        let value = first_value(alloc, kind)?;
        values.push(value)?;
    }
    Ok(values)
}

#[tactic(auto, unfolding(set_meaning::specs::Kinds::InKind))]
fn first_value(alloc: Global, kind: &Kind) -> Result<Value, AllocError>
    requires { IsKind kind.now }
    ensures { IfOk result (InKind kind.now) }
{
    match kind {
        Kind::Bool => Ok(Value::Bool(false)),
        Kind::Int(numbers) => Ok(Value::Int(least(numbers.elements()))),
        Kind::Set(_) => {
            let set = SetValue::from_range(alloc, 1, 0)?;
            Ok(Value::Set(set))
        }
    }
}

/// The first of the numbers; 0 where there are none.
fn least(numbers: &[i64]) -> i64
    ensures { result ≡ least numbers.now }
{
    match numbers {
        [first, ..] => *first,
        [] => 0,
    }
}
