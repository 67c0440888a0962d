//! Relations of integers and Booleans that are linear sums, whose partial sums are carried from variable to variable.
ghost use Rattle.std.specs.Prelude.{◌≡◌, ◌↔◌, ◌<◌, ◌≤◌, true, map, length, IsTrue, IfOk, All};
ghost use Rattle.std.specs.List.{AllZip, flat_map};
ghost use Rattle.set_meaning.specs.Problems.{IsKind};
ghost use Rattle.set_meaning.specs.Rows.{FitsRow};
ghost use Rattle.set_meaning.specs.Relations.{IsScope, terms_of};
ghost use Rattle.problem_limits.specs.Limits.{IsSmallTerm};
ghost use Rattle.log_rules.specs.Boxes.{SomeSatisfy};
ghost use Rattle.log_rules.specs.Rules.{StandsIn};
ghost use Rattle.sweep_sums.specs.Forms.{number_of};
ghost use Rattle.sweep_sums.specs.Shapes.{is_sum};
ghost use Rattle.sweep_shapes.specs.Numbers.{AreNumbersWithin};
ghost use Rattle.sweep_shapes.specs.Slots.{IsReading};

use crate::choices::values_within;
use bit_layout::Layout;
use listed::Listed;
use problem_limits::{are_within_limits, is_within_limits};
use set_meaning::{Constraint, Kind, Value, VarId};
use std::alloc::{AllocError, Global};
use sweep_sums::{is_sum, some_fit, sum_of, sums_are_weighted};
use sweep_table::Table;

/// Whether the constraint's relation is one linear sum within the limits on problems, over at most 2,048 variables.
pub(crate) fn is_read_as_sum(
    alloc: Global,
    kinds: &[Kind],
    read: &Constraint,
    variables: &[VarId],
) -> Result<bool, AllocError>
    ensures sum { IfOk result (λ yes. IsTrue yes → is_sum read.now.relation ≡ true) }
    ensures constants { IfOk result (λ yes. IsTrue yes → All IsSmallTerm (flat_map terms_of read.now.args)) }
    ensures terms { IfOk result (λ yes. IsTrue yes → length (flat_map terms_of read.now.args) ≤ 4194304) }
    ensures few { IfOk result (λ yes. IsTrue yes → length variables.now ≤ 2048) }
{
    if !is_sum(read.relation) {
        return Ok(false);
    }
    if variables.len() > 2048 {
        return Ok(false);
    }
    if !are_within_limits(kinds) {
        return Ok(false);
    }
    is_within_limits(alloc, kinds, read)
}

/// Whether some initial values in the sides satisfy a constraint, which says that the relation of `read`, one linear sum, has
/// this truth value. Time is of the order of the initial values, and of the numbers times the partial sums before them.
pub(crate) fn is_possible_of_sum(
    alloc: Global,
    kinds: &[Kind],
    layout: &Layout,
    table: &Table,
    c: &Constraint,
    sides: &[(u64, u64)],
    variables: &[VarId],
    read: &Constraint,
    truth: bool,
) -> Result<bool, AllocError>
    requires legal { All IsKind kinds.now }
    requires layout { layout.now.kinds ≡ kinds.now }
    requires fits { FitsRow kinds.now c.now }
    requires read { IsReading kinds.now c.now variables.now read.now truth }
    requires sum { is_sum read.now.relation ≡ true }
    requires constants { All IsSmallTerm (flat_map terms_of read.now.args) }
    requires terms { length (flat_map terms_of read.now.args) ≤ 4194304 }
    requires scope { IsScope c.now variables.now }
    requires few { length variables.now ≤ 2048 }
    requires named { All (λ side. StandsIn c.now side.0) sides.now }
    ensures { IfOk result (λ yes. IsTrue yes ↔ SomeSatisfy kinds.now table.now sides.now c.now) }
{
    sums_are_weighted();
    let args = read.args.items();
    let sum = sum_of(alloc, kinds, read.relation, args)?;
    let lists = all_numbers_within(alloc, kinds, layout, table, sides, variables)?;
    let lists = lists.as_slice();
    let yes = some_fit(alloc, &sum, truth, variables, lists)?;
    Ok(yes)
}

/// For each variable, the numbers of its initial values that are in its side.
fn all_numbers_within(
    alloc: Global,
    kinds: &[Kind],
    layout: &Layout,
    table: &Table,
    sides: &[(u64, u64)],
    variables: &[VarId],
) -> Result<Vec<Listed<i64>>, AllocError>
    requires kinds { layout.now.kinds ≡ kinds.now }
    requires known { All (λ v. v.0 < length kinds.now) variables.now }
    ensures { IfOk result (λ lists. AllZip (AreNumbersWithin kinds.now table.now sides.now) variables.now lists.items) }
{
    let mut lists = Vec::new(alloc);
    for v in variables {
        let numbers = numbers_within(alloc, kinds, layout, table, sides, *v)?;
        lists.push(numbers)?;
    }
    Ok(lists)
}

fn numbers_within(
    alloc: Global,
    kinds: &[Kind],
    layout: &Layout,
    table: &Table,
    sides: &[(u64, u64)],
    v: VarId,
) -> Result<Listed<i64>, AllocError>
    requires kinds { layout.now.kinds ≡ kinds.now }
    requires known { v.0 < length kinds.now }
    ensures { IfOk result (AreNumbersWithin kinds.now table.now sides.now v) }
{
    let values = values_within(alloc, kinds, layout, table, sides, v)?;
    let numbers = numbers_of(alloc, values.as_slice())?;
    Ok(Listed::of(numbers))
}

fn numbers_of(alloc: Global, values: &[Value]) -> Result<Vec<i64>, AllocError>
    ensures { IfOk result (λ numbers. numbers.items ≡ map number_of values.now) }
{
    let mut numbers = Vec::new(alloc);
    for value in values {
        numbers.push(number_of(value))?;
    }
    Ok(numbers)
}

/// The number that a value counts as; 0 for a set.
fn number_of(value: &Value) -> i64
    ensures { result ≡ number_of value.now }
{
    match value {
        Value::Bool(truth) => i64::from(*truth),
        Value::Int(x) => *x,
        Value::Set(_) => 0,
    }
}
