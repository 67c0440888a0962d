//! Whether values are a new answer, and what its box holds.

ghost use Rattle.std.specs.Prelude.{◌≡◌, ◌↔◌, ℕ, ◌<◌, ℤ, ◌≤ℤ◌, Some, slice_get, length, All, IfOk, IsSomeAnd, IsTrue};
ghost use Rattle.set_meaning.specs.declared.kinds.Kind.TheVariants as kinds;
ghost use Rattle.set_meaning.specs.declared.kinds.Value.TheVariants as value;
ghost use Rattle.set_meaning.specs.Kinds.{InKind};
ghost use Rattle.set_meaning.specs.Arguments.{int_at, int_in, OfTwo};
ghost use Rattle.set_meaning.specs.Solutions.{Covers, IsAnswer, IsCovered, IsSolution};
ghost use Rattle.log_rules.specs.Boxes.{AreSides, side_of};
ghost use Rattle.log_rules.specs.Rules.{IsBoxOf};
ghost use Rattle.log_checker.specs.Words.{IsAsGood, IsFit, IsFitAt, IsOnlyAt, NoneIsBetter, NoneIsBeyond};
ghost use Rattle.log_checker.specs.Body.{IsReady};

use crate::inside::is_only;
use crate::lines::Check;
use crate::resolvents::node_of;
use bit_layout::values_have_words;
use listed::Listed;
use log_rules::walks_go_to_children;
use set_meaning::{Goal, Kind, Problem, SetValue, Value, VarId, is_solution};
use std::alloc::AllocError;

/// Whether the values are a solution that the earlier answers do not cover.
pub(crate) fn is_new_answer(check: &Check<'_>, values: &[Value]) -> Result<bool, AllocError>
    ensures { IfOk result (λ yes. IsTrue yes ↔ IsAnswer check.now.problem.now check.now.earlier.now.answers.items values.now) }
{
    if !is_solution(check.alloc, check.problem, values)? {
        return Ok(false);
    }
    if is_covered(check.problem, check.earlier.answers.as_slice(), values) {
        return Ok(false);
    }
    Ok(true)
}

/// Whether some of the answers covers the values.
fn is_covered(problem: &Problem, answers: &[Listed<Value>], values: &[Value]) -> bool
    ensures { IsTrue result ↔ IsCovered problem.now answers.now values.now }
{
    for answer in answers {
        if covers(problem, answer.items(), values) {
            return true;
        }
    }
    false
}

/// Whether the answer covers the values.
fn covers(problem: &Problem, answer: &[Value], values: &[Value]) -> bool
    ensures { IsTrue result ↔ Covers problem.now answer.now values.now }
{
    match problem.goal {
        Goal::Satisfy => are_same(answer, values),
        Goal::Minimize(o) => is_at_most(int_at(o, answer), int_at(o, values)),
        Goal::Maximize(o) => is_at_most(int_at(o, values), int_at(o, answer)),
    }
}

/// Whether both are there, and the first is at most the second.
fn is_at_most(first: Option<i64>, second: Option<i64>) -> bool
    ensures { IsTrue result ↔ OfTwo (λ a b. a ≤ℤ b) first second }
{
    match first {
        Some(a) => match second {
            Some(b) => a <= b,
            None => false,
        },
        None => false,
    }
}

/// The integer of a variable.
fn int_at(o: VarId, values: &[Value]) -> Option<i64>
    ensures { result ≡ int_at o values.now }
{
    match values.get(o.0 as usize) {
        Some(value) => int_in(value),
        None => None,
    }
}

fn int_in(value: &Value) -> Option<i64>
    ensures { result ≡ int_in value.now }
{
    match value {
        Value::Bool(_) => None,
        Value::Int(x) => Some(*x),
        Value::Set(_) => None,
    }
}

/// Whether the values are the same, one by one.
fn are_same(first: &[Value], second: &[Value]) -> bool
    ensures { IsTrue result ↔ (first.now ≡ second.now) }
{
    if first.len() != second.len() {
        return false;
    }
    for (x, y) in first.iter().zip(second) {
        if !is_same(x, y) {
            return false;
        }
    }
    true
}

fn is_same(first: &Value, second: &Value) -> bool
    ensures { IsTrue result ↔ (first.now ≡ second.now) }
{
    match first {
        Value::Bool(a) => match second {
            Value::Bool(b) => a == b,
            Value::Int(_) => false,
            Value::Set(_) => false,
        },
        Value::Int(a) => match second {
            Value::Bool(_) => false,
            Value::Int(b) => a == b,
            Value::Set(_) => false,
        },
        Value::Set(a) => match second {
            Value::Bool(_) => false,
            Value::Int(_) => false,
            Value::Set(b) => have_same(a, b),
        },
    }
}

/// Whether the sets have the same elements.
fn have_same(first: &SetValue, second: &SetValue) -> bool
    ensures { IsTrue result ↔ (first.now ≡ second.now) }
{
    first.elements() == second.elements()
}

/// Whether the answer covers what is in the box.
pub(crate) fn is_answer_box(
    check: &Check<'_>,
    values: &[Value],
    sides: &[(u64, u64)],
) -> Result<bool, AllocError>
    requires ready { IsReady check.now.problem.now check.now.layout.now check.now.earlier.now }
    requires sides { AreSides check.now.problem.now.kinds check.now.earlier.now.table sides.now }
    requires solution { IsSolution check.now.problem.now values.now }
    ensures { let kinds = check.now.problem.now.kinds in
        IfOk result (λ yes. IsTrue yes ↔ IsBoxOf kinds check.now.problem.now.goal values.now (side_of kinds check.now.earlier.now.table sides.now)) }
{
    match check.problem.goal {
        Goal::Satisfy => {
            let yes = are_only(check, values, sides)?;
            Ok(yes)
        }
        Goal::Minimize(o) => {
            let yes = none_is_better(check, o, values, sides, false)?;
            Ok(yes)
        }
        Goal::Maximize(o) => {
            let yes = none_is_better(check, o, values, sides, true)?;
            Ok(yes)
        }
    }
}

/// Whether the box has no values but these.
fn are_only(check: &Check<'_>, values: &[Value], sides: &[(u64, u64)]) -> Result<bool, AllocError>
    requires ready { IsReady check.now.problem.now check.now.layout.now check.now.earlier.now }
    requires sides { AreSides check.now.problem.now.kinds check.now.earlier.now.table sides.now }
    requires solution { IsSolution check.now.problem.now values.now }
    ensures { IfOk result (λ yes. IsTrue yes
        ↔ ((v : ℕ) → v < length values.now → IsOnlyAt check.now.problem.now.kinds check.now.earlier.now.table sides.now values.now v)) }
{
    for v in 0..values.len() {
        if !is_only_at(check, v, values, sides)? {
            return Ok(false);
        }
    }
    Ok(true)
}

/// Whether the box has no other value of the variable.
fn is_only_at(
    check: &Check<'_>,
    v: usize,
    values: &[Value],
    sides: &[(u64, u64)],
) -> Result<bool, AllocError>
    requires ready { IsReady check.now.problem.now check.now.layout.now check.now.earlier.now }
    requires sides { AreSides check.now.problem.now.kinds check.now.earlier.now.table sides.now }
    requires solution { IsSolution check.now.problem.now values.now }
    requires known { v < length values.now }
    ensures { IfOk result (λ yes. IsTrue yes ↔ IsOnlyAt check.now.problem.now.kinds check.now.earlier.now.table sides.now values.now v) }
{
    values_have_words();
    walks_go_to_children();
    match check.kind_at(v as u64) {
        Some(kind) => {
            let value = value_at(values, v);
            let word = check.layout.word_of(check.alloc, VarId(v as u32), value)?;
            let node = node_of(sides, v as u64);
            let table = &check.earlier.table;
            let yes = is_only(check.alloc, kind, table, node, word.as_slice())?;
            Ok(yes)
        }
        None => Ok(true),
    }
}

/// The value of this number.
fn value_at(values: &[Value], v: usize) -> &Value
    requires { v < length values.now }
    ensures { slice_get values.now v ≡ Some result.now }
{
    &values[v]
}

/// Whether the box has no value of the objective that is better than the answer's: none less, or, where `greatest`, none greater.
fn none_is_better(
    check: &Check<'_>,
    o: VarId,
    values: &[Value],
    sides: &[(u64, u64)],
    greatest: bool,
) -> Result<bool, AllocError>
    requires ready { IsReady check.now.problem.now check.now.layout.now check.now.earlier.now }
    requires sides { AreSides check.now.problem.now.kinds check.now.earlier.now.table sides.now }
    ensures { IfOk result (λ yes. IsTrue yes ↔ NoneIsBetter check.now.problem.now.kinds check.now.earlier.now.table sides.now values.now o greatest) }
{
    match int_at(o, values) {
        Some(bound) => {
            let yes = none_is_beyond(check, o, bound, sides, greatest)?;
            Ok(yes)
        }
        None => Ok(true),
    }
}

/// Whether the box has no value of the objective that is better than the bound.
fn none_is_beyond(
    check: &Check<'_>,
    o: VarId,
    bound: i64,
    sides: &[(u64, u64)],
    greatest: bool,
) -> Result<bool, AllocError>
    requires ready { IsReady check.now.problem.now check.now.layout.now check.now.earlier.now }
    requires sides { AreSides check.now.problem.now.kinds check.now.earlier.now.table sides.now }
    ensures { IfOk result (λ yes. IsTrue yes ↔ NoneIsBeyond check.now.problem.now.kinds check.now.earlier.now.table sides.now o bound greatest) }
{
    walks_go_to_children();
    let v = u64::from(o.0);
    match check.kind_at(v) {
        Some(kind) => {
            let node = node_of(sides, v);
            let yes = kind_has_none(check, o, kind, node, bound, greatest)?;
            Ok(yes)
        }
        None => Ok(true),
    }
}

/// Whether no initial value that the node accepts is better than the bound.
fn kind_has_none(
    check: &Check<'_>,
    o: VarId,
    kind: &Kind,
    node: u64,
    bound: i64,
    greatest: bool,
) -> Result<bool, AllocError>
    requires kind { slice_get check.now.layout.now.kinds o.0 ≡ Some kind.now }
    ensures { IfOk result (λ yes. IsTrue yes ↔ ((x : ℤ) → InKind kind.now (value.Int x) → IsFit check.now.layout.now.kinds check.now.earlier.now.table o.0 node bound greatest x)) }
{
    match kind {
        Kind::Bool => Ok(true),
        Kind::Int(numbers) => {
            let yes = all_fit(check, o, numbers, node, bound, greatest)?;
            Ok(yes)
        }
        Kind::Set(_) => Ok(true),
    }
}

/// Whether none of the integers that the node accepts is better than the bound.
fn all_fit(
    check: &Check<'_>,
    o: VarId,
    numbers: &SetValue,
    node: u64,
    bound: i64,
    greatest: bool,
) -> Result<bool, AllocError>
    requires kind { slice_get check.now.layout.now.kinds o.0 ≡ Some (kinds.Int numbers.now) }
    ensures { IfOk result (λ yes. IsTrue yes
        ↔ ((i : ℕ) → i < length numbers.now → IsFitAt check.now.layout.now.kinds check.now.earlier.now.table o.0 node bound greatest numbers.now i)) }
{
    for i in 0..count(numbers) {
        if !is_fit_at(check, o, numbers, i, node, bound, greatest)? {
            return Ok(false);
        }
    }
    Ok(true)
}

/// How many integers there are.
fn count(numbers: &SetValue) -> usize
    ensures { result ≡ length numbers.now }
{
    numbers.elements().len()
}

/// The integer of this number.
fn number_at(numbers: &SetValue, i: usize) -> i64
    requires { i < length numbers.now }
    ensures { slice_get numbers.now i ≡ Some result }
{
    numbers.elements()[i]
}

/// Whether the integer of this number is no better than the bound, or the node does not accept it.
fn is_fit_at(
    check: &Check<'_>,
    o: VarId,
    numbers: &SetValue,
    i: usize,
    node: u64,
    bound: i64,
    greatest: bool,
) -> Result<bool, AllocError>
    requires kind { slice_get check.now.layout.now.kinds o.0 ≡ Some (kinds.Int numbers.now) }
    requires known { i < length numbers.now }
    ensures { IfOk result (λ yes. IsTrue yes ↔ IsFitAt check.now.layout.now.kinds check.now.earlier.now.table o.0 node bound greatest numbers.now i) }
{
    let x = number_at(numbers, i);
    let yes = is_fit(check, o, x, node, bound, greatest)?;
    Ok(yes)
}

/// Whether the integer, an initial value, is no better than the bound, or the node does not accept it.
fn is_fit(
    check: &Check<'_>,
    o: VarId,
    x: i64,
    node: u64,
    bound: i64,
    greatest: bool,
) -> Result<bool, AllocError>
    requires initial { IsSomeAnd (slice_get check.now.layout.now.kinds o.0) (λ k. InKind k (value.Int x)) }
    ensures { IfOk result (λ yes. IsTrue yes ↔ IsFit check.now.layout.now.kinds check.now.earlier.now.table o.0 node bound greatest x) }
{
    if is_as_good(bound, x, greatest) {
        return Ok(true);
    }
    let word = check.layout.word_of(check.alloc, o, &Value::Int(x))?;
    let accepted = check.earlier.table.walk(node, word.as_slice());
    Ok(!accepted)
}

/// Whether the bound is as good as the integer: at most it, or, where `greatest`, at least it.
fn is_as_good(bound: i64, x: i64, greatest: bool) -> bool
    ensures { IsTrue result ↔ IsAsGood greatest bound x }
{
    if greatest { x <= bound } else { bound <= x }
}
