//! The exact step of a constraint, by trying all values of its variables.

ghost use Rattle.std.specs.Prelude.{◌≡◌, ◌≢◌, ℕ, ◌<◌, ◌≤◌, true, false, [], length, slice_index, slice_index_or, MatchBool, IfOk};
ghost use Rattle.plain_steps.specs.Task.{is_scoped, problem_of, Completes, IsSatisfiable};
ghost use Rattle.plain_steps.specs.Sets.{has, family as family_of};
ghost use Rattle.search_rules.specs.Family.{Lies, Leaves};
ghost use Rattle.search_rules.specs.Problem.{Extends, IsNarrowed, IsViolated};
ghost use Rattle.plain_steps.specs.Steps.{IsStepOf, IsBoxStepOf};

use crate::set::{copied, lies, meets, without};
use crate::table::{next_outside, set_of, table_copied};
use crate::{Set, Task};
use listed::Listed;
use std::alloc::{AllocError, Global};

/// Whether the values chosen below `depth` can be completed by values of the family that satisfy the constraint. Values
/// of variables that it does not speak of are 0.
fn completes<T: Task>(
    task: &T,
    constraint: usize,
    family: &[Set],
    depth: usize,
    values: &mut [u32],
) -> bool
    requires sets { length family.now ≡ length (T.plain task.now).sets }
    requires values { length values.old ≡ length family.now }
    requires depth { depth ≤ length family.now }
    requires zeros { (u : ℕ) → u < depth → is_scoped (T.plain task.now) constraint u ≡ false → slice_index values.old u ≡ 0 }
    ensures kept { (u : ℕ) → u < depth → slice_index values.new u ≡ slice_index values.old u }
    ensures answer { let p = T.plain task.now in
        MatchBool result
        ((a : ℕ → ℕ) × Completes p constraint family.now values.old depth a)
        ((a : ℕ → ℕ) → Completes p constraint family.now values.old depth a → ⊥) }
{
    if depth == family.len() {
        return task.holds(constraint, values);
    }
    if !task.speaks_of(constraint, depth) {
        values[depth] = 0;
        return completes(task, constraint, family, depth + 1, values);
    }
    for x in set_of(family, depth) {
        values[depth] = *x;
        if completes(task, constraint, family, depth + 1, values) {
            return true;
        }
    }
    false
}

/// Whether some values of the family satisfy the constraint.
pub fn satisfiable<T: Task>(
    alloc: Global,
    task: &T,
    constraint: usize,
    family: &[Set],
) -> Result<bool, AllocError>
    requires { length family.now ≡ length (T.plain task.now).sets }
    ensures { let p = T.plain task.now in
        IfOk result (λ b. MatchBool b (IsSatisfiable p constraint family.now) (IsViolated (problem_of p) constraint (family_of family.now))) }
{
    let mut values = vec![in alloc; 0; family.len()]?;
    Ok(completes(task, constraint, family, 0, &mut values))
}

/// Whether the value of the variable extends to values of the family that satisfy the constraint.
fn extends<T: Task>(
    alloc: Global,
    task: &T,
    constraint: usize,
    family: &[Set],
    variable: usize,
    value: u32,
) -> Result<bool, AllocError>
    requires sets { length family.now ≡ length (T.plain task.now).sets }
    requires scoped { is_scoped (T.plain task.now) constraint variable ≡ true }
    requires inside { has (slice_index_or family.now variable []) value ≡ true }
    ensures { let p = T.plain task.now in
        IfOk result (λ b. MatchBool b
        (Extends (problem_of p) constraint (family_of family.now) variable value)
        (Extends (problem_of p) constraint (family_of family.now) variable value → ⊥)) }
{
    let mut trial = table_copied(alloc, family)?;
    trial[variable] = copied(alloc, &[value])?;
    satisfiable(alloc, task, constraint, &trial)
}

/// The values of the variable that extend.
#[tactic(auto, using(crate::proofs::StepLemmas::extending_push, crate::proofs::StepLemmas::extending_skip, crate::proofs::StepLemmas::extending_all))]
pub fn extending<T: Task>(
    alloc: Global,
    task: &T,
    constraint: usize,
    family: &[Set],
    variable: usize,
) -> Result<Set, AllocError>
    requires sets { length family.now ≡ length (T.plain task.now).sets }
    requires scoped { is_scoped (T.plain task.now) constraint variable ≡ true }
    ensures { let p = T.plain task.now in
        IfOk result (λ s. IsNarrowed (problem_of p) constraint (family_of family.now) variable (has s)) }
{
    let mut kept = Vec::new(alloc);
    for x in set_of(family, variable) {
        if extends(alloc, task, constraint, family, variable, *x)? {
            kept.push(*x)?;
        }
    }
    Ok(Listed::of(kept))
}

/// What a step does to a family.
#[derive(Drop)]
pub enum Step {
    /// No values of the family satisfy the constraint, or all of them lie in the box.
    Conflict,
    /// The variable keeps this non-empty proper part of its set.
    Narrowed(usize, Set),
    /// It leaves the family as it is.
    Same,
}

/// The first variable that the exact step of the constraint narrows.
pub fn step_of<T: Task>(
    alloc: Global,
    task: &T,
    constraint: usize,
    family: &[Set],
) -> Result<Step, AllocError>
    requires { length family.now ≡ length (T.plain task.now).sets }
    ensures { IfOk result (IsStepOf (T.plain task.now) constraint family.now) }
{
    if !satisfiable(alloc, task, constraint, family)? {
        return Ok(Step::Conflict);
    }
    for v in 0..family.len() {
        if task.speaks_of(constraint, v) {
            let kept = extending(alloc, task, constraint, family, v)?;
            if !lies(set_of(family, v), kept.items()) {
                return Ok(Step::Narrowed(v, kept));
            }
        }
    }
    Ok(Step::Same)
}

/// What the step of the box does to the family.
pub fn box_step(alloc: Global, sides: &[Set], family: &[Set]) -> Result<Step, AllocError>
    requires { length family.now ≡ length sides.now }
    ensures { IfOk result (IsBoxStepOf sides.now family.now) }
{
    match next_outside(family, sides, 0) {
        None => Ok(Step::Conflict),
        Some(one) => match next_outside(family, sides, one + 1) {
            Some(_) => Ok(Step::Same),
            None => one_outside(alloc, sides, family, one),
        },
    }
}

/// The same where only the set of one variable does not lie in its side.
fn one_outside(alloc: Global, sides: &[Set], family: &[Set], one: usize) -> Result<Step, AllocError>
    requires same { length family.now ≡ length sides.now }
    requires known { one < length family.now }
    requires outside { Leaves (has (slice_index_or family.now one [])) (has (slice_index_or sides.now one [])) }
    requires others { (u : ℕ) → u ≢ one → u < length family.now → Lies (has (slice_index_or family.now u [])) (has (slice_index_or sides.now u [])) }
    ensures { IfOk result (IsBoxStepOf sides.now family.now) }
{
    if !meets(set_of(family, one), set_of(sides, one)) {
        return Ok(Step::Same);
    }
    Ok(Step::Narrowed(
        one,
        without(alloc, set_of(family, one), set_of(sides, one))?,
    ))
}
