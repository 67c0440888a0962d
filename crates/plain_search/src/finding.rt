//! What the steps of the constraints and of the learned boxes say of a family.

ghost use Rattle.std.specs.Prelude.{◌≡◌, ℕ, ◌<◌, Bool, List, length, IfOk};
ghost use Rattle.std.specs.List.{All};
ghost use Rattle.search_rules.specs.Problem.{IsLeft};
ghost use Rattle.search_rules.specs.Box.{IsBoxSame};
ghost use Rattle.search_rules.specs.Trail.{Stored, IsStored, IsLearned, IsQuiet};
ghost use Rattle.plain_steps.specs.Sets.{family as family_of};
ghost use Rattle.plain_steps.specs.Task.{problem_of, IsSatisfiable};
ghost use Rattle.plain_search.specs.State.{boxes_of};
ghost use Rattle.plain_search.specs.Moves.{IsFound};

use crate::trail::Cause;
use listed::Listed;
use plain_steps::{Set, Step, Task, box_step, conflict_box, step_of, table_copied};
use std::alloc::{AllocError, Global};

/// What was found.
#[derive(Drop)]
pub enum Found {
    /// A conflict, with its box.
    Conflict(Vec<Set>),
    /// The variable keeps this set, with the cause.
    Narrowing(usize, Set, Cause),
    /// Neither.
    Quiet,
}

/// What the step of the constraint says.
fn by_constraint<T: Task>(
    alloc: Global,
    task: &T,
    constraint: usize,
    family: &[Set],
) -> Result<Found, AllocError>
    requires sets { length family.now ≡ length (T.plain task.now).sets }
    requires known { constraint < (T.plain task.now).count }
    ensures { let p = T.plain task.now in
        (boxes : List (Stored ℕ)) → IfOk result (IsFound p boxes (family_of family.now)
        (IsLeft (problem_of p) constraint (family_of family.now) × IsSatisfiable p constraint family.now)) }
{
    match step_of(alloc, task, constraint, family)? {
        Step::Conflict => Ok(Found::Conflict(conflict_box(alloc, task, constraint, family)?)),
        Step::Narrowed(var, kept) => Ok(Found::Narrowing(var, kept, Cause::Constraint(constraint))),
        Step::Same => Ok(Found::Quiet),
    }
}

/// What the first step of a constraint that is not quiet says.
fn by_constraints<T: Task>(alloc: Global, task: &T, family: &[Set]) -> Result<Found, AllocError>
    requires { length family.now ≡ length (T.plain task.now).sets }
    ensures { let p = T.plain task.now in
        (boxes : List (Stored ℕ)) → IfOk result (IsFound p boxes (family_of family.now)
        ((c : ℕ) → c < p.count → IsLeft (problem_of p) c (family_of family.now) × IsSatisfiable p c family.now)) }
{
    for constraint in 0..task.count() {
        match by_constraint(alloc, task, constraint, family)? {
            Found::Quiet => {}
            found => return Ok(found),
        }
    }
    Ok(Found::Quiet)
}

/// What the step of the learned box says.
fn by_box<T: Task>(
    alloc: Global,
    task: &T,
    sides: &[Set],
    family: &[Set],
) -> Result<Found, AllocError>
    requires sets { length family.now ≡ length (T.plain task.now).sets }
    requires sides { length sides.now ≡ length (T.plain task.now).sets }
    ensures { let p = T.plain task.now in
        (boxes : List (Stored ℕ)) → IsStored boxes (family_of sides.now)
        → IfOk result (IsFound p boxes (family_of family.now) (IsBoxSame (family_of sides.now) (family_of family.now))) }
{
    match box_step(alloc, sides, family)? {
        Step::Conflict => Ok(Found::Conflict(table_copied(alloc, sides)?)),
        Step::Narrowed(var, kept) => {
            let learned = Listed::of(table_copied(alloc, sides)?);
            Ok(Found::Narrowing(var, kept, Cause::Learned(learned)))
        }
        Step::Same => Ok(Found::Quiet),
    }
}

/// What the first step of a learned box that is not quiet says.
fn by_boxes<T: Task>(
    alloc: Global,
    task: &T,
    boxes: &[Listed<Set>],
    family: &[Set],
) -> Result<Found, AllocError>
    requires sets { length family.now ≡ length (T.plain task.now).sets }
    requires sides { All (λ b. length b ≡ length (T.plain task.now).sets) boxes.now }
    ensures { let p = T.plain task.now in
        IfOk result (IsFound p (boxes_of boxes.now) (family_of family.now)
        ((b : ℕ → ℕ → Bool) → IsLearned (boxes_of boxes.now) b → IsBoxSame b (family_of family.now))) }
{
    for sides in boxes {
        match by_box(alloc, task, sides.items(), family)? {
            Found::Quiet => {}
            found => return Ok(found),
        }
    }
    Ok(Found::Quiet)
}

/// What the steps of the constraints and of the learned boxes say, the constraints first.
pub fn find<T: Task>(
    alloc: Global,
    task: &T,
    boxes: &[Listed<Set>],
    family: &[Set],
) -> Result<Found, AllocError>
    requires sets { length family.now ≡ length (T.plain task.now).sets }
    requires sides { All (λ b. length b ≡ length (T.plain task.now).sets) boxes.now }
    ensures { let p = T.plain task.now in
        IfOk result (IsFound p (boxes_of boxes.now) (family_of family.now)
        (IsQuiet (problem_of p) (boxes_of boxes.now) (family_of family.now) × ((c : ℕ) → c < p.count → IsSatisfiable p c family.now))) }
{
    match by_constraints(alloc, task, family)? {
        Found::Quiet => by_boxes(alloc, task, boxes, family),
        found => Ok(found),
    }
}
