//! The boxes of conflicts and of narrowings.

ghost use Rattle.std.specs.Prelude.{◌≡◌, ◌<◌, length, IfOk};
ghost use Rattle.search_rules.specs.Walk.{conflict_box as box_of_conflict, narrowing_box as box_of_narrowing};
ghost use Rattle.plain_steps.specs.Sets.{has, family as family_of};
ghost use Rattle.plain_steps.specs.Task.{problem_of};
ghost use Rattle.plain_steps.specs.Steps.{IsBox};

use crate::set::{copied, without};
use crate::table::set_of;
use crate::{Set, Task};
use std::alloc::{AllocError, Global};

/// The box of a conflict of the constraint: the sets of its variables, and the initial sets of the others.
#[tactic(auto, using(crate::proofs::StepLemmas::conflict_is))]
pub fn conflict_box<T: Task>(
    alloc: Global,
    task: &T,
    constraint: usize,
    family: &[Set],
) -> Result<Vec<Set>, AllocError>
    requires { length family.now ≡ length (T.plain task.now).sets }
    ensures { let p = T.plain task.now in
        IfOk result (λ b. IsBox b.items (length p.sets) (box_of_conflict (problem_of p) constraint (family_of family.now))) }
{
    let initial = task.sets();
    let mut sides = Vec::new(alloc);
    for v in 0..family.len() {
        let side = if task.speaks_of(constraint, v) {
            copied(alloc, set_of(family, v))?
        } else {
            copied(alloc, set_of(initial, v))?
        };
        sides.push(side)?;
    }
    Ok(sides)
}

/// The reason box of a narrowing by the constraint, which left `kept` of the variable's set in the family just before: the
/// values that were removed, and the sets of the constraint's other variables.
pub fn narrowing_box<T: Task>(
    alloc: Global,
    task: &T,
    constraint: usize,
    family: &[Set],
    variable: usize,
    kept: &[u32],
) -> Result<Vec<Set>, AllocError>
    requires sets { length family.now ≡ length (T.plain task.now).sets }
    requires known { variable < length family.now }
    ensures { let p = T.plain task.now in
        IfOk result (λ b. IsBox b.items (length p.sets)
        (box_of_narrowing (problem_of p) constraint (family_of family.now) variable (has kept.now))) }
{
    let mut sides = conflict_box(alloc, task, constraint, family)?;
    sides[variable] = without(alloc, set_of(family, variable), kept)?;
    Ok(sides)
}
