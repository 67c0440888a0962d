//! What happens where no step changes a set: a solution, or a decision.

ghost use Rattle.std.specs.Prelude.{◌≡◌, ℕ, ◌<◌, [], length, map, IfOk, MatchOption, slice_index, slice_index_or};
ghost use Rattle.search_rules.specs.Family.{HasValue};
ghost use Rattle.search_rules.specs.Trail.{IsQuiet};
ghost use Rattle.plain_steps.specs.Sets.{has, family as family_of};
ghost use Rattle.plain_steps.specs.Task.{problem_of, IsSatisfiable};
ghost use Rattle.plain_search.specs.State.{boxes_of, IsState};
ghost use Rattle.plain_search.specs.Moves.{IsLone, HasTwo, IsLeast, IsTurned};

use crate::posed::Posed;
use crate::trail::{Cause, Trail};
use crate::turn::Turn;
use listed::Listed;
use plain_steps::{Set, Task, copied, lies, set_of};
use search_rules::{decision_keeps_the_state_legal, trails_stay_within};
use std::alloc::{AllocError, Global};

/// The first value of the set, 0 where it has none.
fn first_of(set: &[u32]) -> u32
    ensures { result ≡ slice_index set.now 0 }
{
    match set.first() {
        Some(value) => *value,
        None => 0,
    }
}

/// The least value of the set, 0 where it has none.
fn least_of(set: &[u32]) -> u32
    ensures { HasValue (has set.now) → IsLeast set.now result }
{
    let mut least = first_of(set);
    for value in set {
        if *value < least {
            least = *value;
        }
    }
    least
}

/// The first variable with more than one value.
fn open_variable(domains: &[Set]) -> Option<usize>
    ensures { MatchOption result
        ((v : ℕ) → v < length domains.now → IsLone (slice_index_or domains.now v []))
        (λ v. (v < length domains.now) × HasTwo (slice_index_or domains.now v [])
        × ((u : ℕ) → u < v → IsLone (slice_index_or domains.now u []))) }
{
    for v in 0..domains.len() {
        let set = set_of(domains, v);
        if !lies(set, &[first_of(set)]) {
            return Some(v);
        }
    }
    None
}

/// The first value of each variable.
fn first_values(alloc: Global, domains: &[Set]) -> Result<Vec<u32>, AllocError>
    ensures { IfOk result (λ values. values.items ≡ map (λ set. slice_index set 0) domains.now) }
{
    domains
        .iter()
        .map(|set| first_of(set.items()))
        .collect(alloc)
}

/// Where each variable has one value, these are a solution. Else the first variable with more keeps its least one, as a
/// decision that opens a level.
pub fn decide<T: Task>(
    alloc: Global,
    task: &T,
    trail: &mut Trail,
    boxes: &[Listed<Set>],
) -> Result<Turn, AllocError>
    requires state { IsState (T.plain task.now) boxes.now trail.old }
    requires values { (v : ℕ) → HasValue (family_of (T.plain task.now).sets v) }
    requires quiet { IsQuiet (problem_of (T.plain task.now)) (boxes_of boxes.now) (family_of trail.old.domains.items) }
    requires satisfiable { (c : ℕ) → c < (T.plain task.now).count → IsSatisfiable (T.plain task.now) c trail.old.domains.items }
    ensures { IfOk result (IsTurned (T.plain task.now) boxes.now trail.old boxes.now trail.new) }
{
    trails_stay_within(&Posed { task });
    decision_keeps_the_state_legal(&Posed { task });
    match open_variable(&trail.domains) {
        None => Ok(Turn::Solved(first_values(alloc, &trail.domains)?)),
        Some(var) => {
            let kept = copied(alloc, &[least_of(set_of(&trail.domains, var))])?;
            let level = trail.level() + 1;
            trail.change(var, kept, level, Cause::Decision)?;
            Ok(Turn::On)
        }
    }
}
