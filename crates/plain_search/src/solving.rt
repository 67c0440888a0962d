//! The search from its beginning to its answer.

ghost use Rattle.std.specs.Prelude.{◌≡◌, ℕ, ◌<◌, true, false, length, IfOk, MatchBool, slice_index_or, []};
ghost use Rattle.std.specs.List.{All};
ghost use Rattle.search_rules.specs.Family.{HasValue};
ghost use Rattle.search_rules.specs.State.{AreWalked};
ghost use Rattle.plain_steps.specs.Sets.{has, family as family_of};
ghost use Rattle.plain_steps.specs.Task.{problem_of};
ghost use Rattle.plain_search.specs.State.{boxes_of};
ghost use Rattle.plain_search.specs.Outcome.{IsAnswer, IsEnd, AreSafe};

use crate::posed::Posed;
use crate::trail::Trail;
use crate::turn::{Turn, take_turn};
use listed::Listed;
use plain_steps::{Set, Task};
use search_rules::the_first_state_is_legal;
use std::alloc::{AllocError, Global};

/// What the search says of a task.
#[derive(Drop)]
pub enum Answer {
    /// These values of the variables, in order, are a solution.
    Solution(Vec<u32>),
    /// No values of the variables are a solution.
    NoSolution,
}

/// The answer, and the boxes that were learned on the way, oldest first. A box has a side for each variable, and no
/// solution takes all its values from the sides.
#[derive(Drop)]
pub struct Outcome {
    pub answer: Answer,
    pub learned: Vec<Listed<Set>>,
}

/// Whether each variable has an initial value.
fn have_values(sets: &[Set]) -> bool
    ensures { MatchBool result ((v : ℕ) → HasValue (family_of sets.now v))
        ((v : ℕ) × (v < length sets.now) × ((x : ℕ) → has (slice_index_or sets.now v []) x ≡ false)) }
{
    for set in sets {
        if set.items().is_empty() {
            return false;
        }
    }
    true
}

/// Searches for a solution of the task: one of its solutions, or the answer that it has none. The initial sets may be empty.
/// Want of memory is the only other answer.
///
/// The time is exponential in the number of variables, and each step tries all values of a constraint's variables.
pub fn solve<T: Task>(alloc: Global, task: &T) -> Result<Outcome, AllocError>
    ensures answer { IfOk result (λ outcome. IsAnswer (T.plain task.now) outcome.answer) }
    ensures end { IfOk result (λ outcome. IsEnd (T.plain task.now) outcome.learned.items outcome.answer) }

    // Each box was derived by a walk over the boxes learned before it (that it lies in none of them is the law
    // `derived_box_is_new`).
    ensures walked { IfOk result (λ outcome. AreWalked (problem_of (T.plain task.now)) (boxes_of outcome.learned.items)) }
    ensures safe { IfOk result (λ outcome. AreSafe (T.plain task.now) outcome.learned.items) }
    ensures sides { IfOk result (λ outcome. All (λ b. length b ≡ length (T.plain task.now).sets) outcome.learned.items) }
{
    let mut boxes = Vec::new(alloc);
    the_first_state_is_legal(&Posed { task });
    if !have_values(task.sets()) {
        return Ok(Outcome {
            answer: Answer::NoSolution,
            learned: boxes,
        });
    }
    let mut trail = Trail::new(alloc, task.sets())?;
    loop {
        match take_turn(alloc, task, &mut trail, &mut boxes)? {
            Turn::On => {}
            Turn::Solved(values) => {
                return Ok(Outcome {
                    answer: Answer::Solution(values),
                    learned: boxes,
                });
            }
            Turn::Refuted => {
                return Ok(Outcome {
                    answer: Answer::NoSolution,
                    learned: boxes,
                });
            }
        }
    }
}
