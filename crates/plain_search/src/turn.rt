//! One turn of the search.

ghost use Rattle.std.specs.Prelude.{ℕ, IfOk};
ghost use Rattle.search_rules.specs.Family.{HasValue};
ghost use Rattle.plain_steps.specs.Sets.{family as family_of};
ghost use Rattle.plain_search.specs.State.{boxes_of, IsState};
ghost use Rattle.plain_search.specs.Moves.{IsNarrowing, IsTurned};

use crate::deciding::decide;
use crate::finding::{Found, find};
use crate::learning::learn;
use crate::posed::Posed;
use crate::trail::{Cause, Trail};
use listed::Listed;
use plain_steps::{Set, Task};
use search_rules::narrowing_keeps_the_state_legal;
use std::alloc::{AllocError, Global};

/// What a turn comes to.
#[derive(Drop)]
pub enum Turn {
    /// The search goes on.
    On,
    /// These values are a solution.
    Solved(Vec<u32>),
    /// There is no solution.
    Refuted,
}

/// Takes the narrowing.
fn narrow<T: Task>(
    task: &T,
    trail: &mut Trail,
    boxes: &[Listed<Set>],
    var: usize,
    kept: Set,
    cause: Cause,
) -> Result<Turn, AllocError>
    requires state { IsState (T.plain task.now) boxes.now trail.old }
    requires narrows { let p = T.plain task.now in
        IsNarrowing p (boxes_of boxes.now) (family_of trail.old.domains.items) var kept cause }
    ensures { IfOk result (IsTurned (T.plain task.now) boxes.now trail.old boxes.now trail.new) }
{
    narrowing_keeps_the_state_legal(&Posed { task });
    let level = trail.level();
    trail.change(var, kept, level, cause)?;
    Ok(Turn::On)
}

/// One turn: a conflict's, a narrowing or a decision, or the end with a solution or with none.
pub fn take_turn<T: Task>(
    alloc: Global,
    task: &T,
    trail: &mut Trail,
    boxes: &mut Vec<Listed<Set>>,
) -> Result<Turn, AllocError>
    requires state { IsState (T.plain task.now) boxes.old.items trail.old }
    requires values { (v : ℕ) → HasValue (family_of (T.plain task.now).sets v) }
    ensures { IfOk result (IsTurned (T.plain task.now) boxes.old.items trail.old boxes.new.items trail.new) }
{
    match find(alloc, task, boxes, &trail.domains)? {
        Found::Conflict(first) => learn(alloc, task, trail, boxes, first),
        Found::Narrowing(var, kept, cause) => narrow(task, trail, boxes, var, kept, cause),
        Found::Quiet => decide(alloc, task, trail, boxes),
    }
}
