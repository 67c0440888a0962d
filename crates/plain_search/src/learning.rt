//! The turn of a conflict: walk, learn, go back, narrow.

ghost use Rattle.std.specs.Prelude.{◌≡◌, ◌<◌, length, IfOk, OnOk, ◌∷◌};
ghost use Rattle.std.specs.List.{All};
ghost use Rattle.search_rules.specs.Family.{put, without as without_of};
ghost use Rattle.search_rules.specs.Trail.{ByBox, narrowing_entry};
ghost use Rattle.search_rules.specs.Walk.{IsConflictBox};
ghost use Rattle.plain_steps.specs.Sets.{family as family_of};
ghost use Rattle.plain_steps.specs.Task.{problem_of};
ghost use Rattle.plain_search.specs.State.{entries_of, boxes_of, IsState, Fits};
ghost use Rattle.plain_search.specs.Moves.{IsTakenUp, IsTurned};

use crate::back::level_back;
use crate::posed::Posed;
use crate::trail::{Cause, Trail};
use crate::turn::Turn;
use crate::walking::{Derived, walk};
use listed::Listed;
use plain_steps::{Set, Task, set_of, table_copied, without};
use search_rules::{
    conflict_turn, derived_box_narrows, level_to_go_back_to, stop_goes_back_as_the_trail,
    walk_past_the_first_entry,
};
use std::alloc::{AllocError, Global};

/// Narrows the variable of the derived box by it.
fn narrow_by(alloc: Global, trail: &mut Trail, derived: Derived) -> Result<(), AllocError>
    requires known { derived.var < length trail.old.domains.items }
    requires long { length derived.sides.items ≡ length trail.old.domains.items }
    ensures entry { OnOk result (entries_of trail.new.changes.items
        ≡ narrowing_entry (entries_of trail.old.changes.items) (family_of trail.old.domains.items) derived.var (ByBox (family_of derived.sides.items))
        ∷ entries_of trail.old.changes.items) }
    ensures family { let f = family_of trail.old.domains.items in
        OnOk result (family_of trail.new.domains.items ≡ put f derived.var (without_of (f derived.var) (family_of derived.sides.items derived.var))) }
    ensures sets { OnOk result (length trail.new.domains.items ≡ length trail.old.domains.items) }
    ensures fits { let n = length trail.old.domains.items in
        OnOk result (All (Fits n) trail.old.changes.items → All (Fits n) trail.new.changes.items) }
{
    let var = derived.var;
    let kept = without(
        alloc,
        set_of(&trail.domains, var),
        set_of(&derived.sides, var),
    )?;
    let level = trail.level();
    trail.change(var, kept, level, Cause::Learned(Listed::of(derived.sides)))?;
    Ok(())
}

/// Goes back with the derived box, learns it and narrows its variable by it.
fn take_up(
    alloc: Global,
    trail: &mut Trail,
    boxes: &mut Vec<Listed<Set>>,
    derived: Derived,
) -> Result<(), AllocError>
    requires known { derived.var < length trail.old.domains.items }
    requires long { length derived.sides.items ≡ length trail.old.domains.items }
    requires fits { All (Fits (length trail.old.domains.items)) trail.old.changes.items }
    ensures taken { OnOk result (IsTakenUp trail.old derived boxes.old.items trail.new boxes.new.items) }
    ensures fits { OnOk result (All (Fits (length trail.old.domains.items)) trail.new.changes.items) }
{
    let level = level_back(&trail.changes, &derived.sides, derived.var);
    trail.go_back(level);
    boxes.push(Listed::of(table_copied(alloc, &derived.sides)?))?;
    narrow_by(alloc, trail, derived)?;
    Ok(())
}

/// The turn of a conflict with the box `first`: the walk derives a box, which is learned and narrows at the level gone back
/// to, or it passes the first change, and there is no solution.
pub fn learn<T: Task>(
    alloc: Global,
    task: &T,
    trail: &mut Trail,
    boxes: &mut Vec<Listed<Set>>,
    first: Vec<Set>,
) -> Result<Turn, AllocError>
    requires state { IsState (T.plain task.now) boxes.old.items trail.old }
    requires long { length first.items ≡ length (T.plain task.now).sets }
    requires conflict { let p = T.plain task.now in
        IsConflictBox (problem_of p) (boxes_of boxes.old.items) (family_of trail.old.domains.items) (family_of first.items) }
    ensures { IfOk result (IsTurned (T.plain task.now) boxes.old.items trail.old boxes.new.items trail.new) }
{
    walk_past_the_first_entry(&Posed { task });
    level_to_go_back_to(&Posed { task });
    derived_box_narrows(&Posed { task });
    stop_goes_back_as_the_trail(&Posed { task });
    conflict_turn(&Posed { task });
    match walk(alloc, task, trail, first)? {
        None => Ok(Turn::Refuted),
        Some(derived) => {
            take_up(alloc, trail, boxes, derived)?;
            Ok(Turn::On)
        }
    }
}
