//! The walk from a conflict.

ghost use Rattle.std.specs.Prelude.{◌≡◌, ◌<◌, length, IfOk, MatchOption, ◌⊎◌};
ghost use Rattle.std.specs.List.{All};
ghost use Rattle.search_rules.specs.Family.{Lies, Leaves};
ghost use Rattle.search_rules.specs.Box.{resolvent as resolvent_of};
ghost use Rattle.search_rules.specs.Walk.{reason_box as reason_box_of};
ghost use Rattle.plain_steps.specs.Sets.{has, family as family_of};
ghost use Rattle.plain_steps.specs.Steps.{IsBox};
ghost use Rattle.plain_steps.specs.Task.{problem_of};
ghost use Rattle.plain_search.specs.State.{reason_of, IsSized, Fits};
ghost use Rattle.plain_search.specs.Moves.{IsPassed, IsStopped};

use crate::standing::stop;
use crate::trail::{Cause, Trail, Undone};
use plain_steps::{Set, Task, lies, narrowing_box, resolvent, set_of, table_copied};
use std::alloc::{AllocError, Global};

/// The reason box of a change that was taken back, in the family just before it. That of a decision, which has none, is
/// everything, and the walk never asks for it.
fn reason_box<T: Task>(
    alloc: Global,
    task: &T,
    family: &[Set],
    undone: &Undone,
) -> Result<Vec<Set>, AllocError>
    requires sets { length family.now ≡ length (T.plain task.now).sets }
    requires known { undone.now.var < length family.now }
    requires sized { IsSized (length family.now) undone.now.cause }
    ensures { let p = T.plain task.now in
        IfOk result (λ r. IsBox r.items (length p.sets)
        (reason_box_of (problem_of p) (reason_of undone.now.cause) (family_of family.now) undone.now.var (has undone.now.kept))) }
{
    match &undone.cause {
        Cause::Decision => table_copied(alloc, task.sets()),
        Cause::Constraint(constraint) => narrowing_box(
            alloc,
            task,
            *constraint,
            family,
            undone.var,
            undone.kept.items(),
        ),
        Cause::Learned(sides) => table_copied(alloc, sides.items()),
    }
}

/// The running box beyond the change that was taken back: resolved with its reason box where it matters, else the same.
fn running_beyond<T: Task>(
    alloc: Global,
    task: &T,
    family: &[Set],
    undone: &Undone,
    running: Vec<Set>,
) -> Result<Vec<Set>, AllocError>
    requires sets { length family.now ≡ length (T.plain task.now).sets }
    requires running { length running.items ≡ length family.now }
    requires known { undone.now.var < length family.now }
    requires sized { IsSized (length family.now) undone.now.cause }
    ensures { let p = T.plain task.now in let v = undone.now.var in let f = family_of family.now in let b = family_of running.items in
        IfOk result (λ r. (Lies (f v) (b v) × (r.items ≡ running.items))
        ⊎ (Leaves (f v) (b v)
        × IsBox r.items (length p.sets) (resolvent_of b (reason_box_of (problem_of p) (reason_of undone.now.cause) f v (has undone.now.kept)) v))) }
{
    if lies(set_of(family, undone.var), set_of(&running, undone.var)) {
        return Ok(running);
    }
    let reason = reason_box(alloc, task, family, undone)?;
    resolvent(alloc, &running, &reason, undone.var)
}

/// The box at which the walk stops, and the one variable whose changes matter at the highest level.
#[derive(Drop)]
pub struct Derived {
    pub sides: Vec<Set>,
    pub var: usize,
}

/// Walks back over the trail from a conflict with the box `first`, and takes the changes back on the way. Where it
/// passes the first change it derives nothing that could be learned.
pub fn walk<T: Task>(
    alloc: Global,
    task: &T,
    trail: &mut Trail,
    first: Vec<Set>,
) -> Result<Option<Derived>, AllocError>
    requires sets { length trail.old.domains.items ≡ length (T.plain task.now).sets }
    requires fits { All (Fits (length (T.plain task.now).sets)) trail.old.changes.items }
    requires first { length first.items ≡ length (T.plain task.now).sets }
    ensures walked { let p = T.plain task.now in
        IfOk result (λ found. MatchOption found (IsPassed p trail.old first.items) (IsStopped p trail.old first.items trail.new)) }
    ensures sets { length trail.new.domains.items ≡ length trail.old.domains.items }
    ensures fit { All (Fits (length (T.plain task.now).sets)) trail.new.changes.items }
{
    let mut running = first;
    loop {
        if let Some(var) = stop(&trail.changes, &running) {
            return Ok(Some(Derived {
                sides: running,
                var,
            }));
        }
        let Some(undone) = trail.undo() else {
            return Ok(None);
        };
        running = running_beyond(alloc, task, &trail.domains, &undone, running)?;
    }
}
