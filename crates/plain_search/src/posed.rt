//! The task as a problem that the laws of the search speak of.

ghost use Rattle.plain_steps.specs.Task.{problem_of};

use plain_steps::Task;
use search_rules::Rules;

/// A task, for the calls of the laws.
#[derive(Drop)]
pub struct Posed<'a, T: Task> {
    pub task: &'a T,
}

impl<'a, T: Task> Rules for Posed<'a, T> {
    type Value = u32;

    ghost problem = { λ posed. problem_of (T.plain posed.task.now) };
}
