//! What is asked of the text of a model, and how the run is to end.

ghost use Rattle.std.specs.Prelude.{◌≡◌, ◌↔◌, ◌⊎◌, ◌≤◌, IsTrue, length};
ghost use Rattle.set_meaning.specs.declared.problems.Goal.TheVariants as goals;
ghost use Rattle.fzn_model.specs.declared.faults.FileFault.TheVariants as faults;
ghost use Rattle.fzn_model.specs.Files.{IsFaultOf};
ghost use Rattle.fzn_model.specs.Printed.{StandsIn};
ghost use Rattle.solve_top.specs.Texts.{text_limit, IsAcceptedFile};
ghost use Rattle.solve_top.specs.Statuses.{StopsWith};
ghost use Rattle.solve_top.specs.declared.words.Task.TheVariants as tasks;
ghost use Rattle.solve_top.specs.Endings.{ending_status, ending_text, ending_stop, EndsText};

use crate::ending::Ending;
use crate::root::tell_root;
use crate::searching::solve;
use crate::words::Task;
use desk::Desk;
use fzn_model::{FileFault, fault_line, read_problem};
use model_limits::problems_of_texts_keep_limits;
use set_meaning::{Goal, Problem};
use std::alloc::{AllocError, Global};

/// Reads the text of a model and answers what is asked of it. The desk is not called.
pub(crate) fn ending_of_text<D: Desk>(
    alloc: Global,
    task: Task,
    text: &[u8],
    desk: &mut D,
) -> Ending
    requires { length text.now ≤ text_limit }
    ensures ends { EndsText task text.now (ending_status result) (ending_text result) }
    ensures stop { StopsWith (ending_status result) (ending_stop result) }
    ensures told { D.state desk.new ≡ D.state desk.old }
    ensures faults { D.faults desk.new ≡ D.faults desk.old }
{
    match read_problem(alloc, text) {
        Ok(problem) => ending_of_problem(alloc, task, text, problem, desk),
        Err(fault) => ending_of_fault(alloc, task, text, &fault),
    }
}

/// Tells the fault of a text.
fn ending_of_fault(alloc: Global, task: Task, text: &[u8], fault: &FileFault) -> Ending
    requires short { length text.now ≤ text_limit }
    requires fault { (fault.now ≡ faults.Memory) ⊎ IsFaultOf text.now fault.now }
    requires place { (fault.now ≡ faults.Memory) ⊎ StandsIn text.now fault.now }
    ensures ends { EndsText task text.now (ending_status result) (ending_text result) }
    ensures stop { StopsWith (ending_status result) (ending_stop result) }
{
    let _ = task;
    if is_memory(fault) {
        return Ending::Memory;
    }
    match fault_line(alloc, text, fault) {
        Ok(line) => Ending::Faulty(line),
        Err(AllocError) => Ending::Memory,
    }
}

fn is_memory(fault: &FileFault) -> bool
    ensures { IsTrue result ↔ (fault.now ≡ faults.Memory) }
{
    match fault {
        FileFault::Lex(_) => false,
        FileFault::Syntax(_) => false,
        FileFault::Model(_) => false,
        FileFault::Memory => true,
    }
}

/// Answers what is asked of the problem of a text.
fn ending_of_problem<D: Desk>(
    alloc: Global,
    task: Task,
    text: &[u8],
    p: Problem,
    desk: &mut D,
) -> Ending
    requires { IsAcceptedFile text.now p }
    ensures ends { EndsText task text.now (ending_status result) (ending_text result) }
    ensures stop { StopsWith (ending_status result) (ending_stop result) }
    ensures told { D.state desk.new ≡ D.state desk.old }
    ensures faults { D.faults desk.new ≡ D.faults desk.old }
{
    match task {
        Task::Solve => ending_of_solving(alloc, text, p, desk),
        Task::Root => ending_of_root(alloc, text, p, desk),
    }
}

/// Tells the root family of the problem of a text.
fn ending_of_root<D: Desk>(alloc: Global, text: &[u8], p: Problem, desk: &mut D) -> Ending
    requires { IsAcceptedFile text.now p }
    ensures ends { EndsText tasks.Root text.now (ending_status result) (ending_text result) }
    ensures stop { StopsWith (ending_status result) (ending_stop result) }
    ensures told { D.state desk.new ≡ D.state desk.old }
    ensures faults { D.faults desk.new ≡ D.faults desk.old }
{
    problems_of_texts_keep_limits(text, &p);
    tell_root(alloc, p, desk)
}

/// Solves the problem of a text, where its goal is `satisfy`.
fn ending_of_solving<D: Desk>(alloc: Global, text: &[u8], p: Problem, desk: &mut D) -> Ending
    requires { IsAcceptedFile text.now p }
    ensures ends { EndsText tasks.Solve text.now (ending_status result) (ending_text result) }
    ensures stop { StopsWith (ending_status result) (ending_stop result) }
    ensures told { D.state desk.new ≡ D.state desk.old }
    ensures faults { D.faults desk.new ≡ D.faults desk.old }
{
    if !is_satisfy(&p.goal) {
        return Ending::NotBuilt;
    }
    problems_of_texts_keep_limits(text, &p);
    solve(alloc, p, desk)
}

fn is_satisfy(goal: &Goal) -> bool
    ensures { IsTrue result ↔ (goal.now ≡ goals.Satisfy) }
{
    match goal {
        Goal::Satisfy => true,
        Goal::Minimize(_) => false,
        Goal::Maximize(_) => false,
    }
}
