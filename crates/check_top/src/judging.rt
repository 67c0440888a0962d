//! The log's file, read and checked line by line.

ghost use Rattle.std.specs.Prelude.{◌≡◌, ◌<◌, ◌≤◌, ◌^◌, ℕ, [], ◌+◌, IsTrue, IfSome, IfNone, OnSome, length};
ghost use Rattle.problem_limits.specs.Limits.{KeepsLimits};
ghost use Rattle.desk.specs.State.{reading, taken};
ghost use Rattle.desk.specs.Lines.{left_for, unread};
ghost use Rattle.log_rules.specs.States.{state_of};
ghost use Rattle.log_checker.specs.States.{Takes};
ghost use Rattle.check_top.specs.Endings.{ending_status, ending_text, verdict_status, Says};
ghost use Rattle.check_top.specs.Run.{Causes};
ghost use Rattle.check_top.specs.Steps.{ChecksLog, Judges, JudgesEnd, RefusesLine, RefusesBytes, TakesLine, TakesSome, PassesLine};

use crate::ending::Ending;
use crate::lines::ending_of;
use crate::verdict::Verdict;
use desk::{Desk, Failed, LineEnd, Lines, ReadEnd, Slot};
use log_checker::{Checker, Refused};
use log_rules::{Reason, logs_grow_by_lines, valid_logs_are_sound};
use set_meaning::Problem;
use std::alloc::Global;

/// Checks the log of this name for the problem, and answers how the check is to end.
pub fn check_log<D: Desk>(alloc: Global, problem: Problem, name: &str, desk: &mut D) -> Ending
    requires { KeepsLimits problem }
    ensures { ChecksLog problem name.now
        (D.state desk.old) (D.state desk.new) (D.faults desk.old) (D.faults desk.new)
        (ending_status result) (ending_text result) }
{
    if let Err(Failed) = desk.begin_read(Slot::Log, name) {
        return Ending::ReadFault;
    }
    let verdict = judge(alloc, problem, desk);
    ending_of(alloc, &verdict)
}

/// What is to be said of the log that was begun.
fn judge<D: Desk>(alloc: Global, problem: Problem, desk: &mut D) -> Verdict
    requires limits { KeepsLimits problem }
    requires begun { IsTrue (reading Slot.Log (D.state desk.old)).begun }
    ensures says { Says problem (reading Slot.Log (D.state desk.old)).left result }
    ensures takes { TakesSome (D.state desk.old) (D.state desk.new) }
    ensures causes { Causes (verdict_status result) (D.faults desk.old) (D.faults desk.new) }
{
    logs_grow_by_lines(&problem);
    valid_logs_are_sound(&problem);
    let Ok(mut checker) = Checker::new(alloc, problem) else {
        return Verdict::Memory;
    };
    let mut lines = Lines::new(alloc);
    let mut number = 1;
    loop {
        match judge_next(&mut checker, &mut lines, desk, number) {
            Some(verdict) => return verdict,
            None => number += 1,
        }
    }
}

/// Takes the next line, which has this number. Some is what is to be said of the log.
fn judge_next<D: Desk>(
    checker: &mut Checker,
    lines: &mut Lines,
    desk: &mut D,
    number: u64,
) -> Option<Verdict>
    requires begun { IsTrue (reading Slot.Log (D.state desk.old)).begun }
    ensures taken { IfNone result (TakesLine checker.old checker.new
        (left_for Slot.Log (D.state desk.old) (unread lines.old))
        (left_for Slot.Log (D.state desk.new) (unread lines.new))) }
    ensures judged { IfSome result (Judges checker.old
        (left_for Slot.Log (D.state desk.old) (unread lines.old)) number) }
    ensures passes { IfNone result (PassesLine (D.state desk.old) (D.state desk.new)
        (length (unread lines.old)) (length (unread lines.new))) }
    ensures takes { TakesSome (D.state desk.old) (D.state desk.new) }
    ensures quiet { IfNone result (D.faults desk.new ≡ D.faults desk.old) }
    ensures causes { IfSome result (λ v. Causes (verdict_status v)
        (D.faults desk.old) (D.faults desk.new)) }
{
    match lines.next_line(desk, Slot::Log) {
        Ok(LineEnd::Line) => judge_line(checker, lines.line(), number),
        Ok(LineEnd::Unended) => Some(refuse_bytes(checker, number)),
        Ok(LineEnd::End) => Some(judge_end(checker, number)),
        Err(ReadEnd::Failed) => Some(Verdict::ReadFault),
        Err(ReadEnd::TooLong) => Some(refuse_bytes(checker, number)),
        Err(ReadEnd::Memory) => Some(Verdict::Memory),
    }
}

/// Takes this line. Some is what is to be said of the log.
fn judge_line(checker: &mut Checker, line: &[u8], number: u64) -> Option<Verdict>
    ensures taken { IfNone result (Takes checker.old line.now checker.new) }
    ensures refused { IfSome result (RefusesLine checker.old line.now number) }
{
    match checker.take(line) {
        Ok(()) => None,
        Err(Refused::Reason(reason)) => Some(Verdict::Refused { number, reason }),
        Err(Refused::Memory) => Some(Verdict::Memory),
    }
}

/// What is to be said at the end of the log.
fn judge_end(checker: &Checker, number: u64) -> Verdict
    ensures { JudgesEnd checker.now number result }
{
    match checker.finish() {
        Ok(end) => Verdict::Accepted {
            end,
            answers: checker.answers(),
        },
        Err(_) => Verdict::Refused {
            number,
            reason: Reason::End,
        },
    }
}

/// What is to be said of bytes that are no line.
fn refuse_bytes(checker: &Checker, number: u64) -> Verdict
    ensures { RefusesBytes checker.now number result }
{
    Verdict::Refused {
        number,
        reason: checker.refuses_no_line(),
    }
}
