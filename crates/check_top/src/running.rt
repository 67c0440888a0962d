//! The top call, and its steps.

ghost use Rattle.std.specs.Prelude.{◌≡◌, map, string_bytes, Some, OnOk, OnErr};
ghost use Rattle.check_top.specs.Words.{command_of};
ghost use Rattle.check_top.specs.Endings.{ending_status, ending_text};
ghost use Rattle.check_top.specs.Run.{CheckMeans, Causes, Decides, Prints};

use crate::ending::Ending;
use crate::judging::check_log;
use crate::model::read_model;
use desk::{Desk, Failed, To, write_text};
use std::alloc::Global;

/// How a check ended.
#[derive(Clone, Copy, Debug, PartialEq, Eq)]
pub enum CheckStatus {
    /// The log is accepted: `% accepted complete answers A` or `% accepted open answers A` was printed.
    Accepted = 0,
    /// A line of the log is refused: `% refused line L reason R` was printed.
    Refused = 1,
    /// There are not just two words. The usage line was printed.
    Words = 2,
    /// The text of the model is longer than 67,108,864 bytes, or it has a fault, whose line was printed.
    File = 3,
    /// The model or the log could not be read, as was printed: the count of failed reads rose.
    ReadFault = 4,
    /// Standard output could not be written: the count of failed writes rose. What was printed is a front of what
    /// another status prints, and nothing more was written.
    WriteFault = 5,
    /// Want of memory: `% memory` was printed.
    Memory = 6,
}

impl CheckStatus {
    ghost use Rattle.check_top.specs.Endings.{status_number};

    /// The number that the program ends with.
    pub fn number(self) -> u8
        ensures { result ≡ status_number self }
    {
        self as u8
    }
}

/// Runs `setcheck` on `words`, those after the program's name: the name of a model's file, and that of a log. Both
/// are read through the desk, each once from its begin on, the log line by line. Nothing is written but one line to
/// Out.
///
/// The log is accepted where each line is valid after those before it and the last is `q` or `e`, by docs/FORMATS.md.
/// Where the last line of an accepted log is `q`, the answers that it lists cover every solution of the model,
/// whoever wrote the log: where it lists none, the model has no solution. Else the first line that is refused is
/// told, with its first reason. A line longer than 67,108,864 bytes and a last line without its newline are no lines.
///
/// Want of memory can take the place of every other status but `WriteFault`.
pub fn check_run<D: Desk>(alloc: Global, words: &[String], desk: &mut D) -> CheckStatus
    ensures means { CheckMeans (command_of (map string_bytes words.now))
        (D.state desk.old) (D.state desk.new) (D.faults desk.old) (D.faults desk.new) result }
    ensures causes { Causes result (D.faults desk.old) (D.faults desk.new) }
{
    let ending = decide(alloc, words, desk);
    print(desk, &ending)
}

/// Reads what the words name, and answers how the check is to end.
fn decide<D: Desk>(alloc: Global, words: &[String], desk: &mut D) -> Ending
    ensures { Decides (command_of (map string_bytes words.now))
        (D.state desk.old) (D.state desk.new) (D.faults desk.old) (D.faults desk.new)
        (ending_status result) (ending_text result) }
{
    if words.len() != 2 {
        return Ending::Words;
    }
    read_and_check(alloc, words[0].as_str(), words[1].as_str(), desk)
}

/// Reads the model, and then checks the log.
fn read_and_check<D: Desk>(alloc: Global, model: &str, log: &str, desk: &mut D) -> Ending
    ensures { Decides (Some (model.now, log.now))
        (D.state desk.old) (D.state desk.new) (D.faults desk.old) (D.faults desk.new)
        (ending_status result) (ending_text result) }
{
    match read_model(alloc, model, desk) {
        Ok(problem) => check_log(alloc, problem, log, desk),
        Err(ending) => ending,
    }
}

/// Writes the text of the ending, and answers its status, or `WriteFault`.
fn print<D: Desk>(desk: &mut D, ending: &Ending) -> CheckStatus
    ensures { Prints (ending_status ending.now) (ending_text ending.now)
        (D.state desk.old) (D.state desk.new) (D.faults desk.old) (D.faults desk.new) result }
{
    match write_text(desk, To::Out, ending.text()) {
        Ok(()) => ending.status(),
        Err(Failed) => CheckStatus::WriteFault,
    }
}
