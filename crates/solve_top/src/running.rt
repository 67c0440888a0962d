//! The top call, and its parts that reach the outside.

ghost use Rattle.std.specs.Prelude.{◌≡◌, map, string_bytes};
ghost use Rattle.std.specs.Option.{option_map};
ghost use Rattle.solve_top.specs.Words.{command_of};
ghost use Rattle.solve_top.specs.Run.{RunMeans, Causes};
ghost use Rattle.solve_top.specs.Statuses.{StopsWith};
ghost use Rattle.solve_top.specs.Steps.{Begins, Reads, Prints};
ghost use Rattle.solve_top.specs.Endings.{ending_status, ending_text, ending_stop};

use crate::answering::ending_of_text;
use crate::ending::Ending;
use crate::status::{Report, Status};
use crate::words::{Task, read_words};
use desk::{Desk, Failed, ReadEnd, Slot, To, read_text, write_text};
use std::alloc::{AllocError, Global};

/// The most bytes of a model's text.
const TEXT_LIMIT: usize = 67_108_864;

/// Runs `setsolve` on `words`, those after the program's name: `MODEL` or `--root MODEL`, in either order. `MODEL` is
/// the name of a file, and begins with no `-`, but for `-` itself and what stands behind a word `--`. It is read
/// through the desk's slot for models; printed is to Out, and no log is begun.
///
/// For `MODEL` it prints the block of a solution, or `=====UNSATISFIABLE=====`. Solved is every problem whose goal is
/// `satisfy`, of any size; with another goal it is answered `% error: not built yet`. The solution is the first one with
/// the first variable slowest, true before false, integers descending, and sets with an element before those without,
/// but no clause says so.
///
/// For `--root MODEL` it prints for each named variable, in file order, the bounds that its values have in the root
/// family, the largest family of domains that the exact step of each constraint leaves as it is, and the number of
/// nodes of their diagram; or `=====UNSATISFIABLE=====` where the root is refuted. The bounds of sets are the elements
/// in every value and those in some value. A variable without a name, that of a constant objective, has no line; where
/// none has a name, nothing is printed. This is done for each problem, whatever its goal and size.
///
/// Both are done with at most 4,000,000 nodes: where one more is wanted, the status is `Nodes`, and `stop` has the
/// nodes and what is pinned of them. All lines are made before the first is printed, so that after `Nodes` and
/// `Memory` there is none.
///
/// No limit on the time of a search is known. The root family takes at most one round of all constraints more than
/// there are values of all variables.
///
/// Want of memory can take the place of every other status but `WriteFault`.
pub fn run<D: Desk>(alloc: Global, words: &[String], desk: &mut D) -> Report
    ensures means { RunMeans (command_of (map string_bytes words.now)) (D.state desk.old) (D.state desk.new) (D.faults desk.old) (D.faults desk.new) result.status }
    ensures causes { Causes result.status (D.faults desk.old) (D.faults desk.new) }
    ensures stop { StopsWith result.status result.stop }
{
    let ending = begin(alloc, words, desk);
    print(desk, ending)
}

/// Reads the words and the model, and answers how the run is to end.
fn begin<D: Desk>(alloc: Global, words: &[String], desk: &mut D) -> Ending
    ensures begins { Begins (command_of (map string_bytes words.now)) (D.state desk.old) (D.state desk.new) (D.faults desk.old) (D.faults desk.new) (ending_status result) (ending_text result) }
    ensures stop { StopsWith (ending_status result) (ending_stop result) }
{
    match read_words(alloc, words) {
        Ok(command) => begin_command(alloc, command, desk),
        Err(AllocError) => Ending::Memory,
    }
}

/// Does what the words ask for, if it is anything.
fn begin_command<D: Desk>(alloc: Global, command: Option<(Task, &str)>, desk: &mut D) -> Ending
    ensures begins { Begins (option_map (λ c. (c.0, c.1.now)) command.entry) (D.state desk.old) (D.state desk.new) (D.faults desk.old) (D.faults desk.new) (ending_status result) (ending_text result) }
    ensures stop { StopsWith (ending_status result) (ending_stop result) }
{
    match command {
        Some((task, name)) => read_and_answer(alloc, desk, task, name),
        None => Ending::Words,
    }
}

/// Reads the model's text and answers what is asked of it.
fn read_and_answer<D: Desk>(alloc: Global, desk: &mut D, task: Task, name: &str) -> Ending
    ensures reads { Reads task name.now (D.state desk.old) (D.state desk.new) (D.faults desk.old) (D.faults desk.new) (ending_status result) (ending_text result) }
    ensures stop { StopsWith (ending_status result) (ending_stop result) }
{
    if let Err(Failed) = desk.begin_read(Slot::Model, name) {
        return Ending::ReadFault;
    }
    match read_text(alloc, desk, Slot::Model, TEXT_LIMIT) {
        Ok(text) => ending_of_text(alloc, task, text.as_slice(), desk),
        Err(ReadEnd::Failed) => Ending::ReadFault,
        Err(ReadEnd::TooLong) => Ending::TooLong,
        Err(ReadEnd::Memory) => Ending::Memory,
    }
}

/// Writes the text of the ending, and answers its status, or `WriteFault`.
fn print<D: Desk>(desk: &mut D, ending: Ending) -> Report
    requires { StopsWith (ending_status ending) (ending_stop ending) }
    ensures prints { Prints (ending_status ending) (ending_text ending) (D.state desk.old) (D.state desk.new) (D.faults desk.old) (D.faults desk.new) result.status }
    ensures stop { StopsWith result.status result.stop }
{
    match write_text(desk, To::Out, ending.text()) {
        Ok(()) => Report {
            status: ending.status(),
            stop: ending.stop(),
        },
        Err(Failed) => Report {
            status: Status::WriteFault,
            stop: None,
        },
    }
}
