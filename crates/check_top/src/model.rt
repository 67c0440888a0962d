//! The model's file, read.

ghost use Rattle.std.specs.Prelude.{◌≡◌, ◌↔◌, ◌⊎◌, ◌≤◌, IsTrue, length};
ghost use Rattle.fzn_model.specs.declared.faults.FileFault.TheVariants as faults;
ghost use Rattle.fzn_model.specs.Files.{IsFaultOf};
ghost use Rattle.fzn_model.specs.Printed.{StandsIn};
ghost use Rattle.check_top.specs.Files.{text_limit};
ghost use Rattle.check_top.specs.Endings.{ending_status, ending_text};
ghost use Rattle.check_top.specs.Steps.{ReadsModel, EndsText, RefusesText};

use crate::ending::Ending;
use desk::{Desk, Failed, ReadEnd, Slot, read_text};
use fzn_model::{FileFault, fault_line, read_problem};
use model_limits::problems_of_texts_keep_limits;
use set_meaning::Problem;
use std::alloc::{AllocError, Global};

/// The most bytes of a model's text.
const TEXT_LIMIT: usize = 67_108_864;

/// Reads the problem of the model of this name, or answers how the check is to end.
pub fn read_model<D: Desk>(alloc: Global, name: &str, desk: &mut D) -> Result<Problem, Ending>
    ensures { ReadsModel name.now
        (D.state desk.old) (D.state desk.new) (D.faults desk.old) (D.faults desk.new) result }
{
    if let Err(Failed) = desk.begin_read(Slot::Model, name) {
        return Err(Ending::ReadFault);
    }
    match read_text(alloc, desk, Slot::Model, TEXT_LIMIT) {
        Ok(text) => problem_of_text(alloc, text.as_slice()),
        Err(ReadEnd::Failed) => Err(Ending::ReadFault),
        Err(ReadEnd::TooLong) => Err(Ending::TooLong),
        Err(ReadEnd::Memory) => Err(Ending::Memory),
    }
}

fn problem_of_text(alloc: Global, text: &[u8]) -> Result<Problem, Ending>
    requires { length text.now ≤ text_limit }
    ensures { EndsText text.now result }
{
    match read_problem(alloc, text) {
        Ok(problem) => {
            problems_of_texts_keep_limits(text, &problem);
            Ok(problem)
        }
        Err(fault) => Err(ending_of_fault(alloc, text, &fault)),
    }
}

/// Tells the fault of a text.
fn ending_of_fault(alloc: Global, text: &[u8], fault: &FileFault) -> Ending
    requires short { length text.now ≤ text_limit }
    requires fault { (fault.now ≡ faults.Memory) ⊎ IsFaultOf text.now fault.now }
    requires place { (fault.now ≡ faults.Memory) ⊎ StandsIn text.now fault.now }
    ensures { RefusesText text.now (ending_status result) (ending_text result) }
{
    if is_memory(fault) {
        return Ending::Memory;
    }
    match fault_line(alloc, text, fault) {
        Ok(line) => Ending::Faulty(line),
        Err(AllocError) => Ending::Memory,
    }
}

fn is_memory(fault: &FileFault) -> bool
    ensures { IsTrue result ↔ (fault.now ≡ faults.Memory) }
{
    match fault {
        FileFault::Lex(_) => false,
        FileFault::Syntax(_) => false,
        FileFault::Model(_) => false,
        FileFault::Memory => true,
    }
}
