//! One line, or lines that are built, at the end of a log.
ghost use Rattle.std.specs.Prelude.{◌≡◌, ◌++◌, map, IsTrue, IfOk, OnOk, OnErr};
ghost use Rattle.std.specs.List.{AllByRecursion};
ghost use Rattle.std.specs.Result.{is_err};
ghost use Rattle.desk.specs.State.{written};
ghost use Rattle.desk.specs.Causes.{WriteCause};
ghost use Rattle.desk.specs.Texts.{WritesFront};
ghost use Rattle.log_text.specs.declared.line.Line.TheVariants as lines;
ghost use Rattle.log_text.specs.Spelling.{HasSpelling, IsSide, IsValue};
ghost use Rattle.refute_log.specs.Lines.{line_text, has_failed, Appends, numbered, log_value};

use crate::batches::MAX_NUMBER;
use crate::writer::LogStop;
use desk::{Desk, Failed, To, write_text};
use itoa::Buffer;
use log_text::{Ints, Line, LogValue, LogValues, Sides, write_line};
use set_meaning::{Value, VarId};
use std::alloc::{AllocError, Global};

/// Writes one line, which is built before it is written.
pub(crate) fn append<D: Desk>(alloc: Global, desk: &mut D, line: &Line) -> Result<(), LogStop>
    requires begun { IsTrue (D.state desk.old).log.begun }
    requires spelled { HasSpelling line.now }
    ensures line { Appends (line_text line.now) (D.state desk.old) (D.state desk.new) result }
    ensures cause { WriteCause (D.faults desk.old) (D.faults desk.new) (has_failed result) }
{
    let mut text = Vec::new(alloc);
    match write_line(line, &mut text) {
        Ok(()) => append_text(desk, text.as_slice()),
        Err(_) => Err(LogStop::Memory),
    }
}

/// Writes what is built.
pub(crate) fn append_text<D: Desk>(desk: &mut D, text: &[u8]) -> Result<(), LogStop>
    requires begun { IsTrue (D.state desk.old).log.begun }
    ensures line { Appends text.now (D.state desk.old) (D.state desk.new) result }
    ensures cause { WriteCause (D.faults desk.old) (D.faults desk.new) (has_failed result) }
{
    match write_text(desk, To::Log, text) {
        Ok(()) => Ok(()),
        Err(_) => Err(LogStop::Failed),
    }
}

/// Writes the line that closes a log with the box of this number. Takes no memory, so that the line is written in
/// parts.
pub(crate) fn append_close<D: Desk>(desk: &mut D, number: u64) -> Result<(), Failed>
    requires begun { IsTrue (D.state desk.old).log.begun }
    ensures ok { OnOk result (D.state desk.new ≡ written To.Log (line_text (lines.Close number))
        (D.state desk.old)) }
    ensures err { OnErr result (WritesFront To.Log (line_text (lines.Close number)) (D.state desk.old)
        (D.state desk.new)) }
    ensures cause { WriteCause (D.faults desk.old) (D.faults desk.new) (is_err result) }
{
    append_parts(desk, b"q ", Buffer::new().format(number).as_bytes(), b"\n")
}

/// Writes three parts, one after another.
fn append_parts<D: Desk>(
    desk: &mut D,
    first: &[u8],
    second: &[u8],
    third: &[u8],
) -> Result<(), Failed>
    requires begun { IsTrue (D.state desk.old).log.begun }
    ensures ok { OnOk result (D.state desk.new ≡ written To.Log (first.now ++ second.now ++ third.now)
        (D.state desk.old)) }
    ensures err { OnErr result (WritesFront To.Log (first.now ++ second.now ++ third.now)
        (D.state desk.old) (D.state desk.new)) }
    ensures cause { WriteCause (D.faults desk.old) (D.faults desk.new) (is_err result) }
{
    write_text(desk, To::Log, first)?;
    write_text(desk, To::Log, second)?;
    write_text(desk, To::Log, third)
}

/// The values as a line has them.
pub(crate) fn values_of(alloc: Global, values: &[Value]) -> Result<LogValues, AllocError>
    ensures { IfOk result (λ listed. listed ≡ map log_value values.now) }
{
    let mut listed = Vec::new(alloc);
    for value in values {
        listed.push(value_of(alloc, value)?)?;
    }
    Ok(LogValues::of(listed))
}

fn value_of(alloc: Global, value: &Value) -> Result<LogValue, AllocError>
    ensures { IfOk result (λ copy. copy ≡ log_value value.now) }
{
    match value {
        Value::Bool(truth) => Ok(LogValue::Bool(*truth)),
        Value::Int(x) => Ok(LogValue::Int(*x)),
        Value::Set(set) => Ok(LogValue::Set(Ints::of(Vec::from_slice(alloc, set.elements())?))),
    }
}

/// The sides as a line has them. A number past 2^40 has no spelling: the answer is want of memory.
pub(crate) fn sides_of(alloc: Global, sides: &[(VarId, u64)]) -> Result<Sides, AllocError>
    ensures same { IfOk result (λ listed. listed ≡ numbered sides.now) }
    ensures spelled { IfOk result (λ listed. AllByRecursion IsSide listed) }
{
    let mut listed = Vec::new(alloc);
    for (variable, number) in sides {
        if *number > MAX_NUMBER {
            return Err(AllocError);
        }
        listed.push((u64::from(variable.0), *number))?;
    }
    Ok(Sides::of(listed))
}
