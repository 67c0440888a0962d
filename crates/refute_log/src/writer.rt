//! The writer of a log.
ghost use Rattle.std.specs.Prelude.{◌≡◌, ◌⊎◌, is_some, Ok, IsFalse, IsTrue, IsOk, IfOk, IfErr, OnOk, OnErr, map};
ghost use Rattle.std.specs.Result.{is_err};
ghost use Rattle.std.specs.List.{AllByRecursion};
ghost use Rattle.desk.specs.State.{written, log_begun};
ghost use Rattle.desk.specs.Causes.{WriteCause};
ghost use Rattle.desk.specs.Calls.{Asks};
ghost use Rattle.desk.specs.Texts.{WritesFront};
ghost use Rattle.diagram_arena.specs.Table.{IsLive};
ghost use Rattle.diagram_arena.specs.Arena.{table};
ghost use Rattle.log_text.specs.declared.line.Line.TheVariants as lines;
ghost use Rattle.log_text.specs.Spelling.{HasSpelling, IsNumber, IsValue};
ghost use Rattle.refute_log.specs.Writer.{off, begun, one_learned, one_box};
ghost use Rattle.refute_log.specs.Lines.{line_text, has_failed, Appends, axiom_line, answer_line, resolvent_line, log_value};
ghost use Rattle.refute_log.specs.Naming.{IsOfOneVariable};
ghost use Rattle.refute_log.specs.Batches.{WritesNodes};

use crate::appending::{append, append_close, sides_of, values_of};
use crate::batches::{Batch, MAX_NUMBER};
use bit_layout::Layout;
use desk::{Asked, Desk, Failed, To, write_text};
use diagram_arena::Ref;
use diagram_ops::Ops;
use log_text::Line;
use set_meaning::{ConId, Value, VarId};
use std::alloc::{AllocError, Global};
use std::convert::From;
use std::marker::Model;
use thiserror::Error;

/// The number of a line that is not written.
const NO_LINE: u64 = 0;

/// Why a line was not written.
#[derive(Clone, Copy, Debug, PartialEq, Eq, Error)]
pub enum LogStop {
    #[error("a write to the log failed")]
    Failed,
    #[error("no memory for a line of the log")]
    Memory,
}

impl From<AllocError> for LogStop {
    ghost use Rattle.refute_log.specs.declared.writer.LogStop.TheVariants as stops;

    ghost from_gives = { λ _ stop. stop ≡ stops.Memory };

    fn from(_: AllocError) -> LogStop {
        LogStop::Memory
    }
}

/// Writes the lines of a refutation log, and counts the boxes that were learned. There is one writer of a log, so it is
/// handed on and not copied. A writer that is off writes nothing, its calls fail never, and each line's number is 0.
///
/// A call of a writer that is on builds its lines before it writes: after want of memory the log has whole lines only,
/// and after a failure of the desk it may end in a front of a line. A number past 2^40 has no spelling: the answer is
/// want of memory.
#[derive(Drop)]
pub struct LogWriter {
    learned: u64,
    next_node: u64,
    next_box: u64,
    memory: Option<Global>,
}

impl Model for LogWriter {
    ghost use Rattle.std.specs.Prelude.{is_some};
    ghost use Rattle.refute_log.specs.Writer.{WriterState};

    ghost Value = { WriterState };

    ghost view = { λ w. record { on = is_some w.memory; learned = w.learned; next_node = w.next_node; next_box = w.next_box } };
}

impl LogWriter {
    /// The writer of no log. Takes no memory.
    pub fn off() -> LogWriter
        ensures { result ≡ off }
    {
        LogWriter::fresh(None)
    }

    /// The writer of no log where there is no memory for lines, and else that of a log that has its first line alone.
    fn fresh(memory: Option<Global>) -> LogWriter
        ensures { result ≡ record off { on = is_some memory } }
    {
        LogWriter {
            learned: 0,
            next_node: 2,
            next_box: 0,
            memory,
        }
    }

    /// Begins a log of this name and writes its first line. It takes no memory; `alloc` is for the lines of later
    /// calls. Failed comes where the log could not be begun, and where the line could not be written.
    pub fn start<D: Desk>(alloc: Global, desk: &mut D, name: &str) -> Result<LogWriter, LogStop>
        ensures writer { IfOk result (λ w. w ≡ begun) }
        ensures line { OnOk result (D.state desk.new ≡ written To.Log (line_text lines.Header)
            (log_begun name.now (D.state desk.old))) }
        ensures failed { IfErr result (λ stop. stop ≡ LogStop.Failed) }
        ensures err { OnErr result (Asks Asked.Log name.now (D.state desk.old) (D.state desk.new)
            ⊎ WritesFront To.Log (line_text lines.Header) (log_begun name.now (D.state desk.old))
            (D.state desk.new)) }
        ensures cause { WriteCause (D.faults desk.old) (D.faults desk.new) (is_err result) }
    {
        match begin(desk, name) {
            Ok(()) => Ok(LogWriter::fresh(Some(alloc))),
            Err(_) => Err(LogStop::Failed),
        }
    }

    /// Writes the lines of the nodes under `r` that have none yet, each after those of its children, sets their tags,
    /// and answers the number of `r`: 0 for Zero, 1 for One, and otherwise its tag. `r` reaches bits of one variable
    /// only. The lines are written at once, also where memory was refused for a further one, so that the tags are
    /// numbers of lines.
    pub fn side<D: Desk>(
        &mut self,
        desk: &mut D,
        ops: &mut Ops,
        layout: &Layout,
        r: Ref,
    ) -> Result<u64, LogStop>
        requires begun { IsTrue self.old.on → IsTrue (D.state desk.old).log.begun }
        requires live { IsTrue self.old.on → IsLive (table ops.old.arena) r }
        requires one { IsTrue self.old.on → IsOfOneVariable layout.now (table ops.old.arena) r }
        ensures number { IsFalse self.old.on → result ≡ Ok 0 }
        ensures writer { IsFalse self.old.on → self.new ≡ self.old }
        ensures alone { IsFalse self.old.on → (desk.new ≡ desk.old) × (ops.new ≡ ops.old) }
        ensures nodes { IsTrue self.old.on
            → WritesNodes layout.now (D.state desk.old)
            (D.state desk.new) ops.old ops.new self.old self.new r result }
        ensures cause { WriteCause (D.faults desk.old) (D.faults desk.new) (has_failed result) }
    {
        match self.memory {
            Some(alloc) => self.add_nodes(alloc, desk, ops, layout, r),
            None => Ok(NO_LINE),
        }
    }

    fn add_nodes<D: Desk>(
        &mut self,
        alloc: Global,
        desk: &mut D,
        ops: &mut Ops,
        layout: &Layout,
        r: Ref,
    ) -> Result<u64, LogStop>
        requires begun { IsTrue (D.state desk.old).log.begun }
        requires live { IsLive (table ops.old.arena) r }
        requires one { IsOfOneVariable layout.now (table ops.old.arena) r }
        ensures nodes { WritesNodes layout.now (D.state desk.old)
            (D.state desk.new) ops.old ops.new self.old self.new r result }
        ensures cause { WriteCause (D.faults desk.old) (D.faults desk.new) (has_failed result) }
    {
        let mut batch = Batch::new(alloc, self.next_node);
        let built = batch.number_below(ops, layout, r);
        self.next_node = batch.next();
        match write_text(desk, To::Log, batch.text()) {
            Ok(()) => match built {
                Ok(number) => Ok(number),
                Err(_) => Err(LogStop::Memory),
            },
            Err(_) => Err(LogStop::Failed),
        }
    }

    /// Writes the box with these sides, under the numbers of their sets, as one that this constraint excludes, and
    /// answers its number.
    pub fn axiom<D: Desk>(
        &mut self,
        desk: &mut D,
        constraint: ConId,
        sides: &[(VarId, u64)],
    ) -> Result<u64, LogStop>
        requires begun { IsTrue self.old.on → IsTrue (D.state desk.old).log.begun }
        ensures number { IsFalse self.old.on → result ≡ Ok 0 }
        ensures writer { IsFalse self.old.on → self.new ≡ self.old }
        ensures alone { IsFalse self.old.on → desk.new ≡ desk.old }
        ensures given { IsTrue self.old.on → IfOk result (λ k. k ≡ self.old.next_box) }
        ensures spelled { IsTrue self.old.on
            → OnOk result (HasSpelling (axiom_line self.old.next_box constraint sides.now)) }
        ensures line { IsTrue self.old.on
            → Appends (line_text (axiom_line self.old.next_box constraint sides.now))
            (D.state desk.old) (D.state desk.new) result }
        ensures counted { IsTrue self.old.on → OnOk result (self.new ≡ one_box self.old) }
        ensures kept { IsTrue self.old.on → OnErr result (self.new ≡ self.old) }
        ensures cause { WriteCause (D.faults desk.old) (D.faults desk.new) (has_failed result) }
    {
        match self.memory {
            Some(alloc) => self.add_axiom(alloc, desk, constraint, sides),
            None => Ok(NO_LINE),
        }
    }

    fn add_axiom<D: Desk>(
        &mut self,
        alloc: Global,
        desk: &mut D,
        constraint: ConId,
        sides: &[(VarId, u64)],
    ) -> Result<u64, LogStop>
        requires begun { IsTrue (D.state desk.old).log.begun }
        ensures given { IfOk result (λ k. k ≡ self.old.next_box) }
        ensures spelled { OnOk result (HasSpelling (axiom_line self.old.next_box constraint sides.now)) }
        ensures line { Appends (line_text (axiom_line self.old.next_box constraint sides.now))
            (D.state desk.old) (D.state desk.new) result }
        ensures counted { OnOk result (self.new ≡ one_box self.old) }
        ensures kept { OnErr result (self.new ≡ self.old) }
        ensures cause { WriteCause (D.faults desk.old) (D.faults desk.new) (has_failed result) }
    {
        let number = self.next_box()?;
        let line = Line::Axiom {
            number,
            constraint: u64::from(constraint.0),
            sides: sides_of(alloc, sides)?,
        };
        self.add_box(alloc, desk, &line)
    }

    /// Writes the line of a box, and counts it.
    fn add_box<D: Desk>(&mut self, alloc: Global, desk: &mut D, line: &Line) -> Result<u64, LogStop>
        requires begun { IsTrue (D.state desk.old).log.begun }
        requires spelled { HasSpelling line.now }
        requires small { IsNumber self.old.next_box }
        ensures given { IfOk result (λ k. k ≡ self.old.next_box) }
        ensures line { Appends (line_text line.now) (D.state desk.old) (D.state desk.new) result }
        ensures counted { OnOk result (self.new ≡ one_box self.old) }
        ensures kept { OnErr result (self.new ≡ self.old) }
        ensures cause { WriteCause (D.faults desk.old) (D.faults desk.new) (has_failed result) }
    {
        match append(alloc, desk, line) {
            Ok(()) => {
                let number = self.next_box;
                self.next_box = number + 1;
                Ok(number)
            }
            Err(stop) => Err(stop),
        }
    }

    /// The number of the next box. A number past 2^40 has no spelling: the answer is want of memory.
    fn next_box(&self) -> Result<u64, AllocError>
        ensures same { IfOk result (λ k. k ≡ self.now.next_box) }
        ensures small { IfOk result IsNumber }
    {
        small(self.next_box)
    }

    /// Writes the box of an answer with these values, and answers its number.
    pub fn answer<D: Desk>(
        &mut self,
        desk: &mut D,
        values: &[Value],
        sides: &[(VarId, u64)],
    ) -> Result<u64, LogStop>
        requires begun { IsTrue self.old.on → IsTrue (D.state desk.old).log.begun }
        requires small { IsTrue self.old.on → AllByRecursion IsValue (map log_value values.now) }
        ensures number { IsFalse self.old.on → result ≡ Ok 0 }
        ensures writer { IsFalse self.old.on → self.new ≡ self.old }
        ensures alone { IsFalse self.old.on → desk.new ≡ desk.old }
        ensures given { IsTrue self.old.on → IfOk result (λ k. k ≡ self.old.next_box) }
        ensures spelled { IsTrue self.old.on
            → OnOk result (HasSpelling (answer_line self.old.next_box values.now sides.now)) }
        ensures line { IsTrue self.old.on
            → Appends (line_text (answer_line self.old.next_box values.now sides.now))
            (D.state desk.old) (D.state desk.new) result }
        ensures counted { IsTrue self.old.on → OnOk result (self.new ≡ one_box self.old) }
        ensures kept { IsTrue self.old.on → OnErr result (self.new ≡ self.old) }
        ensures cause { WriteCause (D.faults desk.old) (D.faults desk.new) (has_failed result) }
    {
        match self.memory {
            Some(alloc) => self.add_answer(alloc, desk, values, sides),
            None => Ok(NO_LINE),
        }
    }

    fn add_answer<D: Desk>(
        &mut self,
        alloc: Global,
        desk: &mut D,
        values: &[Value],
        sides: &[(VarId, u64)],
    ) -> Result<u64, LogStop>
        requires begun { IsTrue (D.state desk.old).log.begun }
        requires small { AllByRecursion IsValue (map log_value values.now) }
        ensures given { IfOk result (λ k. k ≡ self.old.next_box) }
        ensures spelled { OnOk result (HasSpelling (answer_line self.old.next_box values.now sides.now)) }
        ensures line { Appends (line_text (answer_line self.old.next_box values.now sides.now))
            (D.state desk.old) (D.state desk.new) result }
        ensures counted { OnOk result (self.new ≡ one_box self.old) }
        ensures kept { OnErr result (self.new ≡ self.old) }
        ensures cause { WriteCause (D.faults desk.old) (D.faults desk.new) (has_failed result) }
    {
        let number = self.next_box()?;
        let line = Line::Answer {
            number,
            values: values_of(alloc, values)?,
            sides: sides_of(alloc, sides)?,
        };
        self.add_box(alloc, desk, &line)
    }

    /// Writes the resolvent of two boxes, given by their numbers, for the variable `pivot`, and answers its number.
    pub fn resolvent<D: Desk>(
        &mut self,
        desk: &mut D,
        left: u64,
        right: u64,
        pivot: VarId,
        sides: &[(VarId, u64)],
    ) -> Result<u64, LogStop>
        requires begun { IsTrue self.old.on → IsTrue (D.state desk.old).log.begun }
        ensures number { IsFalse self.old.on → result ≡ Ok 0 }
        ensures writer { IsFalse self.old.on → self.new ≡ self.old }
        ensures alone { IsFalse self.old.on → desk.new ≡ desk.old }
        ensures given { IsTrue self.old.on → IfOk result (λ k. k ≡ self.old.next_box) }
        ensures spelled { IsTrue self.old.on
            → OnOk result (HasSpelling (resolvent_line self.old.next_box left right pivot sides.now)) }
        ensures line { IsTrue self.old.on
            → Appends (line_text (resolvent_line self.old.next_box left right pivot sides.now))
            (D.state desk.old) (D.state desk.new) result }
        ensures counted { IsTrue self.old.on → OnOk result (self.new ≡ one_box self.old) }
        ensures kept { IsTrue self.old.on → OnErr result (self.new ≡ self.old) }
        ensures cause { WriteCause (D.faults desk.old) (D.faults desk.new) (has_failed result) }
    {
        match self.memory {
            Some(alloc) => self.add_resolvent(alloc, desk, left, right, pivot, sides),
            None => Ok(NO_LINE),
        }
    }

    fn add_resolvent<D: Desk>(
        &mut self,
        alloc: Global,
        desk: &mut D,
        left: u64,
        right: u64,
        pivot: VarId,
        sides: &[(VarId, u64)],
    ) -> Result<u64, LogStop>
        requires begun { IsTrue (D.state desk.old).log.begun }
        ensures given { IfOk result (λ k. k ≡ self.old.next_box) }
        ensures spelled { OnOk result (HasSpelling
            (resolvent_line self.old.next_box left right pivot sides.now)) }
        ensures line { Appends (line_text
            (resolvent_line self.old.next_box left right pivot sides.now)) (D.state desk.old) (D.state desk.new) result }
        ensures counted { OnOk result (self.new ≡ one_box self.old) }
        ensures kept { OnErr result (self.new ≡ self.old) }
        ensures cause { WriteCause (D.faults desk.old) (D.faults desk.new) (has_failed result) }
    {
        let number = self.next_box()?;
        let line = Line::Resolvent {
            number,
            left: small(left)?,
            right: small(right)?,
            pivot: u64::from(pivot.0),
            sides: sides_of(alloc, sides)?,
        };
        self.add_box(alloc, desk, &line)
    }

    /// Writes that the box of this number is learned, and counts it. Where no line is written the count is as before.
    pub fn learn<D: Desk>(&mut self, desk: &mut D, line: u64) -> Result<(), LogStop>
        requires begun { IsTrue self.old.on → IsTrue (D.state desk.old).log.begun }
        ensures done { IsFalse self.old.on → IsOk result }
        ensures counted { IsFalse self.old.on → self.new ≡ one_learned self.old }
        ensures alone { IsFalse self.old.on → desk.new ≡ desk.old }
        ensures spelled { IsTrue self.old.on → OnOk result (HasSpelling (lines.Learned line)) }
        ensures line { IsTrue self.old.on
            → Appends (line_text (lines.Learned line)) (D.state desk.old) (D.state desk.new) result }
        ensures learned { IsTrue self.old.on → OnOk result (self.new ≡ one_learned self.old) }
        ensures kept { IsTrue self.old.on → OnErr result (self.new ≡ self.old) }
        ensures cause { WriteCause (D.faults desk.old) (D.faults desk.new) (has_failed result) }
    {
        match self.memory {
            Some(alloc) => self.add_learned(alloc, desk, line),
            None => {
                self.count_learned();
                Ok(())
            }
        }
    }

    fn add_learned<D: Desk>(
        &mut self,
        alloc: Global,
        desk: &mut D,
        line: u64,
    ) -> Result<(), LogStop>
        requires begun { IsTrue (D.state desk.old).log.begun }
        ensures spelled { OnOk result (HasSpelling (lines.Learned line)) }
        ensures line { Appends (line_text (lines.Learned line)) (D.state desk.old)
            (D.state desk.new) result }
        ensures learned { OnOk result (self.new ≡ one_learned self.old) }
        ensures kept { OnErr result (self.new ≡ self.old) }
        ensures cause { WriteCause (D.faults desk.old) (D.faults desk.new) (has_failed result) }
    {
        let line = Line::Learned {
            number: small(line)?,
        };
        append(alloc, desk, &line)?;
        self.count_learned();
        Ok(())
    }

    fn count_learned(&mut self)
        ensures { self.new ≡ one_learned self.old }
    {
        self.learned = self.learned.saturating_add(1);
    }

    /// How many boxes were learned, 2^64 - 1 where they were more. Takes no memory.
    pub fn learned(&self) -> u64
        ensures { result ≡ self.now.learned }
    {
        self.learned
    }

    /// Ends a log whose box of this number has every initial value of every variable. The number is at most 2^40, as
    /// that of each box that was written. Takes no memory. After a failure the log may end in a front of the line.
    pub fn close<D: Desk>(self, desk: &mut D, line: u64) -> Result<(), Failed>
        requires begun { IsTrue self.on → IsTrue (D.state desk.old).log.begun }
        requires spelled { IsTrue self.on → HasSpelling (lines.Close line) }
        ensures done { IsFalse self.on → IsOk result }
        ensures alone { IsFalse self.on → desk.new ≡ desk.old }
        ensures line { IsTrue self.on
            → OnOk result (D.state desk.new ≡ written To.Log (line_text (lines.Close line))
            (D.state desk.old)) }
        ensures front { IsTrue self.on
            → OnErr result (WritesFront To.Log (line_text (lines.Close line)) (D.state desk.old)
            (D.state desk.new)) }
        ensures cause { WriteCause (D.faults desk.old) (D.faults desk.new) (is_err result) }
    {
        match self.memory {
            Some(_) => append_close(desk, line),
            None => Ok(()),
        }
    }

    /// Ends a log that shows nothing. Takes no memory. After a failure the log may end in a front of the line.
    pub fn end<D: Desk>(self, desk: &mut D) -> Result<(), Failed>
        requires begun { IsTrue self.on → IsTrue (D.state desk.old).log.begun }
        ensures done { IsFalse self.on → IsOk result }
        ensures alone { IsFalse self.on → desk.new ≡ desk.old }
        ensures line { IsTrue self.on
            → OnOk result (D.state desk.new ≡ written To.Log (line_text lines.End) (D.state desk.old)) }
        ensures front { IsTrue self.on
            → OnErr result (WritesFront To.Log (line_text lines.End) (D.state desk.old)
            (D.state desk.new)) }
        ensures cause { WriteCause (D.faults desk.old) (D.faults desk.new) (is_err result) }
    {
        match self.memory {
            Some(_) => write_text(desk, To::Log, b"e\n"),
            None => Ok(()),
        }
    }
}

/// Begins a log of this name and writes its first line.
fn begin<D: Desk>(desk: &mut D, name: &str) -> Result<(), Failed>
    ensures line { OnOk result (D.state desk.new ≡ written To.Log (line_text lines.Header)
        (log_begun name.now (D.state desk.old))) }
    ensures err { OnErr result (Asks Asked.Log name.now (D.state desk.old) (D.state desk.new)
        ⊎ WritesFront To.Log (line_text lines.Header) (log_begun name.now (D.state desk.old))
        (D.state desk.new)) }
    ensures cause { WriteCause (D.faults desk.old) (D.faults desk.new) (is_err result) }
{
    desk.begin_log(name)?;
    write_text(desk, To::Log, b"setlog 1\n")
}

/// A number that may stand in a line. One past 2^40 has no spelling: the answer is want of memory.
fn small(number: u64) -> Result<u64, AllocError>
    ensures same { IfOk result (λ n. n ≡ number) }
    ensures small { IfOk result IsNumber }
{
    if number > MAX_NUMBER {
        return Err(AllocError);
    }
    Ok(number)
}
