//! The checker.

ghost use Rattle.std.specs.Prelude.{◌≡◌, [], ◌∷◌, None, Ok, length, IfOk, IfErr, OnOk, OnErr};
ghost use Rattle.set_meaning.specs.Solutions.{CoverAll};
ghost use Rattle.problem_limits.specs.Limits.{KeepsLimits};
ghost use Rattle.log_rules.specs.declared.reasons.Reason.TheVariants as reason;
ghost use Rattle.log_rules.specs.declared.reasons.End.TheVariants.{Complete};
ghost use Rattle.log_text.specs.Spelling.{HasSpelling};
ghost use Rattle.log_rules.specs.States.{after};
ghost use Rattle.log_rules.specs.Rules.{IsFirstReason, IsValidAfter};
ghost use Rattle.log_checker.specs.declared.refused.Refused.TheVariants as refused;
ghost use Rattle.log_checker.specs.States.{start, Takes, IsCauseOf, IsRefusal};

use crate::earlier::Earlier;
use crate::lines::{Check, first_broken};
use crate::refused::Refused;
use bit_layout::Layout;
use log_rules::{End, Reason, closed_logs_cover_all, logs_grow_by_lines, valid_logs_are_sound};
use log_text::{Line, LineFault, read_line};
use set_meaning::Problem;
use std::alloc::{AllocError, Global};
use std::marker::Model;
use sweep_table::Table;

/// A checker of a log for a problem. Contracts see it as the problem, and what the rules read of the lines taken: whether there are any,
/// the table of nodes, the boxes with their sides, the answers, and the end.
#[derive(Drop)]
pub struct Checker {
    alloc: Global,
    problem: Problem,
    layout: Layout,
    earlier: Earlier,
}

impl Model for Checker {
    ghost use Rattle.log_checker.specs.States.{CheckerState};

    ghost Value = { CheckerState };

    ghost use Rattle.log_checker.specs.Body.{state, IsKept};

    ghost view = { state };

    ghost invariant = { IsKept };
}

impl Checker {
    /// A checker that has taken no line. The problem keeps the limits, as each that was read from a text does. An `Err` is want of memory.
    pub fn new(alloc: Global, problem: Problem) -> Result<Checker, AllocError>
        requires { KeepsLimits problem }
        ensures { IfOk result (λ checker. checker ≡ start problem) }
    {
        logs_grow_by_lines(&problem);
        let layout = Layout::new(alloc, &problem)?;
        let earlier = Earlier {
            begun: false,
            table: Table::new(alloc),
            boxes: Vec::new(alloc),
            answers: Vec::new(alloc),
            end: None,
        };
        Ok(Checker {
            alloc,
            problem,
            layout,
            earlier,
        })
    }

    /// Takes a line, given without the newline that ends it, where it is valid after those taken before. Otherwise `Reason` names the first
    /// rule that it breaks. After a refusal the checker is as before.
    pub fn take(&mut self, line: &[u8]) -> Result<(), Refused>
        ensures taken { OnOk result (Takes self.old line.now self.new) }
        ensures refused { IfErr result (λ e. IsCauseOf self.old line.now e) }
        ensures unchanged { OnErr result (self.new ≡ self.old) }
    {
        match read_line(self.alloc, line) {
            Ok(read) => {
                self.judge(&read)?;
                self.keep(read)
            }
            Err(LineFault::BadForm) => Err(Refused::Reason(self.refuses_no_line())),
            Err(LineFault::Memory) => Err(Refused::Memory),
        }
    }

    /// The first rule that the line breaks, as a refusal.
    fn judge(&self, line: &Line) -> Result<(), Refused>
        requires { HasSpelling line.now }
        ensures valid { OnOk result (IsValidAfter self.now.problem self.now.log line.now) }
        ensures refused { IfErr result (λ e. IsRefusal self.now line.now e) }
    {
        valid_logs_are_sound(&self.problem);
        let check = Check {
            alloc: self.alloc,
            problem: &self.problem,
            layout: &self.layout,
            earlier: &self.earlier,
        };
        match first_broken(&check, line) {
            Ok(None) => Ok(()),
            Ok(Some(reason)) => Err(Refused::Reason(reason)),
            Err(AllocError) => Err(Refused::Memory),
        }
    }

    /// Keeps a valid line.
    fn keep(&mut self, line: Line) -> Result<(), Refused>
        requires spelled { HasSpelling line }
        requires valid { IsValidAfter self.old.problem self.old.log line }
        ensures kept { OnOk result (self.new ≡ record { problem = self.old.problem; log = after self.old.log line }) }
        ensures memory { IfErr result (λ e. e ≡ refused.Memory) }
        ensures unchanged { OnErr result (self.new ≡ self.old) }
    {
        logs_grow_by_lines(&self.problem);
        match self.earlier.add(self.alloc, line) {
            Ok(()) => Ok(()),
            Err(AllocError) => Err(Refused::Memory),
        }
    }

    /// How the log ends, once its last line was taken: Complete where it closes, and then the answers cover every solution; Open where the run
    /// stopped. Otherwise the reason is that the text ends too early. Takes no memory.
    pub fn finish(&self) -> Result<End, Refused>
        ensures ended { IfOk result (λ end. self.now.log.ends ≡ end ∷ []) }
        ensures open { IfErr result (λ e. (e ≡ refused.Reason reason.End) × (self.now.log.ends ≡ [])) }
        ensures covers { result ≡ Ok Complete → CoverAll self.now.problem self.now.log.answers }
    {
        logs_grow_by_lines(&self.problem);
        closed_logs_cover_all(&self.problem);
        match self.earlier.end {
            Some(end) => Ok(end),
            None => Err(Refused::Reason(Reason::End)),
        }
    }

    /// How many answers the lines taken list. Takes no memory.
    pub fn answers(&self) -> u64
        ensures { result ≡ length self.now.log.answers }
    {
        self.earlier.answers.len() as u64
    }

    /// The reason for which a text is refused that spells no line. It is that of a line too long to be read, and of one without a newline.
    pub fn refuses_no_line(&self) -> Reason
        ensures { IsFirstReason self.now.problem self.now.log None result }
    {
        match self.earlier.end {
            Some(_) => Reason::End,
            None => Reason::Form,
        }
    }
}
