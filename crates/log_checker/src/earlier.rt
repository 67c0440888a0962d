//! What the lines before have made.

ghost use Rattle.std.specs.Prelude.{◌≡◌, ◌⊎◌, [], ◌∷◌, ◌++◌, Some, None, IfSome, IfNone, OnOk, OnErr, slice_get};

use crate::values::values_of;
use listed::Listed;
use log_rules::End;
use log_text::{Line, Sides};
use set_meaning::Value;
use std::alloc::{AllocError, Global};
use sweep_table::Table;

/// What the lines before have made, as far as the rules read it.
#[derive(Drop)]
pub(crate) struct Earlier {
    pub(crate) begun: bool,
    pub(crate) table: Table,
    pub(crate) boxes: Vec<Sides>,
    pub(crate) answers: Vec<Listed<Value>>,
    pub(crate) end: Option<End>,
}

impl Earlier {
    ghost use Rattle.log_text.specs.Spelling.{HasSpelling};
    ghost use Rattle.log_rules.specs.Tables.{IsNext};
    ghost use Rattle.log_rules.specs.States.{after, node_in, end_in};
    ghost use Rattle.log_checker.specs.Body.{log_of};

    /// The sides of box number `k`.
    pub(crate) fn box_at(&self, k: u64) -> Option<&[(u64, u64)]>
        ensures some { IfSome result (λ sides. slice_get self.now.boxes.items k ≡ Some sides.now) }
        ensures none { IfNone result (slice_get self.now.boxes.items k ≡ None) }
    {
        match self.boxes.get(k as usize) {
            Some(sides) => Some(sides.items()),
            None => None,
        }
    }

    /// What a line makes, behind what was there. Where memory runs out nothing has changed.
    pub(crate) fn add(&mut self, alloc: Global, line: Line) -> Result<(), AllocError>
        requires spelled { HasSpelling line }
        requires next { IfSome (node_in line) (IsNext self.old.table) }
        requires open { end_in line ≡ None ⊎ self.old.end ≡ None }
        ensures added { OnOk result (log_of self.new ≡ after (log_of self.old) line) }
        ensures same { OnErr result (log_of self.new ≡ log_of self.old) }
    {
        match line {
            Line::Header => {}
            Line::Node {
                number: _,
                place,
                lo,
                hi,
            } => {
                let _ = self.table.add(place, lo, hi)?;
            }
            Line::Axiom {
                number: _,
                constraint: _,
                sides,
            } => self.boxes.push(sides)?,
            Line::Answer {
                number: _,
                values,
                sides,
            } => {
                let answer = values_of(alloc, values.items())?;
                self.add_answer(answer, sides)?;
            }
            Line::Resolvent {
                number: _,
                left: _,
                right: _,
                pivot: _,
                sides,
            } => self.boxes.push(sides)?,
            Line::Learned { number: _ } => {}
            Line::Close { number: _ } => self.end = Some(End::Complete),
            Line::End => self.end = Some(End::Open),
        }
        self.begun = true;
        Ok(())
    }

    /// An answer, and its box.
    fn add_answer(&mut self, answer: Vec<Value>, sides: Sides) -> Result<(), AllocError>
        ensures boxes { OnOk result (self.new.boxes.items ≡ self.old.boxes.items ++ sides ∷ []) }
        ensures answers { OnOk result (self.new.answers.items ≡ self.old.answers.items ++ answer.items ∷ []) }
        ensures same { OnErr result (log_of self.new ≡ log_of self.old) }
        ensures rest { (self.new.begun ≡ self.old.begun) × (self.new.table ≡ self.old.table) × (self.new.end ≡ self.old.end) }
    {
        self.boxes.push(sides)?;
        match self.answers.push(Listed::of(answer)) {
            Ok(()) => Ok(()),
            Err(_) => {
                let _ = self.boxes.pop();
                Err(AllocError)
            }
        }
    }
}
