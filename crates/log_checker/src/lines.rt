//! The rules, line by line.

ghost use Rattle.std.specs.Prelude.{◌≡◌, ◌↔◌, ◌<◌, Some, None, cond, length, slice_get, IfSome, IfNone, IfOk, IsTrue};
ghost use Rattle.log_text.specs.declared.line.Line.TheVariants as lines;
ghost use Rattle.log_text.specs.Spelling.{HasSpelling};
ghost use Rattle.log_rules.specs.Tables.{next_node, IsChild, IsNext};
ghost use Rattle.log_rules.specs.Boxes.{AreSides};
ghost use Rattle.log_rules.specs.Rules.{IsInPlace};
ghost use Rattle.log_checker.specs.Words.{KeepsBefore, IsVerdict};
ghost use Rattle.log_checker.specs.Body.{log_of, IsKindWithin, IsReady};

use crate::answers::{is_answer_box, is_new_answer};
use crate::earlier::Earlier;
use crate::resolvents::{holds_everything, is_resolved};
use crate::scopes::has_scope;
use crate::sides::are_sides;
use crate::values::values_of;
use bit_layout::Layout;
use log_rules::Reason;
use log_text::{Line, LogValues, Sides};
use set_meaning::{ConId, Kind, Problem};
use std::alloc::{AllocError, Global};
use sweep_shapes::possible;
use sweep_table::Table;

/// What a line is checked against.
#[derive(Drop)]
pub(crate) struct Check<'a> {
    pub(crate) alloc: Global,
    pub(crate) problem: &'a Problem,
    pub(crate) layout: &'a Layout,
    pub(crate) earlier: &'a Earlier,
}

impl Check<'_> {
    /// The kind of a variable.
    pub(crate) fn kind_at(&self, variable: u64) -> Option<&Kind>
        requires ready { IsReady self.now.problem.now self.now.layout.now self.now.earlier.now }
        ensures some { IfSome result (λ kind. slice_get self.now.problem.now.kinds variable ≡ Some kind.now) }
        ensures within { IfSome result (λ kind. IsKindWithin kind.now) }
        ensures none { IfNone result (slice_get self.now.problem.now.kinds variable ≡ None) }
    {
        self.problem.kinds.items().get(variable as usize)
    }
}

/// The first rule that the line breaks.
pub(crate) fn first_broken(check: &Check<'_>, line: &Line) -> Result<Option<Reason>, AllocError>
    requires ready { IsReady check.now.problem.now check.now.layout.now check.now.earlier.now }
    requires spelled { HasSpelling line.now }
    ensures { IfOk result (λ verdict. IsVerdict check.now.problem.now (log_of check.now.earlier.now) line.now verdict) }
{
    if check.earlier.end.is_some() {
        return Ok(Some(Reason::End));
    }
    if !is_in_place(check.earlier, line) {
        return Ok(Some(Reason::Form));
    }
    match line {
        Line::Header => Ok(None),
        Line::Node {
            number,
            place,
            lo,
            hi,
        } => Ok(node(check, *number, *place, *lo, *hi)),
        Line::Axiom {
            number,
            constraint,
            sides,
        } => axiom(check, *number, *constraint, sides),
        Line::Answer {
            number,
            values,
            sides,
        } => answer(check, *number, values, sides),
        Line::Resolvent {
            number,
            left,
            right,
            pivot,
            sides,
        } => resolvent(check, *number, *left, *right, *pivot, sides),
        Line::Learned { number } => Ok(learned(check, *number)),
        Line::Close { number } => close(check, *number),
        Line::End => Ok(None),
    }
}

/// Whether the line is the header and the first, or neither.
fn is_in_place(earlier: &Earlier, line: &Line) -> bool
    ensures { IsTrue result ↔ IsInPlace (log_of earlier.now) line.now }
{
    match line {
        Line::Header => !earlier.begun,
        Line::Node { .. } => earlier.begun,
        Line::Axiom { .. } => earlier.begun,
        Line::Answer { .. } => earlier.begun,
        Line::Resolvent { .. } => earlier.begun,
        Line::Learned { .. } => earlier.begun,
        Line::Close { .. } => earlier.begun,
        Line::End => earlier.begun,
    }
}

/// The first rule that a line of a node breaks.
fn node(check: &Check<'_>, number: u64, place: u64, lo: u64, hi: u64) -> Option<Reason>
    requires before { KeepsBefore check.now.problem.now (log_of check.now.earlier.now) (lines.Node number place lo hi) 2 }
    ensures { IsVerdict check.now.problem.now (log_of check.now.earlier.now) (lines.Node number place lo hi) result }
{
    if !is_next_node(&check.earlier.table, number) {
        return Some(Reason::Number);
    }
    if !are_children(&check.earlier.table, place, lo, hi) {
        return Some(Reason::Children);
    }
    None
}

/// Whether the number is that of the next node.
fn is_next_node(table: &Table, number: u64) -> bool
    ensures { IsTrue result ↔ (number ≡ next_node table.now) }
{
    number >= 2 && number - 2 == table.len()
}

/// Whether the number is that of the next box.
fn is_next_box(earlier: &Earlier, number: u64) -> bool
    ensures { IsTrue result ↔ (number ≡ length earlier.now.boxes.items) }
{
    number == earlier.boxes.len() as u64
}

/// Whether a node that tests this place may have these children.
fn are_children(table: &Table, place: u64, lo: u64, hi: u64) -> bool
    ensures { IsTrue result ↔ IsNext table.now (record { place = place; lo = lo; hi = hi }) }
{
    is_child(table, place, lo) && is_child(table, place, hi)
}

/// Whether a node that tests this place may have the child `n`.
fn is_child(table: &Table, place: u64, n: u64) -> bool
    ensures { IsTrue result ↔ IsChild table.now place n }
{
    if !is_there(table, n) {
        return false;
    }
    match table.node(n) {
        Some(node) => place < node.place,
        None => true,
    }
}

/// Whether there is such a node; 0 and 1 are always there.
pub(crate) fn is_there(table: &Table, n: u64) -> bool
    ensures { IsTrue result ↔ (n < next_node table.now) }
{
    n < 2 || n - 2 < table.len()
}

/// The first rule that a line of an axiom breaks.
fn axiom(
    check: &Check<'_>,
    number: u64,
    constraint: u64,
    sides: &Sides,
) -> Result<Option<Reason>, AllocError>
    requires ready { IsReady check.now.problem.now check.now.layout.now check.now.earlier.now }
    requires before { KeepsBefore check.now.problem.now (log_of check.now.earlier.now) (lines.Axiom number constraint sides.now) 2 }
    ensures { IfOk result (λ verdict. IsVerdict check.now.problem.now (log_of check.now.earlier.now) (lines.Axiom number constraint sides.now) verdict) }
{
    if !is_next_box(check.earlier, number) {
        return Ok(Some(Reason::Number));
    }
    if !are_sides(check, sides.items()) {
        return Ok(Some(Reason::Sides));
    }
    if !has_scope(check, constraint, sides.items())? {
        return Ok(Some(Reason::Scope));
    }
    let c = ConId(constraint as u32);
    if possible(
        check.alloc,
        check.problem,
        check.layout,
        &check.earlier.table,
        c,
        sides.items(),
    )? {
        return Ok(Some(Reason::Axiom));
    }
    Ok(None)
}

/// The first rule that a line of an answer breaks.
fn answer(
    check: &Check<'_>,
    number: u64,
    values: &LogValues,
    sides: &Sides,
) -> Result<Option<Reason>, AllocError>
    requires ready { IsReady check.now.problem.now check.now.layout.now check.now.earlier.now }
    requires spelled { HasSpelling (lines.Answer number values.now sides.now) }
    requires before { KeepsBefore check.now.problem.now (log_of check.now.earlier.now) (lines.Answer number values.now sides.now) 2 }
    ensures { IfOk result (λ verdict. IsVerdict check.now.problem.now (log_of check.now.earlier.now) (lines.Answer number values.now sides.now) verdict) }
{
    if !is_next_box(check.earlier, number) {
        return Ok(Some(Reason::Number));
    }
    if !are_sides(check, sides.items()) {
        return Ok(Some(Reason::Sides));
    }
    let answer = values_of(check.alloc, values.items())?;
    if !is_new_answer(check, answer.as_slice())? {
        return Ok(Some(Reason::Answer));
    }
    if !is_answer_box(check, answer.as_slice(), sides.items())? {
        return Ok(Some(Reason::AnswerBox));
    }
    Ok(None)
}

/// The first rule that a line of a resolvent breaks.
fn resolvent(
    check: &Check<'_>,
    number: u64,
    left: u64,
    right: u64,
    pivot: u64,
    sides: &Sides,
) -> Result<Option<Reason>, AllocError>
    requires ready { IsReady check.now.problem.now check.now.layout.now check.now.earlier.now }
    requires before { KeepsBefore check.now.problem.now (log_of check.now.earlier.now) (lines.Resolvent number left right pivot sides.now) 2 }
    ensures { IfOk result (λ verdict. IsVerdict check.now.problem.now (log_of check.now.earlier.now) (lines.Resolvent number left right pivot sides.now) verdict) }
{
    if !is_next_box(check.earlier, number) {
        return Ok(Some(Reason::Number));
    }
    if !are_sides_on(check, pivot, sides.items()) {
        return Ok(Some(Reason::Sides));
    }
    match check.earlier.box_at(left) {
        Some(first) => match check.earlier.box_at(right) {
            Some(second) => {
                let resolved = is_resolved(check, first, second, pivot, sides.items())?;
                Ok(unless(resolved, Reason::Resolvent))
            }
            None => Ok(Some(Reason::Boxes)),
        },
        None => Ok(Some(Reason::Boxes)),
    }
}

/// The reason, unless the rule is kept.
fn unless(kept: bool, reason: Reason) -> Option<Reason>
    ensures { result ≡ cond kept None (Some reason) }
{
    if kept { None } else { Some(reason) }
}

/// Whether these are sides, and the variable is there.
fn are_sides_on(check: &Check<'_>, pivot: u64, sides: &[(u64, u64)]) -> bool
    requires ready { IsReady check.now.problem.now check.now.layout.now check.now.earlier.now }
    ensures { IsTrue result ↔ (AreSides check.now.problem.now.kinds check.now.earlier.now.table sides.now × (pivot < length check.now.problem.now.kinds)) }
{
    are_sides(check, sides) && pivot < check.problem.kinds.items().len() as u64
}

/// The first rule that a line breaks which says that a box is learned.
fn learned(check: &Check<'_>, number: u64) -> Option<Reason>
    requires before { KeepsBefore check.now.problem.now (log_of check.now.earlier.now) (lines.Learned number) 2 }
    ensures { IsVerdict check.now.problem.now (log_of check.now.earlier.now) (lines.Learned number) result }
{
    match check.earlier.box_at(number) {
        Some(_) => None,
        None => Some(Reason::Boxes),
    }
}

/// The first rule that a line breaks which closes the log.
fn close(check: &Check<'_>, number: u64) -> Result<Option<Reason>, AllocError>
    requires ready { IsReady check.now.problem.now check.now.layout.now check.now.earlier.now }
    requires before { KeepsBefore check.now.problem.now (log_of check.now.earlier.now) (lines.Close number) 2 }
    ensures { IfOk result (λ verdict. IsVerdict check.now.problem.now (log_of check.now.earlier.now) (lines.Close number) verdict) }
{
    match check.earlier.box_at(number) {
        Some(sides) => {
            let whole = holds_everything(check, sides)?;
            Ok(unless(whole, Reason::Close))
        }
        None => Ok(Some(Reason::Boxes)),
    }
}
