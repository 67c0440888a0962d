//! The lines that are printed for a verdict.

ghost use Rattle.std.specs.Prelude.{◌≡◌, ◌++◌, IfOk, OnOk};
ghost use Rattle.std.specs.Fmt.{decimal};
ghost use Rattle.check_top.specs.declared.verdict.Verdict.TheVariants as verdict;
ghost use Rattle.check_top.specs.Printed.{end_word, accepted_line, refused_line, accepted_head, refused_head, refused_words, reason_part};
ghost use Rattle.check_top.specs.Endings.{ending_status, ending_text};
ghost use Rattle.check_top.specs.Steps.{Tells};

use crate::ending::Ending;
use crate::verdict::Verdict;
use itoa::Buffer;
use log_rules::{End, Reason};
use std::alloc::{AllocError, Global};

/// How a check with this verdict ends: with its line, where memory suffices for that.
pub fn ending_of(alloc: Global, verdict: &Verdict) -> Ending
    ensures { Tells verdict.now (ending_status result) (ending_text result) }
{
    match verdict {
        Verdict::Accepted { end, answers } => ending_of_accepted(alloc, *end, *answers),
        Verdict::Refused { number, reason } => ending_of_refused(alloc, *number, *reason),
        Verdict::ReadFault => Ending::ReadFault,
        Verdict::Memory => Ending::Memory,
    }
}

fn ending_of_accepted(alloc: Global, end: End, answers: u64) -> Ending
    ensures { Tells (verdict.Accepted end answers) (ending_status result) (ending_text result) }
{
    match accepted_line(alloc, end, answers) {
        Ok(line) => Ending::Accepted(line),
        Err(AllocError) => Ending::Memory,
    }
}

fn ending_of_refused(alloc: Global, number: u64, reason: Reason) -> Ending
    ensures { Tells (verdict.Refused number reason) (ending_status result) (ending_text result) }
{
    match refused_line(alloc, number, reason) {
        Ok(line) => Ending::Refused(line),
        Err(AllocError) => Ending::Memory,
    }
}

#[tactic(auto, unfolding(crate::specs::Printed::accepted_line))]
fn accepted_line(alloc: Global, end: End, answers: u64) -> Result<Vec<u8>, AllocError>
    ensures { IfOk result (λ line. line.items ≡ accepted_line end answers) }
{
    let mut line = Vec::new(alloc);
    push_accepted(&mut line, end)?;
    push_number(&mut line, answers)?;
    line.extend_from_slice(b"\n")?;
    Ok(line)
}

#[tactic(auto, unfolding(crate::specs::Printed::refused_line))]
fn refused_line(alloc: Global, number: u64, reason: Reason) -> Result<Vec<u8>, AllocError>
    ensures { IfOk result (λ line. line.items ≡ refused_line number reason) }
{
    let mut line = Vec::new(alloc);
    push_refused(&mut line, number)?;
    push_reason(&mut line, reason)?;
    line.extend_from_slice(b"\n")?;
    Ok(line)
}

#[tactic(auto, unfolding(crate::specs::Printed::accepted_head))]
fn push_accepted(line: &mut Vec<u8>, end: End) -> Result<(), AllocError>
    ensures { OnOk result (line.new.items ≡ line.old.items ++ accepted_head end) }
{
    line.extend_from_slice(b"% accepted ")?;
    line.extend_from_slice(word_of(end))?;
    line.extend_from_slice(b" answers ")
}

#[tactic(auto, unfolding(crate::specs::Printed::refused_head))]
fn push_refused(line: &mut Vec<u8>, number: u64) -> Result<(), AllocError>
    ensures { OnOk result (line.new.items ≡ line.old.items ++ refused_head number) }
{
    push_refused_words(line)?;
    push_number(line, number)
}

#[tactic(auto, unfolding(crate::specs::Printed::refused_words))]
fn push_refused_words(line: &mut Vec<u8>) -> Result<(), AllocError>
    ensures { OnOk result (line.new.items ≡ line.old.items ++ refused_words) }
{
    line.extend_from_slice(b"% refused line ")
}

#[tactic(auto, unfolding(crate::specs::Printed::reason_part))]
fn push_reason(line: &mut Vec<u8>, reason: Reason) -> Result<(), AllocError>
    ensures { OnOk result (line.new.items ≡ line.old.items ++ reason_part reason) }
{
    line.extend_from_slice(b" reason ")?;
    push_number(line, reason.number() as u64)
}

fn push_number(line: &mut Vec<u8>, number: u64) -> Result<(), AllocError>
    ensures { OnOk result (line.new.items ≡ line.old.items ++ decimal number) }
{
    line.extend_from_slice(Buffer::new().format(number).as_bytes())
}

fn word_of(end: End) -> &'static [u8]
    ensures { result.now ≡ end_word end }
{
    match end {
        End::Complete => b"complete",
        End::Open => b"open",
    }
}
