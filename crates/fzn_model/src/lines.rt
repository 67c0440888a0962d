//! The line that is printed for a faulty text.

ghost use Rattle.std.specs.Prelude.{◌≡◌, ◌≤◌, ◌++◌, length, IfOk, OnOk};
ghost use Rattle.std.specs.Fmt.{decimal};
ghost use Rattle.fzn_model.specs.Printed.{StandsIn, place_of, is_newline, after_newline, line_number, column_number, head, line_part, column_part, text_part, line_behind, printed_line, lexical_place, syntax_place, model_place};

use crate::faults::{FileFault, ModelFault};
use crate::texts::push_text;
use fzn_parser::SyntaxFault;
use fzn_reader::LexFault;
use itoa::Buffer;
use std::alloc::{AllocError, Global};

/// The line that is printed for a faulty text, with its newline: `% error line L column C: TEXT`. TEXT is
/// [`crate::fault_text`] of the fault, L is one more than the newlines before its place, and C one more than the
/// bytes since the last of them. `text` is the text that has the fault; want of memory has no line and is not asked
/// for. Linear in the length of the text.
///
/// The form is this project's own.
pub fn fault_line(alloc: Global, text: &[u8], fault: &FileFault) -> Result<Vec<u8>, AllocError>
    requires place { StandsIn text.now fault.now }
    ensures { IfOk result (λ line. line.items ≡ printed_line text.now fault.now) }
{
    let mut out = Vec::new(alloc);
    match place_of(fault) {
        Some(at) => push_line(&mut out, &text[..at], fault)?,
        None => {}
    }
    Ok(out)
}

/// Appends the line of a fault that stands behind `front` in its text.
fn push_line(out: &mut Vec<u8>, front: &[u8], fault: &FileFault) -> Result<(), AllocError>
    ensures { OnOk result (out.new.items ≡ out.old.items ++ line_behind front.now fault.now) }
{
    push_line_part(out, front)?;
    push_column_part(out, front)?;
    push_text_part(out, fault)
}

#[tactic(auto, unfolding(crate::specs::Printed::line_part))]
fn push_line_part(out: &mut Vec<u8>, front: &[u8]) -> Result<(), AllocError>
    ensures { OnOk result (out.new.items ≡ out.old.items ++ line_part front.now) }
{
    push_head(out)?;
    push_number(out, line_number(front))
}

#[tactic(auto, unfolding(crate::specs::Printed::column_part))]
fn push_column_part(out: &mut Vec<u8>, front: &[u8]) -> Result<(), AllocError>
    ensures { OnOk result (out.new.items ≡ out.old.items ++ column_part front.now) }
{
    out.extend_from_slice(b" column ")?;
    push_number(out, column_number(front))
}

#[tactic(auto, unfolding(crate::specs::Printed::text_part))]
fn push_text_part(out: &mut Vec<u8>, fault: &FileFault) -> Result<(), AllocError>
    ensures { OnOk result (out.new.items ≡ out.old.items ++ text_part fault.now) }
{
    out.extend_from_slice(b": ")?;
    push_text(out, fault)?;
    out.extend_from_slice(b"\n")
}

#[tactic(auto, unfolding(crate::specs::Printed::head))]
fn push_head(out: &mut Vec<u8>) -> Result<(), AllocError>
    ensures { OnOk result (out.new.items ≡ out.old.items ++ head) }
{
    out.extend_from_slice(b"% error line ")
}

fn push_number(out: &mut Vec<u8>, number: u64) -> Result<(), AllocError>
    ensures { OnOk result (out.new.items ≡ out.old.items ++ decimal number) }
{
    out.extend_from_slice(Buffer::new().format(number).as_bytes())
}

fn is_newline(byte: u8) -> bool
    ensures { result ≡ is_newline byte }
{
    byte == b'\n'
}

#[tactic(auto, unfolding(crate::specs::Printed::line_number))]
fn line_number(front: &[u8]) -> u64
    ensures { result ≡ line_number front.now }
{
    let newlines = front.iter().filter(|byte| is_newline(**byte)).count();
    1 + newlines as u64
}

#[tactic(auto, unfolding(crate::specs::Printed::column_number))]
fn column_number(front: &[u8]) -> u64
    ensures { result ≡ column_number front.now }
{
    1 + after_newline(front) as u64
}

/// How many bytes stand behind the last newline.
fn after_newline(front: &[u8]) -> usize
    ensures same { result ≡ after_newline front.now }
    ensures within { result ≤ length front.now }
{
    front
        .iter()
        .rev()
        .take_while(|byte| !is_newline(**byte))
        .count()
}

/// The place of a fault; None for want of memory.
fn place_of(fault: &FileFault) -> Option<usize>
    ensures { result ≡ place_of fault.now }
{
    match fault {
        FileFault::Lex(fault) => lexical_place(*fault),
        FileFault::Syntax(fault) => syntax_place(*fault),
        FileFault::Model(fault) => model_place(*fault),
        FileFault::Memory => None,
    }
}

fn lexical_place(fault: LexFault) -> Option<usize>
    ensures { result ≡ lexical_place fault }
{
    match fault {
        LexFault::BadByte { at } => Some(at),
        LexFault::BadNumber { at } => Some(at),
        LexFault::OpenString { at } => Some(at),
        LexFault::Memory => None,
    }
}

fn syntax_place(fault: SyntaxFault) -> Option<usize>
    ensures { result ≡ syntax_place fault }
{
    match fault {
        SyntaxFault::Expected { at, what: _ } => Some(at),
        SyntaxFault::EndOfFile { at } => Some(at),
        SyntaxFault::TooDeep { at } => Some(at),
        SyntaxFault::Memory => None,
    }
}

fn model_place(fault: ModelFault) -> Option<usize>
    ensures { result ≡ model_place fault }
{
    match fault {
        ModelFault::Undeclared { at } => Some(at),
        ModelFault::DeclaredTwice { at } => Some(at),
        ModelFault::WrongType { at } => Some(at),
        ModelFault::UnknownConstraint { at } => Some(at),
        ModelFault::WrongCount { at } => Some(at),
        ModelFault::Unbounded { at } => Some(at),
        ModelFault::Float { at } => Some(at),
        ModelFault::NumberTooLarge { at } => Some(at),
        ModelFault::EmptyDomain { at } => Some(at),
        ModelFault::IntTooWide { at } => Some(at),
        ModelFault::SetTooWide { at } => Some(at),
        ModelFault::ElementRange { at } => Some(at),
        ModelFault::ScopeTooWide { at } => Some(at),
        ModelFault::TooManyBits { at } => Some(at),
        ModelFault::TooManyConstraints { at } => Some(at),
        ModelFault::BadOutput { at } => Some(at),
        ModelFault::ObjectiveNotInt { at } => Some(at),
        ModelFault::Memory => None,
    }
}
