//! Faults in words.

ghost use Rattle.std.specs.Prelude.{◌≡◌, ◌++◌, IfOk, OnOk, IsSome};
ghost use Rattle.fzn_model.specs.Printed.{lexical_text, what_text, syntax_text, model_text, text_of, place_of};

use crate::faults::{FileFault, ModelFault};
use fzn_parser::{SyntaxFault, What};
use fzn_reader::LexFault;
use std::alloc::{AllocError, Global};

/// The fault in words, without its place and without a newline: `expected ';'`, `undeclared` and the like. `alloc` is
/// where the text is made. Want of memory has no words and is not asked for.
///
/// The words are this project's own.
pub fn fault_text(alloc: Global, fault: &FileFault) -> Result<Vec<u8>, AllocError>
    requires fault { IsSome (place_of fault.now) }
    ensures { IfOk result (λ text. text.items ≡ text_of fault.now) }
{
    let mut out = Vec::new(alloc);
    push_text(&mut out, fault)?;
    Ok(out)
}

/// Appends the fault in words; nothing for want of memory.
pub(crate) fn push_text(out: &mut Vec<u8>, fault: &FileFault) -> Result<(), AllocError>
    ensures { OnOk result (out.new.items ≡ out.old.items ++ text_of fault.now) }
{
    match fault {
        FileFault::Lex(fault) => out.extend_from_slice(lexical_text(*fault)),
        FileFault::Syntax(fault) => push_syntax(out, *fault),
        FileFault::Model(fault) => out.extend_from_slice(model_text(*fault)),
        FileFault::Memory => Ok(()),
    }
}

fn push_syntax(out: &mut Vec<u8>, fault: SyntaxFault) -> Result<(), AllocError>
    ensures { OnOk result (out.new.items ≡ out.old.items ++ syntax_text fault) }
{
    match fault {
        SyntaxFault::Expected { at: _, what } => {
            out.extend_from_slice(b"expected ")?;
            out.extend_from_slice(what_text(what))
        }
        SyntaxFault::EndOfFile { at: _ } => out.extend_from_slice(b"text ends too early"),
        SyntaxFault::TooDeep { at: _ } => out.extend_from_slice(b"too deep"),
        SyntaxFault::Memory => Ok(()),
    }
}

fn lexical_text(fault: LexFault) -> &'static [u8]
    ensures { result.now ≡ lexical_text fault }
{
    match fault {
        LexFault::BadByte { at: _ } => b"bad byte",
        LexFault::BadNumber { at: _ } => b"bad number",
        LexFault::OpenString { at: _ } => b"string not closed",
        LexFault::Memory => b"",
    }
}

fn what_text(what: What) -> &'static [u8]
    ensures { result.now ≡ what_text what }
{
    match what {
        What::Item => b"an item",
        What::End => b"the end of the text",
        What::Name => b"a name",
        What::TypeWord => b"a type",
        What::Expression => b"an expression",
        What::Annotation => b"an annotation",
        What::Integer => b"an integer",
        What::One => b"1",
        What::Of => b"of",
        What::Goal => b"satisfy, minimize or maximize",
        What::Semicolon => b"';'",
        What::Colon => b"':'",
        What::Equals => b"'='",
        What::Range => b"'..'",
        What::OpenRound => b"'('",
        What::OpenSquare => b"'['",
        What::CloseSquare => b"']'",
        What::CommaOrRound => b"',' or ')'",
        What::CommaOrSquare => b"',' or ']'",
        What::CommaOrCurly => b"',' or '}'",
    }
}

fn model_text(fault: ModelFault) -> &'static [u8]
    ensures { result.now ≡ model_text fault }
{
    match fault {
        ModelFault::Undeclared { at: _ } => b"undeclared",
        ModelFault::DeclaredTwice { at: _ } => b"declared twice",
        ModelFault::WrongType { at: _ } => b"wrong type",
        ModelFault::UnknownConstraint { at: _ } => b"unknown constraint",
        ModelFault::WrongCount { at: _ } => b"wrong count",
        ModelFault::Unbounded { at: _ } => b"unbounded",
        ModelFault::Float { at: _ } => b"float",
        ModelFault::NumberTooLarge { at: _ } => b"number too large",
        ModelFault::EmptyDomain { at: _ } => b"empty domain",
        ModelFault::IntTooWide { at: _ } => b"integer too wide",
        ModelFault::SetTooWide { at: _ } => b"set too wide",
        ModelFault::ElementRange { at: _ } => b"element out of range",
        ModelFault::ScopeTooWide { at: _ } => b"scope too wide",
        ModelFault::TooManyBits { at: _ } => b"too many bits",
        ModelFault::TooManyConstraints { at: _ } => b"too many constraints",
        ModelFault::BadOutput { at: _ } => b"bad output annotation",
        ModelFault::ObjectiveNotInt { at: _ } => b"objective is not an integer",
        ModelFault::Memory => b"",
    }
}
