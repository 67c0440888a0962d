//! Lines, words and names against texts worked out by hand.
ghost use Rattle.std.specs.Prelude.{◌≡◌, Some};
ghost use Rattle.fzn_model.specs.Printed.{place_of};

use fzn_model::{FileFault, ModelFault, fault_line, fault_text, named};
use fzn_parser::{SyntaxFault, What};
use fzn_reader::LexFault;
use set_meaning::Relation;
use std::alloc::{AllocError, Global};
use std::test::Fail;

/// A fault without its place.
#[derive(Clone, Copy)]
enum Case {
    BadNumber,
    OpenString,
    Expected(What),
    EndOfFile,
    TooDeep,
    Float,
    DeclaredTwice,
    ObjectiveNotInt,
}

fn fault_of(case: Case, at: usize) -> FileFault
    ensures { place_of result ≡ Some at }
{
    match case {
        Case::BadNumber => FileFault::Lex(LexFault::BadNumber { at }),
        Case::OpenString => FileFault::Lex(LexFault::OpenString { at }),
        Case::Expected(what) => FileFault::Syntax(SyntaxFault::Expected { at, what }),
        Case::EndOfFile => FileFault::Syntax(SyntaxFault::EndOfFile { at }),
        Case::TooDeep => FileFault::Syntax(SyntaxFault::TooDeep { at }),
        Case::Float => FileFault::Model(ModelFault::Float { at }),
        Case::DeclaredTwice => FileFault::Model(ModelFault::DeclaredTwice { at }),
        Case::ObjectiveNotInt => FileFault::Model(ModelFault::ObjectiveNotInt { at }),
    }
}

/// The line of the fault; nothing where it is not in the text.
fn line_of(alloc: Global, text: &[u8], case: Case, at: usize) -> Result<Vec<u8>, AllocError> {
    if at > text.len() {
        return Ok(Vec::new(alloc));
    }
    let fault = fault_of(case, at);
    fault_line(alloc, text, &fault)
}

fn words_of(alloc: Global, case: Case) -> Result<Vec<u8>, AllocError> {
    let fault = fault_of(case, 0);
    fault_text(alloc, &fault)
}

/// A text, its fault with the place, and the line.
const LINES: [(&str, Case, usize, &str); 6] = [
    (
        "solve sat",
        Case::Expected(What::Goal),
        6,
        "% error line 1 column 7: expected satisfy, minimize or maximize\n",
    ),
    (
        "var bool: b;",
        Case::EndOfFile,
        12,
        "% error line 1 column 13: text ends too early\n",
    ),
    (
        "constraint int_le(1.5, 2); solve satisfy;",
        Case::Float,
        18,
        "% error line 1 column 19: float\n",
    ),
    (
        "\n\r\n  0x",
        Case::BadNumber,
        5,
        "% error line 3 column 3: bad number\n",
    ),
    (
        "a\n",
        Case::EndOfFile,
        2,
        "% error line 2 column 1: text ends too early\n",
    ),
    (
        "ab\ncd",
        Case::DeclaredTwice,
        2,
        "% error line 1 column 3: declared twice\n",
    ),
];

#[test]
fn lines_are_those_of_the_format(rt: HostRuntime) -> Result<(), Fail> {
    let alloc = rt.alloc();
    for (text, case, at, line) in LINES {
        let printed = line_of(alloc, text.as_bytes(), case, at)?;
        assert_eq!(rt; printed.as_slice(), line.as_bytes(), "{text}");
    }
    Ok(())
}

/// A fault and its words.
const WORDS: [(Case, &str); 4] = [
    (Case::ObjectiveNotInt, "objective is not an integer"),
    (Case::Expected(What::CommaOrCurly), "expected ',' or '}'"),
    (Case::OpenString, "string not closed"),
    (Case::TooDeep, "too deep"),
];

#[test]
fn words_are_those_of_the_format(rt: HostRuntime) -> Result<(), Fail> {
    let alloc = rt.alloc();
    for (case, words) in WORDS {
        assert_eq!(rt; words_of(alloc, case)?.as_slice(), words.as_bytes());
    }
    Ok(())
}

/// The name of a constraint, and what it says.
const NAMES: [(&str, Option<(Relation, bool)>); 8] = [
    ("set_in", Some((Relation::SetIn, false))),
    ("set_in_reif", Some((Relation::SetIn, true))),
    ("set_union_reif", None),
    (
        "array_var_set_element",
        Some((Relation::ArraySetElement, false)),
    ),
    (
        "array_set_element",
        Some((Relation::ArraySetElement, false)),
    ),
    ("bool2int", Some((Relation::Bool2Int, false))),
    ("int_lin_le_reif", Some((Relation::IntLinLe, true))),
    ("int_lin", None),
];

#[test]
fn names_are_those_of_the_table(rt: HostRuntime) -> Result<(), Fail> {
    for (name, expected) in NAMES {
        let found = named(name.as_bytes()).map(|n| (n.relation, n.is_reified));
        assert_eq!(rt; found, expected, "{name}");
    }
    Ok(())
}
