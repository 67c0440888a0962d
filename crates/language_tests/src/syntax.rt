//! The first fault of small texts, each with its place and what is expected there.

use fzn_parser::{SyntaxFault, What, parse};
use fzn_reader::lex;
use std::alloc::Global;
use std::test::Fail;

/// What a text ends in: the number of its items, or its fault.
#[derive(Clone, Copy, Debug, PartialEq, Eq)]
enum Ends {
    Items(usize),
    Fault(SyntaxFault),
    NoTokens,
}

fn ends_of(alloc: Global, text: &[u8]) -> Ends {
    match lex(alloc, text) {
        Ok(tokens) => match parse(alloc, text, tokens.as_slice()) {
            Ok(tree) => Ends::Items(tree.items.items().len()),
            Err(fault) => Ends::Fault(fault),
        },
        Err(_) => Ends::NoTokens,
    }
}

fn expected(at: usize, what: What) -> Ends {
    Ends::Fault(SyntaxFault::Expected { at, what })
}

#[test]
fn names_what_is_expected(rt: HostRuntime) -> Result<(), Fail> {
    let alloc = rt.alloc();
    let rows: [(&[u8], Ends); 32] = [
        (b"solve satisfy;", Ends::Items(1)),
        (
            b"var 1..3: x :: output_var = 2; solve minimize x;",
            Ends::Items(2),
        ),
        (
            b"predicate p(var int: x, [1]); array [1..2] of var {1,3}: a = [x,2]; solve :: s([a,b],{1}) satisfy;",
            Ends::Items(3),
        ),
        (b"", Ends::Fault(SyntaxFault::EndOfFile { at: 0 })),
        (
            b"var bool: b;",
            Ends::Fault(SyntaxFault::EndOfFile { at: 12 }),
        ),
        (b"solve sat", expected(6, What::Goal)),
        (b"x", expected(0, What::Item)),
        (b"solve satisfy; x", expected(15, What::End)),
        (b"bool: 1", expected(6, What::Name)),
        (b"var x", expected(4, What::TypeWord)),
        (b"array [1..2] of x", expected(16, What::TypeWord)),
        (b"set of bool", expected(7, What::TypeWord)),
        (b"int: x = ;", expected(9, What::Expression)),
        (b"constraint f(;", expected(13, What::Expression)),
        (b"solve :: 1", expected(9, What::Annotation)),
        (b"solve :: a(;", expected(11, What::Expression)),
        (b"var {;", expected(5, What::Integer)),
        (b"array [1..1.5]", expected(10, What::Integer)),
        (b"array [2", expected(7, What::One)),
        (b"var set int", expected(8, What::Of)),
        (b"var bool: b)", expected(11, What::Semicolon)),
        (b"constraint f(1) :: a)", expected(20, What::Semicolon)),
        (b"bool b", expected(5, What::Colon)),
        (b"bool: b;", expected(7, What::Equals)),
        (b"var 1;", expected(5, What::Range)),
        (b"constraint f;", expected(12, What::OpenRound)),
        (
            b"array [1..1] of int: a = 1",
            expected(25, What::OpenSquare),
        ),
        (b"array [1..1 of", expected(12, What::CloseSquare)),
        (b"constraint f(1]", expected(14, What::CommaOrRound)),
        (b"constraint f([1)", expected(15, What::CommaOrSquare)),
        (b"solve :: a([b)", expected(13, What::CommaOrSquare)),
        (b"constraint f([1, {2;", expected(19, What::CommaOrCurly)),
    ];
    for (text, ends) in &rows {
        assert_eq!(rt; ends_of(alloc, text), *ends);
    }
    Ok(())
}

#[test]
fn annotations_nest_a_hundred_deep(rt: HostRuntime) -> Result<(), Fail> {
    let alloc = rt.alloc();
    let mut text = b"solve :: a(".to_vec(alloc)?;
    for _ in 0..99 {
        text.push(b'[')?;
    }
    let mut deeper = text.clone()?;
    assert_eq!(rt;
        ends_of(alloc, text.as_slice()),
        Ends::Fault(SyntaxFault::EndOfFile { at: 110 })
    );
    deeper.push(b'[')?;
    assert_eq!(rt;
        ends_of(alloc, deeper.as_slice()),
        Ends::Fault(SyntaxFault::TooDeep { at: 110 })
    );
    Ok(())
}
