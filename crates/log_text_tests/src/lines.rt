//! Lines that are read and written back, and texts that no line spells.
use log_text::{Line, LineFault, Sides, read_line, write_line};
use std::test::Fail;

/// A line of each form, and what its variant holds.
const FORMS: [(&str, &str); 13] = [
    ("setlog 1", "Header"),
    ("n 6 0 3 5", "Node { number: 6, place: 0, lo: 3, hi: 5 }"),
    (
        "a 0 2 0 6 1 7",
        "Axiom { number: 0, constraint: 2, sides: Listed { vec: [(0, 6), (1, 7)] } }",
    ),
    (
        "a 1 2",
        "Axiom { number: 1, constraint: 2, sides: Listed { vec: [] } }",
    ),
    (
        "s 0 |",
        "Answer { number: 0, values: Listed { vec: [] }, sides: Listed { vec: [] } }",
    ),
    (
        "s 7 false true -12 0 | 3 1",
        "Answer { number: 7, values: Listed { vec: [Bool(false), Bool(true), Int(-12), Int(0)] }, sides: Listed { vec: [(3, 1)] } }",
    ),
    (
        "s 8 {} {-3,0,10} {1000000} 1000000000 |",
        "Answer { number: 8, values: Listed { vec: [Set(Listed { vec: [] }), Set(Listed { vec: [-3, 0, 10] }), Set(Listed { vec: [1000000] }), Int(1000000000)] }, sides: Listed { vec: [] } }",
    ),
    (
        "s 9 -1000000000 {-1000000} | 1099511627776 0",
        "Answer { number: 9, values: Listed { vec: [Int(-1000000000), Set(Listed { vec: [-1000000] })] }, sides: Listed { vec: [(1099511627776, 0)] } }",
    ),
    (
        "r 2 0 1 1 0 6",
        "Resolvent { number: 2, left: 0, right: 1, pivot: 1, sides: Listed { vec: [(0, 6)] } }",
    ),
    ("k 2", "Learned { number: 2 }"),
    ("q 4", "Close { number: 4 }"),
    ("q 1099511627776", "Close { number: 1099511627776 }"),
    ("e", "End"),
];

/// A log that refutes a model in which a set of two elements has a subset of three, line by line.
const LOG: [&str; 17] = [
    "setlog 1",
    "n 2 2 0 1",
    "n 3 1 0 2",
    "n 4 2 1 0",
    "n 5 1 2 4",
    "n 6 0 3 5",
    "n 7 0 0 3",
    "a 0 2 0 6 1 7",
    "n 8 1 1 4",
    "n 9 0 1 8",
    "a 1 1 1 9",
    "r 2 0 1 1 0 6",
    "n 10 1 4 2",
    "n 11 0 8 10",
    "a 3 0 0 11",
    "r 4 2 3 0",
    "q 4",
];

/// Texts that no line spells.
const BAD: [&str; 49] = [
    "",
    " ",
    "x",
    "N 2 2 0 1",
    "setlog",
    "setlog 2",
    "setlog 01",
    "setlog 1 ",
    " setlog 1",
    "setlog  1",
    "n 2 2 0",
    "n 2 2 0 1 1",
    "n 02 2 0 1",
    "n +2 2 0 1",
    "n -2 2 0 1",
    "n 2 2 0 1099511627777",
    "n 2 2 0 18446744073709551616",
    "n 2  2 0 1",
    "n 2 2 0 1 ",
    "n 2 2 0 1\n",
    "n 2 2 0 1\r",
    "n\t2 2 0 1",
    "n 2 2 0 x",
    "a 0 2 0",
    "a 0",
    "s 0",
    "s 0 | |",
    "s 0 |1 2",
    "s 0 -0 |",
    "s 0 +1 |",
    "s 0 True |",
    "s 0 1000000001 |",
    "s 0 {2,1} |",
    "s 0 {1,1} |",
    "s 0 {1,} |",
    "s 0 {1000001} |",
    "s 0 {01} |",
    "s 0 | ",
    "s 0  |",
    "s 0 | 1",
    "a 0 2 ",
    "s 0 -1000000001 |",
    "s 0 {-1000001} |",
    "s 0 {-0} |",
    "s 0 {1, 2} |",
    "s 0 {1 |",
    "k",
    "q 1 2",
    "e 1",
];

#[test]
fn reads_each_form(rt: HostRuntime) -> Result<(), Fail> {
    for (text, shown) in FORMS {
        let line = read_line(rt.alloc(), text.as_bytes())?;
        assert_eq!(rt; format!(in rt.alloc(); "{line:?}")?.as_str(), shown);
        let mut out = Vec::from_slice(rt.alloc(), b"# ")?;
        write_line(&line, &mut out)?;
        assert_eq!(rt;
            out.as_slice(),
            format!(in rt.alloc(); "# {text}\n")?.as_bytes()
        );
    }
    Ok(())
}

#[test]
fn writes_the_example_back(rt: HostRuntime) -> Result<(), Fail> {
    for text in LOG {
        let line = read_line(rt.alloc(), text.as_bytes())?;
        let mut out = Vec::new(rt.alloc());
        write_line(&line, &mut out)?;
        assert_eq!(rt;
            out.as_slice(),
            format!(in rt.alloc(); "{text}\n")?.as_bytes()
        );
    }
    Ok(())
}

#[test]
fn refuses_what_no_line_spells(rt: HostRuntime) -> Result<(), Fail> {
    for text in BAD {
        let fault = read_line(rt.alloc(), text.as_bytes()).err();
        assert_eq!(rt; fault, Some(LineFault::BadForm), "{text:?}");
    }
    let fault = read_line(rt.alloc(), &[b'k', b' ', b'1', 128]).err();
    assert_eq!(rt; fault, Some(LineFault::BadForm));
    Ok(())
}

#[test]
fn writes_a_line_that_was_made(rt: HostRuntime) -> Result<(), Fail> {
    let sides = Sides::of(Vec::from_slice(rt.alloc(), &[(0, 6), (1, 7)])?);
    let line = Line::Axiom {
        number: 0,
        constraint: 2,
        sides,
    };
    let mut out = Vec::new(rt.alloc());
    write_line(&line, &mut out)?;
    assert_eq!(rt; out.as_slice(), b"a 0 2 0 6 1 7\n".as_slice());
    Ok(())
}
