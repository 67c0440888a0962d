// Models of each form, faults of texts, and the limits of a text.
use crate::running::{desk_with, status_of};
use desk::MemoryDesk;
use std::alloc::{AllocError, Global};
use std::test::Fail;

/// Two sets, and a union and a subset over them and a comment.
pub const TWO_SETS: &str =
    "% a comment\nvar set of 1..2: x :: output_var; var set of 1..2: y :: output_var; constraint set_union(x, {2}, y); constraint set_subset(y, {1,2}); solve satisfy;";

/// A model as MiniZinc emits it: predicates, introduced variables, annotations, an array of sets that is shown in rows.
const EMITTED: &str = "predicate set_in_reif(var int: x, var set of int: s, var bool: b);
predicate fzn_all(array [int] of var set of 1..3: xs, int: k);
var set of 1..2: a;
var set of 1..2: b;
var bool: X_INTRODUCED_0_ ::var_is_introduced ::is_defined_var;
var 0..1: X_INTRODUCED_4_ ::var_is_introduced ::is_defined_var;
var 0..3: y :: output_var;
array [1..9] of var set of int: g :: output_array([1..3, 1..3]) = [a,b,{2},a,{},b,a,a,b];
constraint set_in_reif(1, a, X_INTRODUCED_0_) :: defines_var(X_INTRODUCED_0_);
constraint bool2int(X_INTRODUCED_0_, X_INTRODUCED_4_) :: defines_var(X_INTRODUCED_4_);
constraint int_lin_eq([3,-1], [X_INTRODUCED_4_,y], 0);
constraint set_diff(b, a, {2});
solve :: set_search([a,b], input_order, indomain_max, complete) satisfy;
";

/// A model's text, what is printed for it, and the status.
const ROWS: [(&str, &str, u8); 24] = [
    (TWO_SETS, "x = {1,2};\ny = {1,2};\n----------\n", 0),
    (
        EMITTED,
        "y = 3;\ng = array2d(1..3, 1..3, [{1}, {1,2}, {2}, {1}, {}, {1,2}, {1}, {1}, {1,2}]);\n----------\n",
        0,
    ),
    (
        "var set of 1..1: x; constraint set_subset({2}, x); solve satisfy;",
        "=====UNSATISFIABLE=====\n",
        0,
    ),
    ("solve satisfy;", "----------\n", 0),
    (
        "var set of 1..0: x :: output_var; solve satisfy;% end",
        "x = {};\n----------\n",
        0,
    ),
    (
        "var set of -2..1: x :: output_var; solve satisfy;",
        "x = {-2,-1,0,1};\n----------\n",
        0,
    ),
    (
        "var set of 1..3: x :: output_var; constraint set_subset(x, {3,1,3}); solve satisfy;",
        "x = {1,3};\n----------\n",
        0,
    ),
    (
        "var set of 1..2: a; var set of 2..3: b :: output_var; constraint set_union(a, b, {1}); solve satisfy;",
        "b = {};\n----------\n",
        0,
    ),
    (
        "constraint set_lt({1,2},{1,2,3}); solve satisfy;",
        "----------\n",
        0,
    ),
    (
        "constraint set_lt({1,3},{1,2,3}); solve satisfy;",
        "=====UNSATISFIABLE=====\n",
        0,
    ),
    (
        "var set of 1..3: x; var set of 1..3: y :: output_var; constraint set_diff(x, x, y); solve satisfy;",
        "y = {};\n----------\n",
        0,
    ),
    (
        "var int: x; solve satisfy;",
        "% error line 1 column 5: unbounded\n",
        3,
    ),
    (
        "constraint int_le(1.5, 2); solve satisfy;",
        "% error line 1 column 19: float\n",
        3,
    ),
    (
        "solve sat",
        "% error line 1 column 7: expected satisfy, minimize or maximize\n",
        3,
    ),
    (
        "var bool: b;",
        "% error line 1 column 13: text ends too early\n",
        3,
    ),
    ("", "% error line 1 column 1: text ends too early\n", 3),
    (
        "var set of 1..513: x; solve satisfy;",
        "% error line 1 column 12: set too wide\n",
        3,
    ),
    (
        "var bool: a;\nvar bool: a;\nsolve satisfy;",
        "% error line 2 column 11: declared twice\n",
        3,
    ),
    (
        "var bool: b = \"",
        "% error line 1 column 15: string not closed\n",
        3,
    ),
    (
        "var 0..65535: a :: output_var; solve satisfy;",
        "a = 65535;\n----------\n",
        0,
    ),
    (
        "var 0..65535: a; var bool: b :: output_var; solve satisfy;",
        "b = true;\n----------\n",
        0,
    ),
    (
        "var set of 1..17: x :: output_var; constraint set_card(x, 1); solve satisfy;",
        "x = {1};\n----------\n",
        0,
    ),
    ("solve maximize 5;", "% error: not built yet\n", 3),
    (
        "var 1..2: a; solve minimize a;",
        "% error: not built yet\n",
        3,
    ),
];

#[test]
fn models_are_answered(rt: HostRuntime) -> Result<(), Fail> {
    let alloc = rt.alloc();
    for (model, printed, status) in ROWS {
        let mut desk = desk_with(alloc, model)?;
        assert_eq!(rt; status_of(alloc, &["m"], &mut desk)?, status, "{model}");
        assert_eq!(rt; desk.out(), printed.as_bytes(), "{model}");
        assert_eq!(rt; desk.faults(), 0, "{model}");
    }
    Ok(())
}

/// `solve satisfy;` behind `count` times `bool_eq(true, true)`.
fn with_constraints(alloc: Global, count: usize) -> Result<String, AllocError> {
    let mut text = String::new(alloc);
    for _ in 0..count {
        text.push_str("constraint bool_eq(true, true);")?;
    }
    text.push_str("solve satisfy;")?;
    Ok(text)
}

#[test]
fn many_constraints_are_solved(rt: HostRuntime) -> Result<(), Fail> {
    let alloc = rt.alloc();
    let text = with_constraints(alloc, 1_001)?;
    let mut desk = desk_with(alloc, text.as_str())?;
    assert_eq!(rt; status_of(alloc, &["m"], &mut desk)?, 0);
    assert_eq!(rt; desk.out(), b"----------\n".as_slice());
    Ok(())
}

/// As many spaces.
fn spaces(alloc: Global, count: usize) -> Result<Vec<u8>, AllocError> {
    let mut text = Vec::with_capacity(alloc, count)?;
    for _ in 0..count {
        text.push(b' ')?;
    }
    Ok(text)
}

#[test]
fn a_text_that_is_too_long_is_told(rt: HostRuntime) -> Result<(), Fail> {
    let alloc = rt.alloc();
    let rows: [(&[&str], usize, &str); 3] = [
        (&["m"], 67_108_865, "% error: text too long\n"),
        (&["--root", "m"], 67_108_865, "% error: text too long\n"),
        (
            &["m"],
            67_108_864,
            "% error line 1 column 67108865: text ends too early\n",
        ),
    ];
    for (words, count, printed) in rows {
        let mut desk = MemoryDesk::new(alloc);
        desk.put_file("m", spaces(alloc, count)?.as_slice())?;
        assert_eq!(rt; status_of(alloc, words, &mut desk)?, 3);
        assert_eq!(rt; desk.out(), printed.as_bytes());
    }
    Ok(())
}
