//! Small texts with what is expected for them, worked out by hand: each fault, each thing that can be expected, each
//! limit.
ghost use Rattle.std.specs.Prelude.{◌≡◌, ◌↔◌, ◌⊎◌, IfOk, IfErr, IsTrue};
ghost use Rattle.set_meaning.specs.Problems.{IsProblem};
ghost use Rattle.problem_limits.specs.Limits.{KeepsLimits};
ghost use Rattle.fzn_reader.specs.Scan.{AreTokensOf};
ghost use Rattle.fzn_model.specs.declared.faults.FileFault.TheVariants as faults;
ghost use Rattle.fzn_model.specs.Printed.{StandsIn};

use fzn_model::{FileFault, build, fault_line, read_problem};
use fzn_parser::parse;
use fzn_reader::{Token, lex};
use model_legality::problems_of_texts_are_problems;
use model_limits::problems_of_texts_keep_limits;
use problem_limits::keeps_limits;
use set_meaning::Problem;
use std::alloc::{AllocError, Global};
use std::test::Fail;

/// The problem of the text, with what the laws say of it.
fn problem_of(alloc: Global, text: &[u8]) -> Result<Problem, FileFault>
    ensures legal { IfOk result IsProblem }
    ensures limits { IfOk result KeepsLimits }
    ensures place { IfErr result (λ e. (e ≡ faults.Memory) ⊎ StandsIn text.now e) }
{
    match read_problem(alloc, text) {
        Ok(p) => {
            problems_of_texts_are_problems(text, &p);
            problems_of_texts_keep_limits(text, &p);
            Ok(p)
        }
        Err(fault) => Err(fault),
    }
}

/// The line for the text; nothing where it has a problem that the plain test finds within the limits.
fn line_of(alloc: Global, text: &[u8]) -> Result<Vec<u8>, AllocError> {
    match problem_of(alloc, text) {
        Ok(p) => line_of_problem(alloc, &p),
        Err(fault) => line_of_fault(alloc, text, &fault),
    }
}

fn line_of_problem(alloc: Global, p: &Problem) -> Result<Vec<u8>, AllocError> {
    if keeps_limits(alloc, p)? {
        return Ok(Vec::new(alloc));
    }
    b"beyond the limits".to_vec(alloc)
}

fn line_of_fault(alloc: Global, text: &[u8], fault: &FileFault) -> Result<Vec<u8>, AllocError>
    requires { (fault.now ≡ faults.Memory) ⊎ StandsIn text.now fault.now }
{
    if is_memory(fault) {
        return Err(AllocError);
    }
    fault_line(alloc, text, fault)
}

fn is_memory(fault: &FileFault) -> bool
    ensures { IsTrue result ↔ (fault.now ≡ faults.Memory) }
{
    match fault {
        FileFault::Lex(_) => false,
        FileFault::Syntax(_) => false,
        FileFault::Model(_) => false,
        FileFault::Memory => true,
    }
}

/// How many kinds, names, constraints and shown items the problem has.
fn counts(p: &Problem) -> [usize; 4] {
    [
        p.kinds.items().len(),
        p.names.items().len(),
        p.constraints.items().len(),
        p.shown.items().len(),
    ]
}

/// The counts of the problem of the text; None where it has a fault.
fn counts_of(alloc: Global, text: &[u8]) -> Result<Option<[usize; 4]>, AllocError> {
    match read_problem(alloc, text) {
        Ok(p) => Ok(Some(counts(&p))),
        Err(FileFault::Memory) => Err(AllocError),
        Err(_) => Ok(None),
    }
}

/// The same by the tree of the text.
fn counts_by_tree(alloc: Global, text: &[u8]) -> Option<[usize; 4]> {
    match lex(alloc, text) {
        Ok(tokens) => counts_by_tokens(alloc, text, tokens.as_slice()),
        Err(_) => None,
    }
}

fn counts_by_tokens(alloc: Global, text: &[u8], tokens: &[Token]) -> Option<[usize; 4]>
    requires { AreTokensOf text.now tokens.now }
{
    match parse(alloc, text, tokens) {
        Ok(tree) => match build(alloc, &tree) {
            Ok(p) => Some(counts(&p)),
            Err(_) => None,
        },
        Err(_) => None,
    }
}

/// Lexical faults, and texts that are no models: for each thing that can be expected one.
const FORMS: [(&[u8], &str); 33] = [
    (b"solve satisfy;% end", ""),
    (b"solve satisfy;\xC8", "1 column 15: bad byte"),
    (b"\0", "1 column 1: bad byte"),
    (b"int: x = -a;", "1 column 10: bad byte"),
    (b"0x", "1 column 1: bad number"),
    (b"\n int: a = -0o8;", "2 column 11: bad number"),
    (
        b"solve :: a(\"x) satisfy;\n",
        "1 column 12: string not closed",
    ),
    (b";", "1 column 1: expected an item"),
    (
        b"solve satisfy; var",
        "1 column 16: expected the end of the text",
    ),
    (b"var bool: ;", "1 column 11: expected a name"),
    (b"var foo: x;", "1 column 5: expected a type"),
    (b"constraint a(;", "1 column 14: expected an expression"),
    (b"solve :: ;", "1 column 10: expected an annotation"),
    (b"var {a}: x;", "1 column 6: expected an integer"),
    (b"array [2..3] of int: a = [];", "1 column 8: expected 1"),
    (b"array [1..2] int", "1 column 14: expected of"),
    (
        b"solve sat",
        "1 column 7: expected satisfy, minimize or maximize",
    ),
    (b"var bool: a b", "1 column 13: expected ';'"),
    (b"var bool a;", "1 column 10: expected ':'"),
    (b"bool: a;", "1 column 8: expected '='"),
    (b"var 1: x;", "1 column 6: expected '..'"),
    (b"constraint a;", "1 column 13: expected '('"),
    (b"array 1", "1 column 7: expected '['"),
    (b"array [1..2 of", "1 column 13: expected ']'"),
    (b"constraint a(b;", "1 column 15: expected ',' or ')'"),
    (
        b"array [1..1] of int: a = [1;",
        "1 column 28: expected ',' or ']'",
    ),
    (b"var {1;", "1 column 7: expected ',' or '}'"),
    (b"var bool: b;", "1 column 13: text ends too early"),
    (b"", "1 column 1: text ends too early"),
    (
        b"var bool: a;\r\nvar bool: a;\r\nsolve satisfy;",
        "2 column 11: declared twice",
    ),
    (
        b"predicate p(array [int] of var set of 1..3: x, var int: y);solve satisfy;",
        "",
    ),
    (
        b"solve :: set_search([a,b], input_order, indomain_max, complete) satisfy;",
        "",
    ),
    (
        b"var 0..1: X_INTRODUCED_4_ ::var_is_introduced ::is_defined_var;solve satisfy;",
        "",
    ),
];

/// Models, each with one more thing wrong than the table of faults allows, or with none.
const MODELS: [(&[u8], &str); 49] = [
    (
        b"constraint bool_eq(a, true);solve satisfy;",
        "1 column 20: undeclared",
    ),
    (b"int: a = a;solve satisfy;", "1 column 10: undeclared"),
    (
        b"constraint bool_eq(a, true);var bool: a;solve satisfy;",
        "1 column 20: undeclared",
    ),
    (
        b"int: a = 1;bool: a = true;solve satisfy;",
        "1 column 18: declared twice",
    ),
    (b"int: a = true;solve satisfy;", "1 column 10: wrong type"),
    (b"int: a = [1];solve satisfy;", "1 column 10: wrong type"),
    (
        b"var 1..2: x;int: a = x;solve satisfy;",
        "1 column 22: wrong type",
    ),
    (
        b"constraint int_lin_eq([1,true],[1,2],3);solve satisfy;",
        "1 column 26: wrong type",
    ),
    (
        b"constraint int_lin_eq(1,[1],3);solve satisfy;",
        "1 column 23: wrong type",
    ),
    (
        b"array [1..0] of set of int: a = [];constraint array_int_element(1,a,1);solve satisfy;",
        "1 column 67: wrong type",
    ),
    (
        b"array [1..2] of var int: a = [1,2];constraint int_lin_eq(a,[1,2],5);solve satisfy;",
        "",
    ),
    (
        b"var bool: a;array [1..1] of var bool: b = [a];constraint int_lin_eq(b,[1],1);solve satisfy;",
        "1 column 69: wrong type",
    ),
    (
        b"constraint foo(y);solve satisfy;",
        "1 column 12: unknown constraint",
    ),
    (
        b"constraint set_card_reif({1},1,true);solve satisfy;",
        "1 column 12: unknown constraint",
    ),
    (
        b"constraint int_le(1);solve satisfy;",
        "1 column 12: wrong count",
    ),
    (
        b"constraint int_le_reif(1,2);solve satisfy;",
        "1 column 12: wrong count",
    ),
    (
        b"constraint int_lin_eq([1,2],[3],4);solve satisfy;",
        "1 column 12: wrong count",
    ),
    (
        b"constraint int_lin_eq([1,2],[3],4.5);solve satisfy;",
        "1 column 33: float",
    ),
    (
        b"array [1..2] of int: a = [1];solve satisfy;",
        "1 column 22: wrong count",
    ),
    (b"array [1..-5] of int: a = [];solve satisfy;", ""),
    (b"var int: x;solve satisfy;", "1 column 5: unbounded"),
    (
        b"var set of int: x;solve satisfy;",
        "1 column 12: unbounded",
    ),
    (b"var float: x;solve satisfy;", "1 column 5: float"),
    (
        b"constraint int_le(1.5, 2);solve satisfy;",
        "1 column 19: float",
    ),
    (b"var 1.5..2: x;solve satisfy;", "1 column 5: float"),
    (b"int: a = 1.5..2;solve satisfy;", "1 column 10: wrong type"),
    (b"solve minimize 1.5..2;", "1 column 16: float"),
    (
        b"int: a = 1000000001;solve satisfy;",
        "1 column 10: number too large",
    ),
    (
        b"bool: a = 1000000001;solve satisfy;",
        "1 column 11: wrong type",
    ),
    (b"int: a = -1000000000;solve satisfy;", ""),
    (b"var 2..1: x;solve satisfy;", "1 column 5: empty domain"),
    (b"var {}: x;solve satisfy;", "1 column 5: empty domain"),
    (
        b"var 0..65536: x;solve satisfy;",
        "1 column 5: integer too wide",
    ),
    (b"var {65535,0}: x;solve satisfy;", ""),
    (
        b"var {65536,0}: x;solve satisfy;",
        "1 column 5: integer too wide",
    ),
    (b"var set of 1..512: x;solve satisfy;", ""),
    (
        b"var set of 1..513: x;solve satisfy;",
        "1 column 12: set too wide",
    ),
    (b"set of int: s = 1..65536;solve satisfy;", ""),
    (
        b"set of int: s = 1..65537;solve satisfy;",
        "1 column 17: set too wide",
    ),
    (
        b"var set of {-1000001}: x;solve satisfy;",
        "1 column 12: element out of range",
    ),
    (
        b"set of int: s = 999999..1000001;solve satisfy;",
        "1 column 17: element out of range",
    ),
    (b"var 999999..1000001: x;solve satisfy;", ""),
    (
        b"var bool: b :: output_array([1..1]);solve satisfy;",
        "1 column 16: bad output annotation",
    ),
    (
        b"var bool: b :: output_var() = true;solve satisfy;",
        "1 column 16: bad output annotation",
    ),
    (
        b"array [1..2] of var int: a :: output_array([1..3]) = [1,2];solve satisfy;",
        "1 column 31: bad output annotation",
    ),
    (
        b"array [1..2] of int: a :: output_array([1..3]) = [1,2];solve satisfy;",
        "",
    ),
    (
        b"var bool: b;solve minimize b;",
        "1 column 28: objective is not an integer",
    ),
    (
        b"solve maximize [1];",
        "1 column 16: objective is not an integer",
    ),
    (b"solve maximize 5;", ""),
];

/// Values as far apart as they may be; the least and the greatest integers as values, in an array, as an argument and
/// as an objective; a scope of 2,048 bits.
const AT_A_LIMIT: [(&[u8], &str); 5] = [
    (
        b"var -1000000000..-999934465: x;var 999934465..1000000000: y;constraint int_le(x, y);solve maximize y;",
        "",
    ),
    (
        b"array [1..2] of int: a = [-1000000000,1000000000];var bool: b;constraint int_lin_le_reif(a,[1,1],1000000000,b);solve satisfy;",
        "",
    ),
    (
        b"var 1..9: x = 4;constraint int_ne(x,-1000000000);solve minimize -1000000000;",
        "",
    ),
    (
        b"var set of 1..512: a;var set of 1..512: b;var set of 1..512: c;var set of 1..512: d;array [1..4] of var set of int: s = [a,b,c,d];constraint array_set_element(1,s,{});solve satisfy;",
        "",
    ),
    (
        b"solve minimize -1000000001;",
        "1 column 16: number too large",
    ),
];

/// What is printed for a row.
fn line(alloc: Global, row: &str) -> Result<String, AllocError> {
    if row.is_empty() {
        return Ok(String::new(alloc));
    }
    format!(in alloc; "% error line {row}\n")
}

/// Whether the line of the row is that of the text.
fn has_line(alloc: Global, text: &[u8], row: &str) -> Result<bool, AllocError> {
    let wanted = line(alloc, row)?;
    let found = line_of(alloc, text)?;
    Ok(found.as_slice() == wanted.as_bytes())
}

#[test]
fn texts_have_their_lines(rt: HostRuntime) -> Result<(), Fail> {
    let alloc = rt.alloc();
    for (text, row) in FORMS {
        assert!(rt; has_line(alloc, text, row)?, "{row}");
    }
    for (text, row) in MODELS {
        assert!(rt; has_line(alloc, text, row)?, "{row}");
    }
    for (text, row) in AT_A_LIMIT {
        assert!(rt; has_line(alloc, text, row)?, "{row}");
    }
    Ok(())
}

/// A text of `count` pieces between two others.
fn repeated(
    alloc: Global,
    front: &str,
    piece: &str,
    count: usize,
    back: &str,
) -> Result<String, AllocError> {
    let mut text = String::new(alloc);
    text.push_str(front)?;
    for _ in 0..count {
        text.push_str(piece)?;
    }
    text.push_str(back)?;
    Ok(text)
}

/// A front, a piece and how often it stands, what is behind, and the line.
const LIMITS: [(&str, &str, usize, &str, &str); 6] = [
    (
        "",
        "constraint bool_eq(true, true);",
        100_000,
        "solve satisfy;",
        "",
    ),
    (
        "",
        "constraint bool_eq(true, true);",
        100_001,
        "solve satisfy;",
        "1 column 3100012: too many constraints",
    ),
    (
        "set of int: s = 1..65536;",
        "constraint set_eq(s, {});",
        256,
        "solve satisfy;",
        "",
    ),
    (
        "set of int: s = 1..65536;",
        "constraint set_eq(s, {});",
        257,
        "solve satisfy;",
        "1 column 6444: set too wide",
    ),
    (
        "var set of 1..512: a;var set of 1..512: b;var set of 1..512: c;var set of 1..512: d;",
        "",
        1,
        "array [1..4] of var set of int: s = [a,b,c,d];constraint array_set_element(1,s,{});solve satisfy;",
        "",
    ),
    (
        "var set of 1..512: a;var set of 1..512: b;var set of 1..512: c;var set of 1..512: d;",
        "var set of 1..1: e;",
        1,
        "array [1..4] of var set of int: s = [a,b,c,d];constraint array_set_element(1,s,e);solve satisfy;",
        "1 column 161: scope too wide",
    ),
];

#[test]
fn limits_are_met_and_no_more(rt: HostRuntime) -> Result<(), Fail> {
    let alloc = rt.alloc();
    for (front, piece, count, back, row) in LIMITS {
        let text = repeated(alloc, front, piece, count, back)?;
        assert!(rt; has_line(alloc, text.as_bytes(), row)?, "{row}");
    }
    Ok(())
}

/// Annotations `count` deep.
fn deep(alloc: Global, count: usize) -> Result<String, AllocError> {
    let mut text = repeated(alloc, "solve :: ", "a(", count, "1")?;
    let closed = repeated(alloc, "", ")", count, " satisfy;")?;
    text.push_str(closed.as_str())?;
    Ok(text)
}

/// Clauses of 65,536 terms each.
fn clauses(alloc: Global, count: usize) -> Result<String, AllocError> {
    let mut text = repeated(
        alloc,
        "array [1..65536] of bool: a = [true",
        ",true",
        65_535,
        "];",
    )?;
    let behind = repeated(
        alloc,
        "",
        "constraint bool_clause(a,[]);",
        count,
        "solve satisfy;",
    )?;
    text.push_str(behind.as_str())?;
    Ok(text)
}

/// Sets of 512 bits each, and behind them another item.
fn sets(alloc: Global, count: usize, behind: &str) -> Result<String, AllocError> {
    let mut text = String::new(alloc);
    for i in 0..count {
        let item = format!(in alloc; "var set of 1..512: s{i};\n")?;
        text.push_str(item.as_str())?;
    }
    text.push_str(behind)?;
    text.push_str("solve satisfy;")?;
    Ok(text)
}

#[test]
fn limits_over_many_items_are_met_and_no_more(rt: HostRuntime) -> Result<(), Fail> {
    let alloc = rt.alloc();
    let rows = [
        (deep(alloc, 100)?, ""),
        (deep(alloc, 101)?, "1 column 211: too deep"),
        (clauses(alloc, 64)?, ""),
        (clauses(alloc, 65)?, "1 column 329580: too many constraints"),
        (sets(alloc, 2_048, "")?, ""),
        (sets(alloc, 2_047, "var 5..5: x;")?, ""),
        (
            sets(alloc, 2_048, "var 5..5: x;")?,
            "2049 column 11: too many bits",
        ),
    ];
    for (text, row) in &rows {
        assert!(rt; has_line(alloc, text.as_bytes(), row)?, "{row}");
    }
    Ok(())
}

/// A text, and how many kinds, names, constraints and shown items its problem has; None where it has a fault.
const TEXTS: [(&str, Option<[usize; 4]>); 14] = [
    ("solve satisfy;", Some([0, 0, 0, 0])),
    ("solve maximize 5;", Some([1, 1, 0, 0])),
    (
        "var 1..3: x :: output_var = 2;solve minimize x;",
        Some([1, 1, 1, 1]),
    ),
    (
        "var set of {}: s :: output_var;constraint set_card(s,0);solve satisfy;",
        Some([1, 1, 1, 1]),
    ),
    (
        "var bool: b;array [1..2] of var bool: a :: output_array([1..1,{5,2}]) = [b,true];solve satisfy;",
        Some([1, 1, 0, 1]),
    ),
    (
        "array [1..2] of int: c = [3,-1];var 0..9: x;var {7,2,2}: y;constraint int_lin_le(c,[x,y],4);solve maximize y;",
        Some([2, 2, 1, 0]),
    ),
    (
        "var 0..9: x;var bool: b;constraint int_lin_ne_reif([1],[x],0,b);constraint bool_clause([b],[]);solve satisfy;",
        Some([2, 2, 2, 0]),
    ),
    (
        "array [1..0] of set of int: a = [];var 1..2: x;constraint array_set_element(x,a,{});solve satisfy;",
        Some([1, 1, 1, 0]),
    ),
    ("var {}: x;solve satisfy;", None),
    ("var bool: b;solve minimize b;", None),
    ("var 1..3: x;constraint set_in(x,x);solve satisfy;", None),
    (
        "var 1..3: x;constraint int_lin_eq([x],[x],1);solve satisfy;",
        None,
    ),
    (
        "constraint bool_not_reif(true,false,true);solve satisfy;",
        None,
    ),
    (
        "array [1..2] of var bool: a :: output_array([]) = [true,true];solve satisfy;",
        None,
    ),
];

#[test]
fn problems_have_what_their_texts_say(rt: HostRuntime) -> Result<(), Fail> {
    let alloc = rt.alloc();
    for (text, counts) in TEXTS {
        assert_eq!(rt; counts_of(alloc, text.as_bytes())?, counts, "{text}");
        assert_eq!(rt; counts_by_tree(alloc, text.as_bytes()), counts, "{text}");
    }
    Ok(())
}
