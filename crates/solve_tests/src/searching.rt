// What a search finds. Of two solutions it finds that one first which has, at the first variable at which they differ,
// `true`, the greater integer, or the set with the first element that only one of them has.
use crate::running::{desk_with, status_of};
use std::alloc::{AllocError, Global};
use std::test::Fail;

/// A model's text, and what is printed for it.
const ROWS: [(&str, &str); 12] = [
    (
        "var bool: a :: output_var; var bool: b :: output_var; constraint bool_not(a, b); solve satisfy;",
        "a = true;\nb = false;\n----------\n",
    ),
    // no set of three elements lies in one of two
    (
        "var set of 1..3: x; var set of 1..3: y; constraint set_card(x, 2); constraint set_card(y, 3); constraint set_subset(y, x); solve satisfy;",
        "=====UNSATISFIABLE=====\n",
    ),
    // four integers from 1 to 3, no two of them alike; then three
    (
        "var 1..3: a; var 1..3: b; var 1..3: c; var 1..3: d; constraint int_ne(a, b); constraint int_ne(a, c); constraint int_ne(a, d); constraint int_ne(b, c); constraint int_ne(b, d); constraint int_ne(c, d); solve satisfy;",
        "=====UNSATISFIABLE=====\n",
    ),
    (
        "var 1..3: a :: output_var; var 1..3: b :: output_var; var 1..3: c :: output_var; constraint int_ne(a, b); constraint int_ne(a, c); constraint int_ne(b, c); solve satisfy;",
        "a = 3;\nb = 2;\nc = 1;\n----------\n",
    ),
    // c is 1 or 2, so a is at most 2
    (
        "var 0..3: a :: output_var; var 0..2: b :: output_var; var 0..2: c :: output_var; constraint int_lin_eq([1,1,1], [a,b,c], 3); constraint int_lt(b, c); solve satisfy;",
        "a = 2;\nb = 0;\nc = 1;\n----------\n",
    ),
    // the values of a are -5, 1, 4; its bits are those of 0, 6, 9
    (
        "var {-5,1,4}: a :: output_var; var -20..20: b :: output_var; constraint int_times(a, b, 5); solve satisfy;",
        "a = 1;\nb = 5;\n----------\n",
    ),
    // neither set lies within the other
    (
        "var set of 1..2: a :: output_var; var set of 1..2: b :: output_var; constraint set_subset_reif(a, b, false); constraint set_subset_reif(b, a, false); solve satisfy;",
        "a = {1};\nb = {2};\n----------\n",
    ),
    // three sets of two elements, of which each two share one and all three none
    (
        "var set of 1..3: a :: output_var; var set of 1..3: b :: output_var; var set of 1..3: c :: output_var; var set of 1..3: d; constraint set_card(a, 2); constraint set_card(b, 2); constraint set_card(c, 2); constraint set_intersect(a, b, d); constraint set_intersect(c, d, {}); constraint set_card(d, 1); solve satisfy;",
        "a = {1,2};\nb = {1,3};\nc = {2,3};\n----------\n",
    ),
    // a set of 512 elements
    (
        "var set of 1..512: x :: output_var; constraint set_card(x, 0); solve satisfy;",
        "x = {};\n----------\n",
    ),
    (
        "var bool: r :: output_var; var set of 1..2: x :: output_var; constraint set_subset_reif({1,2}, x, r); solve satisfy;",
        "r = true;\nx = {1,2};\n----------\n",
    ),
    (
        "constraint bool_eq(true, false); solve satisfy;",
        "=====UNSATISFIABLE=====\n",
    ),
    (
        "var set of 1..3: x; constraint set_card(x, 4); solve satisfy;",
        "=====UNSATISFIABLE=====\n",
    ),
];

#[test]
fn searches_find_their_first_solution(rt: HostRuntime) -> Result<(), Fail> {
    let alloc = rt.alloc();
    for (model, printed) in ROWS {
        let mut desk = desk_with(alloc, model)?;
        assert_eq!(rt; status_of(alloc, &["m"], &mut desk)?, 0, "{model}");
        assert_eq!(rt; desk.out(), printed.as_bytes(), "{model}");
        assert_eq!(rt; desk.faults(), 0, "{model}");
    }
    Ok(())
}

/// Declares the Booleans `f1` to `f60`, and then three of which no two are alike.
fn sixty_free(alloc: Global) -> Result<String, AllocError> {
    let mut text = String::new(alloc);
    for i in 1..61u32 {
        text.push_str(format!(in alloc; "var bool: f{i};\n")?.as_str())?;
    }
    text.push_str("var bool: a; var bool: b; var bool: c;\n")?;
    text.push_str(
        "constraint bool_not(a, b); constraint bool_not(b, c); constraint bool_not(a, c);\n",
    )?;
    text.push_str("solve satisfy;")?;
    Ok(text)
}

#[test]
fn free_variables_are_not_gone_through(rt: HostRuntime) -> Result<(), Fail> {
    let alloc = rt.alloc();
    let text = sixty_free(alloc)?;
    let mut desk = desk_with(alloc, text.as_str())?;
    assert_eq!(rt; status_of(alloc, &["m"], &mut desk)?, 0);
    assert_eq!(rt; desk.out(), b"=====UNSATISFIABLE=====\n".as_slice());
    Ok(())
}
