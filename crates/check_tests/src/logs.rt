// Logs that are accepted, and logs that are refused.
use crate::running::{TWO_SIZES, desk_with, status_of, with_line};
use std::test::Fail;

/// A number of a line of the log of two sizes, counted from 1, the text that stands for this line, what is printed,
/// and the status.
const EDITS: [(usize, &str, &str, u8); 17] = [
    (0, "", "% accepted complete answers 0\n", 0),
    (15, "a 3 0 0 6\n", "% refused line 15 reason 6\n", 1),
    (17, "", "% refused line 17 reason 12\n", 1),
    (
        11,
        "a 1 1 1 9\na 1 1 1 9\n",
        "% refused line 12 reason 2\n",
        1,
    ),
    (12, "r 2 0 1 1\n", "% refused line 12 reason 8\n", 1),
    (17, "q 2\n", "% refused line 17 reason 11\n", 1),
    (1, "setlog 2\n", "% refused line 1 reason 1\n", 1),
    (17, "e\n", "% accepted open answers 0\n", 0),
    // behind the end, whatever it is
    (17, "q 4\nk 4\n", "% refused line 18 reason 12\n", 1),
    (17, "q 4\n\n", "% refused line 18 reason 12\n", 1),
    (17, "e\nq 4", "% refused line 18 reason 12\n", 1),
    // without a newline
    (17, "q 4", "% refused line 17 reason 1\n", 1),
    (5, "\n", "% refused line 5 reason 1\n", 1),
    (4, "n 4 2 1 2\n", "% refused line 4 reason 3\n", 1),
    (11, "a 1 1 2 9\n", "% refused line 11 reason 4\n", 1),
    (11, "a 1 1 0 9\n", "% refused line 11 reason 5\n", 1),
    (12, "r 2 0 2 1 0 6\n", "% refused line 12 reason 7\n", 1),
];

#[test]
fn a_log_with_one_line_altered(rt: HostRuntime) -> Result<(), Fail> {
    let alloc = rt.alloc();
    for (number, text, printed, status) in EDITS {
        let log = with_line(alloc, number, text)?;
        let mut desk = desk_with(alloc, TWO_SIZES, log.as_slice())?;
        assert_eq!(rt;
            status_of(alloc, &["m", "l"], &mut desk)?,
            status,
            "{number} {text:?}"
        );
        assert_eq!(rt; desk.out(), printed.as_bytes(), "{number} {text:?}");
        assert_eq!(rt; desk.faults(), 0);
    }
    Ok(())
}

const SMALLEST: &str =
    "var set of 1..3: x :: output_var; var 0..3: n :: output_var; constraint set_card(x, n); constraint set_in(2, x); solve minimize n;";

/// A model, a log, what is printed, and the status.
const ROWS: [(&str, &str, &str, u8); 14] = [
    (
        "solve satisfy;",
        "setlog 1\ns 0 |\nq 0\n",
        "% accepted complete answers 1\n",
        0,
    ),
    ("solve satisfy;", "", "% refused line 1 reason 12\n", 1),
    (
        "solve satisfy;",
        "setlog 1",
        "% refused line 1 reason 1\n",
        1,
    ),
    // an answer twice
    (
        "solve satisfy;",
        "setlog 1\ns 0 |\ns 1 |\nq 0\n",
        "% refused line 3 reason 9\n",
        1,
    ),
    (
        "var set of 1..3: x; constraint set_card(x, 4); solve satisfy;",
        "setlog 1\na 0 0\nq 0\n",
        "% accepted complete answers 0\n",
        0,
    ),
    (
        "var set of 1..0: x :: output_var; solve satisfy;",
        "setlog 1\ns 0 {} |\nq 0\n",
        "% accepted complete answers 1\n",
        0,
    ),
    (
        "constraint bool_eq(true, false); solve satisfy;",
        "setlog 1\na 0 0\nq 0\n",
        "% accepted complete answers 0\n",
        0,
    ),
    (
        "constraint bool_eq(true, true); solve satisfy;",
        "setlog 1\na 0 0\nq 0\n",
        "% refused line 2 reason 6\n",
        1,
    ),
    (
        "var set of 1..2: x :: output_var; solve satisfy;",
        "setlog 1\nn 2 1 0 1\nn 3 0 0 2\ns 0 {1,2} | 0 3\nn 4 1 1 0\nn 5 0 0 4\ns 1 {1} | 0 5\ne\n",
        "% accepted open answers 2\n",
        0,
    ),
    // the box of an answer has more than the answer
    (
        "var set of 1..2: x :: output_var; solve satisfy;",
        "setlog 1\nn 2 0 0 1\ns 0 {1,2} | 0 2\ne\n",
        "% refused line 3 reason 10\n",
        1,
    ),
    // each answer is better than those before; 3 is "n is at least 3", 7 "n is 0", 2 also "x has 2", 6 also "x lacks
    // 2"
    (
        SMALLEST,
        "setlog 1\nn 2 1 0 1\nn 3 0 0 2\ns 0 {1,2,3} 3 | 1 3\nk 0\nn 4 0 0 1\ns 1 {1,2} 2 | 1 4\nk 1\nn 5 0 2 1\ns 2 {2} 1 | 1 5\nn 6 1 1 0\nn 7 0 6 0\na 3 0 0 2 1 7\na 4 1 0 6\nr 5 3 4 0 1 7\nr 6 5 2 1\nq 6\n",
        "% accepted complete answers 3\n",
        0,
    ),
    // no better than the answer before
    (
        SMALLEST,
        "setlog 1\nn 2 1 0 1\nn 3 0 0 2\ns 0 {1,2,3} 3 | 1 3\ns 1 {1,2,3} 3 | 1 3\ne\n",
        "% refused line 5 reason 9\n",
        1,
    ),
    // the box of an answer has better values
    (
        SMALLEST,
        "setlog 1\nn 2 0 0 1\ns 0 {1,2,3} 3 | 1 2\ne\n",
        "% refused line 3 reason 10\n",
        1,
    ),
    // no solution
    (
        SMALLEST,
        "setlog 1\nn 2 1 0 1\nn 3 0 0 2\ns 0 {1,3} 2 | 1 3\ne\n",
        "% refused line 4 reason 9\n",
        1,
    ),
];

#[test]
fn logs_of_small_models(rt: HostRuntime) -> Result<(), Fail> {
    let alloc = rt.alloc();
    for (model, log, printed, status) in ROWS {
        let mut desk = desk_with(alloc, model, log.as_bytes())?;
        assert_eq!(rt; status_of(alloc, &["m", "l"], &mut desk)?, status, "{log}");
        assert_eq!(rt; desk.out(), printed.as_bytes(), "{log}");
        assert_eq!(rt; desk.faults(), 0);
    }
    Ok(())
}
