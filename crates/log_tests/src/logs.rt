//! Logs, each with where it ends. They are worked out by hand by the rules of docs/FORMATS.md.
use fzn_model::read_problem;
use log_checker::{Checker, Refused};
use log_rules::End;
use model_limits::problems_of_texts_keep_limits;
use std::alloc::{AllocError, Global};
use std::test::Fail;

/// Where a log ends: how many lines were taken, and the number of the reason for which the next is refused; 0 where
/// the log closes, and 13 where its run stopped. Each is beside the number of answers.
fn ending(alloc: Global, model: &str, log: &[&str]) -> Result<(usize, u8, u64), AllocError> {
    let Ok(problem) = read_problem(alloc, model.as_bytes()) else {
        return Err(AllocError);
    };
    problems_of_texts_keep_limits(model.as_bytes(), &problem);
    let mut checker = Checker::new(alloc, problem)?;
    let mut taken = 0_usize;
    for line in log {
        match checker.take(line.as_bytes()) {
            Ok(()) => {}
            Err(Refused::Reason(reason)) => return Ok((taken, reason.number(), checker.answers())),
            Err(Refused::Memory) => return Err(AllocError),
        }
        taken = taken.saturating_add(1);
    }
    match checker.finish() {
        Ok(End::Complete) => Ok((taken, 0, checker.answers())),
        Ok(End::Open) => Ok((taken, 13, checker.answers())),
        Err(Refused::Reason(reason)) => Ok((taken, reason.number(), checker.answers())),
        Err(Refused::Memory) => Err(AllocError),
    }
}

/// Two sets: x has two elements, y has three, and y is a subset of x. There is no solution.
const SETS: &str =
    "var set of 1..3: x; var set of 1..3: y; constraint set_card(x, 2); constraint set_card(y, 3); constraint set_subset(y, x); solve satisfy;";

/// A log that shows so.
const CLOSED: [&str; 17] = [
    "setlog 1",
    "n 2 2 0 1",
    "n 3 1 0 2",
    "n 4 2 1 0",
    "n 5 1 2 4",
    "n 6 0 3 5",
    "n 7 0 0 3",
    "a 0 2 0 6 1 7",
    "n 8 1 1 4",
    "n 9 0 1 8",
    "a 1 1 1 9",
    "r 2 0 1 1 0 6",
    "n 10 1 4 2",
    "n 11 0 8 10",
    "a 3 0 0 11",
    "r 4 2 3 0",
    "q 4",
];

/// Lines that take the place of a line of that log, counted from 1, and the reason for which each is refused.
const REFUSED: [(usize, &str, u8); 21] = [
    (1, "setlog 2", 1),
    (1, "n 2 2 0 1", 1),
    (2, "setlog 1", 1),
    (2, "n 02 2 0 1", 1),
    (2, "n 3 2 0 1", 2),
    (8, "a 1 2 0 6 1 7", 2),
    (3, "n 3 1 0 3", 3),
    (3, "n 3 2 0 2", 3),
    (8, "a 0 2 1 7 0 6", 4),
    (8, "a 0 2 0 6 2 7", 4),
    (8, "a 0 2 0 8 1 7", 4),
    (12, "r 2 0 1 2 0 6", 4),
    (8, "a 0 3 0 6 1 7", 5),
    (8, "a 0 0 0 6 1 7", 5),
    (8, "a 0 2 0 6", 6),
    (8, "a 0 2 1 7", 6),
    (12, "r 2 0 2 1 0 6", 7),
    (12, "k 2", 7),
    (12, "r 2 0 1 0 0 6", 8),
    (12, "r 2 0 1 1", 8),
    (8, "s 0 {1,2} {1,2,3} |", 9),
];

/// Models of one number, with logs, and where each ends.
const NUMBERS: [(&str, &[&str], (usize, u8, u64)); 14] = [
    (
        "var 1..2: a; solve satisfy;",
        &[
            "setlog 1",
            "n 2 0 1 0",
            "s 0 1 | 0 2",
            "n 3 0 0 1",
            "s 1 2 | 0 3",
            "r 2 0 1 0",
            "q 2",
        ],
        (7, 0, 2),
    ),
    (
        "var 1..2: a; solve satisfy;",
        &["setlog 1", "n 2 0 1 0", "s 0 1 | 0 2", "e"],
        (4, 13, 1),
    ),
    (
        "var 1..2: a; solve satisfy;",
        &["setlog 1", "n 2 0 1 0", "s 0 1 | 0 2", "s 1 1 | 0 2"],
        (3, 9, 1),
    ),
    (
        "var 1..2: a; solve satisfy;",
        &["setlog 1", "s 0 1 |"],
        (1, 10, 0),
    ),
    (
        "var 1..2: a; solve satisfy;",
        &["setlog 1", "n 2 0 1 0", "s 0 1 | 0 2", "q 0"],
        (3, 11, 1),
    ),
    (
        "var 1..2: a; solve satisfy;",
        &["setlog 1", "e", "e"],
        (2, 12, 0),
    ),
    ("var 1..2: a; solve satisfy;", &["setlog 1"], (1, 12, 0)),
    (
        "var {1,4}: a; solve satisfy;",
        &[
            "setlog 1",
            "n 2 0 1 0",
            "s 0 1 | 0 2",
            "n 3 0 0 1",
            "s 1 4 | 0 3",
            "r 2 0 1 0",
            "q 2",
        ],
        (7, 0, 2),
    ),
    (
        "var 1..3: a; solve minimize a;",
        &["setlog 1", "s 0 1 |", "q 0"],
        (3, 0, 1),
    ),
    (
        "var 1..3: a; solve minimize a;",
        &["setlog 1", "s 0 2 |"],
        (1, 10, 0),
    ),
    (
        "var 1..3: a; solve minimize a;",
        &["setlog 1", "s 0 1 |", "s 1 2 |"],
        (2, 9, 1),
    ),
    (
        "var 1..3: a; solve maximize a;",
        &["setlog 1", "s 0 3 |", "q 0"],
        (3, 0, 1),
    ),
    (
        "var 1..3: a; solve maximize a;",
        &["setlog 1", "s 0 2 |"],
        (1, 10, 0),
    ),
    (
        "var 1..3: a; solve maximize a;",
        &["setlog 1", "s 0 3 |", "s 1 1 |"],
        (2, 9, 1),
    ),
];

#[test]
fn takes_the_whole_log(rt: HostRuntime) -> Result<(), Fail> {
    assert_eq!(rt; ending(rt.alloc(), SETS, CLOSED.as_slice())?, (17, 0, 0));
    Ok(())
}

#[test]
fn refuses_each_changed_line(rt: HostRuntime) -> Result<(), Fail> {
    for (number, line, reason) in REFUSED {
        let mut log = Vec::from_slice(rt.alloc(), CLOSED.as_slice())?;
        log.truncate(number.saturating_sub(1));
        log.push(line)?;
        assert_eq!(rt;
            ending(rt.alloc(), SETS, log.as_slice())?,
            (number.saturating_sub(1), reason, 0),
            "{line:?}"
        );
    }
    Ok(())
}

#[test]
fn ends_where_it_should(rt: HostRuntime) -> Result<(), Fail> {
    for (model, log, wanted) in NUMBERS {
        assert_eq!(rt; ending(rt.alloc(), model, log)?, wanted, "{log:?}");
    }
    Ok(())
}
