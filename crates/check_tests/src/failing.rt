// Words, files and calls that fail.
use crate::running::{TWO_SIZES, desk_with, status_of, with_line};
use desk::{DeskCall, MemoryDesk};
use std::test::Fail;

#[test]
fn just_two_words_are_read(rt: HostRuntime) -> Result<(), Fail> {
    let alloc = rt.alloc();
    let rows: [&[&str]; 5] = [
        &[],
        &["m"],
        &["m", "l", "l"],
        &["--help"],
        &["", "", "", ""],
    ];
    for words in rows {
        let mut desk = desk_with(alloc, "solve satisfy;", b"")?;
        assert_eq!(rt; status_of(alloc, words, &mut desk)?, 2);
        assert_eq!(rt; desk.out(), b"% usage: setcheck MODEL LOG\n".as_slice());
        assert_eq!(rt; desk.faults(), 0);
    }
    Ok(())
}

#[test]
fn a_model_with_a_fault_is_told(rt: HostRuntime) -> Result<(), Fail> {
    let alloc = rt.alloc();
    for (model, printed) in [
        (
            "var int: x; solve satisfy;",
            "% error line 1 column 5: unbounded\n",
        ),
        (
            "solve sat",
            "% error line 1 column 7: expected satisfy, minimize or maximize\n",
        ),
    ] {
        let mut desk = desk_with(alloc, model, b"")?;
        assert_eq!(rt; status_of(alloc, &["m", "l"], &mut desk)?, 3);
        assert_eq!(rt; desk.out(), printed.as_bytes());
        assert_eq!(rt; desk.faults(), 0);
    }
    Ok(())
}

#[test]
fn a_file_that_is_not_there(rt: HostRuntime) -> Result<(), Fail> {
    let alloc = rt.alloc();
    let rows: [&[&str]; 2] = [&["n", "l"], &["m", "n"]];
    for words in rows {
        let mut desk = desk_with(alloc, "solve satisfy;", b"")?;
        assert_eq!(rt; status_of(alloc, words, &mut desk)?, 4);
        assert_eq!(rt; desk.out(), b"% read fault\n".as_slice());
        assert_eq!(rt; desk.faults(), 1);
    }
    Ok(())
}

/// The call that fails, what is printed, and the status. The model takes two reads, and so does the log.
const FAILURES: [(DeskCall, u64, &str, u8); 7] = [
    (DeskCall::BeginRead, 1, "% read fault\n", 4),
    (DeskCall::BeginRead, 2, "% read fault\n", 4),
    (DeskCall::Read, 1, "% read fault\n", 4),
    (DeskCall::Read, 2, "% read fault\n", 4),
    (DeskCall::Read, 3, "% read fault\n", 4),
    (DeskCall::Read, 4, "% read fault\n", 4),
    (DeskCall::WriteOut, 1, "", 5),
];

#[test]
fn calls_that_fail(rt: HostRuntime) -> Result<(), Fail> {
    let alloc = rt.alloc();
    let log = with_line(alloc, 0, "")?;
    for (call, number, printed, status) in FAILURES {
        let mut desk = desk_with(alloc, TWO_SIZES, log.as_slice())?;
        desk.fail_at(call, number)?;
        assert_eq!(rt;
            status_of(alloc, &["m", "l"], &mut desk)?,
            status,
            "{call:?} {number}"
        );
        assert_eq!(rt; desk.out(), printed.as_bytes(), "{call:?} {number}");
        assert_eq!(rt; desk.faults(), 1);
    }
    Ok(())
}

#[test]
fn a_line_that_is_too_long_is_no_line(rt: HostRuntime) -> Result<(), Fail> {
    let alloc = rt.alloc();
    let mut log = Vec::from_slice(alloc, b"setlog 1\n")?;
    log.resize(67_108_864 + 10, b'0')?;
    log.extend_from_slice(b"\ne\n")?;
    let mut desk = desk_with(alloc, "solve satisfy;", log.as_slice())?;
    assert_eq!(rt; status_of(alloc, &["m", "l"], &mut desk)?, 1);
    assert_eq!(rt; desk.out(), b"% refused line 2 reason 1\n".as_slice());
    Ok(())
}

#[test]
fn no_log_is_begun(rt: HostRuntime) -> Result<(), Fail> {
    let alloc = rt.alloc();
    let mut desk = MemoryDesk::new(alloc);
    assert_eq!(rt; status_of(alloc, &["m", "l"], &mut desk)?, 4);
    assert_eq!(rt; desk.log(), b"".as_slice());
    Ok(())
}
