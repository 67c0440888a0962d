// Calls of the desk that fail.
use crate::models::TWO_SETS;
use crate::running::{desk_with, status_of};
use desk::{DeskCall, MemoryDesk};
use std::test::Fail;

#[test]
fn faults_of_the_desk_end_the_root_command(rt: HostRuntime) -> Result<(), Fail> {
    let alloc = rt.alloc();
    let rows = [
        (DeskCall::BeginRead, 4, "% read fault\n"),
        (DeskCall::Read, 4, "% read fault\n"),
        (DeskCall::WriteOut, 5, ""),
    ];
    for (call, status, printed) in rows {
        let mut desk = desk_with(alloc, TWO_SETS)?;
        desk.fail_at(call, 1)?;
        assert_eq!(rt; status_of(alloc, &["--root", "m"], &mut desk)?, status);
        assert_eq!(rt; desk.out(), printed.as_bytes());
        assert_eq!(rt; desk.faults(), 1);
    }
    Ok(())
}

#[test]
fn faults_of_the_desk_are_told(rt: HostRuntime) -> Result<(), Fail> {
    let alloc = rt.alloc();
    let read_fault = "% read fault\n";
    let rows = [
        (DeskCall::BeginRead, 1, 4, read_fault),
        (DeskCall::Read, 1, 4, read_fault),
        (DeskCall::Read, 2, 4, read_fault),
        (DeskCall::WriteOut, 1, 5, ""),
    ];
    for (call, number, status, printed) in rows {
        let mut desk = desk_with(alloc, TWO_SETS)?;
        desk.fail_at(call, number)?;
        assert_eq!(rt; status_of(alloc, &["m"], &mut desk)?, status);
        assert_eq!(rt; desk.out(), printed.as_bytes());
        assert_eq!(rt; desk.faults(), 1);
    }
    let mut empty = MemoryDesk::new(alloc);
    assert_eq!(rt; status_of(alloc, &["m"], &mut empty)?, 4);
    assert_eq!(rt; empty.out(), read_fault.as_bytes());
    Ok(())
}
