// Whole texts, and where calls fail.
ghost use Rattle.std.specs.Prelude.{◌<◌, ◌^◌};

use desk::{
    Desk, DeskCall, Failed, MemoryDesk, ReadEnd, RealDesk, Slot, To, read_text, write_text,
};
use std::alloc::{AllocError, Global};
use std::test::Fail;
use std::{env, fs};

fn read_model<D: Desk>(
    alloc: Global,
    desk: &mut D,
    name: &str,
    limit: usize,
) -> Result<Vec<u8>, ReadEnd>
    requires { limit < 2 ^ 40 }
{
    desk.begin_read(Slot::Model, name)?;
    read_text(alloc, desk, Slot::Model, limit)
}

fn print<D: Desk>(desk: &mut D, piece: &[u8]) -> bool {
    write_text(desk, To::Out, piece).is_ok()
}

fn write_log<D: Desk>(desk: &mut D, name: &str, piece: &[u8]) -> Result<(), Failed> {
    desk.begin_log(name)?;
    write_text(desk, To::Log, piece)
}

// A desk with the file `m` of three bytes.
fn desk_of_three(alloc: Global) -> Result<MemoryDesk, AllocError> {
    let mut desk = MemoryDesk::new(alloc);
    desk.put_file("m", b"abc")?;
    Ok(desk)
}

fn desk_with_faults(alloc: Global) -> Result<MemoryDesk, AllocError> {
    let mut desk = desk_of_three(alloc)?;
    desk.fail_at(DeskCall::Read, 2)?;
    desk.fail_at(DeskCall::WriteOut, 2)?;
    Ok(desk)
}

#[test]
fn a_text_is_read_up_to_the_limit(rt: HostRuntime) -> Result<(), Fail> {
    let alloc = rt.alloc();
    for (limit, fits) in [(4, true), (3, true), (2, false), (0, false)] {
        let mut desk = desk_of_three(alloc)?;
        match read_model(alloc, &mut desk, "m", limit) {
            Ok(text) => assert!(rt; fits && text.as_slice() == b"abc".as_slice(), "at {limit}"),
            Err(end) => assert!(rt; !fits && end == ReadEnd::TooLong, "at {limit}"),
        }
        assert_eq!(rt; desk.faults(), 0);
    }
    Ok(())
}

#[test]
fn faults_come_where_they_were_told_to(rt: HostRuntime) -> Result<(), Fail> {
    let alloc = rt.alloc();
    let mut desk = desk_with_faults(alloc)?;
    assert!(rt; matches!(&read_model(alloc, &mut desk, "n", 9), Err(ReadEnd::Failed)));
    assert!(rt; matches!(&read_model(alloc, &mut desk, "m", 9), Err(ReadEnd::Failed)));
    assert!(rt; print(&mut desk, b"one"));
    assert!(rt; !print(&mut desk, b"two"));
    assert!(rt; print(&mut desk, b"six"));
    assert_eq!(rt; desk.out(), b"onesix".as_slice());
    assert_eq!(rt; desk.faults(), 3);
    Ok(())
}

#[test]
fn a_log_begins_empty(rt: HostRuntime) -> Result<(), Fail> {
    let mut desk = MemoryDesk::new(rt.alloc());
    write_log(&mut desk, "l", b"old")?;
    write_log(&mut desk, "l", b"new")?;
    assert_eq!(rt; desk.log(), b"new".as_slice());
    Ok(())
}

#[test]
fn a_real_file_is_written_and_read(rt: HostRuntime) -> Result<(), Fail> {
    let alloc = rt.alloc();
    let path = env::temp_dir(&rt)?.join(alloc, "real_desk_test")?;
    let name = path.to_str().ok_or("no text")?;
    let mut desk = RealDesk::new(rt.clone()?);
    write_log(&mut desk, name, b"one\ntwo\n")?;
    let text = read_model(alloc, &mut desk, name, 100)?;
    fs::remove_file(&rt, name)?;
    assert_eq!(rt; text.as_slice(), b"one\ntwo\n".as_slice());
    assert!(rt;
        matches!(
            &read_model(alloc, &mut desk, name, 100),
            Err(ReadEnd::Failed)
        )
    );
    Ok(())
}
