// Texts read line by line.
ghost use Rattle.std.specs.Prelude.{IsTrue};
ghost use Rattle.desk.specs.State.{reading};

use desk::{Desk, DeskCall, LineEnd, Lines, MemoryDesk, ReadEnd, Slot};
use std::alloc::{AllocError, Global};
use std::test::Fail;

/// A text, and what five calls answer, each with the line that it gives.
const TEXTS: [(&str, &str); 5] = [
    ("", "end();end();end();end();end();"),
    ("\n", "line();end();end();end();end();"),
    ("one", "unended(one);end();end();end();end();"),
    (
        "one\n\nthree\n",
        "line(one);line();line(three);end();end();",
    ),
    (
        "\r\n two words \n\nlast",
        "line(\r);line( two words );line();unended(last);end();",
    ),
];

/// A text of one line of 67,108,864 bytes and `more` of them, which a newline ends.
fn long_text(alloc: Global, more: u8) -> Result<Vec<u8>, AllocError> {
    let mut text = vec![in alloc; b'x'; 67_108_864]?;
    text.resize(67_108_864 + more as usize, b'y')?;
    text.push(b'\n')?;
    Ok(text)
}

fn desk_with(alloc: Global, text: &[u8]) -> Result<MemoryDesk, AllocError> {
    let mut desk = MemoryDesk::new(alloc);
    desk.put_file("l", text)?;
    Ok(desk)
}

fn name_of(answer: &Result<LineEnd, ReadEnd>) -> &'static str {
    match answer {
        Ok(LineEnd::Line) => "line",
        Ok(LineEnd::Unended) => "unended",
        Ok(LineEnd::End) => "end",
        Err(ReadEnd::Failed) => "failed",
        Err(ReadEnd::TooLong) => "too long",
        Err(ReadEnd::Memory) => "memory",
    }
}

/// Asks for one line more.
#[tactic(auto, using(desk::proofs::Newlines::passes_begun))]
fn ask<D: Desk>(desk: &mut D, lines: &mut Lines) -> &'static str
    requires { IsTrue (reading Slot.Log (D.state desk.old)).begun }
    ensures { IsTrue (reading Slot.Log (D.state desk.new)).begun }
{
    name_of(&lines.next_line(desk, Slot::Log))
}

/// Begins the text `l`, and tells what so many calls answer, with at most eleven bytes of each line.
fn told<D: Desk>(alloc: Global, desk: &mut D, calls: usize) -> Result<Vec<u8>, ReadEnd> {
    desk.begin_read(Slot::Log, "l")?;
    let mut lines = Lines::new(alloc);
    let mut told = Vec::new(alloc);
    for _ in 0..calls {
        let name = ask(desk, &mut lines);
        let len = lines.line().len().min(11);
        told.extend_from_slice(name.as_bytes())?;
        told.extend_from_slice(b"(")?;
        told.extend_from_slice(&lines.line()[..len])?;
        told.extend_from_slice(b");")?;
    }
    Ok(told)
}

#[test]
fn lines_are_given_in_order(rt: HostRuntime) -> Result<(), Fail> {
    let alloc = rt.alloc();
    for (text, expected) in TEXTS {
        let mut desk = desk_with(alloc, text.as_bytes())?;
        let answers = told(alloc, &mut desk, 5)?;
        assert!(rt; answers.as_slice() == expected.as_bytes(), "at {text:?}");
        assert_eq!(rt; desk.faults(), 0);
    }
    Ok(())
}

/// A line that was not read is read by the next call.
#[test]
fn a_failed_read_loses_nothing(rt: HostRuntime) -> Result<(), Fail> {
    let alloc = rt.alloc();
    for (number, expected) in [
        (1, "failed();line(one);line(two);end();"),
        (2, "line(one);line(two);failed();end();"),
        (3, "line(one);line(two);end();failed();"),
    ] {
        let mut desk = desk_with(alloc, b"one\ntwo\n")?;
        desk.fail_at(DeskCall::Read, number)?;
        let answers = told(alloc, &mut desk, 4)?;
        assert!(rt; answers.as_slice() == expected.as_bytes(), "at {number}");
        assert_eq!(rt; desk.faults(), 1);
    }
    Ok(())
}

#[test]
fn a_line_has_a_limit(rt: HostRuntime) -> Result<(), Fail> {
    let alloc = rt.alloc();
    for (more, expected) in [
        (0, "line(xxxxxxxxxxx);end();"),
        (1, "too long();too long();"),
    ] {
        let text = long_text(alloc, more)?;
        let mut desk = desk_with(alloc, text.as_slice())?;
        let answers = told(alloc, &mut desk, 2)?;
        assert!(rt;
            answers.as_slice() == expected.as_bytes(),
            "with {more} more"
        );
    }
    Ok(())
}
