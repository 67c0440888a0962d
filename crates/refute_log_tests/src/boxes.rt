//! The lines of boxes, and of the beginning and the ends of a log.
ghost use Rattle.std.specs.Prelude.{IsTrue, IfOk, map};
ghost use Rattle.std.specs.List.{AllByRecursion};
ghost use Rattle.log_text.specs.Spelling.{IsNumber, IsValue};
ghost use Rattle.refute_log.specs.Lines.{log_value};

use desk::{Desk, DeskCall, MemoryDesk};
use refute_log::{LogStop, LogWriter};
use set_meaning::{ConId, SetValue, Value, VarId};
use std::alloc::{AllocError, Global};
use std::test::Fail;

/// Values of an answer.
fn values(alloc: Global) -> Result<Vec<Value>, AllocError>
    ensures { IfOk result (λ values. AllByRecursion IsValue (map log_value values.items)) }
{
    let mut values = Vec::new(alloc);
    values.push(Value::Bool(true))?;
    values.push(Value::Int(-12))?;
    values.push(Value::Set(SetValue::from_list(alloc, [3, -1].as_slice())?))?;
    Ok(values)
}

/// Tells the writer an axiom, an answer and their resolvent, which is learned. Answers the number of the resolvent.
fn tell<D: Desk>(writer: &mut LogWriter, desk: &mut D, values: &[Value]) -> Result<u64, LogStop>
    requires begun { IsTrue writer.old.on → IsTrue (D.state desk.old).log.begun }
    requires small { AllByRecursion IsValue (map log_value values.now) }
    ensures begun { IfOk result (λ k. IsTrue writer.new.on → IsTrue (D.state desk.new).log.begun) }
    ensures number { IfOk result (λ k. IsTrue writer.new.on → IsNumber k) }
{
    let sides = [(VarId(0), 0), (VarId(7), 1)];
    let axiom = writer.axiom(desk, ConId(2), &sides)?;
    let answer = writer.answer(desk, values, &[])?;
    let resolvent = writer.resolvent(desk, axiom, answer, VarId(7), &sides[..1])?;
    writer.learn(desk, resolvent)?;
    Ok(resolvent)
}

/// Writes a log of these lines that is closed, or one that is ended.
fn write<D: Desk>(
    alloc: Global,
    desk: &mut D,
    values: &[Value],
    is_closed: bool,
) -> Result<(), LogStop>
    requires small { AllByRecursion IsValue (map log_value values.now) }
{
    let mut writer = LogWriter::start(alloc, desk, "log")?;
    let line = tell(&mut writer, desk, values)?;
    let ended = if is_closed {
        writer.close(desk, line)
    } else {
        writer.end(desk)
    };
    match ended {
        Ok(()) => Ok(()),
        Err(_) => Err(LogStop::Failed),
    }
}

#[test]
fn a_closed_log(rt: HostRuntime) -> Result<(), Fail> {
    let mut desk = MemoryDesk::new(rt.alloc());
    let values = values(rt.alloc())?;
    assert_eq!(rt;
        write(rt.alloc(), &mut desk, values.as_slice(), true),
        Ok(())
    );
    assert_eq!(rt;
        desk.log(),
        b"setlog 1\na 0 2 0 0 7 1\ns 1 true -12 {-1,3} |\nr 2 0 1 7 0 0\nk 2\nq 2\n".as_slice()
    );
    Ok(())
}

#[test]
fn a_log_that_is_ended(rt: HostRuntime) -> Result<(), Fail> {
    let mut desk = MemoryDesk::new(rt.alloc());
    assert_eq!(rt; write(rt.alloc(), &mut desk, &[], false), Ok(()));
    assert_eq!(rt;
        desk.log(),
        b"setlog 1\na 0 2 0 0 7 1\ns 1 |\nr 2 0 1 7 0 0\nk 2\ne\n".as_slice()
    );
    Ok(())
}

/// Where the third write fails, the log has the lines before it.
#[test]
fn a_write_that_fails(rt: HostRuntime) -> Result<(), Fail> {
    let mut desk = MemoryDesk::new(rt.alloc());
    desk.fail_at(DeskCall::WriteLog, 3)?;
    assert_eq!(rt;
        write(rt.alloc(), &mut desk, &[], true),
        Err(LogStop::Failed)
    );
    assert_eq!(rt; desk.log(), b"setlog 1\na 0 2 0 0 7 1\n".as_slice());
    Ok(())
}
