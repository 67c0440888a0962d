//! Writers of no log.
ghost use Rattle.std.specs.Prelude.{IsFalse};

use desk::{Desk, MemoryDesk};
use refute_log::{LogStop, LogWriter};
use set_meaning::{ConId, VarId};
use std::test::Fail;

/// Tells the writer two boxes and their resolvent, which is learned. Answers the numbers of the first box and of the
/// resolvent.
fn told<D: Desk>(writer: &mut LogWriter, desk: &mut D) -> Result<(u64, u64), LogStop>
    requires off { IsFalse writer.old.on }
    ensures off { IsFalse writer.new.on }
{
    let sides = [(VarId(0), 0), (VarId(1), 1)];
    let axiom = writer.axiom(desk, ConId(2), &sides)?;
    let answer = writer.answer(desk, &[], &sides)?;
    let resolvent = writer.resolvent(desk, axiom, answer, VarId(1), &sides)?;
    writer.learn(desk, resolvent)?;
    Ok((axiom, resolvent))
}

/// A writer that is off counts what is learned, gives 0 for each number and writes nothing.
#[test]
fn counts_and_writes_nothing(rt: HostRuntime) -> Result<(), Fail> {
    let mut desk = MemoryDesk::new(rt.alloc());
    let mut writer = LogWriter::off();
    assert_eq!(rt; writer.learned(), 0);
    assert_eq!(rt; told(&mut writer, &mut desk), Ok((0, 0)));
    assert_eq!(rt; told(&mut writer, &mut desk), Ok((0, 0)));
    assert_eq!(rt; writer.learned(), 2);
    assert!(rt; writer.close(&mut desk, 0).is_ok());
    assert!(rt; LogWriter::off().end(&mut desk).is_ok());
    assert_eq!(rt; desk.log().len(), 0);
    Ok(())
}
