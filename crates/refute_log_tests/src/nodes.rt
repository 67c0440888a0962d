//! The lines of nodes, and the numbers of refs.
ghost use Rattle.std.specs.Prelude.{◌≡◌, ◌<◌, length, IsTrue, IfOk, IfSome};
ghost use Rattle.bit_layout.specs.Limits.{AreWithinLimits};
ghost use Rattle.bit_layout.specs.Order.{width_at};
ghost use Rattle.diagram_arena.specs.Table.{IsLive};
ghost use Rattle.diagram_arena.specs.Arena.{table};
ghost use Rattle.refute_log.specs.Naming.{IsOfOneVariable};

use bit_layout::Layout;
use desk::{Desk, MemoryDesk};
use diagram_arena::{Ref, Stop};
use diagram_ops::Ops;
use listed::Listed;
use refute_log::LogWriter;
use set_meaning::{Constraint, Goal, Kind, Problem, SetValue, Shown, Text, VarId};
use std::alloc::{AllocError, Global};
use std::test::Fail;

/// The words of a variable that have this value at this position.
fn words_with(
    ops: &mut Ops,
    layout: &Layout,
    v: VarId,
    position: u32,
    value: bool,
) -> Result<Ref, Stop>
    requires known { position < width_at layout.now v }
    ensures live { IfOk result (IsLive (table ops.new.arena)) }
    ensures one { IfOk result (IsOfOneVariable layout.now (table ops.new.arena)) }
{
    ops.literal(layout.bit(v, position), value)
}

/// The number of the words of a variable that have this value at this position.
fn number_of<D: Desk>(
    writer: &mut LogWriter,
    desk: &mut D,
    ops: &mut Ops,
    layout: &Layout,
    at: (VarId, u32),
    value: bool,
) -> Option<u64>
    requires begun { IsTrue writer.old.on → IsTrue (D.state desk.old).log.begun }
    requires known { at.1 < width_at layout.now at.0 }
    ensures begun { IfSome result (λ n. IsTrue writer.new.on → IsTrue (D.state desk.new).log.begun) }
{
    match words_with(ops, layout, at.0, at.1, value) {
        Ok(r) => match writer.side(desk, ops, layout, r) {
            Ok(number) => Some(number),
            Err(_) => None,
        },
        Err(_) => None,
    }
}

/// Numbers of the words of a variable by their last position, before and after nodes are collected.
fn numbers<D: Desk>(
    alloc: Global,
    desk: &mut D,
    ops: &mut Ops,
    layout: &Layout,
    v: VarId,
) -> Option<[u64; 4]>
    requires known { v.0 < length layout.now.kinds }
{
    if layout.width(v) < 2 {
        return None;
    }
    match LogWriter::start(alloc, desk, "log") {
        Ok(mut writer) => {
            let first = number_of(&mut writer, desk, ops, layout, (v, 1), true)?;
            let second = number_of(&mut writer, desk, ops, layout, (v, 0), false)?;
            let again = number_of(&mut writer, desk, ops, layout, (v, 1), true)?;
            ops.collect();
            let later = number_of(&mut writer, desk, ops, layout, (v, 1), true)?;
            Some([first, second, again, later])
        }
        Err(_) => None,
    }
}

fn kinds(alloc: Global) -> Result<Vec<Kind>, AllocError>
    ensures limits { IfOk result (λ kinds. AreWithinLimits kinds.items) }
    ensures one { IfOk result (λ kinds. length kinds.items ≡ 1) }
{
    let set = Kind::Set(SetValue::from_list(alloc, [1, 2].as_slice())?);
    let kinds = vec![in alloc; set]?;
    Ok(kinds)
}

fn problem(alloc: Global, kinds: Vec<Kind>) -> Problem
    ensures { result.kinds ≡ kinds.items }
{
    let names: Vec<Text> = Vec::new(alloc);
    let constraints: Vec<Constraint> = Vec::new(alloc);
    let shown: Vec<Shown> = Vec::new(alloc);
    Problem {
        kinds: Listed::of(kinds),
        names: Listed::of(names),
        constraints: Listed::of(constraints),
        goal: Goal::Satisfy,
        shown: Listed::of(shown),
    }
}

/// A node that is made under a used id has a line of its own.
#[test]
fn nodes_before_and_after_a_collection(rt: HostRuntime) -> Result<(), Fail> {
    let mut desk = MemoryDesk::new(rt.alloc());
    let p = problem(rt.alloc(), kinds(rt.alloc())?);
    let layout = Layout::new(rt.alloc(), &p)?;
    let mut ops = Ops::new(rt.alloc(), 30, 1)?;
    let told = numbers(rt.alloc(), &mut desk, &mut ops, &layout, VarId(0));
    assert_eq!(rt; told, Some([2, 3, 2, 4]));
    assert_eq!(rt;
        desk.log(),
        b"setlog 1\nn 2 1 0 1\nn 3 0 1 0\nn 4 1 0 1\n".as_slice()
    );
    Ok(())
}
