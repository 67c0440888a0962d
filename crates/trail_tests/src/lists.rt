//! Two lists of pins over two nodes. What they have after some calls, and how often each node is pinned, is worked out by hand.
ghost use Rattle.std.specs.Prelude.{◌≡◌, ◌++◌};
ghost use Rattle.std.specs.List.{All};
ghost use Rattle.diagram_arena.specs.Table.{IsLive};
ghost use Rattle.diagram_arena.specs.Arena.{table};
ghost use Rattle.node_reclaim.specs.Holders.{AreHeld};

use crate::places::places;
use diagram_arena::Ref;
use diagram_ops::Ops;
use pin_lists::PinList;
use std::alloc::{AllocError, Global};
use std::test::Fail;

/// A call on the first list: pins the two nodes, sets a pin aside for the node of this place, or takes one back.
#[derive(Clone, Copy)]
enum Call {
    HoldAll,
    SetAside(usize, usize),
    TakeBack(usize),
}

/// Makes the call, if its places are there.
fn make(
    ops: &mut Ops,
    list: &mut PinList,
    aside: &mut PinList,
    nodes: &[Ref],
    call: Call,
) -> Result<(), AllocError>
    requires live { All (IsLive (table ops.old.arena)) nodes.now }
    requires held { AreHeld ops.old (list.old ++ aside.old) }
    ensures held { AreHeld ops.new (list.new ++ aside.new) }
    ensures arena { ops.new.arena ≡ ops.old.arena }
{
    match call {
        Call::HoldAll => list.hold_all(ops, nodes),
        Call::SetAside(at, to) => set_aside(ops, list, aside, nodes, at, to),
        Call::TakeBack(at) => {
            take_back(ops, list, aside, at);
            Ok(())
        }
    }
}

fn set_aside(
    ops: &mut Ops,
    list: &mut PinList,
    aside: &mut PinList,
    nodes: &[Ref],
    at: usize,
    to: usize,
) -> Result<(), AllocError>
    requires live { All (IsLive (table ops.old.arena)) nodes.now }
    requires held { AreHeld ops.old (list.old ++ aside.old) }
    ensures held { AreHeld ops.new (list.new ++ aside.new) }
    ensures arena { ops.new.arena ≡ ops.old.arena }
{
    let known = list.refs().len();
    if at >= known || to >= nodes.len() {
        return Ok(());
    }
    list.set_aside(ops, at, nodes[to], aside)
}

fn take_back(ops: &mut Ops, list: &mut PinList, aside: &mut PinList, at: usize)
    requires { AreHeld ops.old (list.old ++ aside.old) }
    ensures held { AreHeld ops.new (list.new ++ aside.new) }
    ensures arena { ops.new.arena ≡ ops.old.arena }
{
    let known = list.refs().len();
    let spare = aside.refs().len();
    if at < known && spare > 0 {
        list.take_back(ops, at, aside);
    }
}

/// Spends the pins of both lists.
fn release(ops: &mut Ops, list: PinList, aside: PinList)
    requires { AreHeld ops.old (list ++ aside) }
{
    list.release(ops);
    aside.release(ops);
}

/// What the lists have, and which nodes are pinned, each as often as it is.
#[derive(Drop)]
struct Seen {
    list: Vec<usize>,
    aside: Vec<usize>,
    pins: Vec<usize>,
}

fn look(
    alloc: Global,
    ops: &Ops,
    list: &PinList,
    aside: &PinList,
    nodes: &[Ref],
) -> Result<Seen, AllocError> {
    let pins = ops.pool().pinned(alloc)?;
    Ok(Seen {
        list: places(alloc, nodes, list.refs())?,
        aside: places(alloc, nodes, aside.refs())?,
        pins: places(alloc, nodes, &pins)?,
    })
}

/// What is seen after the calls, and how many pins are left once both lists are released.
fn run(rt: &HostRuntime, calls: &[Call]) -> Result<(Seen, usize), Fail> {
    let mut ops = Ops::new(rt.alloc(), 2, 1)?;
    let first = ops.literal(0, true)?;
    let second = ops.literal(1, true)?;
    let nodes = [first, second];
    let mut list = PinList::new(rt.alloc());
    let mut aside = PinList::new(rt.alloc());
    for call in calls {
        if make(&mut ops, &mut list, &mut aside, &nodes, *call).is_err() {
            break;
        }
    }
    let seen = look(rt.alloc(), &ops, &list, &aside, &nodes);
    release(&mut ops, list, aside);
    let left = ops.pool().pinned(rt.alloc())?;
    Ok((seen?, left.len()))
}

/// Whether the calls lead to these lists and these pins, of which none is left after the release.
fn leads_to(
    rt: &HostRuntime,
    calls: &[Call],
    list: &[usize],
    aside: &[usize],
    pins: &[usize],
) -> Result<bool, Fail> {
    let (seen, left) = run(rt, calls)?;
    Ok(
        seen.list.as_slice() == list
            && seen.aside.as_slice() == aside
            && seen.pins.as_slice() == pins
            && left == 0,
    )
}

/// Pins go to the second list and come back.
#[test]
fn moves_pins_between_lists(rt: HostRuntime) -> Result<(), Fail> {
    let all = Call::HoldAll;
    let aside = Call::SetAside(0, 1);
    assert!(rt; leads_to(&rt, &[], &[], &[], &[])?);
    assert!(rt; leads_to(&rt, &[all], &[0, 1], &[], &[0, 1])?);
    assert!(rt; leads_to(&rt, &[all, aside], &[1, 1], &[0], &[0, 1, 1])?);
    assert!(rt;
        leads_to(
            &rt,
            &[all, aside, Call::SetAside(1, 0)],
            &[1, 0],
            &[0, 1],
            &[0, 0, 1, 1]
        )?
    );
    assert!(rt; leads_to(&rt, &[all, aside, Call::TakeBack(1)], &[1, 0], &[], &[0, 1])?);
    Ok(())
}
