//! A store of boxes over its life, with the pins counted.
ghost use Rattle.std.specs.Prelude.{◌≡◌, ◌+◌, ◌<◌, [], IfOk, OnOk, All, length};
ghost use Rattle.diagram_arena.specs.Table.{IsLive};
ghost use Rattle.diagram_arena.specs.Arena.{table};
ghost use Rattle.node_reclaim.specs.Holders.{AreHeld};
ghost use Rattle.box_clauses.specs.Stored.{stored_sets};

use box_clauses::{BoxStore, Held, Side};
use diagram_arena::Ref;
use diagram_ops::Ops;
use set_meaning::{BoxId, VarId};
use std::alloc::{AllocError, Global};
use std::test::Fail;

/// What a store told.
#[derive(Drop, PartialEq, Eq, Debug)]
struct Told {
    is_new: (bool, bool),
    count: u32,
    lines: (u64, u64),
    learned: (bool, bool),
    sides: usize,
    pins: usize,
}

fn side(v: u32, set: Ref) -> Side
    ensures { result.set ≡ set }
{
    Side { var: VarId(v), set }
}

/// How many pins there are of nodes.
fn pins(alloc: Global, ops: &Ops) -> Result<usize, AllocError> {
    Ok(ops.pool().pinned(alloc)?.len())
}

/// Adds the box of these sides, whose pins are taken first.
fn add(
    alloc: Global,
    ops: &mut Ops,
    store: &mut BoxStore,
    sides: &[Side],
    line: u64,
    learned: bool,
) -> Result<BoxId, AllocError>
    requires live { All (λ side. IsLive (table ops.old.arena) side.set) sides.now }
    requires room { length store.old < 10 }
    requires held { AreHeld ops.old (stored_sets store.old) }
    ensures id { IfOk result (λ b. b.0 ≡ length store.old) }
    ensures more { OnOk result (length store.new ≡ length store.old + 1) }
    ensures held { AreHeld ops.new (stored_sets store.new) }
    ensures stays { ops.new ≡ record ops.old { counts = ops.new.counts } }
{
    let held = Held::new(alloc, ops, sides)?;
    store.add(ops, held, line, learned)
}

/// Adds the same box twice, and asks the store. The sets must be live.
fn add_twice(
    alloc: Global,
    ops: &mut Ops,
    store: &mut BoxStore,
    low: Ref,
    high: Ref,
) -> Result<Told, AllocError>
    requires low { IsLive (table ops.old.arena) low }
    requires high { IsLive (table ops.old.arena) high }
    requires empty { store.old ≡ [] }
    ensures held { AreHeld ops.new (stored_sets store.new) }
{
    let sides = [side(0, low), side(1, high)];
    let before = store.is_new(sides.as_slice());
    let first = add(alloc, ops, store, sides.as_slice(), 7, true)?;
    let second = add(alloc, ops, store, sides.as_slice(), 9, false)?;
    let after = store.is_new(sides.as_slice());
    Ok(Told {
        is_new: (before, after),
        count: store.len(),
        lines: (store.line(first), store.line(second)),
        learned: (store.is_learned(first), store.is_learned(second)),
        sides: store.sides(first).len(),
        pins: pins(alloc, ops)?,
    })
}

#[test]
fn the_same_box_twice(rt: HostRuntime) -> Result<(), Fail> {
    let alloc = rt.alloc();
    let mut ops = Ops::new(alloc, 30, 1)?;
    let low = ops.literal(0, true)?;
    let high = ops.literal(1, false)?;
    let mut store = BoxStore::new(alloc);
    let told = add_twice(alloc, &mut ops, &mut store, low, high);
    store.release(&mut ops);
    let expected = Told {
        is_new: (true, false),
        count: 2,
        lines: (7, 9),
        learned: (true, false),
        sides: 2,
        pins: 4,
    };
    assert_eq!(rt; told?, expected);
    assert_eq!(rt; pins(alloc, &ops)?, 0);
    Ok(())
}

/// How many pins there are while two sides are held, and after.
fn held_and_after(alloc: Global, ops: &mut Ops, low: Ref) -> Result<(usize, usize), AllocError>
    requires { IsLive (table ops.old.arena) low }
{
    let sides = [side(0, low), side(1, Ref::One)];
    let held = Held::new(alloc, ops, sides.as_slice())?;
    let during = pins(alloc, ops);
    held.release(ops);
    Ok((during?, pins(alloc, ops)?))
}

#[test]
fn held_sides_are_pinned(rt: HostRuntime) -> Result<(), Fail> {
    let alloc = rt.alloc();
    let mut ops = Ops::new(alloc, 30, 1)?;
    let low = ops.literal(0, true)?;
    let counts = held_and_after(alloc, &mut ops, low)?;
    assert_eq!(rt; counts.0, 1);
    assert_eq!(rt; counts.1, 0);
    Ok(())
}
