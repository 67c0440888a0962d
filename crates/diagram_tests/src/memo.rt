//! Operations whose subproblems pass a memo of one entry many times over: without a table of their own they would not end.
ghost use Rattle.std.specs.Prelude.{IfOk};
ghost use Rattle.diagram_arena.specs.Table.{IsLive};
ghost use Rattle.diagram_arena.specs.Arena.{table};
ghost use Rattle.node_reclaim.specs.Growth.{Stays};

use diagram_arena::{Ref, Stop};
use diagram_ops::Ops;
use diagram_view::node_count;
use std::test::Fail;

/// The words of which an odd number of these bits is true.
fn odd(ops: &mut Ops, bits: &[u32]) -> Result<Ref, Stop>
    ensures live { IfOk result (IsLive (table ops.new.arena)) }
    ensures stays { Stays ops.old ops.new }
{
    // What is known of the nodes.
    let _ = ops.pool();
    let mut sum = Ref::Zero;
    for bit in bits {
        sum = flipped(ops, sum, *bit)?;
    }
    Ok(sum)
}

/// The words that are in `f` where `bit` is false, and not in `f` where it is true.
fn flipped(ops: &mut Ops, f: Ref, bit: u32) -> Result<Ref, Stop>
    requires { IsLive (table ops.old.arena) f }
    ensures live { IfOk result (IsLive (table ops.new.arena)) }
    ensures stays { Stays ops.old ops.new }
{
    let on = ops.literal(bit, true)?;
    let some = ops.or(f, on)?;
    let both = ops.and(f, on)?;
    ops.diff(some, both)
}

/// Of 60 bits an odd number is true, and of those at even places too: four nodes a bit, but for the first two and the last.
#[test]
fn ends_with_a_memo_of_one_entry(rt: HostRuntime) -> Result<(), Fail> {
    let mut ops = Ops::new(rt.alloc(), 100_000, 1)?;
    let mut all = Vec::new(rt.alloc());
    let mut even = Vec::new(rt.alloc());
    for k in 0..30_u32 {
        even.push(2 * k)?;
        all.push(2 * k)?;
        all.push(2 * k + 1)?;
    }
    let f = odd(&mut ops, all.as_slice())?;
    let g = odd(&mut ops, even.as_slice())?;
    let both = ops.and(f, g)?;
    assert_eq!(rt; node_count(rt.alloc(), ops.pool().arena(), both), Ok(233));
    assert_eq!(rt; ops.inside(both, g), Ok(true));
    assert_eq!(rt; ops.inside(g, both), Ok(false));
    Ok(())
}
