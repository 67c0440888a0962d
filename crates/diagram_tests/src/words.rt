//! Words of 16 bits, each as one unit, through a pool that holds four of them: collections make room for all.
ghost use Rattle.std.specs.Prelude.{◌<◌, ◌≤◌, IfOk};
ghost use Rattle.diagram_arena.specs.Table.{IsLive, depth};
ghost use Rattle.diagram_arena.specs.Arena.{table};

use diagram_arena::{Arena, Ref, Stop};
use diagram_ops::Ops;
use std::test::Fail;

/// Whether a bit of a number is set; bit 0 is the greatest of 16.
fn is_set(number: u32, bit: u32) -> bool {
    if bit < 16 {
        (number >> (15 - bit)) & 1 == 1
    } else {
        false
    }
}

/// The node of a bit over the words below it, on the side of this value.
fn above(ops: &mut Ops, bit: u32, value: bool, below: Ref) -> Result<Ref, Stop>
    requires small { bit < 16 }
    requires live { IsLive (table ops.old.arena) below }
    requires deep { bit < depth (table ops.old.arena) below }
    ensures live { IfOk result (IsLive (table ops.new.arena)) }
    ensures deep { IfOk result (λ r. bit ≤ depth (table ops.new.arena) r) }
{
    if value {
        ops.node(bit, Ref::Zero, below)
    } else {
        ops.node(bit, below, Ref::Zero)
    }
}

/// The one word of a number, from the deepest bit up: a unit.
fn unit(ops: &mut Ops, number: u32) -> Result<Ref, Stop>
    ensures { IfOk result (IsLive (table ops.new.arena)) }
{
    ops.begin_unit();
    let mut below = Ref::One;
    for i in 0..16_u32 {
        let bit = 15 - i;
        below = above(ops, bit, is_set(number, bit), below)?;
    }
    Ok(below)
}

/// The same, with a collection and one retry where there is no room.
fn made(ops: &mut Ops, number: u32) -> Result<Ref, Stop>
    ensures { IfOk result (IsLive (table ops.new.arena)) }
{
    match unit(ops, number) {
        Ok(r) => Ok(r),
        Err(stop) => {
            if stop == Stop::Full {
                ops.collect();
                unit(ops, number)
            } else {
                Err(stop)
            }
        }
    }
}

/// What is left of a ref once its bit has the value that it has in the number.
fn side(arena: &Arena, r: Ref, number: u32) -> Ref
    requires { IsLive (table arena.now) r }
    ensures { IsLive (table arena.now) result }
{
    match r {
        Ref::Zero => r,
        Ref::One => r,
        Ref::Node(id) => {
            let node = arena.node(id);
            if is_set(number, node.bit) {
                node.hi
            } else {
                node.lo
            }
        }
    }
}

/// Whether the word of a number is in a set.
fn is_in(arena: &Arena, r: Ref, number: u32) -> bool
    requires { IsLive (table arena.now) r }
{
    let mut at = r;
    for _ in 0..16 {
        at = side(arena, at, number);
    }
    at == Ref::One
}

#[test]
fn ten_thousand_words_pass_through(rt: HostRuntime) -> Result<(), Fail> {
    let mut ops = Ops::new(rt.alloc(), 64, 8)?;
    for k in 0..10_000_u32 {
        let r = made(&mut ops, k)?;
        let arena = ops.pool().arena();
        assert!(rt; is_in(arena, r, k), "{k}");
        assert!(rt; !is_in(arena, r, k + 1), "{k}");
    }
    Ok(())
}
