//! The words of a diagram with a true bit, without a node for any other set.
ghost use Rattle.std.specs.Prelude.{◌≡◌, IfOk, Some, Err};
ghost use Rattle.diagram_arena.specs.Table.{IsLive, IsReduced};
ghost use Rattle.diagram_arena.specs.Arena.{table, CanMake, Joins};
ghost use Rattle.node_reclaim.specs.Growth.{IsFull, Stays, NewArePartsOf, words_of};
ghost use Rattle.diagram_ops.specs.Words.{joined};
ghost use Rattle.branching.specs.Work.{Keeps, IsTrueSide};

use diagram_arena::{NodeId, Ref, Stop, Triple};
use diagram_ops::Ops;

/// The words of `f` whose `bit` is true. Both sides of each node above the bit are gone down, so it takes few steps
/// where one of the two is always Zero.
pub(crate) fn with_true(ops: &mut Ops, f: Ref, bit: u32) -> Result<Ref, Stop>
    requires { IsLive (table ops.old.arena) f }
    ensures { Keeps ops.old ops.new f bit result }
{
    // What holds of every pool.
    let _ = ops.pool();
    match f {
        Ref::Zero => Ok(Ref::Zero),
        Ref::One => above(ops, f, bit, f),
        Ref::Node(id) => {
            let node = node_at(ops, id);
            if node.bit < bit {
                let lo = with_true(ops, node.lo, bit)?;
                let hi = with_true(ops, node.hi, bit)?;
                put(ops, node.bit, lo, hi)
            } else if node.bit == bit {
                above(ops, f, bit, node.hi)
            } else {
                above(ops, f, bit, f)
            }
        }
    }
}

fn node_at(ops: &Ops, id: NodeId) -> Triple
    requires { IsLive (table ops.now.arena) (Ref.Node id) }
    ensures { table ops.now.arena id ≡ Some result }
{
    let node = ops.pool().arena().node(id);
    Triple {
        bit: node.bit,
        lo: node.lo,
        hi: node.hi,
    }
}

/// The words of `f` whose `bit` is true, where `f` asks none before it and `hi` is left of `f` once it is true.
fn above(ops: &mut Ops, f: Ref, bit: u32, hi: Ref) -> Result<Ref, Stop>
    requires { IsTrueSide (table ops.old.arena) f bit hi }
    ensures { Keeps ops.old ops.new f bit result }
{
    // What holds of every pool.
    let _ = ops.pool();
    put(ops, bit, Ref::Zero, hi)
}

/// The ref over both sides.
fn put(ops: &mut Ops, bit: u32, lo: Ref, hi: Ref) -> Result<Ref, Stop>
    requires { CanMake (table ops.old.arena) bit lo hi }
    ensures joins { IfOk result (Joins (table ops.old.arena) (table ops.new.arena) bit lo hi) }
    ensures stays { Stays ops.old ops.new }
    ensures full { result ≡ Err Stop.Full → IsFull ops.new }
    ensures parts { let V = joined bit (words_of ops.old lo) (words_of ops.old hi) in
        NewArePartsOf (table ops.old.arena) (table ops.new.arena) V }
{
    ops.node(bit, lo, hi)
}
