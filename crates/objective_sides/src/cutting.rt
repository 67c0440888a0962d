//! The words of a diagram from a word on, or up to it, without a node for any other set.
ghost use Rattle.std.specs.Prelude.{◌≡◌, ◌≤◌, cond, IfOk, Err, length, drop};
ghost use Rattle.diagram_arena.specs.Table.{IsLive};
ghost use Rattle.diagram_arena.specs.Arena.{table, CanMake, Joins};
ghost use Rattle.node_reclaim.specs.Growth.{IsFull, Stays, NewArePartsOf, words_of};
ghost use Rattle.diagram_ops.specs.Words.{joined};
ghost use Rattle.diagram_view.specs.Steps as step;
ghost use Rattle.diagram_view.proofs.Over.{IsOver};
ghost use Rattle.objective_sides.specs.Work.{other_side, Cuts};

use crate::sense::Sense;
use bit_layout::Bit;
use diagram_arena::{Ref, Stop, reduced_tables, zero_and_one};
use diagram_ops::Ops;

/// The words of `f` that lie on this side of the word over these bits, from place `at` on. One node a bit at most.
pub(crate) fn cut(
    ops: &mut Ops,
    f: Ref,
    bits: &[Bit],
    word: &[bool],
    at: usize,
    sense: Sense,
) -> Result<Ref, Stop>
    requires long { length word.now ≡ length bits.now }
    requires within { at ≤ length bits.now }
    requires over { IsOver (table ops.old.arena) f (drop at bits.now) }
    ensures { Cuts ops.old ops.new f (drop at bits.now) (drop at word.now) sense result }
{
    laws(ops);
    if at == bits.len() {
        return Ok(f);
    }
    let bit = bits[at];
    let value = word[at];
    let other = beyond(ops, f, bit, value, sense);
    let side = side(ops, f, bit, value);
    let inner = cut(ops, side, bits, word, at + 1, sense)?;
    join(ops, bit, value, inner, other)
}

/// What is known of the nodes of a pool.
fn laws(ops: &Ops)
    ensures { step.Laws (table ops.now.arena) }
{
    let _ = ops.pool();
    reduced_tables();
    zero_and_one();
}

/// What is left of `f` once `bit`, which no node above it asks, has this value.
fn side(ops: &Ops, f: Ref, bit: Bit, value: bool) -> Ref
    requires { IsLive (table ops.now.arena) f }
    ensures { result ≡ step.side (table ops.now.arena) f bit value }
{
    match f {
        Ref::Zero => Ref::Zero,
        Ref::One => Ref::One,
        Ref::Node(id) => {
            let node = ops.pool().arena().node(id);
            if node.bit != bit {
                f
            } else if value {
                node.hi
            } else {
                node.lo
            }
        }
    }
}

/// What is left of `f` where the bit has the other value: all, where that leads beyond the word on the side that is
/// kept, else nothing.
fn beyond(ops: &Ops, f: Ref, bit: Bit, value: bool, sense: Sense) -> Ref
    requires { IsLive (table ops.now.arena) f }
    ensures { result ≡ other_side (table ops.now.arena) f bit value sense }
{
    match sense {
        Sense::AtLeast => {
            if value {
                Ref::Zero
            } else {
                side(ops, f, bit, true)
            }
        }
        Sense::AtMost => {
            if value {
                side(ops, f, bit, false)
            } else {
                Ref::Zero
            }
        }
    }
}

/// The ref over `inner`, where the bit has this value, and `other`, where it has the other.
fn join(ops: &mut Ops, bit: Bit, value: bool, inner: Ref, other: Ref) -> Result<Ref, Stop>
    requires { CanMake (table ops.old.arena) bit (cond value other inner) (cond value inner other) }
    ensures joins { let t = table ops.old.arena in
        IfOk result (Joins t (table ops.new.arena) bit (cond value other inner) (cond value inner other)) }
    ensures stays { Stays ops.old ops.new }
    ensures full { result ≡ Err Stop.Full → IsFull ops.new }
    ensures parts { let V = joined bit (words_of ops.old (cond value other inner)) (words_of ops.old (cond value inner other)) in
        NewArePartsOf (table ops.old.arena) (table ops.new.arena) V }
{
    if value {
        ops.node(bit, other, inner)
    } else {
        ops.node(bit, inner, other)
    }
}
