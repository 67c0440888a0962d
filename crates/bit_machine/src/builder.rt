//! The builder: from a machine to the diagram of the words that it accepts.
ghost use Rattle.std.specs.Prelude.{◌≡◌, ℕ, ◌<◌, ◌≤◌, length, cond, Some, IfOk, IfSome, IfNone, OnOk};
ghost use Rattle.std.specs.List.{AllPass};
ghost use Rattle.std.specs.List.Sorted.{IsStrictlyIncreasing};
ghost use Rattle.std.specs.Map.{lookup};
ghost use Rattle.diagram_arena.specs.Table.{IsReduced};
ghost use Rattle.diagram_arena.specs.Reach.{Bits, ReachesOnly};
ghost use Rattle.diagram_arena.specs.Arena.{table};
ghost use Rattle.node_reclaim.specs.Growth.{IsFull, Stays, NewArePartsOf, NewReachOnly};
ghost use Rattle.diagram_ops.specs.Words.{Denotes};
ghost use Rattle.bit_machine.specs.Rules.{accepts, most_bits};
ghost use Rattle.bit_machine.specs.Built.{AsksNoneBefore, IsBuilt, same_position, AreBuilt, BuiltFrom};

use crate::machines::Machine;
use diagram_arena::{Ref, Stop};
use diagram_ops::Ops;
use std::alloc::{AllocError, Global};
use std::collections::HashMap;
use std::hash::Hash;

/// The diagram of the words that the machine accepts by reading these bits in order, the first of them at place
/// 0. The bits must ascend, be no more than the scope of a constraint may have, since the recursion is as deep,
/// and each have a place of the machine. `alloc` is for a table that lasts one call.
///
/// There is at most one call of `Ops::node` for each pair of a place and a state that occurs there. Full and
/// Memory come as from `Ops::node`; memory may also be wanted for that table. No other bit is asked, and the
/// nodes that were made before a refusal stay.
pub fn build<M: Machine>(
    alloc: Global,
    ops: &mut Ops,
    machine: &M,
    bits: &[u32],
) -> Result<Ref, Stop>
    requires ascend { IsStrictlyIncreasing bits.now }
    requires few { length bits.now ≤ most_bits }
    requires places { length bits.now ≤ M.places machine.now }
    requires valid { M.valid machine.now }
    ensures words { IfOk result (Denotes (table ops.new.arena) (accepts (M.rules machine.now) bits.now)) }
    ensures deep { IfOk result (AsksNoneBefore (table ops.new.arena) bits.now) }
    ensures stays { Stays ops.old ops.new }
    ensures full { result ≡ Err Stop.Full → IsFull ops.new }
    ensures parts { NewArePartsOf (table ops.old.arena) (table ops.new.arena) (accepts (M.rules machine.now) bits.now) }
    ensures asks { (set : Bits) → AllPass set bits.now → IfOk result (ReachesOnly (table ops.new.arena) set) }
    ensures reach { (set : Bits) → AllPass set bits.now → NewReachOnly (table ops.old.arena) (table ops.new.arena) set }
{
    let mut built = HashMap::new(alloc);
    build_from(ops, machine, bits, &mut built, 0, machine.start())
}

/// The diagram of what is accepted from place `at` on, if the machine comes there in this state. `built` has
/// those of the places and states that were met before, so that each is taken once.
fn build_from<M: Machine>(
    ops: &mut Ops,
    machine: &M,
    bits: &[u32],
    built: &mut HashMap<(usize, M::State), Ref>,
    at: usize,
    state: M::State,
) -> Result<Ref, Stop>
    requires ascend { IsStrictlyIncreasing bits.now }
    requires places { length bits.now ≤ M.places machine.now }
    requires valid { M.valid machine.now }
    requires within { at ≤ length bits.now }
    requires occurs { M.occurs machine.now at state }
    requires known { AreBuilt (table ops.old.arena) (M.rules machine.now) bits.now M.State.eq built.old.entries }
    ensures left { BuiltFrom ops.old ops.new (M.rules machine.now) bits.now at state result }
    ensures known { OnOk result (AreBuilt (table ops.new.arena) (M.rules machine.now) bits.now M.State.eq built.new.entries) }
{
    match known(ops, machine, bits, built, at, state) {
        Some(r) => Ok(r),
        None => {
            let bit = bits[at];
            let on_false = machine.step(at, state, false);
            let on_true = machine.step(at, state, true);
            let lo = build_from(ops, machine, bits, built, at + 1, on_false)?;
            let hi = build_from(ops, machine, bits, built, at + 1, on_true)?;
            let r = ops.node(bit, lo, hi)?;
            remember(built, at, state, r)?;
            Ok(r)
        }
    }
}

/// The diagram from a place and a state on, if all bits are read or it was built before.
fn known<M: Machine>(
    ops: &Ops,
    machine: &M,
    bits: &[u32],
    built: &HashMap<(usize, M::State), Ref>,
    at: usize,
    state: M::State,
) -> Option<Ref>
    requires places { length bits.now ≤ M.places machine.now }
    requires valid { M.valid machine.now }
    requires within { at ≤ length bits.now }
    requires occurs { M.occurs machine.now at state }
    requires known { AreBuilt (table ops.now.arena) (M.rules machine.now) bits.now M.State.eq built.now.entries }
    ensures found { IfSome result (IsBuilt (table ops.now.arena) (M.rules machine.now) bits.now at state) }
    ensures more { IfNone result (at < length bits.now) }
    ensures reduced { IsReduced (table ops.now.arena) }
{
    // What is known of the nodes.
    let _ = ops.pool();
    if at == bits.len() {
        Some(terminal(machine.accepts(state)))
    } else {
        built.get(&(at, state)).copied()
    }
}

/// The ref of all words, or of none.
fn terminal(holds: bool) -> Ref
    ensures { result ≡ cond holds Ref.One Ref.Zero }
{
    if holds { Ref::One } else { Ref::Zero }
}

/// Keeps a diagram.
fn remember<S: Copy + Eq + Hash>(
    built: &mut HashMap<(usize, S), Ref>,
    at: usize,
    state: S,
    r: Ref,
) -> Result<(), AllocError>
    ensures { let same = same_position S.eq in
        OnOk result ((k : ℕ × S) → lookup (same k) built.new.entries ≡ cond (same (at, state) k) (Some r) (lookup (same k) built.old.entries)) }
{
    built.insert((at, state), r)?;
    Ok(())
}
