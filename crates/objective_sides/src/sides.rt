//! The values of an integer variable on one side of a bound.
ghost use Rattle.std.specs.Prelude.{◌≡◌, ◌<◌, ◌∷◌, [], Err, IfOk, IsSomeAnd, length, slice_get};
ghost use Rattle.std.specs.List.Sorted.{IsStrictlyIncreasing};
ghost use Rattle.bit_layout.specs.Order.{IsValueAt, width_at};
ghost use Rattle.set_meaning.specs.Kinds.{InKind};
ghost use Rattle.set_meaning.specs.declared.kinds.Value.TheVariants as value;
ghost use Rattle.diagram_arena.specs.Arena.{table};
ghost use Rattle.node_reclaim.specs.Growth.{IsFull, Stays};
ghost use Rattle.scope_words.specs.Words.{bits_at, NewReachOnlyScope};
ghost use Rattle.exact_steps.specs.Domains.{values_in};
ghost use Rattle.value_sets.specs.Sets.{IsValueSet, IsSetOf, both, NewArePartsOfValues};
ghost use Rattle.objective_sides.specs.Sides.{is_beyond};

use crate::cutting::cut;
use crate::sense::Sense;
use bit_layout::{Bit, Layout};
use diagram_arena::{Ref, Stop, reduced_tables, zero_and_one};
use diagram_ops::Ops;
use scope_words::words_give_one_value;
use set_meaning::{Value, VarId};
use std::alloc::{AllocError, Global};

/// The values of `f`, a value set of an integer variable, that lie on this side of the bound, which is one of the
/// variable's initial values. Over k bits at most k nodes are made. Full comes as from `Ops::node`; Memory is want of
/// memory for the bound's word or for a node.
pub fn values_beyond(
    alloc: Global,
    ops: &mut Ops,
    layout: &Layout,
    v: VarId,
    f: Ref,
    bound: i64,
    sense: Sense,
) -> Result<Ref, Stop>
    requires known { IsSomeAnd (slice_get layout.now.kinds v.0) (λ k. InKind k (value.Int bound)) }
    requires set { IsValueSet layout.now (table ops.old.arena) v f }
    ensures set { let s = both (values_in layout.now (table ops.old.arena) v f) (is_beyond sense bound) in
        IfOk result (IsSetOf layout.now (table ops.new.arena) v s) }
    ensures stays { Stays ops.old ops.new }
    ensures full { result ≡ Err Stop.Full → IsFull ops.new }
    ensures parts { let s = both (values_in layout.now (table ops.old.arena) v f) (is_beyond sense bound) in
        NewArePartsOfValues layout.now v s (table ops.old.arena) (table ops.new.arena) }
    ensures reach { NewReachOnlyScope layout.now (v ∷ []) (table ops.old.arena) (table ops.new.arena) }
{
    // What holds of every layout and every pool, and of words.
    layout.obeys_order();
    let _ = ops.pool();
    reduced_tables();
    match word_of(alloc, layout, v, bound) {
        Ok(word) => cut(ops, f, bits_of(layout, v), word.as_slice(), 0, sense),
        Err(_) => Err(Stop::Memory),
    }
}

/// The word of an integer.
fn word_of(alloc: Global, layout: &Layout, v: VarId, bound: i64) -> Result<Vec<bool>, AllocError>
    requires { IsSomeAnd (slice_get layout.now.kinds v.0) (λ k. InKind k (value.Int bound)) }
    ensures long { IfOk result (λ word. length word.items ≡ width_at layout.now v) }
    ensures is { IfOk result (λ word. IsValueAt layout.now v word.items (value.Int bound)) }
{
    layout.word_of(alloc, v, &Value::Int(bound))
}

/// The bits of one variable, as a list.
fn bits_of(layout: &Layout, v: VarId) -> &[Bit]
    requires { v.0 < length layout.now.kinds }
    ensures bits { result.now ≡ bits_at layout.now v }
    ensures ascending { IsStrictlyIncreasing result.now }
{
    layout.bits_of(v)
}
