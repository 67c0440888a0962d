//! The machine that asks a set variable for an element.
ghost use Rattle.std.specs.Prelude.{◌≡◌, ◌↔◌, ℕ, ◌<◌, true, [], ◌∷◌, List, length, map, slice_get, IsSomeAnd, IfOk, IfSome, IfNone, Some, Contains};
ghost use Rattle.std.specs.List.Sorted.{IsStrictlyIncreasing};
ghost use Rattle.set_meaning.specs.declared.kinds.Value.{Value};
ghost use Rattle.set_meaning.specs.Sets.{IsAscending};
ghost use Rattle.diagram_arena.specs.Table.{Word};
ghost use Rattle.bit_machine.specs.Rules.{accepts};
ghost use Rattle.scope_words.specs.Words.{Gives, IsSetKind, bits_at};
ghost use Rattle.linear_machine.specs.Steps.{rules_of};
ghost use Rattle.linear_terms.specs.Terms.{HasBitsOf};
ghost use Rattle.int_channel.specs.Forms.{HasElement};
ghost use Rattle.int_channel.specs.Machines.{IsBitOfElement, weight_of};

use bit_layout::{Bit, Layout};
use linear_machine::{Comparison, Linear, accepts_by_its_sum};
use scope_words::words_are_read_by_position;
use set_meaning::{Kind, VarId};
use std::alloc::{AllocError, Global};

/// The machine over these bits that accepts where the set variable has the element: the sum of the element's bit is 1.
pub(crate) fn member_machine(
    alloc: Global,
    layout: &Layout,
    kinds: &[Kind],
    bits: &[Bit],
    set: VarId,
    element: i64,
) -> Result<Linear, AllocError>
    requires kinds { layout.now.kinds ≡ kinds.now }
    requires ascend { IsStrictlyIncreasing bits.now }
    requires listed { HasBitsOf layout.now bits.now set }
    requires set { IsSomeAnd (slice_get layout.now.kinds set.0) IsSetKind }
    ensures places { IfOk result (λ m. length m.weights ≡ length bits.now) }
    ensures accepts { IfOk result (λ m. (values : List Value) (w : Word) → Gives layout.now (set ∷ []) values w
        → (accepts (rules_of m) bits.now w ≡ true) ↔ IsSomeAnd (slice_get values set.0) (HasElement element)) }
{
    // What holds of words, and of sums.
    words_are_read_by_position();
    accepts_by_its_sum();
    let own = bit_of_element(layout, kinds, set, element);
    let weights = weights_of(alloc, bits, own)?;
    let machine = Linear::new(alloc, weights.as_slice(), -1, Comparison::Equal)?;
    Ok(machine)
}

/// The bit of an element of the set variable's universe.
fn bit_of_element(layout: &Layout, kinds: &[Kind], set: VarId, element: i64) -> Option<Bit>
    requires kinds { layout.now.kinds ≡ kinds.now }
    requires set { IsSomeAnd (slice_get layout.now.kinds set.0) IsSetKind }
    ensures { IsBitOfElement layout.now set element result }
{
    match &kinds[set.0 as usize] {
        Kind::Bool => None,
        Kind::Int(_) => None,
        Kind::Set(universe) => match place_of(universe.elements(), element) {
            Some(place) => Some(bits_of(layout, set)[place]),
            None => None,
        },
    }
}

/// The bits of one variable, as a list.
fn bits_of(layout: &Layout, v: VarId) -> &[Bit]
    requires { v.0 < length layout.now.kinds }
    ensures { result.now ≡ bits_at layout.now v }
{
    layout.bits_of(v)
}

/// Where the element stands among the ascending ones.
fn place_of(elements: &[i64], element: i64) -> Option<usize>
    requires { IsAscending elements.now }
    ensures here { IfSome result (λ place. slice_get elements.now place ≡ Some element) }
    ensures none { IfNone result (Contains elements.now element → ⊥) }
{
    match elements.binary_search(&element) {
        Ok(place) => Some(place),
        Err(_) => None,
    }
}

/// 1 for the bit and 0 for each other.
fn weights_of(alloc: Global, bits: &[Bit], own: Option<Bit>) -> Result<Vec<i128>, AllocError>
    ensures { IfOk result (λ weights. weights.items ≡ map (weight_of own) bits.now) }
{
    let mut weights = Vec::new(alloc);
    for bit in bits {
        weights.push(weight_of(own, *bit))?;
    }
    Ok(weights)
}

fn weight_of(own: Option<Bit>, bit: Bit) -> i128
    ensures { result ≡ weight_of own bit }
{
    match own {
        Some(own) => { if own == bit { 1 } else { 0 } }
        None => 0,
    }
}
