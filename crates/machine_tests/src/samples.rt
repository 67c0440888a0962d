//! Problems, layouts, words and lists of bits for the tests of machines.
ghost use Rattle.std.specs.Prelude.{◌≡◌, ◌≤◌, IfOk, length};
ghost use Rattle.std.specs.List.Sorted.{IsStrictlyIncreasing};
ghost use Rattle.diagram_arena.specs.declared.nodes.Ref.{Ref};
ghost use Rattle.diagram_arena.specs.Table.{IsLive};
ghost use Rattle.diagram_arena.specs.Arena.{table};
ghost use Rattle.bit_machine.specs.Rules.{most_bits};

use bit_layout::Layout;
use diagram_arena::{Ref, Stop};
use diagram_ops::Ops;
use listed::Listed;
use problem_limits::are_within_limits;
use set_meaning::{Constraint, Goal, Kind, Problem, SetValue, Shown, Text};
use std::alloc::{AllocError, Global};

/// A set, by its universe.
pub(crate) fn sets(alloc: Global, universe: &[i64]) -> Result<Kind, AllocError> {
    Ok(Kind::Set(SetValue::from_list(alloc, universe)?))
}

/// An integer, by its values.
pub(crate) fn ints(alloc: Global, numbers: &[i64]) -> Result<Kind, AllocError> {
    Ok(Kind::Int(SetValue::from_list(alloc, numbers)?))
}

/// A problem of these variables, without constraints.
pub(crate) fn problem(alloc: Global, kinds: Vec<Kind>) -> Problem
    ensures { result.kinds ≡ kinds.items }
{
    let names: Vec<Text> = Vec::new(alloc);
    let constraints: Vec<Constraint> = Vec::new(alloc);
    let shown: Vec<Shown> = Vec::new(alloc);
    Problem {
        kinds: Listed::of(kinds),
        names: Listed::of(names),
        constraints: Listed::of(constraints),
        goal: Goal::Satisfy,
        shown: Listed::of(shown),
    }
}

/// The layout of the problem. A sample beyond the limits fails its test.
pub(crate) fn layout_of(alloc: Global, p: &Problem) -> Result<Layout, AllocError>
    ensures { IfOk result (λ layout. layout.kinds ≡ p.now.kinds) }
{
    if !are_within_limits(p.kinds.items()) {
        return Err(AllocError);
    }
    Layout::new(alloc, p)
}

/// The set of one word: each of these bits has its value.
pub(crate) fn word(ops: &mut Ops, bits: &[u32], values: &[bool]) -> Result<Ref, Stop>
    ensures live { IfOk result (IsLive (table ops.new.arena)) }
    ensures keeps { (r : Ref) → IsLive (table ops.old.arena) r → IsLive (table ops.new.arena) r }
{
    let mut word = Ref::One;
    for (bit, value) in bits.iter().zip(values) {
        let literal = ops.literal(*bit, *value)?;
        word = ops.and(word, literal)?;
    }
    Ok(word)
}

/// The set of these words.
pub(crate) fn listed(ops: &mut Ops, bits: &[u32], words: &[&[bool]]) -> Result<Ref, Stop> {
    let mut list = Ref::Zero;
    for values in words {
        let word = word(ops, bits, values)?;
        list = ops.or(list, word)?;
    }
    Ok(list)
}

/// The bits 1, 4, 7 and so on, so many.
pub(crate) fn bits(alloc: Global, count: u32) -> Result<Vec<u32>, AllocError>
    requires { count ≤ most_bits }
    ensures ascend { IfOk result (λ v. IsStrictlyIncreasing v.items) }
    ensures len { IfOk result (λ v. length v.items ≡ count) }
{
    let mut bits = Vec::new(alloc);
    for i in 0..count {
        bits.push(3 * i + 1)?;
    }
    Ok(bits)
}
