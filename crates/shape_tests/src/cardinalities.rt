//! A set over 1, 2 and 3, an integer that is 1 or 3, and constants. The integer's offset from 1 is bits 0 and 1, and 1, 2 and 3 are bits 2, 3
//! and 4.
ghost use Rattle.std.specs.Prelude.{IfOk, IfSome};
ghost use Rattle.std.specs.List.Sorted.{IsStrictlyIncreasing};
ghost use Rattle.diagram_arena.specs.declared.nodes.Ref.{Ref};
ghost use Rattle.diagram_arena.specs.Table.{IsLive};
ghost use Rattle.diagram_arena.specs.Arena.{table};

use crate::samples::{Given, cardinality_diagram, ints, layout_of, one_terms, problem, sets};
use card_diagram::is_card_shape;
use diagram_arena::{Ref, Stop};
use diagram_ops::Ops;
use diagram_view::node_count;
use set_meaning::{Kind, Relation};
use std::alloc::{AllocError, Global};
use std::test::Fail;

/// The set, and an integer of these values.
fn kinds(alloc: Global, numbers: &[i64]) -> Result<Vec<Kind>, AllocError> {
    let set = sets(alloc, &[1, 2, 3])?;
    let number = ints(alloc, numbers)?;
    let kinds = vec![in alloc; set, number]?;
    Ok(kinds)
}

/// The set of one word: each of these bits has its value.
fn word(ops: &mut Ops, bits: &[u32], values: &[bool]) -> Result<Ref, Stop>
    ensures live { IfOk result (IsLive (table ops.new.arena)) }
    ensures keeps { (r : Ref) → IsLive (table ops.old.arena) r → IsLive (table ops.new.arena) r }
{
    let mut word = Ref::One;
    for (bit, value) in bits.iter().zip(values) {
        let literal = ops.literal(*bit, *value)?;
        word = ops.and(word, literal)?;
    }
    Ok(word)
}

/// The set of these words.
fn listed(ops: &mut Ops, bits: &[u32], words: &[&[bool]]) -> Result<Ref, Stop> {
    let mut list = Ref::Zero;
    for values in words {
        let word = word(ops, bits, values)?;
        list = ops.or(list, word)?;
    }
    Ok(list)
}

const SET: Given = Given::Variable(0);

const NUMBER: Given = Given::Variable(1);

const TWO: Given = Given::Number(2);

const CONSTANT: Given = Given::Elements(5, 7);

const F: bool = false;

const T: bool = true;

/// One element and the integer 1, whose offset is 0, or all three and 3, whose offset is 2. No word gives the offset 1, which is that of 2.
#[test]
fn counts_the_elements_of_a_variable(rt: HostRuntime) -> Result<(), Fail> {
    let alloc = rt.alloc();
    let p = problem(alloc, kinds(alloc, &[1, 3])?)?;
    let layout = layout_of(alloc, &p)?;
    let mut ops = Ops::new(alloc, 100, 1)?;
    let c = one_terms(alloc, Relation::SetCard, &[SET, NUMBER])?;
    let sum = cardinality_diagram(alloc, &mut ops, &layout, &p, &c)?;
    let words: [&[bool]; 4] = [
        &[F, F, T, F, F],
        &[F, F, F, T, F],
        &[F, F, F, F, T],
        &[T, F, T, T, T],
    ];
    assert_eq!(rt; Some(listed(&mut ops, &[0, 1, 2, 3, 4], &words)?), sum);
    assert!(rt; !is_card_shape(Relation::SetEq));
    Ok(())
}

/// Three of the subsets have two elements.
#[test]
fn compares_with_a_constant(rt: HostRuntime) -> Result<(), Fail> {
    let alloc = rt.alloc();
    let p = problem(alloc, kinds(alloc, &[1, 3])?)?;
    let layout = layout_of(alloc, &p)?;
    let mut ops = Ops::new(alloc, 100, 1)?;
    let c = one_terms(alloc, Relation::SetCard, &[SET, TWO])?;
    let sum = cardinality_diagram(alloc, &mut ops, &layout, &p, &c)?;
    let words: [&[bool]; 3] = [&[T, T, F], &[T, F, T], &[F, T, T]];
    assert_eq!(rt; Some(listed(&mut ops, &[2, 3, 4], &words)?), sum);
    Ok(())
}

/// The constant set of 5 and 7 has two elements; the integer, 1 or 3, is never that.
#[test]
fn counts_the_elements_of_a_constant(rt: HostRuntime) -> Result<(), Fail> {
    let alloc = rt.alloc();
    let p = problem(alloc, kinds(alloc, &[1, 3])?)?;
    let layout = layout_of(alloc, &p)?;
    let mut ops = Ops::new(alloc, 100, 1)?;
    let c = one_terms(alloc, Relation::SetCard, &[CONSTANT, TWO])?;
    assert_eq!(rt;
        cardinality_diagram(alloc, &mut ops, &layout, &p, &c)?,
        Some(Ref::One)
    );
    let c = one_terms(alloc, Relation::SetCard, &[CONSTANT, NUMBER])?;
    assert_eq!(rt;
        cardinality_diagram(alloc, &mut ops, &layout, &p, &c)?,
        Some(Ref::Zero)
    );
    Ok(())
}

/// How many nodes the projection of the diagram to these bits has, if there is a diagram.
fn projected_size(
    alloc: Global,
    ops: &mut Ops,
    diagram: Option<Ref>,
    keep: &[u32],
) -> Result<Option<u64>, Stop>
    requires live { IfSome diagram (IsLive (table ops.old.arena)) }
    requires ascends { IsStrictlyIncreasing keep.now }
    ensures { IfSome diagram (IsLive (table ops.new.arena)) }
{
    let Some(r) = diagram else {
        return Ok(None);
    };
    let projected = ops.project(r, keep)?;
    match node_count(alloc, ops.pool().arena(), projected) {
        Ok(count) => Ok(Some(count)),
        Err(AllocError) => Err(Stop::Memory),
    }
}

/// Only the empty set and the whole have 0 or 3 elements: of the set the first element is asked, and then each other one on both sides; of the
/// integer, whose offset is 0 or 3, both digits.
#[test]
fn leaves_the_empty_and_the_whole_set(rt: HostRuntime) -> Result<(), Fail> {
    let alloc = rt.alloc();
    let p = problem(alloc, kinds(alloc, &[0, 3])?)?;
    let layout = layout_of(alloc, &p)?;
    let mut ops = Ops::new(alloc, 100, 1)?;
    let c = one_terms(alloc, Relation::SetCard, &[SET, NUMBER])?;
    let sum = cardinality_diagram(alloc, &mut ops, &layout, &p, &c)?;
    let of_set = projected_size(alloc, &mut ops, sum, &[2, 3, 4])?;
    let of_number = projected_size(alloc, &mut ops, sum, &[0, 1])?;
    assert_eq!(rt; of_set, Some(5));
    assert_eq!(rt; of_number, Some(3));
    Ok(())
}
