//! Every relation over all universes of at most three elements, against the truth of the relation.
ghost use Rattle.std.specs.Prelude.{◌≡◌};
ghost use Rattle.diagram_arena.specs.declared.nodes.Ref.{Ref};
ghost use Rattle.diagram_arena.specs.Table.{IsLive};
ghost use Rattle.diagram_arena.specs.Arena.{table};

use crate::samples::{Given, layout_of, one_terms, problem, set_diagram};
use bit_layout::{Layout, Place};
use diagram_arena::{Ref, Stop};
use diagram_ops::Ops;
use set_meaning::{Constraint, Kind, Problem, Relation, SetValue, Value, holds};
use std::alloc::{AllocError, Global};
use std::test::Fail;

/// The set of the elements 1, 2 and 3 whose binary digits the number has.
fn subset(alloc: Global, digits: u32) -> Result<SetValue, AllocError> {
    match digits {
        0 => SetValue::from_list(alloc, &[]),
        1 => SetValue::from_list(alloc, &[1]),
        2 => SetValue::from_list(alloc, &[2]),
        3 => SetValue::from_list(alloc, &[1, 2]),
        4 => SetValue::from_list(alloc, &[3]),
        5 => SetValue::from_list(alloc, &[1, 3]),
        6 => SetValue::from_list(alloc, &[2, 3]),
        _ => SetValue::from_list(alloc, &[1, 2, 3]),
    }
}

/// Three sets, by three octal digits.
fn subsets(alloc: Global, digits: u32) -> Result<(SetValue, SetValue, SetValue), AllocError> {
    let first = subset(alloc, digits / 64)?;
    let second = subset(alloc, digits / 8 % 8)?;
    let third = subset(alloc, digits % 8)?;
    Ok((first, second, third))
}

fn kinds(alloc: Global, universes: u32) -> Result<Vec<Kind>, AllocError> {
    let (first, second, third) = subsets(alloc, universes)?;
    let kinds = vec![in alloc; Kind::Set(first), Kind::Set(second), Kind::Set(third)]?;
    Ok(kinds)
}

fn values(alloc: Global, digits: u32) -> Result<Vec<Value>, AllocError> {
    let (first, second, third) = subsets(alloc, digits)?;
    let values = vec![in alloc; Value::Set(first), Value::Set(second), Value::Set(third)]?;
    Ok(values)
}

/// Whether the values' word has a true bit at the place.
fn is_true_at(values: &[Value], place: &Place) -> bool {
    let Some(x) = place.element else {
        return false;
    };
    match values.get(place.variable.0 as usize) {
        Some(Value::Set(set)) => set.has(x),
        _ => false,
    }
}

/// Whether the set has the word of these values: restricted at each bit it is that of all words, or empty.
fn has_word(ops: &mut Ops, layout: &Layout, f: Ref, values: &[Value]) -> Result<bool, Stop>
    requires { IsLive (table ops.old.arena) f }
    ensures { (r : Ref) → IsLive (table ops.old.arena) r → IsLive (table ops.new.arena) r }
{
    let mut left = f;
    for bit in 0..layout.bits() {
        let value = is_true_at(values, layout.place_at(bit));
        left = ops.restrict(left, bit, value)?;
    }
    Ok(matches!(left, Ref::One))
}

/// Whether the set has just the words of those values in the universes that satisfy the constraint.
fn agrees(
    alloc: Global,
    ops: &mut Ops,
    layout: &Layout,
    c: &Constraint,
    f: Ref,
    universes: u32,
) -> Result<bool, Stop>
    requires { IsLive (table ops.old.arena) f }
{
    for digits in 0..512_u32 {
        if digits & universes == digits {
            let values = values(alloc, digits)?;
            let has = has_word(ops, layout, f, values.as_slice())?;
            if has != holds(alloc, c, values.as_slice())? {
                return Ok(false);
            }
        }
    }
    Ok(true)
}

/// Whether there is a diagram of the constraint, which agrees with it.
fn is_right(
    alloc: Global,
    ops: &mut Ops,
    layout: &Layout,
    p: &Problem,
    c: &Constraint,
    universes: u32,
) -> Result<bool, Stop>
    requires { layout.now.kinds ≡ p.now.kinds }
{
    match set_diagram(alloc, ops, layout, p, c)? {
        Some(f) => agrees(alloc, ops, layout, c, f, universes),
        None => Ok(false),
    }
}

/// The arguments of the relation: the first two where it has two.
fn arguments(relation: Relation, shape: &[Given; 3]) -> &[Given] {
    match relation {
        Relation::SetUnion => shape.as_slice(),
        Relation::SetIntersect => shape.as_slice(),
        Relation::SetDiff => shape.as_slice(),
        Relation::SetSymdiff => shape.as_slice(),
        _ => &shape[..2],
    }
}

/// Whether the relations are right of all these arguments, over these universes: three octal digits for the three variables.
fn are_right(
    alloc: Global,
    relations: &[Relation],
    shapes: &[[Given; 3]],
    universes: u32,
) -> Result<bool, Stop> {
    let p = problem(alloc, kinds(alloc, universes)?)?;
    let layout = layout_of(alloc, &p)?;
    let mut ops = Ops::new(alloc, 50_000, 64)?;
    for relation in relations {
        for shape in shapes {
            let c = one_terms(alloc, *relation, arguments(*relation, shape))?;
            if !is_right(alloc, &mut ops, &layout, &p, &c, universes)? {
                return Ok(false);
            }
        }
    }
    Ok(true)
}

/// All relations over the universes of two variables, and the operations over those of three.
#[test]
fn agrees_with_the_truth_of_each_relation(rt: HostRuntime) -> Result<(), Fail> {
    let x = Given::Variable(0);
    let y = Given::Variable(1);
    let z = Given::Variable(2);
    let ends = Given::Elements(1, 3);
    let beyond = Given::Elements(2, 4);
    let shapes = [
        [x, y, ends],
        [x, ends, y],
        [beyond, x, y],
        [x, x, y],
        [x, y, x],
    ];
    let relations = [
        Relation::SetEq,
        Relation::SetNe,
        Relation::SetLt,
        Relation::SetLe,
        Relation::SetSubset,
        Relation::SetSuperset,
        Relation::SetUnion,
        Relation::SetIntersect,
        Relation::SetDiff,
        Relation::SetSymdiff,
    ];
    let operations = [
        Relation::SetUnion,
        Relation::SetIntersect,
        Relation::SetDiff,
        Relation::SetSymdiff,
    ];
    let three = [[x, y, z]];
    for universes in 0..512_u32 {
        if universes % 8 == 0 {
            assert!(rt; are_right(rt.alloc(), &relations, &shapes, universes)?);
        }
        assert!(rt; are_right(rt.alloc(), &operations, &three, universes)?);
    }
    Ok(())
}

/// Whether, of the values in the universes, the set has the words of just these: each three octal digits for the three variables.
fn has_just(
    alloc: Global,
    ops: &mut Ops,
    layout: &Layout,
    f: Ref,
    universes: u32,
    listed: &[u32],
) -> Result<bool, Stop>
    requires { IsLive (table ops.old.arena) f }
{
    for digits in 0..512_u32 {
        if digits & universes == digits {
            let values = values(alloc, digits)?;
            let has = has_word(ops, layout, f, values.as_slice())?;
            if has != listed.contains(&digits) {
                return Ok(false);
            }
        }
    }
    Ok(true)
}

/// Whether just these values of the three variables, over these universes, satisfy the relation.
fn is_just(
    alloc: Global,
    relation: Relation,
    args: &[Given],
    universes: u32,
    listed: &[u32],
) -> Result<bool, Stop> {
    let p = problem(alloc, kinds(alloc, universes)?)?;
    let layout = layout_of(alloc, &p)?;
    let mut ops = Ops::new(alloc, 1_000, 64)?;
    let c = one_terms(alloc, relation, args)?;
    match set_diagram(alloc, &mut ops, &layout, &p, &c)? {
        Some(f) => has_just(alloc, &mut ops, &layout, f, universes, listed),
        None => Ok(false),
    }
}

/// The empty set is before 1, 1 and 2, and 2; 1 is before 1 and 2, and 2; 1 and 2 is before 2.
#[test]
fn orders_the_sets_of_two_elements(rt: HostRuntime) -> Result<(), Fail> {
    let pair = [Given::Variable(0), Given::Variable(1)];
    let before = [0o010, 0o030, 0o020, 0o130, 0o120, 0o320];
    assert!(rt; is_just(rt.alloc(), Relation::SetLt, &pair, 0o330, &before)?);
    Ok(())
}

/// A set without itself is empty. With 2 joined, of 1 and 3 only 3 stays within 2 and 3.
#[test]
fn reads_a_set_twice_and_beside_a_constant(rt: HostRuntime) -> Result<(), Fail> {
    let x = Given::Variable(0);
    let y = Given::Variable(1);
    let empty = [0o000, 0o100, 0o200, 0o300, 0o400, 0o500, 0o600, 0o700];
    assert!(rt; is_just(rt.alloc(), Relation::SetDiff, &[x, x, y], 0o770, &empty)?);
    let with_two = [x, Given::Elements(2, 2), y];
    assert!(rt;
        is_just(
            rt.alloc(),
            Relation::SetUnion,
            &with_two,
            0o560,
            &[0o020, 0o460]
        )?
    );
    Ok(())
}

/// A variable without an element that it may have is the empty set.
#[test]
fn reads_an_empty_universe(rt: HostRuntime) -> Result<(), Fail> {
    let pair = [Given::Variable(0), Given::Variable(1)];
    let any_but_empty = [0o010, 0o020, 0o030];
    assert!(rt; is_just(rt.alloc(), Relation::SetLt, &pair, 0o030, &any_but_empty)?);
    assert!(rt; is_just(rt.alloc(), Relation::SetEq, &pair, 0o000, &[0o000])?);
    Ok(())
}
