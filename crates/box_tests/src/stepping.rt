//! Every box over two variables under every family, against a plain search for values outside the box.
ghost use Rattle.std.specs.Prelude.{◌≡◌, ◌<◌, IfOk, IsTrue, length, All};
ghost use Rattle.diagram_arena.specs.Arena.{table};
ghost use Rattle.node_reclaim.specs.Growth.{Stays};
ghost use Rattle.scope_words.specs.Words.{IsSetKind};
ghost use Rattle.exact_steps.specs.Domains.{variable, IsDomain};
ghost use Rattle.value_sets.specs.Sets.{IsValueSet};
ghost use Rattle.box_tests.specs.Answers.{IsKnown};

use crate::samples::{kinds, problem, set_of};
use bit_layout::Layout;
use box_clauses::{BoxResult, Side, box_step};
use diagram_arena::{Ref, Stop};
use diagram_ops::Ops;
use node_reclaim::pools_grow;
use set_meaning::VarId;
use std::alloc::Global;
use std::test::Fail;
use value_sets::{domains_are_value_sets, is_empty, value_sets_stay};

/// What a step says, with value sets by number.
#[derive(Clone, Copy, PartialEq, Eq, Debug)]
enum Told {
    Same,
    Narrowed(u32, u8),
    Empty,
}

/// Which values of the first set extend to values outside the box: each value that the domain has is tried with each of
/// the other's.
fn extending(own: u8, own_side: u8, other: u8, other_side: u8) -> u8 {
    let free = other & !other_side != 0;
    if free { own } else { own & !own_side }
}

/// The step by trying values: numbers of domains and of sides, 3 for a variable without a side.
fn plain_step(domains: (u8, u8), sides: (u8, u8)) -> Told {
    let (first, second) = domains;
    let (first_side, second_side) = sides;
    let left = extending(first, first_side, second, second_side);
    let right = extending(second, second_side, first, first_side);
    if left == 0 || right == 0 {
        Told::Empty
    } else if left != first {
        Told::Narrowed(0, left)
    } else if right != second {
        Told::Narrowed(1, right)
    } else {
        Told::Same
    }
}

/// A set of each variable.
#[derive(Clone, Copy)]
struct Pair {
    first: Ref,
    second: Ref,
}

fn sets_of(ops: &mut Ops, layout: &Layout, numbers: (u8, u8)) -> Result<Pair, Stop>
    requires two { length layout.now.kinds ≡ 2 }
    requires sets { All IsSetKind layout.now.kinds }
    ensures first { IfOk result (λ p. IsValueSet layout.now (table ops.new.arena) (variable 0) p.first) }
    ensures second { IfOk result (λ p. IsValueSet layout.now (table ops.new.arena) (variable 1) p.second) }
    ensures stays { Stays ops.old ops.new }
{
    pools_grow();
    value_sets_stay();
    let (first_number, second_number) = numbers;
    let first = set_of(ops, layout, VarId(0), first_number)?;
    let second = set_of(ops, layout, VarId(1), second_number)?;
    Ok(Pair { first, second })
}

/// Whether the value set is a domain.
fn has_value(ops: &Ops, layout: &Layout, v: VarId, r: Ref) -> bool
    requires { IsValueSet layout.now (table ops.now.arena) v r }
    ensures { IsTrue result → IsDomain layout.now (table ops.now.arena) v r }
{
    // What holds of every layout and every pool, and of value sets.
    layout.obeys_order();
    let _ = ops.pool();
    domains_are_value_sets();
    let empty = is_empty(r);
    !empty
}

/// The step of the box with these sides under these domains; None where a domain has no value.
fn step_told(
    ops: &mut Ops,
    layout: &Layout,
    domains: (u8, u8),
    sides: (u8, u8),
) -> Result<Option<Told>, Stop>
    requires two { length layout.now.kinds ≡ 2 }
    requires sets { All IsSetKind layout.now.kinds }
    ensures stays { Stays ops.old ops.new }
{
    // What holds of every pool, and of value sets.
    let _ = ops.pool();
    pools_grow();
    value_sets_stay();
    let domains = sets_of(ops, layout, domains)?;
    let sides = sets_of(ops, layout, sides)?;
    step_of_sets(ops, layout, domains, sides)
}

/// The step of the box with these sides under these domains; None where a domain has no value.
fn step_of_sets(
    ops: &mut Ops,
    layout: &Layout,
    domains: Pair,
    sides: Pair,
) -> Result<Option<Told>, Stop>
    requires two { length layout.now.kinds ≡ 2 }
    requires sets { All IsSetKind layout.now.kinds }
    requires domain { IsValueSet layout.now (table ops.old.arena) (variable 0) domains.first }
    requires other_domain { IsValueSet layout.now (table ops.old.arena) (variable 1) domains.second }
    requires side { IsValueSet layout.now (table ops.old.arena) (variable 0) sides.first }
    requires other_side { IsValueSet layout.now (table ops.old.arena) (variable 1) sides.second }
    ensures stays { Stays ops.old ops.new }
{
    // What holds of every pool.
    let _ = ops.pool();
    pools_grow();
    if !has_value(ops, layout, VarId(0), domains.first) {
        return Ok(None);
    }
    if !has_value(ops, layout, VarId(1), domains.second) {
        return Ok(None);
    }
    let step = step_of_domains(ops, layout, domains, sides)?;
    let told = told_by_numbers(ops, layout, step)?;
    Ok(Some(told))
}

/// The step of the box with these sides under these domains.
fn step_of_domains(
    ops: &mut Ops,
    layout: &Layout,
    domains: Pair,
    sides: Pair,
) -> Result<BoxResult, Stop>
    requires two { length layout.now.kinds ≡ 2 }
    requires domain { IsDomain layout.now (table ops.old.arena) (variable 0) domains.first }
    requires other_domain { IsDomain layout.now (table ops.old.arena) (variable 1) domains.second }
    requires side { IsValueSet layout.now (table ops.old.arena) (variable 0) sides.first }
    requires other_side { IsValueSet layout.now (table ops.old.arena) (variable 1) sides.second }
    ensures known { IfOk result (IsKnown (length layout.now.kinds)) }
    ensures stays { Stays ops.old ops.new }
{
    let sides = [
        Side {
            var: VarId(0),
            set: sides.first,
        },
        Side {
            var: VarId(1),
            set: sides.second,
        },
    ];
    let domains = [domains.first, domains.second];
    box_step(ops, layout, sides.as_slice(), domains.as_slice())
}

/// The answer with the new domain by its number.
fn told_by_numbers(ops: &mut Ops, layout: &Layout, step: BoxResult) -> Result<Told, Stop>
    requires known { IsKnown (length layout.now.kinds) step }
    requires sets { All IsSetKind layout.now.kinds }
    ensures stays { Stays ops.old ops.new }
{
    // What holds of every pool.
    let _ = ops.pool();
    pools_grow();
    match step {
        BoxResult::Same => Ok(Told::Same),
        BoxResult::Narrowed(v, r) => Ok(Told::Narrowed(v.0, number_of(ops, layout, v, r)?)),
        BoxResult::Empty => Ok(Told::Empty),
    }
}

/// The number of a value set, or 4 where it has none.
fn number_of(ops: &mut Ops, layout: &Layout, v: VarId, r: Ref) -> Result<u8, Stop>
    requires known { v.0 < length layout.now.kinds }
    requires sets { All IsSetKind layout.now.kinds }
    ensures stays { Stays ops.old ops.new }
{
    // What holds of every pool.
    let _ = ops.pool();
    pools_grow();
    for number in 0..4 {
        if set_of(ops, layout, v, number)? == r {
            return Ok(number);
        }
    }
    Ok(4)
}

/// How many families and boxes have another step than the plain one; the families have values for both variables.
fn count_wrong(ops: &mut Ops, layout: &Layout) -> Result<u32, Stop>
    requires two { length layout.now.kinds ≡ 2 }
    requires sets { All IsSetKind layout.now.kinds }
{
    let mut wrong = 0_u32;
    for code in 0..256_u32 {
        let domains = ((code % 4) as u8, (code / 4 % 4) as u8);
        let sides = ((code / 16 % 4) as u8, (code / 64 % 4) as u8);
        match step_told(ops, layout, domains, sides)? {
            Some(told) => {
                if told != plain_step(domains, sides) {
                    wrong = wrong.saturating_add(1);
                }
            }
            None => {
                if domains.0 != 0 && domains.1 != 0 {
                    wrong = wrong.saturating_add(1);
                }
            }
        }
    }
    Ok(wrong)
}

#[test]
fn every_box_under_every_family(rt: HostRuntime) -> Result<(), Fail> {
    let p = problem(rt.alloc(), kinds(rt.alloc())?);
    let layout = Layout::new(rt.alloc(), &p)?;
    let mut ops = Ops::new(rt.alloc(), 30, 1)?;
    let wrong = count_wrong(&mut ops, &layout)?;
    assert_eq!(rt; wrong, 0);
    Ok(())
}

/// The step of one box.
fn one_step(alloc: Global, domains: (u8, u8), sides: (u8, u8)) -> Result<Option<Told>, Fail> {
    let p = problem(alloc, kinds(alloc)?);
    let layout = Layout::new(alloc, &p)?;
    let mut ops = Ops::new(alloc, 30, 1)?;
    Ok(step_told(&mut ops, &layout, domains, sides)?)
}

#[test]
fn box_of_one_value_each(rt: HostRuntime) -> Result<(), Fail> {
    // Both variables have both sets, and the box has one set of each: two are outside.
    let both_open = one_step(rt.alloc(), (3, 3), (1, 1))?;
    assert_eq!(rt; both_open, Some(Told::Same));
    // The second has the set of the box only: the first loses its own.
    let second_fixed = one_step(rt.alloc(), (3, 1), (1, 1))?;
    assert_eq!(rt; second_fixed, Some(Told::Narrowed(0, 2)));
    // The first has another set than the box.
    let first_apart = one_step(rt.alloc(), (2, 1), (1, 1))?;
    assert_eq!(rt; first_apart, Some(Told::Same));
    // Both have the sets of the box.
    let all_inside = one_step(rt.alloc(), (1, 1), (1, 1))?;
    assert_eq!(rt; all_inside, Some(Told::Empty));
    Ok(())
}
