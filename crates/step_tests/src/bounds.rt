//! A set over 1 to 3, a Boolean, an integer with holes, and a set without elements to choose from; and one set by itself.
ghost use Rattle.std.specs.Prelude.{◌≡◌, ◌<◌, IfOk, length, All};
ghost use Rattle.set_meaning.specs.declared.kinds.Kind.TheVariants as variants;
ghost use Rattle.set_meaning.specs.Sets.{ascending_set};
ghost use Rattle.bit_layout.specs.Limits.{AreWithinLimits};
ghost use Rattle.diagram_arena.specs.Arena.{table};
ghost use Rattle.scope_words.specs.Words.{IsSetKind};
ghost use Rattle.exact_steps.specs.Domains.{IsDomain};

use bit_layout::Layout;
use bit_machine::build;
use diagram_arena::{Ref, Stop};
use diagram_ops::Ops;
use listed::Listed;
use set_meaning::{Bounds, Constraint, Goal, Kind, Problem, SetValue, Shown, Text, VarId};
use std::alloc::{AllocError, Global};
use std::test::Fail;
use table_machine::{TableMachine, values_fit_together};
use value_bounds::root_bounds;

fn ints(alloc: Global, numbers: &[i64]) -> Result<Kind, AllocError>
    ensures { IfOk result (λ kind. kind ≡ variants.Int (ascending_set numbers.now)) }
{
    Ok(Kind::Int(SetValue::from_list(alloc, numbers)?))
}

fn sets(alloc: Global, universe: &[i64]) -> Result<Kind, AllocError>
    ensures { IfOk result (λ kind. kind ≡ variants.Set (ascending_set universe.now)) }
{
    Ok(Kind::Set(SetValue::from_list(alloc, universe)?))
}

fn kinds(alloc: Global) -> Result<Vec<Kind>, AllocError>
    ensures limits { IfOk result (λ kinds. AreWithinLimits kinds.items) }
    ensures four { IfOk result (λ kinds. length kinds.items ≡ 4) }
{
    let to_three = sets(alloc, [1, 2, 3].as_slice())?;
    let with_holes = ints(alloc, [9, -3, 4].as_slice())?;
    let empty = sets(alloc, [].as_slice())?;
    let kinds = vec![in alloc; to_three, Kind::Bool, with_holes, empty]?;
    Ok(kinds)
}

fn one_set(alloc: Global) -> Result<Vec<Kind>, AllocError>
    ensures limits { IfOk result (λ kinds. AreWithinLimits kinds.items) }
    ensures sets { IfOk result (λ kinds. All IsSetKind kinds.items) }
    ensures one { IfOk result (λ kinds. length kinds.items ≡ 1) }
{
    let to_three = sets(alloc, [1, 2, 3].as_slice())?;
    let kinds = vec![in alloc; to_three]?;
    Ok(kinds)
}

fn problem(alloc: Global, kinds: Vec<Kind>) -> Problem
    ensures { result.kinds ≡ kinds.items }
{
    let names: Vec<Text> = Vec::new(alloc);
    let constraints: Vec<Constraint> = Vec::new(alloc);
    let shown: Vec<Shown> = Vec::new(alloc);
    Problem {
        kinds: Listed::of(kinds),
        names: Listed::of(names),
        constraints: Listed::of(constraints),
        goal: Goal::Satisfy,
        shown: Listed::of(shown),
    }
}

/// The domain of all initial values of the variable.
fn all_values(
    alloc: Global,
    ops: &mut Ops,
    layout: &Layout,
    kinds: &[Kind],
    v: VarId,
) -> Result<Ref, Stop>
    requires kinds { layout.now.kinds ≡ kinds.now }
    requires known { v.0 < length layout.now.kinds }
    ensures { IfOk result (IsDomain layout.now (table ops.new.arena) v) }
{
    // What holds of every layout, and of values.
    layout.obeys_order();
    values_fit_together();
    let bits = layout.bits_of(v);
    if bits.len() > 2048 {
        return Err(Stop::Memory);
    }
    let machine = TableMachine::initial_values(alloc, layout, kinds, bits)?;
    build(alloc, ops, &machine, bits)
}

/// The sets that have the element at this position of the universe, or those that do not have it.
fn literal(ops: &mut Ops, layout: &Layout, v: VarId, position: u32, has: bool) -> Result<Ref, Stop>
    requires known { v.0 < length layout.now.kinds }
    requires sets { All IsSetKind layout.now.kinds }
    ensures { IfOk result (IsDomain layout.now (table ops.new.arena) v) }
{
    // What holds of every layout and every pool.
    layout.obeys_order();
    let _ = ops.pool();
    if layout.width(v) <= position {
        return Ok(Ref::One);
    }
    ops.literal(layout.bit(v, position), has)
}

/// The bounds of the initial values of a variable.
fn of_all_values(alloc: Global, v: VarId) -> Result<String, Fail>
    requires { v.0 < 4 }
{
    let p = problem(alloc, kinds(alloc)?);
    let layout = Layout::new(alloc, &p)?;
    let mut ops = Ops::new(alloc, 30, 1)?;
    let domain = all_values(alloc, &mut ops, &layout, p.kinds.items(), v)?;
    let bounds = root_bounds(alloc, &ops, &layout, &p, v, domain)?;
    text_of(alloc, &bounds)
}

/// The bounds of the sets over 1 to 3 with the element at this position of the universe, or of those without it.
fn of_literal(alloc: Global, position: u32, has: bool) -> Result<String, Fail> {
    let p = problem(alloc, one_set(alloc)?);
    let layout = Layout::new(alloc, &p)?;
    let mut ops = Ops::new(alloc, 30, 1)?;
    let domain = literal(&mut ops, &layout, VarId(0), position, has)?;
    let bounds = root_bounds(alloc, &ops, &layout, &p, VarId(0), domain)?;
    text_of(alloc, &bounds)
}

fn text_of(alloc: Global, bounds: &Bounds) -> Result<String, Fail> {
    match bounds {
        Bounds::Bool(low, high) => Ok(format!(in alloc; "{low} {high}")?),
        Bounds::Int(low, high) => Ok(format!(in alloc; "{low} {high}")?),
        Bounds::Set(every, some) => {
            let every = listed(alloc, every.elements())?;
            let some = listed(alloc, some.elements())?;
            Ok(format!(in alloc; "{every} {some}")?)
        }
    }
}

fn listed(alloc: Global, elements: &[i64]) -> Result<String, Fail> {
    let mut text = String::new(alloc);
    text.push_str("{")?;
    for x in elements {
        let part = format!(in alloc; "{x},")?;
        text.push_str(part.as_str())?;
    }
    text.push_str("}")?;
    Ok(text)
}

#[test]
fn bounds_of_initial_values(rt: HostRuntime) -> Result<(), Fail> {
    let to_three = of_all_values(rt.alloc(), VarId(0))?;
    assert_eq!(rt; to_three.as_str(), "{} {1,2,3,}");
    let truth = of_all_values(rt.alloc(), VarId(1))?;
    assert_eq!(rt; truth.as_str(), "false true");
    let with_holes = of_all_values(rt.alloc(), VarId(2))?;
    assert_eq!(rt; with_holes.as_str(), "-3 9");
    let empty = of_all_values(rt.alloc(), VarId(3))?;
    assert_eq!(rt; empty.as_str(), "{} {}");
    Ok(())
}

#[test]
fn bounds_of_sets_with_and_without_an_element(rt: HostRuntime) -> Result<(), Fail> {
    let with_two = of_literal(rt.alloc(), 1, true)?;
    assert_eq!(rt; with_two.as_str(), "{2,} {1,2,3,}");
    let without_two = of_literal(rt.alloc(), 1, false)?;
    assert_eq!(rt; without_two.as_str(), "{} {1,3,}");
    let without_three = of_literal(rt.alloc(), 2, false)?;
    assert_eq!(rt; without_three.as_str(), "{} {1,2,}");
    Ok(())
}
