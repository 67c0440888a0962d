//! Clauses over two sets, each over the element 1: a clause says of each set whether the element is in it.
ghost use Rattle.std.specs.Prelude.{◌≡◌, ◌<◌, ◌∷◌, [], cond, IfOk, length, All};
ghost use Rattle.set_meaning.specs.declared.kinds.Kind.TheVariants as variants;
ghost use Rattle.set_meaning.specs.declared.problems.VarId.{VarId as Variable};
ghost use Rattle.set_meaning.specs.Sets.{ascending_set};
ghost use Rattle.bit_layout.specs.Limits.{AreWithinLimits};
ghost use Rattle.diagram_arena.specs.Arena.{table};
ghost use Rattle.node_reclaim.specs.Growth.{Stays};
ghost use Rattle.scope_words.specs.Words.{IsSetKind, IsDiagramOf};
ghost use Rattle.exact_steps.specs.Domains.{variable, IsDomain};
ghost use Rattle.exact_steps.specs.Steps.{IsInDiagram};

use bit_layout::Layout;
use diagram_arena::{Ref, Stop};
use diagram_ops::Ops;
use exact_steps::{StepResult, step};
use listed::Listed;
use set_meaning::{Constraint, Goal, Kind, Problem, SetValue, Shown, Text, VarId};
use std::alloc::{AllocError, Global};
use std::test::Fail;

fn sets(alloc: Global, universe: &[i64]) -> Result<Kind, AllocError>
    ensures { IfOk result (λ kind. kind ≡ variants.Set (ascending_set universe.now)) }
{
    Ok(Kind::Set(SetValue::from_list(alloc, universe)?))
}

fn kinds(alloc: Global) -> Result<Vec<Kind>, AllocError>
    ensures limits { IfOk result (λ kinds. AreWithinLimits kinds.items) }
    ensures sets { IfOk result (λ kinds. All IsSetKind kinds.items) }
    ensures two { IfOk result (λ kinds. length kinds.items ≡ 2) }
{
    let first = sets(alloc, [1].as_slice())?;
    let second = sets(alloc, [1].as_slice())?;
    let kinds = vec![in alloc; first, second]?;
    Ok(kinds)
}

fn problem(alloc: Global, kinds: Vec<Kind>) -> Problem
    ensures { result.kinds ≡ kinds.items }
{
    let names: Vec<Text> = Vec::new(alloc);
    let constraints: Vec<Constraint> = Vec::new(alloc);
    let shown: Vec<Shown> = Vec::new(alloc);
    Problem {
        kinds: Listed::of(kinds),
        names: Listed::of(names),
        constraints: Listed::of(constraints),
        goal: Goal::Satisfy,
        shown: Listed::of(shown),
    }
}

/// The sets that have the element, or those that do not have it.
fn literal(ops: &mut Ops, layout: &Layout, v: VarId, has: bool) -> Result<Ref, Stop>
    requires known { v.0 < length layout.now.kinds }
    requires sets { All IsSetKind layout.now.kinds }
    ensures domain { IfOk result (IsDomain layout.now (table ops.new.arena) v) }
    ensures stays { Stays ops.old ops.new }
{
    // What holds of every layout and every pool.
    layout.obeys_order();
    let _ = ops.pool();
    if layout.width(v) == 0 {
        return Ok(Ref::One);
    }
    ops.literal(layout.bit(v, 0), has)
}

/// The clause that the element is in the first set or not, as `first` says, or in the second or not, as `second` says.
fn clause(ops: &mut Ops, layout: &Layout, first: bool, second: bool) -> Result<Ref, Stop>
    requires two { length layout.now.kinds ≡ 2 }
    requires sets { All IsSetKind layout.now.kinds }
    ensures constraint { let t = table ops.new.arena in
        IfOk result (λ r. IsDiagramOf layout.now (variable 0 ∷ variable 1 ∷ []) (IsInDiagram layout.now t r) t r) }
    ensures stays { Stays ops.old ops.new }
{
    // What holds of every layout.
    layout.obeys_order();
    let in_first = literal(ops, layout, VarId(0), first)?;
    let in_second = literal(ops, layout, VarId(1), second)?;
    ops.or(in_first, in_second)
}

/// All sets, or those of a literal.
fn domain(ops: &mut Ops, layout: &Layout, v: VarId, given: Option<bool>) -> Result<Ref, Stop>
    requires known { v.0 < length layout.now.kinds }
    requires sets { All IsSetKind layout.now.kinds }
    ensures domain { IfOk result (IsDomain layout.now (table ops.new.arena) v) }
    ensures stays { Stays ops.old ops.new }
{
    // What holds of every layout and every pool.
    layout.obeys_order();
    let _ = ops.pool();
    match given {
        Some(has) => literal(ops, layout, v, has),
        None => Ok(Ref::One),
    }
}

/// The step of a clause on two domains.
fn step_of_clause(
    alloc: Global,
    ops: &mut Ops,
    layout: &Layout,
    signs: (bool, bool),
    given: (Option<bool>, Option<bool>),
) -> Result<StepResult, Stop>
    requires two { length layout.now.kinds ≡ 2 }
    requires sets { All IsSetKind layout.now.kinds }
    ensures { Stays ops.old ops.new }
{
    let (first_sign, second_sign) = signs;
    let (first_given, second_given) = given;
    let first = domain(ops, layout, VarId(0), first_given)?;
    let second = domain(ops, layout, VarId(1), second_given)?;
    let constraint = clause(ops, layout, first_sign, second_sign)?;
    step(
        alloc,
        ops,
        layout,
        [VarId(0), VarId(1)].as_slice(),
        constraint,
        [first, second].as_slice(),
    )
}

/// The step of a constraint without variables, on two domains.
fn step_of_constant(
    alloc: Global,
    ops: &mut Ops,
    layout: &Layout,
    holds: bool,
) -> Result<StepResult, Stop>
    requires two { length layout.now.kinds ≡ 2 }
    requires sets { All IsSetKind layout.now.kinds }
{
    // What holds of every layout.
    layout.obeys_order();
    let first = domain(ops, layout, VarId(0), None)?;
    let second = domain(ops, layout, VarId(1), Some(true))?;
    step(
        alloc,
        ops,
        layout,
        [].as_slice(),
        constant(holds),
        [first, second].as_slice(),
    )
}

fn constant(holds: bool) -> Ref
    ensures { result ≡ cond holds Ref.One Ref.Zero }
{
    if holds { Ref::One } else { Ref::Zero }
}

/// What a step answers: each narrowed variable with `+` where its new domain is the sets with the element, `-` where it is those without.
fn told(
    alloc: Global,
    signs: (bool, bool),
    given: (Option<bool>, Option<bool>),
) -> Result<String, Fail> {
    let layout = Layout::new(alloc, &problem(alloc, kinds(alloc)?))?;
    let mut ops = Ops::new(alloc, 30, 1)?;
    let answer = step_of_clause(alloc, &mut ops, &layout, signs, given)?;
    text_of(alloc, &mut ops, answer)
}

fn text_of(alloc: Global, ops: &mut Ops, answer: StepResult) -> Result<String, Fail> {
    let mut text = String::new(alloc);
    match answer {
        StepResult::Same => text.push_str("same")?,
        StepResult::Empty => text.push_str("empty")?,
        StepResult::Narrowed(kept) => {
            for (v, r) in &kept {
                let sign = sign_of(ops, *v, *r)?;
                let part = format!(in alloc; "{}{sign} ", v.0)?;
                text.push_str(part.as_str())?;
            }
        }
    }
    Ok(text)
}

/// The bit of a variable has the variable's number.
fn sign_of(ops: &mut Ops, v: VarId, r: Ref) -> Result<char, Fail> {
    for has in [true, false] {
        if ops.literal(v.0, has)? == r {
            return Ok(if has { '+' } else { '-' });
        }
    }
    Ok('?')
}

/// By hand: the first set is a part of the second, the two are disjoint, and one of the two has the element.
#[test]
fn steps_of_three_constraints(rt: HostRuntime) -> Result<(), Fail> {
    let part = (false, true);
    let disjoint = (false, false);
    let covering = (true, true);
    for (signs, given, wanted) in [
        (part, (None, None), "same"),
        (part, (Some(true), None), "1+ "),
        (part, (None, Some(false)), "0- "),
        (part, (Some(true), Some(false)), "empty"),
        (disjoint, (Some(true), None), "1- "),
        (disjoint, (None, Some(true)), "0- "),
        (disjoint, (Some(false), None), "same"),
        (covering, (Some(false), None), "1+ "),
        (covering, (None, Some(false)), "0+ "),
        (covering, (Some(false), Some(false)), "empty"),
    ] {
        let text = told(rt.alloc(), signs, given)?;
        assert_eq!(rt; text.as_str(), wanted);
    }
    Ok(())
}

#[test]
fn steps_without_variables(rt: HostRuntime) -> Result<(), Fail> {
    let alloc = rt.alloc();
    let layout = Layout::new(alloc, &problem(alloc, kinds(alloc)?))?;
    for (holds, wanted) in [(true, "same"), (false, "empty")] {
        let mut ops = Ops::new(alloc, 30, 1)?;
        let answer = step_of_constant(alloc, &mut ops, &layout, holds)?;
        let text = text_of(alloc, &mut ops, answer)?;
        assert_eq!(rt; text.as_str(), wanted);
    }
    Ok(())
}
