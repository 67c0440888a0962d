//! Steps and nodes by hand. Variables 0 and 1 are Booleans, 2 is one of -2, 0, 1 and 3, 3 is 1 or 3, and 4 is a set over 1, 2 and 3.
ghost use Rattle.std.specs.Prelude.{◌<◌, ◌≤◌, length, All};
ghost use Rattle.diagram_arena.specs.Arena.{most_nodes, table};
ghost use Rattle.problem_limits.specs.Limits.{KeepsLimits};
ghost use Rattle.propagators.specs.Compiled.{IsCompiled};

use crate::cases::{Argument, Case, Given, ints, narrow, problem, sets};
use bit_layout::Layout;
use diagram_arena::{Ref, Stop};
use diagram_ops::Ops;
use problem_limits::keeps_limits;
use propagators::{
    Compiled, compiled_stays, initial_domains_are_domains, relations_have_one_kind, root_bounds,
};
use set_meaning::{Bounds, ConId, Kind, Problem, Relation, VarId};
use std::alloc::{AllocError, Global};
use std::test::Fail;

const B: Argument = Argument::One(Given::Variable(0));

const D: Argument = Argument::One(Given::Variable(1));

const X: Argument = Argument::One(Given::Variable(2));

const N: Argument = Argument::One(Given::Variable(3));

const S: Argument = Argument::One(Given::Variable(4));

const END: Argument = Argument::Absent;

fn number(x: i64) -> Argument {
    Argument::One(Given::Number(x))
}

fn kinds(alloc: Global) -> Result<Vec<Kind>, AllocError> {
    let with_holes = ints(alloc, &[-2, 0, 1, 3])?;
    let size = ints(alloc, &[1, 3])?;
    let set = sets(alloc, &[1, 2, 3])?;
    let kinds = vec![in alloc; Kind::Bool, Kind::Bool, with_holes, size, set]?;
    Ok(kinds)
}

/// What the steps of these constraints say, one after another: how many domains are new, or that no values are left. Then the bounds of a
/// variable.
fn told(alloc: Global, cases: &[Case], order: &[u32], v: u32) -> Result<String, Fail> {
    let p = problem(alloc, kinds(alloc)?, cases)?;
    let mut text = String::new(alloc);
    if !keeps_limits(alloc, &p)? {
        return Ok(text);
    }
    let layout = Layout::new(alloc, &p)?;
    let mut ops = Ops::new(alloc, 1_000, 8)?;
    let compiled = Compiled::new(alloc, &p, &layout, &mut ops)?;
    let done = tell(alloc, &mut ops, &layout, &p, &compiled, order, v, &mut text);
    compiled.leave();
    done?;
    Ok(text)
}

fn tell(
    alloc: Global,
    ops: &mut Ops,
    layout: &Layout,
    p: &Problem,
    compiled: &Compiled,
    order: &[u32],
    v: u32,
    text: &mut String,
) -> Result<(), Fail>
    requires limits { KeepsLimits p.now }
    requires compiled { IsCompiled layout.now p.now (table ops.old.arena) compiled.now }
{
    // What holds of every pool.
    let _ = ops.pool();
    initial_domains_are_domains();
    compiled_stays();
    let mut domains: Vec<Ref> = Vec::from_slice(alloc, compiled.start())?;
    for number in order {
        if *number as usize >= p.constraints.items().len() {
            return Ok(());
        }
        match narrow(
            alloc,
            ops,
            layout,
            p,
            compiled,
            ConId(*number),
            &mut domains,
        )? {
            Some(count) => {
                let part = format!(in alloc; "{count} new, ")?;
                text.push_str(part.as_str())?;
            }
            None => text.push_str("empty, ")?,
        }
    }
    if v as usize >= domains.len() {
        return Ok(());
    }
    let bounds = root_bounds(alloc, ops, layout, p, VarId(v), domains[v as usize])?;
    push_bounds(alloc, text, &bounds)
}

fn push_bounds(alloc: Global, text: &mut String, bounds: &Bounds) -> Result<(), Fail> {
    let part = match bounds {
        Bounds::Bool(low, high) => format!(in alloc; "{low}..{high}")?,
        Bounds::Int(low, high) => format!(in alloc; "{low}..{high}")?,
        Bounds::Set(every, some) => {
            let every = listed(alloc, every.elements())?;
            let some = listed(alloc, some.elements())?;
            format!(in alloc; "{every}..{some}")?
        }
    };
    text.push_str(part.as_str())?;
    Ok(())
}

fn listed(alloc: Global, elements: &[i64]) -> Result<String, Fail> {
    let mut text = String::new(alloc);
    text.push_str("{")?;
    for x in elements {
        let part = format!(in alloc; " {x}")?;
        text.push_str(part.as_str())?;
    }
    text.push_str(" }")?;
    Ok(text)
}

/// The set has one element or three; with two of its elements to choose from it has one, and as many as three only where it is the whole.
#[test]
fn narrows_a_set_and_its_size(rt: HostRuntime) -> Result<(), Fail> {
    let within = Argument::One(Given::Elements(1, 2));
    let cases = [
        (Relation::SetCard, [S, N, END], None),
        (Relation::IntNe, [N, number(1), END], None),
        (Relation::SetSubset, [S, within, END], None),
    ];
    for (order, v, wanted) in [
        ([0, 0, 0], 4, "1 new, 0 new, 0 new, { }..{ 1 2 3 }"),
        ([0, 1, 0], 4, "1 new, 1 new, 1 new, { 1 2 3 }..{ 1 2 3 }"),
        ([2, 0, 0], 3, "1 new, 2 new, 0 new, 1..1"),
        ([2, 0, 0], 4, "1 new, 2 new, 0 new, { }..{ 1 2 }"),
        ([1, 2, 0], 3, "1 new, 1 new, empty, 3..3"),
    ] {
        let text = told(rt.alloc(), &cases, &order, v)?;
        assert_eq!(rt; text.as_str(), wanted);
    }
    Ok(())
}

/// The truth value of "b is d" is b just where d is true, and that of "b is at most d" is d just where one of them is true.
#[test]
fn truth_values_may_stand_among_the_arguments(rt: HostRuntime) -> Result<(), Fail> {
    let b = Some(Given::Variable(0));
    let d = Some(Given::Variable(1));
    let cases = [
        (Relation::BoolEq, [B, D, END], b),
        (Relation::BoolLe, [B, D, END], d),
        (Relation::BoolNot, [B, D, END], None),
    ];
    for (order, v, wanted) in [
        ([0, 0, 1], 1, "1 new, 0 new, 0 new, true..true"),
        ([0, 1, 2], 0, "1 new, 0 new, 1 new, false..false"),
        ([1, 2, 0], 1, "0 new, 0 new, 1 new, true..true"),
    ] {
        let text = told(rt.alloc(), &cases, &order, v)?;
        assert_eq!(rt; text.as_str(), wanted);
    }
    Ok(())
}

/// Of -2, 0, 1 and 3 all but 3 are at most 1.
#[test]
fn truth_values_may_be_constants(rt: HostRuntime) -> Result<(), Fail> {
    let cases = [
        (
            Relation::IntLe,
            [X, number(1), END],
            Some(Given::Truth(true)),
        ),
        (
            Relation::IntLe,
            [X, number(1), END],
            Some(Given::Truth(false)),
        ),
    ];
    for (order, wanted) in [
        ([0, 0], "1 new, 0 new, -2..1"),
        ([1, 1], "1 new, 0 new, 3..3"),
        ([0, 1], "1 new, empty, -2..1"),
    ] {
        let text = told(rt.alloc(), &cases, &order, 2)?;
        assert_eq!(rt; text.as_str(), wanted);
    }
    Ok(())
}

/// Constraints without variables are true or false.
#[test]
fn steps_without_variables(rt: HostRuntime) -> Result<(), Fail> {
    let cases = [
        (Relation::IntLe, [number(1), number(2), END], None),
        (Relation::IntLe, [number(2), number(1), END], None),
        (
            Relation::IntLe,
            [number(2), number(1), END],
            Some(Given::Truth(false)),
        ),
    ];
    let text = told(rt.alloc(), &cases, &[0, 1, 2], 0)?;
    assert_eq!(rt; text.as_str(), "0 new, empty, 0 new, false..true");
    Ok(())
}

/// A Boolean, an integer that is 1 or 3, and a set over 1, 2 and 3.
fn few_kinds(alloc: Global) -> Result<Vec<Kind>, AllocError> {
    let number = ints(alloc, &[1, 3])?;
    let set = sets(alloc, &[1, 2, 3])?;
    let kinds = vec![in alloc; Kind::Bool, number, set]?;
    Ok(kinds)
}

/// How many nodes a pool with this limit has after the constraints were compiled; None where there was no room.
fn nodes(alloc: Global, cases: &[Case], limit: u32) -> Result<Option<u32>, Stop>
    requires some { 0 < limit }
    requires most { limit ≤ most_nodes }
{
    let p = problem(alloc, few_kinds(alloc)?, cases)?;
    if !keeps_limits(alloc, &p)? {
        return Ok(None);
    }
    let layout = Layout::new(alloc, &p)?;
    let mut ops = Ops::new(alloc, limit, 8)?;
    match Compiled::new(alloc, &p, &layout, &mut ops) {
        Ok(compiled) => {
            compiled.release(&mut ops);
            Ok(Some(ops.pool().arena().len()))
        }
        Err(Stop::Full) => Ok(None),
        Err(Stop::Memory) => Err(Stop::Memory),
    }
}

/// The initial values of the integer are told by the lower digit of the offset from 1, whose node the constraints share. The set and its
/// size: the first digit; the second, for each first one; the first element, of one or of all; the second, with none so far, one, and all;
/// the third, which must be there or must not. The Boolean: the integer is 3, or 1; each with the Boolean's value, for which there is a
/// node; and both joined. A constant makes one side alone.
#[test]
fn makes_only_the_nodes_of_its_sets(rt: HostRuntime) -> Result<(), Fail> {
    let three = [Argument::One(Given::Variable(1)), number(3), END];
    let set = Argument::One(Given::Variable(2));
    let size = (
        Relation::SetCard,
        [set, Argument::One(Given::Variable(1)), END],
        None,
    );
    let free = (Relation::IntEq, three, Some(Given::Variable(0)));
    let on_true = (Relation::IntEq, three, Some(Given::Truth(true)));
    let on_false = (Relation::IntEq, three, Some(Given::Truth(false)));
    let alloc = rt.alloc();
    assert_eq!(rt; nodes(alloc, &[], 100)?, Some(1));
    assert_eq!(rt; nodes(alloc, &[size], 100)?, Some(11));
    assert_eq!(rt; nodes(alloc, &[free], 100)?, Some(8));
    assert_eq!(rt; nodes(alloc, &[on_true], 100)?, Some(2));
    assert_eq!(rt; nodes(alloc, &[on_false], 100)?, Some(3));
    assert_eq!(rt; nodes(alloc, &[size, free], 18)?, Some(18));
    assert_eq!(rt; nodes(alloc, &[size, free], 17)?, None);
    Ok(())
}

/// The truth value and a variable that stands twice are in the scope once.
#[test]
fn scopes_have_each_variable_once(rt: HostRuntime) -> Result<(), Fail> {
    let alloc = rt.alloc();
    let twice = [
        Argument::Two(Given::Number(2), Given::Number(1)),
        Argument::Two(Given::Variable(2), Given::Variable(2)),
        number(3),
    ];
    let text = scopes(
        alloc,
        &[(Relation::IntLinEq, twice, Some(Given::Variable(1)))],
    )?;
    assert_eq!(rt; text.as_str(), "1 2 ");
    relations_have_one_kind();
    Ok(())
}

/// The variables of the first constraint's scope.
fn scopes(alloc: Global, cases: &[Case]) -> Result<String, Fail> {
    let p = problem(alloc, kinds(alloc)?, cases)?;
    let mut text = String::new(alloc);
    if !keeps_limits(alloc, &p)? {
        return Ok(text);
    }
    let layout = Layout::new(alloc, &p)?;
    let mut ops = Ops::new(alloc, 1_000, 8)?;
    let compiled = Compiled::new(alloc, &p, &layout, &mut ops)?;
    let done = tell_scope(alloc, &ops, &layout, &p, &compiled, &mut text);
    compiled.release(&mut ops);
    done?;
    Ok(text)
}

fn tell_scope(
    alloc: Global,
    ops: &Ops,
    layout: &Layout,
    p: &Problem,
    compiled: &Compiled,
    text: &mut String,
) -> Result<(), Fail>
    requires { IsCompiled layout.now p.now (table ops.now.arena) compiled.now }
{
    // What holds of every layout and pool.
    layout.obeys_order();
    let _ = ops.pool();
    if p.constraints.items().len() == 0 {
        return Ok(());
    }
    for v in compiled.scope(ConId(0)) {
        let part = format!(in alloc; "{} ", v.0)?;
        text.push_str(part.as_str())?;
    }
    Ok(())
}
