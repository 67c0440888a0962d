//! Wide constraints: each has a diagram within a limit on nodes.
ghost use Rattle.std.specs.Prelude.{◌≡◌};
ghost use Rattle.problem_limits.specs.Limits.{KeepsLimits};

use crate::samples::{Given, problem, scalar_diagram, term};
use bit_layout::Layout;
use diagram_arena::Stop;
use diagram_ops::Ops;
use listed::Listed;
use problem_limits::keeps_limits;
use set_meaning::{Arg, Constraint, Kind, Relation, SetValue, Term, Value, VarId};
use std::alloc::{AllocError, Global};
use std::test::Fail;

/// So many integer variables from 0 to a number.
fn ranges(alloc: Global, count: u32, greatest: u16) -> Result<Vec<Kind>, AllocError> {
    let mut kinds = Vec::new(alloc);
    for _ in 0..count {
        kinds.push(range(alloc, greatest)?)?;
    }
    Ok(kinds)
}

fn range(alloc: Global, greatest: u16) -> Result<Kind, AllocError> {
    Ok(Kind::Int(SetValue::from_range(alloc, 0, i64::from(greatest))?))
}

fn variables(alloc: Global, from: u32, to: u32) -> Result<Arg, AllocError> {
    let mut terms = Vec::new(alloc);
    for v in from..to {
        terms.push(Term::Var(VarId(v)))?;
    }
    Ok(Arg::Many(Listed::of(terms)))
}

/// So many numbers: the first, and each next one greater by the step.
fn constants(alloc: Global, count: u32, first: u16, step: u16) -> Result<Arg, AllocError> {
    let mut terms = Vec::new(alloc);
    for i in 0..count {
        let x = i64::from(first) + i64::from(step) * i64::from(i);
        terms.push(Term::Const(Value::Int(x)))?;
    }
    Ok(Arg::Many(Listed::of(terms)))
}

fn one(alloc: Global, given: Given) -> Result<Arg, AllocError> {
    Ok(Arg::One(term(alloc, given)?))
}

/// How many nodes the diagram of the constraint makes; none where it has other arguments or is too large.
fn nodes(
    alloc: Global,
    kinds: Vec<Kind>,
    relation: Relation,
    args: Vec<Arg>,
) -> Result<Option<u32>, Stop> {
    let p = problem(alloc, kinds)?;
    if !keeps_limits(alloc, &p)? {
        return Ok(None);
    }
    let layout = Layout::new(alloc, &p)?;
    let mut ops = Ops::new(alloc, 2_000_000, 64)?;
    let c = Constraint {
        relation,
        args: Listed::of(args),
        reif: None,
    };
    match scalar_diagram(alloc, &mut ops, &layout, &p, &c)? {
        Some(_) => Ok(Some(ops.pool().arena().len())),
        None => Ok(None),
    }
}

/// The sum of thirty integers from 0 to 100 is 1,500.
#[test]
fn adds_up_thirty_integers(rt: HostRuntime) -> Result<(), Fail> {
    let alloc = rt.alloc();
    let coefficients = constants(alloc, 30, 1, 0)?;
    let sum = one(alloc, Given::Number(1_500))?;
    let args = vec![in alloc; coefficients, variables(alloc, 0, 30)?, sum]?;
    let made = nodes(alloc, ranges(alloc, 30, 100)?, Relation::IntLinEq, args)?;
    assert!(rt; made.is_some());
    Ok(())
}

/// One node for each of 200 literals.
#[test]
fn joins_two_hundred_literals(rt: HostRuntime) -> Result<(), Fail> {
    let alloc = rt.alloc();
    let mut kinds = Vec::new(alloc);
    for _ in 0..200_u32 {
        kinds.push(Kind::Bool)?;
    }
    let args = vec![in alloc; variables(alloc, 0, 100)?, variables(alloc, 100, 200)?]?;
    assert_eq!(rt; nodes(alloc, kinds, Relation::BoolClause, args)?, Some(200));
    Ok(())
}

/// The element of an array of fifty constants, 3, 10, 17 and so on.
#[test]
fn takes_one_of_fifty_constants(rt: HostRuntime) -> Result<(), Fail> {
    let alloc = rt.alloc();
    let index = one(alloc, Given::Variable(0))?;
    let item = one(alloc, Given::Variable(1))?;
    let args = vec![in alloc; index, constants(alloc, 50, 3, 7)?, item]?;
    let made = nodes(
        alloc,
        ranges(alloc, 2, 400)?,
        Relation::ArrayIntElement,
        args,
    )?;
    assert!(rt; made.is_some());
    Ok(())
}

/// The product of two integers from 0 to 60.
#[test]
fn multiplies(rt: HostRuntime) -> Result<(), Fail> {
    let alloc = rt.alloc();
    let mut kinds = ranges(alloc, 2, 60)?;
    kinds.push(range(alloc, 3_600)?)?;
    let first = one(alloc, Given::Variable(0))?;
    let second = one(alloc, Given::Variable(1))?;
    let product = one(alloc, Given::Variable(2))?;
    let args = vec![in alloc; first, second, product]?;
    let made = nodes(alloc, kinds, Relation::IntTimes, args)?;
    assert!(rt; made.is_some());
    Ok(())
}

/// An integer from 0 to 65,535 that is not 0: one node for each of its bits.
#[test]
fn asks_for_one_of_many_elements(rt: HostRuntime) -> Result<(), Fail> {
    let alloc = rt.alloc();
    let x = one(alloc, Given::Variable(0))?;
    let elements = SetValue::from_range(alloc, 1, 65_535)?;
    let set = Arg::One(Term::Const(Value::Set(elements)));
    let args = vec![in alloc; x, set]?;
    assert_eq!(rt;
        nodes(alloc, ranges(alloc, 1, 65_535)?, Relation::SetIn, args)?,
        Some(16)
    );
    Ok(())
}

/// An integer from 0 to 200 that is an element of a set over 0 to 200.
#[test]
fn asks_a_wide_set_for_an_element(rt: HostRuntime) -> Result<(), Fail> {
    let alloc = rt.alloc();
    let mut kinds = ranges(alloc, 1, 200)?;
    kinds.push(Kind::Set(SetValue::from_range(alloc, 0, 200)?))?;
    let x = one(alloc, Given::Variable(0))?;
    let set = one(alloc, Given::Variable(1))?;
    let args = vec![in alloc; x, set]?;
    let made = nodes(alloc, kinds, Relation::SetIn, args)?;
    assert!(rt; made.is_some());
    Ok(())
}
