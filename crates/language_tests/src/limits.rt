//! Problems at each limit and just beyond it. The limits are those of docs/FORMATS.md.
use crate::samples::{constant, constraint, integers, problem, variable};
use listed::Listed;
use problem_limits::{are_within_limits, is_within_limits, keeps_limits};
use set_meaning::{Arg, Constraint, Goal, Kind, Relation, SetValue, Term, Value, VarId};
use std::alloc::{AllocError, Global};
use std::test::Fail;

/// Sets over 1 to 512, so many of them.
fn sets(alloc: Global, count: u32) -> Result<Vec<Kind>, AllocError> {
    let mut kinds = Vec::new(alloc);
    for _ in 0..count {
        kinds.push(Kind::Set(SetValue::from_range(alloc, 1, 512)?))?;
    }
    Ok(kinds)
}

/// That two integers are equal, one of which is this constant.
fn equality(alloc: Global, number: i64) -> Result<Constraint, AllocError> {
    let args = vec![in alloc; variable(0), constant(Value::Int(number))]?;
    Ok(constraint(Relation::IntEq, args))
}

/// A constraint over the first variables, so many of them.
fn over_variables(alloc: Global, count: u32) -> Result<Constraint, AllocError> {
    let mut terms = Vec::new(alloc);
    for variable in 0..count {
        terms.push(Term::Var(VarId(variable)))?;
    }
    let args = vec![in alloc; Arg::Many(Listed::of(terms))]?;
    Ok(constraint(Relation::ArraySetElement, args))
}

/// Whether a problem with one variable, which is one of two integers, and so many equal constraints on it keeps the
/// limits.
fn keeps(
    alloc: Global,
    numbers: &[i64],
    constant: i64,
    count: u32,
    goal: Goal,
) -> Result<bool, AllocError> {
    let kinds = vec![in alloc; integers(alloc, numbers)?]?;
    let mut constraints = Vec::new(alloc);
    for _ in 0..count {
        constraints.push(equality(alloc, constant)?)?;
    }
    let p = problem(alloc, kinds, constraints, goal)?;
    keeps_limits(alloc, &p)
}

/// The two integers, the constant, the number of constraints, the goal, and whether the limits are kept.
const CASES: [([i64; 2], i64, u32, Goal, bool); 9] = [
    (
        [999_934_465, 1_000_000_000],
        1_000_000_000,
        1,
        Goal::Satisfy,
        true,
    ),
    (
        [-1_000_000_000, -999_999_999],
        -1_000_000_000,
        1,
        Goal::Satisfy,
        true,
    ),
    ([0, 65_536], 0, 1, Goal::Satisfy, false),
    ([1_000_000_001, 1_000_000_001], 0, 1, Goal::Satisfy, false),
    ([0, 1], -1_000_000_001, 1, Goal::Satisfy, false),
    ([0, 1], 0, 1, Goal::Minimize(VarId(0)), true),
    ([0, 1], 0, 1, Goal::Maximize(VarId(1)), false),
    ([0, 1], 0, 100_000, Goal::Satisfy, true),
    ([0, 1], 0, 100_001, Goal::Satisfy, false),
];

#[test]
fn problems_keep_their_limits(rt: HostRuntime) -> Result<(), Fail> {
    let alloc = rt.alloc();
    for (numbers, constant, count, goal, expected) in CASES {
        assert_eq!(rt;
            keeps(alloc, numbers.as_slice(), constant, count, goal)?,
            expected
        );
    }
    Ok(())
}

/// Whether a constraint over so many sets of 512 elements is within the limits; false where the kinds are not.
fn is_within(alloc: Global, count: u32) -> Result<bool, AllocError> {
    let kinds = sets(alloc, count)?;
    if !are_within_limits(kinds.as_slice()) {
        return Ok(false);
    }
    let c = over_variables(alloc, count)?;
    is_within_limits(alloc, kinds.as_slice(), &c)
}

fn are_within(alloc: Global, count: u32) -> Result<bool, AllocError> {
    let kinds = sets(alloc, count)?;
    Ok(are_within_limits(kinds.as_slice()))
}

#[test]
fn bits_are_counted(rt: HostRuntime) -> Result<(), Fail> {
    let alloc = rt.alloc();
    assert!(rt; is_within(alloc, 4)?);
    assert!(rt; !is_within(alloc, 5)?);
    assert!(rt; are_within(alloc, 2048)?);
    assert!(rt; !are_within(alloc, 2049)?);
    Ok(())
}
