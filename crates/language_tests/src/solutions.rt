//! Solutions and scopes of a problem of two sets and a Boolean.
use crate::samples::{constant, constraint, problem, set, subsets, variable};
use set_meaning::{
    Constraint, Goal, Kind, Problem, Relation, Term, Value, VarId, holds, is_solution, scope,
};
use std::alloc::{AllocError, Global};
use std::test::Fail;

/// `set_union(x, {2}, y)` over the variables 0 and 1.
fn union_with_two(alloc: Global) -> Result<Constraint, AllocError> {
    let two = constant(set(alloc, [2].as_slice())?);
    let args = vec![in alloc; variable(0), two, variable(1)]?;
    Ok(constraint(Relation::SetUnion, args))
}

/// `set_subset_reif(y, x, r)` over the variables 1, 0 and 2.
fn subset_named(alloc: Global) -> Result<Constraint, AllocError> {
    let mut c = constraint(
        Relation::SetSubset,
        vec![in alloc; variable(1), variable(0)]?,
    );
    c.reif = Some(Term::Var(VarId(2)));
    Ok(c)
}

fn sample(alloc: Global) -> Result<Problem, AllocError> {
    let x = subsets(alloc, [1, 2].as_slice())?;
    let y = subsets(alloc, [1, 2].as_slice())?;
    let kinds = vec![in alloc; x, y, Kind::Bool]?;
    let constraints = vec![in alloc; union_with_two(alloc)?, subset_named(alloc)?]?;
    problem(alloc, kinds, constraints, Goal::Satisfy)
}

fn solves(alloc: Global, x: &[i64], y: &[i64], truth: bool) -> Result<bool, AllocError> {
    let copied = set(alloc, x)?.copy(alloc)?;
    let values = vec![in alloc; copied, set(alloc, y)?, Value::Bool(truth)]?;
    is_solution(alloc, &sample(alloc)?, values.as_slice())
}

/// The values of x, y and r, and whether they are a solution. The third says that {1,2} is in {1}; 2 is missing in the
/// fourth, and 3 of the last is outside.
const CASES: [(&[i64], &[i64], bool, bool); 5] = [
    (&[1, 2], &[1, 2], true, true),
    (&[1], &[1, 2], false, true),
    (&[1], &[1, 2], true, false),
    (&[1], &[1], true, false),
    (&[2, 3], &[2, 3], true, false),
];

#[test]
fn solutions_are_found(rt: HostRuntime) -> Result<(), Fail> {
    let alloc = rt.alloc();
    for (x, y, truth, expected) in CASES {
        assert_eq!(rt; solves(alloc, x, y, truth)?, expected);
    }
    let values = vec![in alloc; set(alloc, [].as_slice())?, set(alloc, [2].as_slice())?]?;
    assert!(rt; holds(alloc, &union_with_two(alloc)?, values.as_slice())?);
    let variables = scope(alloc, &subset_named(alloc)?)?;
    assert_eq!(rt;
        variables.as_slice(),
        [VarId(0), VarId(1), VarId(2)].as_slice()
    );
    Ok(())
}
