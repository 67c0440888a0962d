//! Which arguments a relation has.
use crate::samples::{constant, constraint, integers, ints, subsets, variable};
use set_meaning::{Arg, Constraint, Kind, Relation, Term, Value, VarId, fits_row};
use std::alloc::{AllocError, Global};
use std::test::Fail;

/// Whether the constraint has the arguments of its relation, where variable 0 is a Boolean, 1 an integer, 2 a set, and
/// no other is there.
fn fits(alloc: Global, c: &Constraint) -> Result<bool, AllocError> {
    let digits = integers(alloc, [0, 9].as_slice())?;
    let sets = subsets(alloc, [0, 9].as_slice())?;
    let kinds = vec![in alloc; Kind::Bool, digits, sets]?;
    Ok(fits_row(kinds.as_slice(), c))
}

/// The same of a relation of these variables, with the truth value named by this variable.
fn fits_variables(
    alloc: Global,
    relation: Relation,
    numbers: &[u32],
    named: Option<u32>,
) -> Result<bool, AllocError> {
    let mut args = Vec::new(alloc);
    for number in numbers {
        args.push(variable(*number))?;
    }
    let mut c = constraint(relation, args);
    c.reif = named.map(|number| Term::Var(VarId(number)));
    fits(alloc, &c)
}

/// The same of `int_lin_le` of these coefficients, integers and bound.
fn fits_linear(alloc: Global, cs: &[i64], xs: &[i64], bound: Arg) -> Result<bool, AllocError> {
    let args = vec![in alloc; ints(alloc, cs)?, ints(alloc, xs)?, bound]?;
    fits(alloc, &constraint(Relation::IntLinLe, args))
}

/// A relation, its variables, the one that names its truth value, and whether these fit.
const CASES: [(Relation, &[u32], Option<u32>, bool); 10] = [
    (Relation::SetIn, &[1, 2], None, true),
    (Relation::SetIn, &[2, 1], None, false),
    (Relation::SetIn, &[1, 2], Some(0), true),
    (Relation::SetIn, &[1, 2], Some(1), false),
    (Relation::SetUnion, &[2, 2, 2], None, true),
    (Relation::SetUnion, &[2, 2, 2], Some(0), false),
    (Relation::SetUnion, &[2, 2], None, false),
    (Relation::IntAbs, &[1, 1, 1], None, false),
    (Relation::IntEq, &[1, 3], None, false),
    (Relation::BoolClause, &[0, 0], None, false),
];

#[test]
fn relations_have_their_arguments(rt: HostRuntime) -> Result<(), Fail> {
    let alloc = rt.alloc();
    for (relation, numbers, named, expected) in CASES {
        assert_eq!(rt; fits_variables(alloc, relation, numbers, named)?, expected);
    }
    let two = [1, 1].as_slice();
    let one = [1].as_slice();
    assert!(rt; fits_linear(alloc, two, two, constant(Value::Int(5)))?);
    assert!(rt; !fits_linear(alloc, two, one, constant(Value::Int(5)))?);
    assert!(rt; !fits_linear(alloc, two, two, variable(1))?);
    Ok(())
}
