//! `possible` at constraints of which there are too many lists of values to try.
use crate::axioms::{asked, problem_over};
use listed::Listed;
use set_meaning::{Arg, Constraint, Kind, Relation, SetValue, Term, Value, VarId};
use std::alloc::{AllocError, Global};
use std::test::Fail;

fn variable(v: u32) -> Arg {
    Arg::One(Term::Var(VarId(v)))
}

fn int(x: i64) -> Arg {
    Arg::One(Term::Const(Value::Int(x)))
}

/// The integers from `low` to before `end`.
fn range(alloc: Global, low: i64, end: i64) -> Result<SetValue, AllocError> {
    let mut numbers = Vec::new(alloc);
    for x in low..end {
        numbers.push(x)?;
    }
    SetValue::from_list(alloc, numbers.as_slice())
}

/// So many integer variables, from `low` to before `end`.
fn copies(alloc: Global, count: u32, low: i64, end: i64) -> Result<Vec<Kind>, AllocError> {
    let mut kinds = Vec::new(alloc);
    for _i in 0..count {
        kinds.push(Kind::Int(range(alloc, low, end)?))?;
    }
    Ok(kinds)
}

fn booleans(alloc: Global, count: u32) -> Result<Vec<Kind>, AllocError> {
    let mut kinds = Vec::new(alloc);
    for _i in 0..count {
        kinds.push(Kind::Bool)?;
    }
    Ok(kinds)
}

/// The variables from number `first` to before number `end`.
fn variables(alloc: Global, first: u32, end: u32) -> Result<Arg, AllocError> {
    let mut terms = Vec::new(alloc);
    for v in first..end {
        terms.push(Term::Var(VarId(v)))?;
    }
    Ok(Arg::Many(Listed::of(terms)))
}

fn constants(alloc: Global, count: u32, x: i64) -> Result<Arg, AllocError> {
    let mut terms = Vec::new(alloc);
    for _i in 0..count {
        terms.push(Term::Const(Value::Int(x)))?;
    }
    Ok(Arg::Many(Listed::of(terms)))
}

fn decided(
    alloc: Global,
    kinds: Vec<Kind>,
    relation: Relation,
    args: Vec<Arg>,
    reif: Option<Term>,
) -> Result<Option<bool>, AllocError> {
    let c = Constraint {
        relation,
        args: Listed::of(args),
        reif,
    };
    let p = problem_over(alloc, kinds, c)?;
    asked(alloc, &p)
}

/// A set over 1 to 24, and an integer from `low` to before `end`.
fn set_and_integer(alloc: Global, low: i64, end: i64) -> Result<Vec<Kind>, AllocError> {
    let universe = range(alloc, 1, 25)?;
    let numbers = range(alloc, low, end)?;
    let kinds = vec![in alloc; Kind::Set(universe), Kind::Int(numbers)]?;
    Ok(kinds)
}

#[test]
fn cardinalities_of_a_large_set(rt: HostRuntime) -> Result<(), Fail> {
    let alloc = rt.alloc();
    for (low, end, yes) in [
        (0, 1, true),
        (24, 31, true),
        (25, 31, false),
        (-3, 0, false),
    ] {
        let kinds = set_and_integer(alloc, low, end)?;
        let args = vec![in alloc; variable(0), variable(1)]?;
        assert_eq!(rt;
            decided(alloc, kinds, Relation::SetCard, args, None)?,
            Some(yes)
        );
    }
    Ok(())
}

#[test]
fn members_of_a_large_set(rt: HostRuntime) -> Result<(), Fail> {
    let alloc = rt.alloc();
    for (low, end, yes) in [(0, 2, true), (24, 31, true), (25, 31, false)] {
        let kinds = set_and_integer(alloc, low, end)?;
        let args = vec![in alloc; variable(1), variable(0)]?;
        assert_eq!(rt;
            decided(alloc, kinds, Relation::SetIn, args, None)?,
            Some(yes)
        );
    }
    let kinds = set_and_integer(alloc, 25, 31)?;
    let args = vec![in alloc; variable(1), variable(0)]?;
    let named = Some(Term::Const(Value::Bool(false)));
    assert_eq!(rt;
        decided(alloc, kinds, Relation::SetIn, args, named)?,
        Some(true)
    );
    Ok(())
}

#[test]
fn sums_of_ten(rt: HostRuntime) -> Result<(), Fail> {
    let alloc = rt.alloc();
    for (x, k, yes) in [
        (1, 500, true),
        (1, 1000, true),
        (1, 1001, false),
        (2, 999, false),
        (-3, -3000, true),
        (-3, 3, false),
    ] {
        let kinds = copies(alloc, 10, 0, 101)?;
        let args = vec![in alloc; constants(alloc, 10, x)?, variables(alloc, 0, 10)?, int(k)]?;
        assert_eq!(rt;
            decided(alloc, kinds, Relation::IntLinEq, args, None)?,
            Some(yes)
        );
    }
    Ok(())
}

#[test]
fn clauses_of_forty(rt: HostRuntime) -> Result<(), Fail> {
    let alloc = rt.alloc();
    let kinds = booleans(alloc, 40)?;
    let args = vec![in alloc; variables(alloc, 0, 20)?, variables(alloc, 20, 40)?]?;
    assert_eq!(rt;
        decided(alloc, kinds, Relation::BoolClause, args, None)?,
        Some(true)
    );
    let kinds = booleans(alloc, 40)?;
    let args = vec![in alloc; variables(alloc, 0, 0)?, variables(alloc, 0, 0)?]?;
    assert_eq!(rt;
        decided(alloc, kinds, Relation::BoolClause, args, None)?,
        Some(false)
    );
    Ok(())
}
