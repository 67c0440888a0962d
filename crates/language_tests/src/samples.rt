//! What several tests are made of.
ghost use Rattle.std.specs.Prelude.{◌≡◌, IfOk};

use listed::Listed;
use set_meaning::{
    Arg, Constraint, Goal, Kind, Problem, Relation, SetValue, Shown, Term, Text, Value, VarId,
};
use std::alloc::{AllocError, Global};

/// The set of these elements.
pub fn set(alloc: Global, elements: &[i64]) -> Result<Value, AllocError> {
    Ok(Value::Set(SetValue::from_list(alloc, elements)?))
}

/// The kind of integers that are one of these.
pub fn integers(alloc: Global, numbers: &[i64]) -> Result<Kind, AllocError> {
    Ok(Kind::Int(SetValue::from_list(alloc, numbers)?))
}

/// The kind of sets of these elements.
pub fn subsets(alloc: Global, universe: &[i64]) -> Result<Kind, AllocError> {
    Ok(Kind::Set(SetValue::from_list(alloc, universe)?))
}

/// An argument that is this value.
pub fn constant(value: Value) -> Arg {
    Arg::One(Term::Const(value))
}

/// An argument that is the variable of this number.
pub fn variable(number: u32) -> Arg {
    Arg::One(Term::Var(VarId(number)))
}

/// An array of these integers.
pub fn ints(alloc: Global, items: &[i64]) -> Result<Arg, AllocError> {
    let mut terms = Vec::new(alloc);
    for item in items {
        terms.push(Term::Const(Value::Int(*item)))?;
    }
    Ok(Arg::Many(Listed::of(terms)))
}

/// A constraint that must hold.
pub fn constraint(relation: Relation, args: Vec<Arg>) -> Constraint {
    Constraint {
        relation,
        args: Listed::of(args),
        reif: None,
    }
}

/// The name of these letters.
pub fn name(alloc: Global, letters: &str) -> Result<Text, AllocError> {
    Ok(Listed::of(Vec::from_slice(alloc, letters.as_bytes())?))
}

/// A problem whose variables have names without letters, and that shows nothing.
pub fn problem(
    alloc: Global,
    kinds: Vec<Kind>,
    constraints: Vec<Constraint>,
    goal: Goal,
) -> Result<Problem, AllocError>
    ensures { IfOk result (λ p. p.kinds ≡ kinds.items) }
{
    let names = unnamed(alloc, kinds.len())?;
    let shown: Vec<Shown> = Vec::new(alloc);
    Ok(Problem {
        kinds: Listed::of(kinds),
        names: Listed::of(names),
        constraints: Listed::of(constraints),
        goal,
        shown: Listed::of(shown),
    })
}

fn unnamed(alloc: Global, count: usize) -> Result<Vec<Text>, AllocError> {
    let mut names = Vec::new(alloc);
    for _ in 0..count {
        names.push(Listed::of(Vec::new(alloc)))?;
    }
    Ok(names)
}
