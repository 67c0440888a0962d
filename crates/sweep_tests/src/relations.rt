//! `possible` at every relation, against all lists of initial values.
use crate::axioms::{asked, problem_over};
use listed::Listed;
use set_meaning::{
    Arg, Constraint, Kind, Relation, SetValue, Shape, Sort, Term, Value, VarId, holds,
    initial_values, row_of,
};
use std::alloc::{AllocError, Global};
use std::test::Fail;

const RELATIONS: [Relation; 38] = [
    Relation::SetEq,
    Relation::SetNe,
    Relation::SetLt,
    Relation::SetLe,
    Relation::SetSubset,
    Relation::SetSuperset,
    Relation::SetIn,
    Relation::SetUnion,
    Relation::SetIntersect,
    Relation::SetDiff,
    Relation::SetSymdiff,
    Relation::SetCard,
    Relation::ArraySetElement,
    Relation::IntEq,
    Relation::IntNe,
    Relation::IntLe,
    Relation::IntLt,
    Relation::IntLinEq,
    Relation::IntLinLe,
    Relation::IntLinNe,
    Relation::IntPlus,
    Relation::IntTimes,
    Relation::IntMin,
    Relation::IntMax,
    Relation::IntAbs,
    Relation::ArrayIntElement,
    Relation::BoolEq,
    Relation::BoolLe,
    Relation::BoolLt,
    Relation::BoolNot,
    Relation::BoolAnd,
    Relation::BoolOr,
    Relation::BoolXor,
    Relation::BoolClause,
    Relation::ArrayBoolAnd,
    Relation::ArrayBoolOr,
    Relation::Bool2Int,
    Relation::ArrayBoolElement,
];

fn kinds(alloc: Global) -> Result<Vec<Kind>, AllocError> {
    let numbers = SetValue::from_list(alloc, [1, 3].as_slice())?;
    let others = SetValue::from_list(alloc, [-1, 0, 2].as_slice())?;
    let universe = SetValue::from_list(alloc, [1, 2].as_slice())?;
    let other = SetValue::from_list(alloc, [2, 3].as_slice())?;
    let kinds = vec![in alloc;
        Kind::Bool,
        Kind::Bool,
        Kind::Int(numbers),
        Kind::Int(others),
        Kind::Set(universe),
        Kind::Set(other),
    ]?;
    Ok(kinds)
}

/// A term of the sort: one of two variables, or a constant.
fn term(alloc: Global, sort: Sort, which: u32) -> Result<Term, AllocError> {
    match sort {
        Sort::Boolean => match which {
            0 => Ok(Term::Var(VarId(0))),
            1 => Ok(Term::Var(VarId(1))),
            2 => Ok(Term::Const(Value::Bool(false))),
            _ => Ok(Term::Const(Value::Bool(true))),
        },
        Sort::Integer => match which {
            0 => Ok(Term::Var(VarId(2))),
            1 => Ok(Term::Var(VarId(3))),
            2 => Ok(Term::Const(Value::Int(2))),
            _ => Ok(Term::Const(Value::Int(-1))),
        },
        Sort::IntegerSet => match which {
            0 => Ok(Term::Var(VarId(4))),
            1 => Ok(Term::Var(VarId(5))),
            2 => Ok(Term::Const(Value::Set(SetValue::from_list(alloc, [2].as_slice())?))),
            _ => Ok(Term::Const(Value::Set(SetValue::from_list(alloc, [1, 4].as_slice())?))),
        },
    }
}

fn argument(alloc: Global, shape: Shape, which: u32) -> Result<Arg, AllocError> {
    match shape {
        Shape::OneOf(sort) => Ok(Arg::One(term(alloc, sort, which % 4)?)),
        Shape::ConstantOf(sort) => Ok(Arg::One(term(alloc, sort, 2 + which % 2)?)),
        Shape::ManyOf(sort) => {
            let first = term(alloc, sort, which % 4)?;
            let second = term(alloc, sort, (which / 2) % 4)?;
            let terms = vec![in alloc; first, second]?;
            Ok(Arg::Many(Listed::of(terms)))
        }
        Shape::ConstantsOf(sort) => {
            let first = term(alloc, sort, 2)?;
            let second = term(alloc, sort, 3)?;
            let terms = vec![in alloc; first, second]?;
            Ok(Arg::Many(Listed::of(terms)))
        }
    }
}

fn arguments(alloc: Global, relation: Relation, which: u32) -> Result<Vec<Arg>, AllocError> {
    let row = row_of(relation);
    let first = argument(alloc, row.first, which)?;
    let second = argument(alloc, row.second, which / 3)?;
    let mut args = vec![in alloc; first, second]?;
    if let Some(third) = row.third {
        args.push(argument(alloc, third, which / 5)?)?;
    }
    Ok(args)
}

/// Whether the constraint holds for some initial values, the first of which are given.
fn holds_for_some(
    alloc: Global,
    kinds: &[Kind],
    c: &Constraint,
    values: &mut Vec<Value>,
) -> Result<bool, AllocError> {
    match kinds {
        [] => holds(alloc, c, values.as_slice()),
        [first, others @ ..] => {
            let tried = initial_values(alloc, first)?;
            for x in tried.as_slice() {
                values.push(x.copy(alloc)?)?;
                let found = holds_for_some(alloc, others, c, values)?;
                let _last = values.pop();
                if found {
                    return Ok(true);
                }
            }
            Ok(false)
        }
    }
}

/// What is to be answered, and what `possible` answers.
fn both(
    alloc: Global,
    relation: Relation,
    which: u32,
    reif: Option<Term>,
) -> Result<(Option<bool>, Option<bool>), AllocError> {
    let args = arguments(alloc, relation, which)?;
    let c = Constraint {
        relation,
        args: Listed::of(args),
        reif,
    };
    let kinds = kinds(alloc)?;
    let mut values = Vec::new(alloc);
    let wanted = holds_for_some(alloc, kinds.as_slice(), &c, &mut values)?;
    let p = problem_over(alloc, kinds, c)?;
    let found = asked(alloc, &p)?;
    Ok((Some(wanted), found))
}

#[test]
fn every_relation(rt: HostRuntime) -> Result<(), Fail> {
    let alloc = rt.alloc();
    for relation in RELATIONS {
        for which in 0..20 {
            let (wanted, found) = both(alloc, relation, which, None)?;
            assert_eq!(rt; found, wanted, "{relation:?} {which}");
            if row_of(relation).reifiable {
                let named = Some(Term::Var(VarId(which % 2)));
                let (wanted, found) = both(alloc, relation, which, named)?;
                assert_eq!(rt; found, wanted, "{relation:?} {which}, with a truth value");
            }
        }
    }
    Ok(())
}
