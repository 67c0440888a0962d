//! Constraints over values, with the truth worked out by hand from the table of relations.
use crate::samples::{constant, constraint, ints, set, variable};
use listed::Listed;
use set_meaning::{Arg, Constraint, Relation, SetValue, Term, Value, VarId, holds};
use std::alloc::{AllocError, Global};
use std::test::Fail;

/// What an argument is.
#[derive(Clone, Copy)]
enum Given {
    Bool(bool),
    Int(i64),
    /// An integer that is never a variable.
    Fixed(i64),
    Set(&'static [i64]),
    Bools(&'static [bool]),
    Ints(&'static [i64]),
    /// `{}`, `{1}`, `{1, 2}` and so on, so many of them.
    Sets(u8),
}

fn bools(alloc: Global, items: &[bool]) -> Result<Arg, AllocError> {
    let mut terms = Vec::new(alloc);
    for item in items {
        terms.push(Term::Const(Value::Bool(*item)))?;
    }
    Ok(Arg::Many(Listed::of(terms)))
}

fn sets(alloc: Global, count: u8) -> Result<Arg, AllocError> {
    let mut terms = Vec::new(alloc);
    for last in 0..count {
        let elements = SetValue::from_range(alloc, 1, i64::from(last))?;
        terms.push(Term::Const(Value::Set(elements)))?;
    }
    Ok(Arg::Many(Listed::of(terms)))
}

/// The array that is given; of a single value the argument that is its variable or itself.
fn argument(
    alloc: Global,
    given: Given,
    number: u32,
    as_variable: bool,
) -> Result<Arg, AllocError> {
    match given {
        Given::Bools(items) => bools(alloc, items),
        Given::Ints(items) => ints(alloc, items),
        Given::Sets(count) => sets(alloc, count),
        Given::Fixed(number) => Ok(constant(Value::Int(number))),
        single => {
            if as_variable {
                return Ok(variable(number));
            }
            Ok(constant(value(alloc, single)?))
        }
    }
}

/// The single value that is given; any value for an array.
fn value(alloc: Global, given: Given) -> Result<Value, AllocError> {
    match given {
        Given::Bool(truth) => Ok(Value::Bool(truth)),
        Given::Int(number) => Ok(Value::Int(number)),
        Given::Set(elements) => set(alloc, elements),
        _ => Ok(Value::Bool(false)),
    }
}

/// Whether the constraint has this truth, holds where that truth is named, and does not where the other is.
fn tells(
    alloc: Global,
    mut c: Constraint,
    values: &[Value],
    truth: bool,
) -> Result<bool, AllocError> {
    let plain = holds(alloc, &c, values)?;
    c.reif = Some(Term::Const(Value::Bool(truth)));
    let named = holds(alloc, &c, values)?;
    c.reif = Some(Term::Const(Value::Bool(!truth)));
    let misnamed = holds(alloc, &c, values)?;
    Ok(plain == truth && named && !misnamed)
}

/// The same of the relation of what is given, single values as constants or as variables.
fn tells_of(
    alloc: Global,
    relation: Relation,
    given: &[Given],
    truth: bool,
    as_variables: bool,
) -> Result<bool, AllocError> {
    let mut args = Vec::new(alloc);
    let mut values = Vec::new(alloc);
    for (number, item) in (0..3u32).zip(given) {
        args.push(argument(alloc, *item, number, as_variables)?)?;
        values.push(value(alloc, *item)?)?;
    }
    tells(alloc, constraint(relation, args), values.as_slice(), truth)
}

const NONE: Given = Given::Set(&[]);

const ONE: Given = Given::Set(&[1]);

const ONE_TWO: Given = Given::Set(&[1, 2]);

const TWO_THREE: Given = Given::Set(&[2, 3]);

const TRUE: Given = Given::Bool(true);

const FALSE: Given = Given::Bool(false);

const ZERO: Given = Given::Int(0);

const BOTH: Given = Given::Bools(&[true, false]);

const NO_BOOLS: Given = Given::Bools(&[]);

const NO_INTS: Given = Given::Ints(&[]);

const SIGNS: Given = Given::Ints(&[3, -1]);

const LARGE: Given = Given::Ints(&[i64::MIN, i64::MIN, i64::MIN]);

const ITEMS: Given = Given::Ints(&[7, -8]);

/// A relation of sets, its arguments, and whether it holds.
const OF_SETS: [(Relation, &[Given], bool); 43] = [
    (Relation::SetEq, &[ONE_TWO, ONE_TWO], true),
    (Relation::SetEq, &[ONE, ONE_TWO], false),
    (Relation::SetNe, &[NONE, ONE], true),
    (Relation::SetNe, &[NONE, NONE], false),
    (Relation::SetLt, &[ONE, ONE_TWO], true),
    (Relation::SetLt, &[ONE_TWO, ONE], false),
    (
        Relation::SetLt,
        &[Given::Set(&[1, 3]), Given::Set(&[2])],
        true,
    ),
    (
        Relation::SetLt,
        &[Given::Set(&[2]), Given::Set(&[1, 3])],
        false,
    ),
    (
        Relation::SetLt,
        &[Given::Set(&[-2]), Given::Set(&[-1])],
        true,
    ),
    (Relation::SetLt, &[NONE, NONE], false),
    (Relation::SetLe, &[NONE, NONE], true),
    (Relation::SetLe, &[ONE, ONE_TWO], true),
    (Relation::SetLe, &[ONE_TWO, ONE], false),
    (Relation::SetSubset, &[ONE, ONE_TWO], true),
    (Relation::SetSubset, &[ONE_TWO, ONE], false),
    (Relation::SetSubset, &[NONE, NONE], true),
    (Relation::SetSuperset, &[ONE_TWO, ONE], true),
    (Relation::SetSuperset, &[ONE, ONE_TWO], false),
    (
        Relation::SetUnion,
        &[ONE_TWO, TWO_THREE, Given::Set(&[1, 2, 3])],
        true,
    ),
    (Relation::SetUnion, &[ONE_TWO, TWO_THREE, ONE_TWO], false),
    (Relation::SetUnion, &[NONE, NONE, NONE], true),
    (Relation::SetUnion, &[Given::Int(1), Given::Int(1)], false),
    (
        Relation::SetIntersect,
        &[ONE_TWO, TWO_THREE, Given::Set(&[2])],
        true,
    ),
    (Relation::SetIntersect, &[ONE_TWO, TWO_THREE, NONE], false),
    (
        Relation::SetIntersect,
        &[ONE_TWO, TWO_THREE, ONE_TWO],
        false,
    ),
    (Relation::SetDiff, &[ONE_TWO, TWO_THREE, ONE], true),
    (Relation::SetDiff, &[TWO_THREE, ONE_TWO, ONE], false),
    (Relation::SetDiff, &[NONE, ONE_TWO, ONE_TWO], false),
    (
        Relation::SetSymdiff,
        &[ONE_TWO, TWO_THREE, Given::Set(&[1, 3])],
        true,
    ),
    (Relation::SetSymdiff, &[ONE_TWO, ONE_TWO, NONE], true),
    (
        Relation::SetSymdiff,
        &[ONE_TWO, TWO_THREE, Given::Set(&[1, 2, 3])],
        false,
    ),
    (
        Relation::SetIn,
        &[Given::Int(-1), Given::Set(&[-1, 4])],
        true,
    ),
    (
        Relation::SetIn,
        &[Given::Int(4), Given::Set(&[-1, 4])],
        true,
    ),
    (
        Relation::SetIn,
        &[Given::Int(1), Given::Set(&[-1, 4])],
        false,
    ),
    (
        Relation::SetCard,
        &[Given::Set(&[-1, 4]), Given::Int(2)],
        true,
    ),
    (
        Relation::SetCard,
        &[Given::Set(&[-1, 4]), Given::Int(1)],
        false,
    ),
    (
        Relation::SetCard,
        &[Given::Set(&[-1, 4]), Given::Int(3)],
        false,
    ),
    (
        Relation::SetCard,
        &[Given::Set(&[-1, 4]), Given::Int(-2)],
        false,
    ),
    (
        Relation::ArraySetElement,
        &[Given::Int(2), Given::Sets(3), ONE],
        true,
    ),
    (
        Relation::ArraySetElement,
        &[Given::Int(1), Given::Sets(3), ONE],
        false,
    ),
    (
        Relation::ArraySetElement,
        &[ZERO, Given::Sets(3), ONE],
        false,
    ),
    (
        Relation::ArraySetElement,
        &[Given::Int(4), Given::Sets(3), ONE],
        false,
    ),
    (
        Relation::ArraySetElement,
        &[Given::Int(1), Given::Sets(0), NONE],
        false,
    ),
];

/// A relation of integers, its arguments, and whether it holds.
const OF_INTEGERS: [(Relation, &[Given], bool); 46] = [
    (Relation::IntEq, &[Given::Int(-3), Given::Int(-3)], true),
    (Relation::IntEq, &[Given::Int(3), Given::Int(-3)], false),
    (Relation::IntEq, &[Given::Int(1), TRUE], false),
    (Relation::IntNe, &[Given::Int(3), Given::Int(-3)], true),
    (Relation::IntNe, &[ZERO, ZERO], false),
    (Relation::IntLe, &[Given::Int(-4), Given::Int(-3)], true),
    (Relation::IntLe, &[Given::Int(2), Given::Int(2)], true),
    (Relation::IntLe, &[Given::Int(3), Given::Int(2)], false),
    (Relation::IntLt, &[Given::Int(2), Given::Int(3)], true),
    (Relation::IntLt, &[Given::Int(2), Given::Int(2)], false),
    (Relation::IntAbs, &[Given::Int(-3), Given::Int(3)], true),
    (Relation::IntAbs, &[Given::Int(3), Given::Int(3)], true),
    (Relation::IntAbs, &[Given::Int(-3), Given::Int(-3)], false),
    (Relation::IntAbs, &[Given::Int(3), Given::Int(-3)], false),
    (
        Relation::IntPlus,
        &[Given::Int(2), Given::Int(-5), Given::Int(-3)],
        true,
    ),
    (
        Relation::IntPlus,
        &[Given::Int(2), Given::Int(5), Given::Int(6)],
        false,
    ),
    (
        Relation::IntPlus,
        &[Given::Int(i64::MAX), Given::Int(1), Given::Int(i64::MIN)],
        false,
    ),
    (
        Relation::IntTimes,
        &[Given::Int(-2), Given::Int(5), Given::Int(-10)],
        true,
    ),
    (
        Relation::IntTimes,
        &[
            Given::Int(1_000_000_000),
            Given::Int(1_000_000_000),
            Given::Int(1_000_000_000_000_000_000),
        ],
        true,
    ),
    (
        Relation::IntTimes,
        &[Given::Int(4_294_967_296), Given::Int(4_294_967_296), ZERO],
        false,
    ),
    (
        Relation::IntMin,
        &[Given::Int(2), Given::Int(-5), Given::Int(-5)],
        true,
    ),
    (
        Relation::IntMin,
        &[Given::Int(2), Given::Int(5), Given::Int(5)],
        false,
    ),
    (
        Relation::IntMin,
        &[Given::Int(2), Given::Int(5), Given::Int(1)],
        false,
    ),
    (
        Relation::IntMax,
        &[Given::Int(2), Given::Int(-5), Given::Int(2)],
        true,
    ),
    (
        Relation::IntMax,
        &[Given::Int(2), Given::Int(5), Given::Int(2)],
        false,
    ),
    (
        Relation::IntMax,
        &[Given::Int(2), Given::Int(5), Given::Int(6)],
        false,
    ),
    (
        Relation::IntLinEq,
        &[SIGNS, Given::Ints(&[2, 6]), Given::Fixed(0)],
        true,
    ),
    (
        Relation::IntLinEq,
        &[SIGNS, Given::Ints(&[2, 6]), Given::Fixed(6)],
        false,
    ),
    (
        Relation::IntLinEq,
        &[NO_INTS, NO_INTS, Given::Fixed(0)],
        true,
    ),
    (
        Relation::IntLinEq,
        &[Given::Ints(&[1, 1]), Given::Ints(&[2]), Given::Fixed(2)],
        false,
    ),
    (
        Relation::IntLinEq,
        &[
            Given::Ints(&[1_000_000_000]),
            Given::Ints(&[1_000_000_000]),
            Given::Fixed(1_000_000_000_000_000_000),
        ],
        true,
    ),
    (
        Relation::IntLinEq,
        &[
            Given::Ints(&[4_611_686_018_427_387_904]),
            Given::Ints(&[4]),
            Given::Fixed(0),
        ],
        false,
    ),
    (Relation::IntLinEq, &[LARGE, LARGE, Given::Fixed(0)], false),
    (
        Relation::IntLinLe,
        &[SIGNS, Given::Ints(&[2, 7]), Given::Fixed(-1)],
        true,
    ),
    (
        Relation::IntLinLe,
        &[SIGNS, Given::Ints(&[2, 7]), Given::Fixed(-2)],
        false,
    ),
    (
        Relation::IntLinLe,
        &[LARGE, LARGE, Given::Fixed(i64::MAX)],
        false,
    ),
    (
        Relation::IntLinLe,
        &[
            LARGE,
            Given::Ints(&[i64::MAX, i64::MAX, i64::MAX]),
            Given::Fixed(i64::MIN),
        ],
        true,
    ),
    (
        Relation::IntLinNe,
        &[SIGNS, Given::Ints(&[2, 6]), Given::Fixed(1)],
        true,
    ),
    (
        Relation::IntLinNe,
        &[SIGNS, Given::Ints(&[2, 6]), Given::Fixed(0)],
        false,
    ),
    (
        Relation::IntLinNe,
        &[NO_INTS, NO_INTS, Given::Fixed(0)],
        false,
    ),
    (
        Relation::ArrayIntElement,
        &[Given::Int(1), ITEMS, Given::Int(7)],
        true,
    ),
    (
        Relation::ArrayIntElement,
        &[Given::Int(2), ITEMS, Given::Int(-8)],
        true,
    ),
    (
        Relation::ArrayIntElement,
        &[Given::Int(2), ITEMS, Given::Int(7)],
        false,
    ),
    (
        Relation::ArrayIntElement,
        &[ZERO, ITEMS, Given::Int(7)],
        false,
    ),
    (
        Relation::ArrayIntElement,
        &[Given::Int(3), ITEMS, Given::Int(-8)],
        false,
    ),
    (
        Relation::ArrayIntElement,
        &[Given::Int(-1), ITEMS, Given::Int(7)],
        false,
    ),
];

/// A relation of Booleans, its arguments, and whether it holds.
const OF_BOOLEANS: [(Relation, &[Given], bool); 39] = [
    (Relation::BoolEq, &[FALSE, FALSE], true),
    (Relation::BoolEq, &[TRUE, FALSE], false),
    (Relation::BoolLe, &[FALSE, TRUE], true),
    (Relation::BoolLe, &[TRUE, TRUE], true),
    (Relation::BoolLe, &[TRUE, FALSE], false),
    (Relation::BoolLt, &[FALSE, TRUE], true),
    (Relation::BoolLt, &[FALSE, FALSE], false),
    (Relation::BoolLt, &[TRUE, FALSE], false),
    (Relation::BoolNot, &[TRUE, FALSE], true),
    (Relation::BoolNot, &[TRUE, TRUE], false),
    (Relation::BoolAnd, &[TRUE, TRUE, TRUE], true),
    (Relation::BoolAnd, &[TRUE, FALSE, TRUE], false),
    (Relation::BoolAnd, &[FALSE, TRUE, FALSE], true),
    (Relation::BoolOr, &[FALSE, TRUE, TRUE], true),
    (Relation::BoolOr, &[FALSE, FALSE, TRUE], false),
    (Relation::BoolXor, &[TRUE, FALSE, TRUE], true),
    (Relation::BoolXor, &[TRUE, TRUE, TRUE], false),
    (Relation::BoolXor, &[TRUE, TRUE, FALSE], true),
    (Relation::BoolClause, &[BOTH, NO_BOOLS], true),
    (Relation::BoolClause, &[Given::Bools(&[false]), BOTH], true),
    (
        Relation::BoolClause,
        &[Given::Bools(&[false]), Given::Bools(&[true])],
        false,
    ),
    (Relation::BoolClause, &[NO_BOOLS, NO_BOOLS], false),
    (
        Relation::ArrayBoolAnd,
        &[Given::Bools(&[true, true]), TRUE],
        true,
    ),
    (Relation::ArrayBoolAnd, &[BOTH, TRUE], false),
    (Relation::ArrayBoolAnd, &[BOTH, FALSE], true),
    (Relation::ArrayBoolAnd, &[NO_BOOLS, TRUE], true),
    (Relation::ArrayBoolOr, &[BOTH, TRUE], true),
    (Relation::ArrayBoolOr, &[BOTH, FALSE], false),
    (Relation::ArrayBoolOr, &[NO_BOOLS, FALSE], true),
    (Relation::ArrayBoolOr, &[NO_BOOLS, TRUE], false),
    (Relation::Bool2Int, &[TRUE, Given::Int(1)], true),
    (Relation::Bool2Int, &[TRUE, Given::Int(2)], false),
    (Relation::Bool2Int, &[FALSE, ZERO], true),
    (Relation::Bool2Int, &[FALSE, Given::Int(1)], false),
    (
        Relation::ArrayBoolElement,
        &[Given::Int(1), BOTH, TRUE],
        true,
    ),
    (
        Relation::ArrayBoolElement,
        &[Given::Int(2), BOTH, FALSE],
        true,
    ),
    (
        Relation::ArrayBoolElement,
        &[Given::Int(1), BOTH, FALSE],
        false,
    ),
    (Relation::ArrayBoolElement, &[ZERO, BOTH, TRUE], false),
    (
        Relation::ArrayBoolElement,
        &[Given::Int(3), BOTH, FALSE],
        false,
    ),
];

/// Whether the table tells the truth, of constants and of variables.
fn are_told(alloc: Global, cases: &[(Relation, &[Given], bool)]) -> Result<bool, AllocError> {
    for (relation, given, truth) in cases {
        for as_variables in [false, true] {
            if !tells_of(alloc, *relation, given, *truth, as_variables)? {
                return Ok(false);
            }
        }
    }
    Ok(true)
}

#[test]
fn relations_are_those_of_the_table(rt: HostRuntime) -> Result<(), Fail> {
    let alloc = rt.alloc();
    assert!(rt; are_told(alloc, &OF_SETS)?, "sets");
    assert!(rt; are_told(alloc, &OF_INTEGERS)?, "integers");
    assert!(rt; are_told(alloc, &OF_BOOLEANS)?, "booleans");
    Ok(())
}

/// An array in which the first variable stands twice.
fn twice(alloc: Global) -> Result<Arg, AllocError> {
    let terms = vec![in alloc; Term::Var(VarId(0)), Term::Var(VarId(0))]?;
    Ok(Arg::Many(Listed::of(terms)))
}

/// `int_lin_eq([1, 1], [x, x], k)`, `int_times(x, x, x)` and `array_int_element(x, [x, x], x)` with one value of x.
fn repeated(alloc: Global, x: i64, k: i64) -> Result<[bool; 3], AllocError> {
    let values = vec![in alloc; Value::Int(x)]?;
    let coefficients = ints(alloc, [1, 1].as_slice())?;
    let sum = vec![in alloc; coefficients, twice(alloc)?, constant(Value::Int(k))]?;
    let square = vec![in alloc; variable(0), variable(0), variable(0)]?;
    let item = vec![in alloc; variable(0), twice(alloc)?, variable(0)]?;
    Ok([
        holds(
            alloc,
            &constraint(Relation::IntLinEq, sum),
            values.as_slice(),
        )?,
        holds(
            alloc,
            &constraint(Relation::IntTimes, square),
            values.as_slice(),
        )?,
        holds(
            alloc,
            &constraint(Relation::ArrayIntElement, item),
            values.as_slice(),
        )?,
    ])
}

/// Whether this constraint, over one variable whose value is 1, is false.
fn is_false(alloc: Global, relation: Relation, args: Vec<Arg>) -> Result<bool, AllocError> {
    let values = vec![in alloc; Value::Int(1)]?;
    tells(alloc, constraint(relation, args), values.as_slice(), false)
}

#[test]
fn one_variable_stands_in_many_places(rt: HostRuntime) -> Result<(), Fail> {
    assert_eq!(rt; repeated(rt.alloc(), 1, 2)?, [true, true, true]);
    assert_eq!(rt; repeated(rt.alloc(), 2, 4)?, [true, false, true]);
    assert_eq!(rt; repeated(rt.alloc(), 3, 4)?, [false, false, false]);
    Ok(())
}

/// A variable without a value, and coefficients that are no constants.
#[test]
fn arguments_that_do_not_fit_make_a_relation_false(rt: HostRuntime) -> Result<(), Fail> {
    let alloc = rt.alloc();
    let beyond = vec![in alloc; variable(0), variable(9)]?;
    assert!(rt; is_false(alloc, Relation::IntNe, beyond)?);
    let zeros = ints(alloc, [0, 0].as_slice())?;
    let linear = vec![in alloc; twice(alloc)?, zeros, constant(Value::Int(0))]?;
    assert!(rt; is_false(alloc, Relation::IntLinEq, linear)?);
    Ok(())
}
