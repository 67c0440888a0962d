//! Every relation over small domains, against the truth of the relation. Variables 0 and 1 are Booleans, 2 is one of -2, 0, 1 and 3, 3 is one of
//! -1, 0, 1 and 2, 4 is 1, 2 or 3, and 5 is a set over 0 and 3.
ghost use Rattle.std.specs.Prelude.{◌≡◌, ◌<◌, length};
ghost use Rattle.diagram_arena.specs.declared.nodes.Ref.{Ref};
ghost use Rattle.diagram_arena.specs.Table.{IsLive};
ghost use Rattle.diagram_arena.specs.Arena.{table};
ghost use Rattle.problem_limits.specs.Limits.{KeepsLimits};

use crate::samples::{Argument, Given, constraint, ints, problem, scalar_diagram};
use bit_layout::Layout;
use diagram_arena::{Ref, Stop};
use diagram_ops::Ops;
use problem_limits::keeps_limits;
use set_meaning::{Constraint, Kind, Problem, Relation, SetValue, Value, VarId, holds};
use std::alloc::{AllocError, Global};
use std::test::Fail;

fn kinds(alloc: Global) -> Result<Vec<Kind>, AllocError> {
    let first = ints(alloc, &[-2, 0, 1, 3])?;
    let second = ints(alloc, &[-1, 0, 1, 2])?;
    let third = ints(alloc, &[1, 2, 3])?;
    let set = Kind::Set(SetValue::from_list(alloc, &[0, 3])?);
    let kinds = vec![in alloc; Kind::Bool, Kind::Bool, first, second, third, set]?;
    Ok(kinds)
}

fn first_of(code: u32) -> i64 {
    match code {
        0 => -2,
        1 => 0,
        2 => 1,
        _ => 3,
    }
}

fn second_of(code: u32) -> i64 {
    match code {
        0 => -1,
        1 => 0,
        2 => 1,
        _ => 2,
    }
}

fn third_of(code: u32) -> i64 {
    match code {
        0 => 1,
        1 => 2,
        _ => 3,
    }
}

fn set_of(alloc: Global, code: u32) -> Result<SetValue, AllocError> {
    match code {
        0 => SetValue::from_list(alloc, &[]),
        1 => SetValue::from_list(alloc, &[0]),
        2 => SetValue::from_list(alloc, &[3]),
        _ => SetValue::from_list(alloc, &[0, 3]),
    }
}

/// One of the 768 assignments.
fn values(alloc: Global, code: u32) -> Result<Vec<Value>, AllocError> {
    let set = Value::Set(set_of(alloc, code / 192)?);
    let values = vec![in alloc;
        Value::Bool(code % 2 == 1),
        Value::Bool(code / 2 % 2 == 1),
        Value::Int(first_of(code / 4 % 4)),
        Value::Int(second_of(code / 16 % 4)),
        Value::Int(third_of(code / 64 % 3)),
        set,
    ]?;
    Ok(values)
}

/// The least value of each integer variable.
fn least_of(v: VarId) -> i64 {
    match v.0 {
        2 => -2,
        3 => -1,
        _ => 1,
    }
}

/// Whether the offset has a true digit, after which so many digits come.
fn digit(offset: i128, rest: u32) -> bool {
    match rest {
        0 => offset % 2 == 1,
        1 => offset / 2 % 2 == 1,
        _ => offset / 4 % 2 == 1,
    }
}

/// Whether the values' word has a true bit there: at this position of the variable's words, after which `rest` bits come.
fn is_true_at(values: &[Value], v: VarId, element: Option<i64>, rest: u32) -> bool {
    match values.get(v.0 as usize) {
        Some(Value::Bool(b)) => *b,
        Some(Value::Int(x)) => digit(i128::from(*x) - i128::from(least_of(v)), rest),
        Some(Value::Set(set)) => match element {
            Some(x) => set.has(x),
            None => false,
        },
        None => false,
    }
}

/// Whether the values' word has a true bit at this bit of the problem.
fn is_true_at_bit(layout: &Layout, values: &[Value], bit: u32) -> bool
    requires { bit < length layout.now.places }
{
    let (v, position) = layout.place(bit);
    let rest = layout.width(v) - 1 - position;
    is_true_at(values, v, layout.place_at(bit).element, rest)
}

/// Whether the set has the word of these values: restricted at each bit it is that of all words, or empty.
fn has_word(ops: &mut Ops, layout: &Layout, f: Ref, values: &[Value]) -> Result<bool, Stop>
    requires { IsLive (table ops.old.arena) f }
    ensures { (r : Ref) → IsLive (table ops.old.arena) r → IsLive (table ops.new.arena) r }
{
    let mut left = f;
    for bit in 0..layout.bits() {
        let value = is_true_at_bit(layout, values, bit);
        left = ops.restrict(left, bit, value)?;
    }
    Ok(matches!(left, Ref::One))
}

/// Whether the set has just the words of those values that satisfy the constraint.
fn agrees(
    alloc: Global,
    ops: &mut Ops,
    layout: &Layout,
    c: &Constraint,
    f: Ref,
) -> Result<bool, Stop>
    requires { IsLive (table ops.old.arena) f }
{
    for code in 0..768_u32 {
        let values = values(alloc, code)?;
        let has = has_word(ops, layout, f, values.as_slice())?;
        if has != holds(alloc, c, values.as_slice())? {
            return Ok(false);
        }
    }
    Ok(true)
}

/// Whether there is a diagram of the constraint, which agrees with it.
fn is_right(
    alloc: Global,
    ops: &mut Ops,
    layout: &Layout,
    p: &Problem,
    c: &Constraint,
) -> Result<bool, Stop>
    requires layout { layout.now.kinds ≡ p.now.kinds }
    requires limits { KeepsLimits p.now }
{
    match scalar_diagram(alloc, ops, layout, p, c)? {
        Some(f) => agrees(alloc, ops, layout, c, f),
        None => Ok(false),
    }
}

/// How many of the cases come before the first that is wrong.
fn right_cases(
    alloc: Global,
    relation: Relation,
    cases: &[[Argument; 3]],
    count: usize,
) -> Result<usize, Stop> {
    let p = problem(alloc, kinds(alloc)?)?;
    if !keeps_limits(alloc, &p)? {
        return Ok(0);
    }
    let layout = Layout::new(alloc, &p)?;
    let mut ops = Ops::new(alloc, 50_000, 64)?;
    for (i, case) in cases.iter().enumerate() {
        let c = constraint(alloc, relation, first_arguments(case, count))?;
        if !is_right(alloc, &mut ops, &layout, &p, &c)? {
            return Ok(i);
        }
    }
    Ok(cases.len())
}

/// The first two arguments, or all three.
fn first_arguments(case: &[Argument; 3], count: usize) -> &[Argument] {
    if count == 2 {
        &case[..2]
    } else {
        case.as_slice()
    }
}

const B: Argument = Argument::One(Given::Variable(0));

const D: Argument = Argument::One(Given::Variable(1));

const X: Argument = Argument::One(Given::Variable(2));

const Y: Argument = Argument::One(Given::Variable(3));

const I: Argument = Argument::One(Given::Variable(4));

const S: Argument = Argument::One(Given::Variable(5));

const TRUE: Argument = Argument::One(Given::Truth(true));

const FALSE: Argument = Argument::One(Given::Truth(false));

const NONE: Argument = Argument::Empty;

fn number(x: i64) -> Argument {
    Argument::One(Given::Number(x))
}

fn numbers(a: i64, b: i64, c: i64) -> Argument {
    Argument::Three(Given::Number(a), Given::Number(b), Given::Number(c))
}

fn pair(a: i64, b: i64) -> Argument {
    Argument::Two(Given::Number(a), Given::Number(b))
}

fn variables(a: u32, b: u32, c: u32) -> Argument {
    Argument::Three(Given::Variable(a), Given::Variable(b), Given::Variable(c))
}

/// Comparisons of two integers: variables, constants on either side, and a variable beside itself.
#[test]
fn compares_integers(rt: HostRuntime) -> Result<(), Fail> {
    let cases = [
        [X, Y, NONE],
        [X, I, NONE],
        [X, number(1), NONE],
        [number(0), Y, NONE],
        [X, X, NONE],
        [number(2), number(3), NONE],
    ];
    for relation in [
        Relation::IntEq,
        Relation::IntNe,
        Relation::IntLe,
        Relation::IntLt,
        Relation::IntAbs,
    ] {
        assert_eq!(rt; right_cases(rt.alloc(), relation, &cases, 2)?, 6);
    }
    Ok(())
}

/// Linear sums with a variable twice, a constant among the variables, and no term at all.
#[test]
fn adds_up_linear_sums(rt: HostRuntime) -> Result<(), Fail> {
    let cases = [
        [numbers(2, -1, 3), variables(2, 3, 2), number(4)],
        [numbers(1, 1, -2), variables(2, 3, 4), number(0)],
        [
            pair(2, -3),
            Argument::Two(Given::Variable(2), Given::Number(2)),
            number(-5),
        ],
        [
            pair(1, -1),
            Argument::Two(Given::Variable(3), Given::Variable(3)),
            number(0),
        ],
        [NONE, NONE, number(0)],
        [NONE, NONE, number(1)],
    ];
    for relation in [Relation::IntLinEq, Relation::IntLinLe, Relation::IntLinNe] {
        assert_eq!(rt; right_cases(rt.alloc(), relation, &cases, 3)?, 6);
    }
    Ok(())
}

/// Sums, products, the less and the greater of two integers.
#[test]
fn computes_with_integers(rt: HostRuntime) -> Result<(), Fail> {
    let cases = [
        [X, Y, I],
        [X, X, Y],
        [X, Y, X],
        [X, number(-2), Y],
        [number(2), number(1), X],
        [X, number(0), number(0)],
        [Y, Y, Y],
    ];
    for relation in [
        Relation::IntPlus,
        Relation::IntTimes,
        Relation::IntMin,
        Relation::IntMax,
    ] {
        assert_eq!(rt; right_cases(rt.alloc(), relation, &cases, 3)?, 7);
    }
    Ok(())
}

/// Comparisons of two Booleans.
#[test]
fn compares_booleans(rt: HostRuntime) -> Result<(), Fail> {
    let cases = [
        [B, D, NONE],
        [B, TRUE, NONE],
        [FALSE, D, NONE],
        [B, B, NONE],
        [TRUE, TRUE, NONE],
    ];
    for relation in [
        Relation::BoolEq,
        Relation::BoolLe,
        Relation::BoolLt,
        Relation::BoolNot,
    ] {
        assert_eq!(rt; right_cases(rt.alloc(), relation, &cases, 2)?, 5);
    }
    Ok(())
}

/// Operations on two Booleans.
#[test]
fn computes_with_booleans(rt: HostRuntime) -> Result<(), Fail> {
    let cases = [
        [B, D, B],
        [B, D, TRUE],
        [B, D, FALSE],
        [B, B, D],
        [B, TRUE, D],
        [FALSE, TRUE, D],
    ];
    for relation in [Relation::BoolAnd, Relation::BoolOr, Relation::BoolXor] {
        assert_eq!(rt; right_cases(rt.alloc(), relation, &cases, 3)?, 6);
    }
    Ok(())
}

/// Clauses, conjunctions and disjunctions, also of no Boolean, and Booleans as numbers.
#[test]
fn joins_booleans(rt: HostRuntime) -> Result<(), Fail> {
    let both = Argument::Two(Given::Variable(0), Given::Variable(1));
    let fixed = Argument::Three(Given::Variable(0), Given::Truth(true), Given::Variable(1));
    let with_false = Argument::Two(Given::Variable(0), Given::Truth(false));
    let clauses = [
        [both, NONE, NONE],
        [NONE, both, NONE],
        [with_false, both, NONE],
        [fixed, both, NONE],
        [NONE, NONE, NONE],
    ];
    assert_eq!(rt;
        right_cases(rt.alloc(), Relation::BoolClause, &clauses, 2)?,
        5
    );
    let cases = [
        [both, B, NONE],
        [both, TRUE, NONE],
        [fixed, D, NONE],
        [with_false, D, NONE],
        [NONE, B, NONE],
        [NONE, FALSE, NONE],
    ];
    for relation in [Relation::ArrayBoolAnd, Relation::ArrayBoolOr] {
        assert_eq!(rt; right_cases(rt.alloc(), relation, &cases, 2)?, 6);
    }
    let channels = [
        [B, Y, NONE],
        [TRUE, I, NONE],
        [D, number(2), NONE],
        [B, number(0), NONE],
    ];
    assert_eq!(rt;
        right_cases(rt.alloc(), Relation::Bool2Int, &channels, 2)?,
        4
    );
    Ok(())
}

/// Elements, with an index that is outside the array, constant, or an item.
#[test]
fn takes_elements(rt: HostRuntime) -> Result<(), Fail> {
    let mixed = Argument::Three(Given::Variable(2), Given::Number(3), Given::Variable(4));
    let integers = [
        [Y, mixed, I],
        [I, mixed, X],
        [X, mixed, X],
        [number(2), mixed, I],
        [number(0), mixed, I],
        [number(4), mixed, X],
        [Y, NONE, X],
        [I, variables(4, 4, 2), I],
    ];
    assert_eq!(rt;
        right_cases(rt.alloc(), Relation::ArrayIntElement, &integers, 3)?,
        8
    );
    let truths = Argument::Three(Given::Variable(0), Given::Truth(true), Given::Variable(1));
    let booleans = [
        [Y, truths, B],
        [I, truths, D],
        [number(2), truths, FALSE],
        [number(3), truths, B],
        [X, NONE, B],
    ];
    assert_eq!(rt;
        right_cases(rt.alloc(), Relation::ArrayBoolElement, &booleans, 3)?,
        5
    );
    Ok(())
}

/// Membership in a constant set and in a variable one.
#[test]
fn asks_for_elements(rt: HostRuntime) -> Result<(), Fail> {
    let cases = [
        [X, S, NONE],
        [Y, S, NONE],
        [number(3), S, NONE],
        [number(1), S, NONE],
        [X, Argument::One(Given::Elements(-2, 1)), NONE],
        [number(7), Argument::One(Given::Elements(7, 7)), NONE],
    ];
    assert_eq!(rt; right_cases(rt.alloc(), Relation::SetIn, &cases, 2)?, 6);
    Ok(())
}
