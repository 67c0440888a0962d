//! Every relation over small domains, with each truth value that it may name: what steps say, against a plain search for values.
//!
//! Variables 0 and 1 are Booleans, 2 is one of -2, 0, 1 and 3, 3 is one of -1, 0, 1 and 2, 4 is 1, 2 or 3, and 5, 6 and 7 are sets over 0
//! and 3, over 1 and 3, and over 0 and 1. Beside the constraint of a case a problem has one constraint on each variable, so that the case's
//! steps are taken under domains that are narrower and narrower.
ghost use Rattle.std.specs.Prelude.{◌≡◌, ◌<◌, Some, length, slice_get, OnOk};
ghost use Rattle.diagram_arena.specs.Table.{IsLive};
ghost use Rattle.diagram_arena.specs.Arena.{table};
ghost use Rattle.node_reclaim.specs.Growth.{Stays};
ghost use Rattle.problem_limits.specs.Limits.{KeepsLimits};
ghost use Rattle.exact_steps.specs.Domains.{AreDomains};
ghost use Rattle.propagators.specs.Compiled.{IsCompiled};

use crate::cases::{Argument, Case, Given, ints, narrow, problem, sets};
use bit_layout::Layout;
use diagram_arena::{Ref, Stop};
use diagram_ops::Ops;
use exact_steps::domains_stay_as_tables_grow;
use problem_limits::keeps_limits;
use propagators::{Compiled, compiled_stays, initial_domains_are_domains};
use set_meaning::{
    ConId, Constraint, Kind, Problem, Relation, Value, VarId, holds, in_kind, initial_values, scope,
};
use std::alloc::{AllocError, Global};
use std::test::Fail;

// ---- a plain search for values

/// The initial values of each variable, at most four, and which of them are in its domain: those of the first four digits of the mask.
#[derive(Drop)]
struct Plain {
    values: Vec<Vec<Value>>,
    masks: Vec<u32>,
}

fn digit(number: usize) -> u32 {
    match number {
        0 => 1,
        1 => 2,
        2 => 4,
        _ => 8,
    }
}

fn whole(count: usize) -> u32 {
    match count {
        0 => 0,
        1 => 1,
        2 => 3,
        3 => 7,
        _ => 15,
    }
}

fn all_values(alloc: Global, p: &Problem) -> Result<Plain, AllocError> {
    let mut values = Vec::new(alloc);
    let mut masks = Vec::new(alloc);
    for kind in p.kinds.items() {
        let initial = initial_values(alloc, kind)?;
        masks.push(whole(initial.len()))?;
        values.push(initial)?;
    }
    Ok(Plain { values, masks })
}

/// The codes of the ways to choose one of four values for each variable of the scope.
fn codes(scope: &[VarId]) -> u32 {
    let mut count = 1_u32;
    for _ in scope {
        count = count.saturating_mul(4);
    }
    count
}

/// The number of the value that the code chooses for a variable; that of the first where it is none of the scope's.
fn chosen(scope: &[VarId], v: usize, code: u32) -> usize {
    let mut rest = code;
    for u in scope {
        if u.0 as usize == v {
            return (rest % 4) as usize;
        }
        rest /= 4;
    }
    0
}

fn is_in(scope: &[VarId], v: usize) -> bool {
    for u in scope {
        if u.0 as usize == v {
            return true;
        }
    }
    false
}

/// The values that the code chooses; None where one of them is not in its variable's domain.
fn values_of(
    alloc: Global,
    plain: &Plain,
    scope: &[VarId],
    code: u32,
) -> Result<Option<Vec<Value>>, AllocError> {
    let mut values = Vec::new(alloc);
    for (v, (list, mask)) in plain.values.iter().zip(plain.masks.iter()).enumerate() {
        let number = chosen(scope, v, code);
        if is_in(scope, v) && mask & digit(number) == 0 {
            return Ok(None);
        }
        match list.get(number) {
            Some(value) => values.push(value.copy(alloc)?)?,
            None => return Ok(None),
        }
    }
    Ok(Some(values))
}

/// Whether the code chooses values in the domains that satisfy the constraint.
fn is_support(
    alloc: Global,
    plain: &Plain,
    c: &Constraint,
    scope: &[VarId],
    code: u32,
) -> Result<bool, AllocError> {
    match values_of(alloc, plain, scope, code)? {
        Some(values) => holds(alloc, c, values.as_slice()),
        None => Ok(false),
    }
}

fn is_satisfiable(
    alloc: Global,
    plain: &Plain,
    c: &Constraint,
    scope: &[VarId],
) -> Result<bool, AllocError> {
    for code in 0..codes(scope) {
        if is_support(alloc, plain, c, scope, code)? {
            return Ok(true);
        }
    }
    Ok(false)
}

/// The mask of the values of a variable that extend.
fn extending(
    alloc: Global,
    plain: &Plain,
    c: &Constraint,
    scope: &[VarId],
    v: usize,
) -> Result<u32, AllocError> {
    let mut mask = 0;
    for code in 0..codes(scope) {
        if is_support(alloc, plain, c, scope, code)? {
            mask |= digit(chosen(scope, v, code));
        }
    }
    Ok(mask)
}

/// The masks after the exact step.
fn masks_after(
    alloc: Global,
    plain: &Plain,
    c: &Constraint,
    scope: &[VarId],
) -> Result<Vec<u32>, AllocError> {
    let mut masks = Vec::new(alloc);
    for (v, mask) in plain.masks.iter().enumerate() {
        if is_in(scope, v) {
            masks.push(extending(alloc, plain, c, scope, v)?)?;
        } else {
            masks.push(*mask)?;
        }
    }
    Ok(masks)
}

/// At how many places the lists differ.
fn changed(before: &[u32], after: &[u32]) -> usize {
    let mut count = 0_usize;
    for (first, second) in before.iter().zip(after) {
        if first != second {
            count = count.saturating_add(1);
        }
    }
    count
}

// ---- the values of a diagram

/// Whether the diagram, which is one over the bits of this variable, has the word of the value.
fn has_value(
    alloc: Global,
    ops: &mut Ops,
    layout: &Layout,
    kind: &Kind,
    v: VarId,
    r: Ref,
    value: &Value,
) -> Result<bool, Stop>
    requires kind { slice_get layout.now.kinds v.0 ≡ Some kind.now }
    requires live { IsLive (table ops.old.arena) r }
    ensures { Stays ops.old ops.new }
{
    // What holds of every pool.
    let _ = ops.pool();
    if !in_kind(kind, value) {
        return Ok(false);
    }
    let word = layout.word_of(alloc, v, value)?;
    let mut left = r;
    for (bit, digit) in layout.bits_of(v).iter().zip(word.iter()) {
        left = ops.restrict(left, *bit, *digit)?;
    }
    Ok(matches!(left, Ref::One))
}

/// The mask of the initial values that a variable's domain has.
fn mask_of(
    alloc: Global,
    ops: &mut Ops,
    layout: &Layout,
    kind: &Kind,
    v: VarId,
    r: Ref,
) -> Result<u32, Stop>
    requires kind { slice_get layout.now.kinds v.0 ≡ Some kind.now }
    requires live { IsLive (table ops.old.arena) r }
    ensures { Stays ops.old ops.new }
{
    // What holds of every pool.
    let _ = ops.pool();
    let mut mask = 0;
    for (number, value) in initial_values(alloc, kind)?.iter().enumerate() {
        if has_value(alloc, ops, layout, kind, v, r, value)? {
            mask |= digit(number);
        }
    }
    Ok(mask)
}

/// The masks of all domains.
fn masks_of(
    alloc: Global,
    ops: &mut Ops,
    layout: &Layout,
    p: &Problem,
    domains: &[Ref],
) -> Result<Vec<u32>, Stop>
    requires kinds { layout.now.kinds ≡ p.now.kinds }
    requires limits { KeepsLimits p.now }
    requires domains { AreDomains layout.now (table ops.old.arena) domains.now }
    ensures { Stays ops.old ops.new }
{
    // What holds of every pool.
    let _ = ops.pool();
    let mut masks = Vec::new(alloc);
    for (v, kind) in p.kinds.items().iter().enumerate() {
        let mask = mask_of(alloc, ops, layout, kind, VarId(v as u32), domains[v])?;
        push(&mut masks, mask)?;
    }
    Ok(masks)
}

fn push(masks: &mut Vec<u32>, mask: u32) -> Result<(), AllocError> {
    masks.push(mask)?;
    Ok(())
}

// ---- steps

/// Whether the step of a constraint says what the plain search finds. The domains, in both forms, are those after it.
fn is_step_right(
    alloc: Global,
    ops: &mut Ops,
    layout: &Layout,
    p: &Problem,
    compiled: &Compiled,
    number: u32,
    domains: &mut Vec<Ref>,
    plain: &mut Plain,
) -> Result<bool, Stop>
    requires limits { KeepsLimits p.now }
    requires compiled { IsCompiled layout.now p.now (table ops.old.arena) compiled.now }
    requires number { number < length p.now.constraints }
    requires domains { AreDomains layout.now (table ops.old.arena) domains.old.items }
    ensures stays { Stays ops.old ops.new }
    ensures domains { OnOk result (AreDomains layout.now (table ops.new.arena) domains.new.items) }
{
    // What holds of every pool, and of domains.
    let _ = ops.pool();
    domains_stay_as_tables_grow();
    let c = &p.constraints.items()[number as usize];
    let variables = scope(alloc, c)?;
    let satisfiable = is_satisfiable(alloc, plain, c, variables.as_slice())?;
    let wanted = masks_after(alloc, plain, c, variables.as_slice())?;
    match narrow(alloc, ops, layout, p, compiled, ConId(number), domains)? {
        Some(count) => {
            let masks = masks_of(alloc, ops, layout, p, domains.as_slice())?;
            let right = satisfiable
                && masks.as_slice() == wanted.as_slice()
                && count == changed(plain.masks.as_slice(), wanted.as_slice());
            plain.masks = wanted;
            Ok(right)
        }
        None => Ok(!satisfiable),
    }
}

/// Whether the first constraint's step is right as the domains become narrower by one further constraint after another, and so is theirs.
fn are_steps_right(
    alloc: Global,
    ops: &mut Ops,
    layout: &Layout,
    p: &Problem,
    compiled: &Compiled,
) -> Result<bool, Stop>
    requires limits { KeepsLimits p.now }
    requires compiled { IsCompiled layout.now p.now (table ops.old.arena) compiled.now }
    ensures { Stays ops.old ops.new }
{
    // What holds of every pool.
    let _ = ops.pool();
    initial_domains_are_domains();
    compiled_stays();
    let mut domains = Vec::from_slice(alloc, compiled.start())?;
    let mut plain = all_values(alloc, p)?;
    for number in 0..p.constraints.items().len() as u32 {
        if !is_step_right(
            alloc,
            ops,
            layout,
            p,
            compiled,
            number,
            &mut domains,
            &mut plain,
        )? {
            return Ok(false);
        }
        if !is_step_right(alloc, ops, layout, p, compiled, 0, &mut domains, &mut plain)? {
            return Ok(false);
        }
    }
    Ok(true)
}

fn kinds(alloc: Global) -> Result<Vec<Kind>, AllocError> {
    let first = ints(alloc, &[-2, 0, 1, 3])?;
    let second = ints(alloc, &[-1, 0, 1, 2])?;
    let third = ints(alloc, &[1, 2, 3])?;
    let mut kinds = vec![in alloc; Kind::Bool, Kind::Bool, first, second, third]?;
    for elements in [[0, 3], [1, 3], [0, 1]] {
        kinds.push(sets(alloc, elements.as_slice())?)?;
    }
    Ok(kinds)
}

/// The constraint of a case, and one constraint on each variable.
fn cases_with(case: Case) -> [Case; 9] {
    [
        case,
        (Relation::IntNe, [X, number(1), END], None),
        (Relation::SetSubset, [S, elements(3, 4), END], None),
        (Relation::SetIn, [Y, elements(-1, 2), END], None),
        (
            Relation::SetNe,
            [T, Argument::One(Given::Nothing), END],
            None,
        ),
        (Relation::IntLe, [I, number(2), END], None),
        (Relation::SetCard, [U, number(1), END], None),
        (Relation::BoolEq, [D, TRUE, END], None),
        (Relation::BoolNot, [B, D, END], None),
    ]
}

/// Whether all steps of a problem with this constraint are right.
fn is_right(alloc: Global, case: Case) -> Result<bool, Stop> {
    let cases = cases_with(case);
    let p = problem(alloc, kinds(alloc)?, &cases)?;
    if !keeps_limits(alloc, &p)? {
        return Ok(false);
    }
    let layout = Layout::new(alloc, &p)?;
    let mut ops = Ops::new(alloc, 50_000, 64)?;
    let compiled = Compiled::new(alloc, &p, &layout, &mut ops)?;
    let answer = are_steps_right(alloc, &mut ops, &layout, &p, &compiled);
    compiled.release(&mut ops);
    answer
}

/// How many of the cases come before the first that is wrong, with no truth value, and with each of these.
fn right_cases(
    alloc: Global,
    relation: Relation,
    cases: &[[Argument; 3]],
    truths: &[Given],
) -> Result<usize, Stop> {
    for (i, case) in cases.iter().enumerate() {
        if !is_right(alloc, (relation, *case, None))? {
            return Ok(i);
        }
        for truth in truths {
            if !is_right(alloc, (relation, *case, Some(*truth)))? {
                return Ok(i);
            }
        }
    }
    Ok(cases.len())
}

const B: Argument = Argument::One(Given::Variable(0));

const D: Argument = Argument::One(Given::Variable(1));

const X: Argument = Argument::One(Given::Variable(2));

const Y: Argument = Argument::One(Given::Variable(3));

const I: Argument = Argument::One(Given::Variable(4));

const S: Argument = Argument::One(Given::Variable(5));

const T: Argument = Argument::One(Given::Variable(6));

const U: Argument = Argument::One(Given::Variable(7));

const TRUE: Argument = Argument::One(Given::Truth(true));

const FALSE: Argument = Argument::One(Given::Truth(false));

const NONE: Argument = Argument::Empty;

const END: Argument = Argument::Absent;

/// The truth values that a constraint may name: two variables and both constants.
const TRUTHS: [Given; 4] = [
    Given::Variable(0),
    Given::Variable(1),
    Given::Truth(true),
    Given::Truth(false),
];

fn number(x: i64) -> Argument {
    Argument::One(Given::Number(x))
}

fn numbers(a: i64, b: i64, c: i64) -> Argument {
    Argument::Three(Given::Number(a), Given::Number(b), Given::Number(c))
}

fn pair(a: i64, b: i64) -> Argument {
    Argument::Two(Given::Number(a), Given::Number(b))
}

fn elements(a: i64, b: i64) -> Argument {
    Argument::One(Given::Elements(a, b))
}

fn variables(a: u32, b: u32, c: u32) -> Argument {
    Argument::Three(Given::Variable(a), Given::Variable(b), Given::Variable(c))
}

/// Comparisons of two integers: variables, constants on either side, a variable beside itself, and no variable at all.
#[test]
fn compares_integers(rt: HostRuntime) -> Result<(), Fail> {
    let cases = [
        [X, Y, END],
        [number(0), Y, END],
        [X, X, END],
        [number(2), number(3), END],
    ];
    for relation in [
        Relation::IntEq,
        Relation::IntNe,
        Relation::IntLe,
        Relation::IntLt,
    ] {
        assert_eq!(rt; right_cases(rt.alloc(), relation, &cases, &TRUTHS)?, 4);
    }
    assert_eq!(rt; right_cases(rt.alloc(), Relation::IntAbs, &cases, &[])?, 4);
    Ok(())
}

/// Linear sums with a variable twice, a constant among the variables, and no term at all.
#[test]
fn adds_up_linear_sums(rt: HostRuntime) -> Result<(), Fail> {
    let cases = [
        [numbers(2, -1, 3), variables(2, 3, 2), number(4)],
        [
            pair(2, -3),
            Argument::Two(Given::Variable(2), Given::Number(2)),
            number(-4),
        ],
        [NONE, NONE, number(0)],
        [NONE, NONE, number(1)],
    ];
    for relation in [Relation::IntLinEq, Relation::IntLinLe, Relation::IntLinNe] {
        assert_eq!(rt; right_cases(rt.alloc(), relation, &cases, &TRUTHS)?, 4);
    }
    Ok(())
}

/// Sums, products, the less and the greater of two integers, and elements of arrays of them.
#[test]
fn computes_with_integers(rt: HostRuntime) -> Result<(), Fail> {
    let cases = [
        [X, Y, I],
        [X, X, Y],
        [X, number(-2), Y],
        [number(2), number(1), X],
    ];
    for relation in [
        Relation::IntPlus,
        Relation::IntTimes,
        Relation::IntMin,
        Relation::IntMax,
    ] {
        assert_eq!(rt; right_cases(rt.alloc(), relation, &cases, &[])?, 4);
    }
    let mixed = Argument::Three(Given::Variable(2), Given::Number(3), Given::Variable(4));
    let elements = [
        [Y, mixed, I],
        [X, mixed, X],
        [number(4), mixed, X],
        [Y, NONE, X],
    ];
    let relation = Relation::ArrayIntElement;
    assert_eq!(rt; right_cases(rt.alloc(), relation, &elements, &[])?, 4);
    Ok(())
}

/// Comparisons of two Booleans.
#[test]
fn compares_booleans(rt: HostRuntime) -> Result<(), Fail> {
    let cases = [
        [B, D, END],
        [B, TRUE, END],
        [FALSE, D, END],
        [B, B, END],
        [TRUE, TRUE, END],
    ];
    for relation in [Relation::BoolEq, Relation::BoolLe, Relation::BoolLt] {
        assert_eq!(rt; right_cases(rt.alloc(), relation, &cases, &TRUTHS)?, 5);
    }
    assert_eq!(rt; right_cases(rt.alloc(), Relation::BoolNot, &cases, &[])?, 5);
    Ok(())
}

/// Operations on Booleans, clauses, Booleans as numbers, and elements of arrays of them.
#[test]
fn computes_with_booleans(rt: HostRuntime) -> Result<(), Fail> {
    let cases = [[B, D, B], [B, D, FALSE], [B, TRUE, D], [FALSE, TRUE, D]];
    for relation in [Relation::BoolAnd, Relation::BoolOr, Relation::BoolXor] {
        assert_eq!(rt; right_cases(rt.alloc(), relation, &cases, &[])?, 4);
    }
    let both = Argument::Two(Given::Variable(0), Given::Variable(1));
    let with_false = Argument::Two(Given::Variable(0), Given::Truth(false));
    let clauses = [
        [NONE, both, END],
        [with_false, both, END],
        [NONE, NONE, END],
    ];
    let relation = Relation::BoolClause;
    assert_eq!(rt; right_cases(rt.alloc(), relation, &clauses, &[])?, 3);
    let arrays = [[both, B, END], [with_false, D, END], [NONE, FALSE, END]];
    for relation in [Relation::ArrayBoolAnd, Relation::ArrayBoolOr] {
        assert_eq!(rt; right_cases(rt.alloc(), relation, &arrays, &[])?, 3);
    }
    let channels = [[B, Y, END], [TRUE, I, END], [D, number(2), END]];
    assert_eq!(rt;
        right_cases(rt.alloc(), Relation::Bool2Int, &channels, &[])?,
        3
    );
    let truths = Argument::Three(Given::Variable(0), Given::Truth(true), Given::Variable(1));
    let elements = [[Y, truths, B], [number(2), truths, FALSE], [X, NONE, B]];
    let relation = Relation::ArrayBoolElement;
    assert_eq!(rt; right_cases(rt.alloc(), relation, &elements, &[])?, 3);
    Ok(())
}

/// Relations of two sets, and of an integer and a set.
#[test]
fn compares_sets(rt: HostRuntime) -> Result<(), Fail> {
    let cases = [
        [S, T, END],
        [S, elements(0, 0), END],
        [elements(1, 3), U, END],
        [T, T, END],
        [elements(0, 1), elements(0, 3), END],
    ];
    for relation in [
        Relation::SetEq,
        Relation::SetNe,
        Relation::SetLt,
        Relation::SetLe,
        Relation::SetSubset,
        Relation::SetSuperset,
    ] {
        assert_eq!(rt; right_cases(rt.alloc(), relation, &cases, &TRUTHS)?, 5);
    }
    let members = [
        [X, S, END],
        [number(3), T, END],
        [number(5), S, END],
        [Y, elements(-2, 1), END],
        [number(7), elements(7, 7), END],
    ];
    assert_eq!(rt;
        right_cases(rt.alloc(), Relation::SetIn, &members, &TRUTHS)?,
        5
    );
    Ok(())
}

/// Operations on sets, how many elements they have, and elements of arrays of them.
#[test]
fn computes_with_sets(rt: HostRuntime) -> Result<(), Fail> {
    let cases = [
        [S, T, U],
        [S, S, T],
        [S, elements(0, 1), U],
        [elements(1, 3), T, S],
    ];
    for relation in [
        Relation::SetUnion,
        Relation::SetIntersect,
        Relation::SetDiff,
        Relation::SetSymdiff,
    ] {
        assert_eq!(rt; right_cases(rt.alloc(), relation, &cases, &[])?, 4);
    }
    let sizes = [
        [S, Y, END],
        [T, number(1), END],
        [elements(0, 3), X, END],
        [U, number(3), END],
    ];
    assert_eq!(rt; right_cases(rt.alloc(), Relation::SetCard, &sizes, &[])?, 4);
    let mixed = Argument::Three(
        Given::Variable(5),
        Given::Elements(1, 1),
        Given::Variable(6),
    );
    let elements = [[Y, mixed, U], [number(2), mixed, T], [X, NONE, S]];
    let relation = Relation::ArraySetElement;
    assert_eq!(rt; right_cases(rt.alloc(), relation, &elements, &[])?, 3);
    Ok(())
}
