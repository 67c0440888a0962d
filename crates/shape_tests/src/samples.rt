//! Problems and constraints in a short form, and their diagrams.
ghost use Rattle.std.specs.Prelude.{◌≡◌, ◌<◌, IsTrue, IfOk, IfSome, All, length};
ghost use Rattle.set_meaning.specs.declared.problems.VarId.{VarId as Variable};
ghost use Rattle.diagram_arena.specs.Table.{IsLive};
ghost use Rattle.diagram_arena.specs.Arena.{table};
ghost use Rattle.set_meaning.specs.Rows.{FitsRow};
ghost use Rattle.problem_limits.specs.Limits.{KeepsLimits};
ghost use Rattle.scope_words.specs.Words.{variables_in, HaveFewBits};

use bit_layout::Layout;
use card_diagram::{card_shape, is_card_shape};
use diagram_arena::{Ref, Stop};
use diagram_ops::Ops;
use int_channel::{is_scalar_shape, scalar_shape};
use listed::Listed;
use problem_limits::{are_within_limits, is_within_limits};
use scope_words::{have_few_bits, variables_in};
use set_meaning::{
    Arg, Constraint, Goal, Kind, Problem, Relation, SetValue, Shown, Term, Value, VarId, fits_row,
};
use set_shapes::{is_set_shape, set_shape};
use std::alloc::{AllocError, Global};

pub(crate) fn problem(alloc: Global, kinds: Vec<Kind>) -> Result<Problem, AllocError>
    ensures { IfOk result (λ p. p.kinds ≡ kinds.items) }
{
    let mut names = Vec::new(alloc);
    for _ in 0..kinds.len() {
        names.push(Listed::of(Vec::new(alloc)))?;
    }
    let constraints: Vec<Constraint> = Vec::new(alloc);
    let shown: Vec<Shown> = Vec::new(alloc);
    Ok(Problem {
        kinds: Listed::of(kinds),
        names: Listed::of(names),
        constraints: Listed::of(constraints),
        goal: Goal::Satisfy,
        shown: Listed::of(shown),
    })
}

/// A term in a table of cases; a set is that of two elements, which may be one.
#[derive(Clone, Copy)]
pub(crate) enum Given {
    Variable(u32),
    Truth(bool),
    Number(i64),
    Elements(i64, i64),
}

/// An argument in a table of cases: one term, or an array of none, of two or of three.
#[derive(Clone, Copy)]
pub(crate) enum Argument {
    One(Given),
    Empty,
    Two(Given, Given),
    Three(Given, Given, Given),
}

pub(crate) fn term(alloc: Global, given: Given) -> Result<Term, AllocError> {
    match given {
        Given::Variable(v) => Ok(Term::Var(VarId(v))),
        Given::Truth(b) => Ok(Term::Const(Value::Bool(b))),
        Given::Number(x) => Ok(Term::Const(Value::Int(x))),
        Given::Elements(first, second) => {
            let elements = [first, second];
            let set = SetValue::from_list(alloc, &elements)?;
            Ok(Term::Const(Value::Set(set)))
        }
    }
}

pub(crate) fn many(alloc: Global, terms: &[Given]) -> Result<Arg, AllocError> {
    let mut items = Vec::new(alloc);
    for given in terms {
        items.push(term(alloc, *given)?)?;
    }
    Ok(Arg::Many(Listed::of(items)))
}

fn arg(alloc: Global, argument: Argument) -> Result<Arg, AllocError> {
    match argument {
        Argument::One(given) => Ok(Arg::One(term(alloc, given)?)),
        Argument::Empty => many(alloc, &[]),
        Argument::Two(first, second) => many(alloc, &[first, second]),
        Argument::Three(first, second, third) => many(alloc, &[first, second, third]),
    }
}

pub(crate) fn constraint(
    alloc: Global,
    relation: Relation,
    arguments: &[Argument],
) -> Result<Constraint, AllocError> {
    let mut args = Vec::new(alloc);
    for argument in arguments {
        args.push(arg(alloc, *argument)?)?;
    }
    Ok(Constraint {
        relation,
        args: Listed::of(args),
        reif: None,
    })
}

/// A constraint whose arguments are one term each.
pub(crate) fn one_terms(
    alloc: Global,
    relation: Relation,
    terms: &[Given],
) -> Result<Constraint, AllocError> {
    let mut args = Vec::new(alloc);
    for given in terms {
        args.push(Arg::One(term(alloc, *given)?))?;
    }
    Ok(Constraint {
        relation,
        args: Listed::of(args),
        reif: None,
    })
}

/// A set, by its universe.
pub(crate) fn sets(alloc: Global, universe: &[i64]) -> Result<Kind, AllocError> {
    Ok(Kind::Set(SetValue::from_list(alloc, universe)?))
}

/// An integer, by its values.
pub(crate) fn ints(alloc: Global, numbers: &[i64]) -> Result<Kind, AllocError> {
    Ok(Kind::Int(SetValue::from_list(alloc, numbers)?))
}

/// The layout of the problem. A sample beyond the limits fails its test.
pub(crate) fn layout_of(alloc: Global, p: &Problem) -> Result<Layout, AllocError>
    ensures { IfOk result (λ layout. layout.kinds ≡ p.now.kinds) }
{
    if !are_within_limits(p.kinds.items()) {
        return Err(AllocError);
    }
    Layout::new(alloc, p)
}

/// Whether these are variables of a problem with these kinds.
fn are_known(kinds: &[Kind], variables: &[VarId]) -> bool
    ensures { IsTrue result → All (λ (v : Variable). v.0 < length kinds.now) variables.now }
{
    variables.iter().all(|v| (v.0 as usize) < kinds.len())
}

/// Whether the variables of the constraint are the problem's, and have few bits.
fn is_narrow(
    alloc: Global,
    layout: &Layout,
    p: &Problem,
    c: &Constraint,
) -> Result<bool, AllocError>
    requires { layout.now.kinds ≡ p.now.kinds }
    ensures { IfOk result (λ narrow. IsTrue narrow → HaveFewBits layout.now (variables_in c.now.args)) }
{
    let variables = variables_in(alloc, c.args.items())?;
    if !are_known(p.kinds.items(), variables.as_slice()) {
        return Ok(false);
    }
    have_few_bits(alloc, layout, variables.as_slice())
}

/// The diagram of the constraint, if it has the arguments of a relation of sets.
pub(crate) fn set_diagram(
    alloc: Global,
    ops: &mut Ops,
    layout: &Layout,
    p: &Problem,
    c: &Constraint,
) -> Result<Option<Ref>, Stop>
    requires { layout.now.kinds ≡ p.now.kinds }
    ensures { IfOk result (λ r. IfSome r (IsLive (table ops.new.arena))) }
{
    if !is_set_shape(c.relation) {
        return Ok(None);
    }
    if !fits_row(p.kinds.items(), c) {
        return Ok(None);
    }
    if !is_narrow(alloc, layout, p, c)? {
        return Ok(None);
    }
    let r = set_shape(alloc, ops, layout, p, c)?;
    Ok(Some(r))
}

/// The diagram of the constraint, if it is a cardinality with its arguments.
pub(crate) fn cardinality_diagram(
    alloc: Global,
    ops: &mut Ops,
    layout: &Layout,
    p: &Problem,
    c: &Constraint,
) -> Result<Option<Ref>, Stop>
    requires { layout.now.kinds ≡ p.now.kinds }
    ensures { IfOk result (λ r. IfSome r (IsLive (table ops.new.arena))) }
{
    if !is_card_shape(c.relation) {
        return Ok(None);
    }
    if !fits_row(p.kinds.items(), c) {
        return Ok(None);
    }
    if !is_narrow(alloc, layout, p, c)? {
        return Ok(None);
    }
    let r = card_shape(alloc, ops, layout, p, c)?;
    Ok(Some(r))
}

/// The diagram of the constraint, if it has the arguments of a relation of integers and Booleans, or of membership.
pub(crate) fn scalar_diagram(
    alloc: Global,
    ops: &mut Ops,
    layout: &Layout,
    p: &Problem,
    c: &Constraint,
) -> Result<Option<Ref>, Stop>
    requires layout { layout.now.kinds ≡ p.now.kinds }
    requires limits { KeepsLimits p.now }
    ensures { IfOk result (λ r. IfSome r (IsLive (table ops.new.arena))) }
{
    if !is_scalar_shape(c.relation) {
        return Ok(None);
    }
    if !fits_row(p.kinds.items(), c) {
        return Ok(None);
    }
    if !is_within_limits(alloc, p.kinds.items(), c)? {
        return Ok(None);
    }
    if !is_narrow(alloc, layout, p, c)? {
        return Ok(None);
    }
    let r = scalar_shape(alloc, ops, layout, p, c)?;
    Ok(Some(r))
}
