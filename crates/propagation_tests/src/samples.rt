//! Three set variables, each over the element 1, and their value sets by number: 1 has the empty set, 2 has the set with
//! the element, 3 has both.
ghost use Rattle.std.specs.Prelude.{◌≡◌, ◌<◌, IfOk, length, All};
ghost use Rattle.set_meaning.specs.declared.kinds.Kind.TheVariants as variants;
ghost use Rattle.set_meaning.specs.Sets.{ascending_set};
ghost use Rattle.bit_layout.specs.Limits.{AreWithinLimits};
ghost use Rattle.diagram_arena.specs.Arena.{table};
ghost use Rattle.node_reclaim.specs.Growth.{Stays};
ghost use Rattle.scope_words.specs.Words.{IsSetKind};
ghost use Rattle.value_sets.specs.Sets.{IsValueSet};

use bit_layout::Layout;
use diagram_arena::{Ref, Stop};
use diagram_ops::Ops;
use listed::Listed;
use set_meaning::{
    Arg, Constraint, Goal, Kind, Problem, Relation, SetValue, Shown, Term, Text, Value, VarId,
};
use std::alloc::{AllocError, Global};

/// A term of a constraint: a variable, or the set with the element or without it.
#[derive(Clone, Copy)]
pub(crate) enum Given {
    Variable(u32),
    Full,
    Empty,
}

/// A relation of two terms.
pub(crate) type Case = (Relation, Given, Given);

fn sets(alloc: Global, universe: &[i64]) -> Result<Kind, AllocError>
    ensures { IfOk result (λ kind. kind ≡ variants.Set (ascending_set universe.now)) }
{
    Ok(Kind::Set(SetValue::from_list(alloc, universe)?))
}

fn kinds(alloc: Global) -> Result<Vec<Kind>, AllocError>
    ensures limits { IfOk result (λ kinds. AreWithinLimits kinds.items) }
    ensures sets { IfOk result (λ kinds. All IsSetKind kinds.items) }
    ensures three { IfOk result (λ kinds. length kinds.items ≡ 3) }
{
    let first = sets(alloc, [1].as_slice())?;
    let second = sets(alloc, [1].as_slice())?;
    let third = sets(alloc, [1].as_slice())?;
    let kinds = vec![in alloc; first, second, third]?;
    Ok(kinds)
}

fn argument(alloc: Global, given: Given) -> Result<Arg, AllocError> {
    let term = match given {
        Given::Variable(v) => Term::Var(VarId(v)),
        Given::Full => Term::Const(Value::Set(SetValue::from_list(alloc, [1].as_slice())?)),
        Given::Empty => Term::Const(Value::Set(SetValue::from_list(alloc, [].as_slice())?)),
    };
    Ok(Arg::One(term))
}

fn constraint(alloc: Global, case: Case) -> Result<Constraint, AllocError> {
    let (relation, first, second) = case;
    let mut args = Vec::new(alloc);
    args.push(argument(alloc, first)?)?;
    args.push(argument(alloc, second)?)?;
    Ok(Constraint {
        relation,
        args: Listed::of(args),
        reif: None,
    })
}

fn constraints(alloc: Global, cases: &[Case]) -> Result<Vec<Constraint>, AllocError> {
    let mut constraints = Vec::new(alloc);
    for case in cases {
        constraints.push(constraint(alloc, *case)?)?;
    }
    Ok(constraints)
}

/// The problem of the three variables with these constraints.
pub(crate) fn problem(alloc: Global, cases: &[Case]) -> Result<Problem, AllocError>
    ensures sets { IfOk result (λ p. All IsSetKind p.kinds) }
    ensures three { IfOk result (λ p. length p.kinds ≡ 3) }
{
    let kinds = kinds(alloc)?;
    let mut names: Vec<Text> = Vec::new(alloc);
    for _ in 0..3 {
        names.push(Listed::of(Vec::new(alloc)))?;
    }
    let shown: Vec<Shown> = Vec::new(alloc);
    Ok(Problem {
        kinds: Listed::of(kinds),
        names: Listed::of(names),
        constraints: Listed::of(constraints(alloc, cases)?),
        goal: Goal::Satisfy,
        shown: Listed::of(shown),
    })
}

/// The value set of this number.
pub(crate) fn set_of(ops: &mut Ops, layout: &Layout, v: VarId, number: u8) -> Result<Ref, Stop>
    requires known { v.0 < length layout.now.kinds }
    requires sets { All IsSetKind layout.now.kinds }
    ensures set { IfOk result (IsValueSet layout.now (table ops.new.arena) v) }
    ensures stays { Stays ops.old ops.new }
{
    // What holds of every layout and every pool.
    layout.obeys_order();
    let _ = ops.pool();
    match number {
        0 => Ok(Ref::Zero),
        1 => literal(ops, layout, v, false),
        2 => literal(ops, layout, v, true),
        _ => Ok(Ref::One),
    }
}

/// The sets that have the element, or those that do not have it.
fn literal(ops: &mut Ops, layout: &Layout, v: VarId, has: bool) -> Result<Ref, Stop>
    requires known { v.0 < length layout.now.kinds }
    requires sets { All IsSetKind layout.now.kinds }
    ensures set { IfOk result (IsValueSet layout.now (table ops.new.arena) v) }
    ensures stays { Stays ops.old ops.new }
{
    // What holds of every layout and every pool.
    layout.obeys_order();
    let _ = ops.pool();
    if layout.width(v) == 0 {
        return Ok(Ref::One);
    }
    ops.literal(layout.bit(v, 0), has)
}
