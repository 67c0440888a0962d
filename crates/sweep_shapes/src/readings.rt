//! Constraints that say the same by another relation.
ghost use Rattle.std.specs.Prelude.{◌≡◌, true, IfOk, IfSome, Some, MatchOption};
ghost use Rattle.set_meaning.specs.Rows.{FitsRow};
ghost use Rattle.set_meaning.specs.Relations.{IsScope};
ghost use Rattle.set_meaning.specs.declared.problems.Relation.TheVariants.{ArrayBoolAnd, ArrayBoolOr};
ghost use Rattle.sweep_shapes.specs.Slots.{AsksFor};
ghost use Rattle.sweep_shapes.specs.Readings.{IsItemAt, IsNoPlace, IsSaid, clause_of, equality_of, relates};

use crate::parts::{array_truth, pick, size};
use listed::Listed;
use set_meaning::{Arg, Constraint, Kind, Relation, Term, VarId};
use std::alloc::{AllocError, Global};

/// What is said of a constraint without a variable that names its truth value.
#[derive(Drop)]
pub(crate) enum Said {
    /// It never holds.
    Never,
    /// It says that the relation of another constraint has this truth value.
    By(Constraint, bool),
    /// It is read as it stands.
    Same,
}

/// What is said of the constraint: an element relation at a constant place is an equality, that all or that some are true
/// is a clause where the truth value is a constant, and no set has less than no elements.
pub(crate) fn said_of(
    alloc: Global,
    kinds: &[Kind],
    c: &Constraint,
    variables: &[VarId],
) -> Result<Said, AllocError>
    requires fits { FitsRow kinds.now c.now }
    requires scope { IsScope c.now variables.now }
    requires asks { AsksFor true c.now.reif }
    ensures { IfOk result (IsSaid kinds.now c.now variables.now) }
{
    match c.relation {
        Relation::SetCard => Ok(said_of_size(kinds, c, variables)),
        Relation::ArrayBoolAnd => said_of_all(alloc, kinds, c, variables),
        Relation::ArrayBoolOr => said_of_some(alloc, kinds, c, variables),
        _ => match equality_of(c.relation) {
            Some(equality) => said_of_item(alloc, kinds, c, variables, equality),
            None => Ok(Said::Same),
        },
    }
}

fn equality_of(relation: Relation) -> Option<Relation>
    ensures { result ≡ equality_of relation }
{
    match relation {
        Relation::ArraySetElement => Some(Relation::SetEq),
        Relation::ArrayIntElement => Some(Relation::IntEq),
        Relation::ArrayBoolElement => Some(Relation::BoolEq),
        _ => None,
    }
}

fn said_of_size(kinds: &[Kind], c: &Constraint, variables: &[VarId]) -> Said
    requires fits { FitsRow kinds.now c.now }
    requires scope { IsScope c.now variables.now }
    requires asks { AsksFor true c.now.reif }
    ensures { IsSaid kinds.now c.now variables.now result }
{
    match size(c) {
        Some((n, _set)) => {
            if n < 0 {
                return Said::Never;
            }
            Said::Same
        }
        None => Said::Same,
    }
}

fn said_of_all(
    alloc: Global,
    kinds: &[Kind],
    c: &Constraint,
    variables: &[VarId],
) -> Result<Said, AllocError>
    requires relation { c.now.relation ≡ ArrayBoolAnd }
    requires fits { FitsRow kinds.now c.now }
    requires scope { IsScope c.now variables.now }
    requires asks { AsksFor true c.now.reif }
    ensures { IfOk result (IsSaid kinds.now c.now variables.now) }
{
    match array_truth(c) {
        Some((items, truth)) => {
            let read = clause(alloc, &[], items)?;
            Ok(Said::By(read, !truth))
        }
        None => Ok(Said::Same),
    }
}

fn said_of_some(
    alloc: Global,
    kinds: &[Kind],
    c: &Constraint,
    variables: &[VarId],
) -> Result<Said, AllocError>
    requires relation { c.now.relation ≡ ArrayBoolOr }
    requires fits { FitsRow kinds.now c.now }
    requires scope { IsScope c.now variables.now }
    requires asks { AsksFor true c.now.reif }
    ensures { IfOk result (IsSaid kinds.now c.now variables.now) }
{
    match array_truth(c) {
        Some((items, truth)) => {
            let read = clause(alloc, items, &[])?;
            Ok(Said::By(read, truth))
        }
        None => Ok(Said::Same),
    }
}

fn said_of_item(
    alloc: Global,
    kinds: &[Kind],
    c: &Constraint,
    variables: &[VarId],
    equality: Relation,
) -> Result<Said, AllocError>
    requires relation { equality_of c.now.relation ≡ Some equality }
    requires fits { FitsRow kinds.now c.now }
    requires scope { IsScope c.now variables.now }
    requires asks { AsksFor true c.now.reif }
    ensures { IfOk result (IsSaid kinds.now c.now variables.now) }
{
    match pick(c) {
        Some((place, items, x)) => match item_at(items, place) {
            Some(item) => {
                let read = related(alloc, equality, item, x)?;
                Ok(Said::By(read, true))
            }
            None => Ok(Said::Never),
        },
        None => Ok(Said::Same),
    }
}

/// The item at the place, which counts from 1.
fn item_at(items: &[Term], place: i64) -> Option<&Term>
    ensures { MatchOption result (IsNoPlace items.now place) (λ t. IsItemAt items.now place t.now) }
{
    if place < 1 {
        return None;
    }
    items.get((place - 1) as usize)
}

/// The constraint that the two terms are in the relation.
fn related(
    alloc: Global,
    relation: Relation,
    first: &Term,
    second: &Term,
) -> Result<Constraint, AllocError>
    ensures { IfOk result (λ c. c ≡ relates relation first.now second.now) }
{
    let first = copy_of(alloc, first)?;
    let second = copy_of(alloc, second)?;
    let mut args = Vec::new(alloc);
    args.push(Arg::One(first))?;
    args.push(Arg::One(second))?;
    Ok(Constraint {
        relation,
        args: Listed::of(args),
        reif: None,
    })
}

/// The constraint that one of the first terms is true, or one of the others is false.
fn clause(alloc: Global, positive: &[Term], negative: &[Term]) -> Result<Constraint, AllocError>
    ensures { IfOk result (λ c. c ≡ clause_of positive.now negative.now) }
{
    let positive = copies_of(alloc, positive)?;
    let negative = copies_of(alloc, negative)?;
    let mut args = Vec::new(alloc);
    args.push(Arg::Many(positive))?;
    args.push(Arg::Many(negative))?;
    Ok(Constraint {
        relation: Relation::BoolClause,
        args: Listed::of(args),
        reif: None,
    })
}

fn copies_of(alloc: Global, terms: &[Term]) -> Result<Listed<Term>, AllocError>
    ensures { IfOk result (λ copies. copies ≡ terms.now) }
{
    let mut copies = Vec::new(alloc);
    for term in terms {
        let copy = copy_of(alloc, term)?;
        copies.push(copy)?;
    }
    Ok(Listed::of(copies))
}

fn copy_of(alloc: Global, term: &Term) -> Result<Term, AllocError>
    ensures { IfOk result (λ copy. copy ≡ term.now) }
{
    match term {
        Term::Const(value) => {
            let value = value.copy(alloc)?;
            Ok(Term::Const(value))
        }
        Term::Var(v) => Ok(Term::Var(*v)),
    }
}
