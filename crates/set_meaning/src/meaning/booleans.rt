//! The relations of Booleans.

ghost use Rattle.std.specs.Prelude.{◌↔◌, IsTrue, IsFalse, IfOk, All, Any};
ghost use Rattle.set_meaning.specs.Arguments.{bool_of as one_bool, int_of as one_int, bools_of as all_bools, OfTwoArgs, OfTwoBools, OfThreeBools};
ghost use Rattle.set_meaning.specs.Booleans.{IsClause, IsNumberOf};
ghost use Rattle.set_meaning.specs.Comparisons.{CompareBools};
ghost use Rattle.set_meaning.specs.Operations.{IsBoolResult};

use crate::kinds::Value;
use crate::meaning::comparison::Comparison;
use crate::meaning::terms::{bool_of, bools_of, int_of};
use crate::problems::Arg;
use std::alloc::{AllocError, Global};

/// An operation on two Booleans.
#[derive(Clone, Copy)]
pub(super) enum BoolOperation {
    And,
    Or,
    Xor,
}

impl BoolOperation {
    /// Whether `c` is the result of the operation on `a` and `b`.
    fn gives(self, a: bool, b: bool, c: bool) -> bool
        ensures { IsTrue result ↔ IsBoolResult self a b c }
    {
        match self {
            BoolOperation::And => c == (a && b),
            BoolOperation::Or => c == (a || b),
            BoolOperation::Xor => c == (a != b),
        }
    }
}

/// Whether the arguments are two Booleans that compare so.
pub(super) fn compared(comparison: Comparison, args: &[Arg], values: &[Value]) -> bool
    ensures { IsTrue result ↔ OfTwoBools (CompareBools comparison) args.now values.now }
{
    match args {
        [a, b] => match (bool_of(a, values), bool_of(b, values)) {
            (Some(a), Some(b)) => comparison.of_bools(a, b),
            _ => false,
        },
        _ => false,
    }
}

/// Whether the arguments are three Booleans, and the third is the operation's result on the others.
pub(super) fn computed(operation: BoolOperation, args: &[Arg], values: &[Value]) -> bool
    ensures { IsTrue result ↔ OfThreeBools (IsBoolResult operation) args.now values.now }
{
    match args {
        [a, b, c] => match (bool_of(a, values), bool_of(b, values), bool_of(c, values)) {
            (Some(a), Some(b), Some(c)) => operation.gives(a, b, c),
            _ => false,
        },
        _ => false,
    }
}

/// Whether the arguments are a Boolean and its number.
pub(super) fn number(args: &[Arg], values: &[Value]) -> bool
    ensures { IsTrue result ↔ OfTwoArgs (one_bool values.now) (one_int values.now) IsNumberOf args.now }
{
    match args {
        [a, b] => match (bool_of(a, values), int_of(b, values)) {
            (Some(a), Some(b)) => is_number_of(a, b),
            _ => false,
        },
        _ => false,
    }
}

fn is_number_of(a: bool, b: i64) -> bool
    ensures { IsTrue result ↔ IsNumberOf a b }
{
    if a { b == 1 } else { b == 0 }
}

/// Whether the arguments are two arrays of Booleans, with a true one in the first or a false one in the second.
pub(super) fn clause(alloc: Global, args: &[Arg], values: &[Value]) -> Result<bool, AllocError>
    ensures { IfOk result (λ holds. IsTrue holds ↔ OfTwoArgs (all_bools values.now) (all_bools values.now) IsClause args.now) }
{
    match args {
        [ps, ns] => match (bools_of(alloc, ps, values)?, bools_of(alloc, ns, values)?) {
            (Some(ps), Some(ns)) => Ok(is_clause(ps.as_slice(), ns.as_slice())),
            _ => Ok(false),
        },
        _ => Ok(false),
    }
}

fn is_clause(ps: &[bool], ns: &[bool]) -> bool
    ensures { IsTrue result ↔ IsClause ps.now ns.now }
{
    some_true(ps) || some_false(ns)
}

/// Whether the arguments are an array of Booleans and whether all of them are true.
pub(super) fn conjunction(alloc: Global, args: &[Arg], values: &[Value]) -> Result<bool, AllocError>
    ensures { IfOk result (λ holds. IsTrue holds ↔ OfTwoArgs (all_bools values.now) (one_bool values.now) (λ items c. IsTrue c ↔ All IsTrue items) args.now) }
{
    match args {
        [items, c] => match (bools_of(alloc, items, values)?, bool_of(c, values)) {
            (Some(items), Some(c)) => Ok(c == all_true(items.as_slice())),
            _ => Ok(false),
        },
        _ => Ok(false),
    }
}

/// Whether the arguments are an array of Booleans and whether some of them is true.
pub(super) fn disjunction(alloc: Global, args: &[Arg], values: &[Value]) -> Result<bool, AllocError>
    ensures { IfOk result (λ holds. IsTrue holds ↔ OfTwoArgs (all_bools values.now) (one_bool values.now) (λ items c. IsTrue c ↔ Any IsTrue items) args.now) }
{
    match args {
        [items, c] => match (bools_of(alloc, items, values)?, bool_of(c, values)) {
            (Some(items), Some(c)) => Ok(c == some_true(items.as_slice())),
            _ => Ok(false),
        },
        _ => Ok(false),
    }
}

fn all_true(items: &[bool]) -> bool
    ensures { IsTrue result ↔ All IsTrue items.now }
{
    items.iter().all(|item| *item)
}

fn some_true(items: &[bool]) -> bool
    ensures { IsTrue result ↔ Any IsTrue items.now }
{
    items.iter().any(|item| *item)
}

fn some_false(items: &[bool]) -> bool
    ensures { IsTrue result ↔ Any IsFalse items.now }
{
    items.iter().any(|item| !*item)
}
