//! The relations of integers, but for linear sums.

ghost use Rattle.std.specs.Prelude.{◌≡◌, ◌↔◌, ◌^◌, ◌≤ℤ◌, ◌+ℤ◌, ◌*ℤ◌, neg_ℤ, pos, IsTrue};
ghost use Rattle.set_meaning.specs.Arguments.{OfTwoInts, OfThreeInts};
ghost use Rattle.set_meaning.specs.Integers.{IsAbsoluteValue};
ghost use Rattle.set_meaning.specs.Comparisons.{CompareInts};
ghost use Rattle.set_meaning.specs.Operations.{IsIntResult};

use crate::kinds::Value;
use crate::meaning::comparison::Comparison;
use crate::meaning::terms::int_of;
use crate::problems::Arg;

/// An operation on two integers.
#[derive(Clone, Copy)]
pub(super) enum IntOperation {
    Plus,
    Times,
    Min,
    Max,
}

impl IntOperation {
    /// Whether `c` is the result of the operation on `a` and `b`, as integers that never overflow.
    fn gives(self, a: i64, b: i64, c: i64) -> bool
        ensures { IsTrue result ↔ IsIntResult self a b c }
    {
        match self {
            IntOperation::Plus => is_same(sum(a, b), c),
            IntOperation::Times => is_same(product(a, b), c),
            IntOperation::Min => c <= a && c <= b && (c == a || c == b),
            IntOperation::Max => a <= c && b <= c && (c == a || c == b),
        }
    }
}

/// Whether the arguments are two integers that compare so.
pub(super) fn compared(comparison: Comparison, args: &[Arg], values: &[Value]) -> bool
    ensures { IsTrue result ↔ OfTwoInts (CompareInts comparison) args.now values.now }
{
    match args {
        [a, b] => match (int_of(a, values), int_of(b, values)) {
            (Some(a), Some(b)) => comparison.of_ints(a, b),
            _ => false,
        },
        _ => false,
    }
}

/// Whether the arguments are three integers, and the third is the operation's result on the others.
pub(super) fn computed(operation: IntOperation, args: &[Arg], values: &[Value]) -> bool
    ensures { IsTrue result ↔ OfThreeInts (IsIntResult operation) args.now values.now }
{
    match args {
        [a, b, c] => match (int_of(a, values), int_of(b, values), int_of(c, values)) {
            (Some(a), Some(b), Some(c)) => operation.gives(a, b, c),
            _ => false,
        },
        _ => false,
    }
}

/// Whether the arguments are two integers, and the second is the absolute value of the first.
pub(super) fn absolute_value(args: &[Arg], values: &[Value]) -> bool
    ensures { IsTrue result ↔ OfTwoInts IsAbsoluteValue args.now values.now }
{
    match args {
        [a, b] => match (int_of(a, values), int_of(b, values)) {
            (Some(a), Some(b)) => is_absolute_value(a, b),
            _ => false,
        },
        _ => false,
    }
}

fn sum(a: i64, b: i64) -> i128
    ensures { result ≡ a +ℤ b }
{
    i128::from(a) + i128::from(b)
}

/// The product, which has at most 126 bits and a sign.
pub(super) fn product(a: i64, b: i64) -> i128
    ensures product { result ≡ a *ℤ b }
    ensures low { neg_ℤ (pos (2 ^ 126)) ≤ℤ result }
    ensures high { result ≤ℤ pos (2 ^ 126) }
{
    i128::from(a) * i128::from(b)
}

fn is_same(wide: i128, c: i64) -> bool
    ensures { IsTrue result ↔ (wide ≡ c) }
{
    wide == i128::from(c)
}

fn is_absolute_value(a: i64, b: i64) -> bool
    ensures { IsTrue result ↔ IsAbsoluteValue a b }
{
    b >= 0 && a.unsigned_abs() == b.unsigned_abs()
}
