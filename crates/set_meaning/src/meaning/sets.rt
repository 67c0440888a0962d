//! The relations of sets.

ghost use Rattle.std.specs.Prelude.{◌≡◌, ◌↔◌, pos, length, IsTrue};
ghost use Rattle.set_meaning.specs.Arguments.{int_of as one_int, set_of as one_set, OfTwoArgs, OfTwoSets, OfThreeSets};
ghost use Rattle.set_meaning.specs.Sets.{Has, IsSubset};
ghost use Rattle.set_meaning.specs.Comparisons.{CompareSets};
ghost use Rattle.set_meaning.specs.Operations.{IsSetResult};

use crate::kinds::Value;
use crate::meaning::comparison::Comparison;
use crate::meaning::terms::{int_of, set_of};
use crate::problems::Arg;
use crate::sets::{SetOperation, SetValue};

/// Whether the arguments are two sets that compare so.
pub(super) fn compared(comparison: Comparison, args: &[Arg], values: &[Value]) -> bool
    ensures { IsTrue result ↔ OfTwoSets (CompareSets comparison) args.now values.now }
{
    match args {
        [a, b] => match (set_of(a, values), set_of(b, values)) {
            (Some(a), Some(b)) => comparison.of_sets(a, b),
            _ => false,
        },
        _ => false,
    }
}

/// Whether the arguments are two sets, and the first is a subset of the second.
pub(super) fn subset(args: &[Arg], values: &[Value]) -> bool
    ensures { IsTrue result ↔ OfTwoSets IsSubset args.now values.now }
{
    match args {
        [a, b] => match (set_of(a, values), set_of(b, values)) {
            (Some(a), Some(b)) => a.is_subset(b),
            _ => false,
        },
        _ => false,
    }
}

/// Whether the arguments are two sets, and the second is a subset of the first.
pub(super) fn superset(args: &[Arg], values: &[Value]) -> bool
    ensures { IsTrue result ↔ OfTwoSets (λ a b. IsSubset b a) args.now values.now }
{
    match args {
        [a, b] => match (set_of(a, values), set_of(b, values)) {
            (Some(a), Some(b)) => b.is_subset(a),
            _ => false,
        },
        _ => false,
    }
}

/// Whether the arguments are an integer and a set that has it.
pub(super) fn membership(args: &[Arg], values: &[Value]) -> bool
    ensures { IsTrue result ↔ OfTwoArgs (one_int values.now) (one_set values.now) (λ x a. Has a x) args.now }
{
    match args {
        [x, a] => match (int_of(x, values), set_of(a, values)) {
            (Some(x), Some(a)) => a.has(x),
            _ => false,
        },
        _ => false,
    }
}

/// Whether the arguments are three sets, and the third is the operation's result on the others.
pub(super) fn computed(operation: SetOperation, args: &[Arg], values: &[Value]) -> bool
    ensures { IsTrue result ↔ OfThreeSets (IsSetResult operation) args.now values.now }
{
    match args {
        [a, b, c] => match (set_of(a, values), set_of(b, values), set_of(c, values)) {
            (Some(a), Some(b), Some(c)) => c.is_result_of(operation, a, b),
            _ => false,
        },
        _ => false,
    }
}

/// Whether the arguments are a set and the number of its elements.
pub(super) fn cardinality(args: &[Arg], values: &[Value]) -> bool
    ensures { IsTrue result ↔ OfTwoArgs (one_set values.now) (one_int values.now) (λ a n. n ≡ pos (length a)) args.now }
{
    match args {
        [a, n] => match (set_of(a, values), int_of(n, values)) {
            (Some(a), Some(n)) => has_size(a, n),
            _ => false,
        },
        _ => false,
    }
}

fn has_size(set: &SetValue, n: i64) -> bool
    ensures { IsTrue result ↔ (n ≡ pos (length set.now)) }
{
    i128::from(n) == set.elements().len() as i128
}
