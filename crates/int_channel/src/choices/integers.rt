//! The less and the greater of two integers, and absolute values.
ghost use Rattle.std.specs.Prelude.{IfOk, All};
ghost use Rattle.std.specs.List.{flat_map};
ghost use Rattle.set_meaning.specs.declared.problems.Relation.TheVariants.{IntMin, IntMax, IntAbs};
ghost use Rattle.set_meaning.specs.Relations.{terms_of};
ghost use Rattle.problem_limits.specs.Limits.{IsSmallTerm};
ghost use Rattle.int_channel.specs.Choices.{AreBranchesFor, AreThreeTerms, AreTwoTerms};

use crate::choices::amounts::{one, two};
use crate::choices::arguments::{three_terms, two_terms};
use crate::choices::facts::{at_most, equal};
use crate::forms::Branch;
use linear_machine::Comparison;
use set_meaning::Arg;
use std::alloc::{AllocError, Global};

/// The third is the first of two, which is at most the other, or the other way round.
pub(super) fn minimum(alloc: Global, args: &[Arg]) -> Result<Vec<Branch>, AllocError>
    requires shape { AreThreeTerms args.now }
    requires small { All IsSmallTerm (flat_map terms_of args.now) }
    ensures { IfOk result (λ bs. AreBranchesFor IntMin args.now bs.items) }
{
    let terms = three_terms(args);
    let first_is_less = at_most(alloc, terms.first, terms.second)?;
    let is_first = equal(alloc, terms.third, terms.first)?;
    let second_is_less = at_most(alloc, terms.second, terms.first)?;
    let is_second = equal(alloc, terms.third, terms.second)?;
    let branches = vec![in alloc;
        Branch {
            first: first_is_less,
            second: is_first
        },
        Branch {
            first: second_is_less,
            second: is_second
        },
    ]?;
    Ok(branches)
}

/// The third is the first of two, to which the other is at most equal, or the other way round.
pub(super) fn maximum(alloc: Global, args: &[Arg]) -> Result<Vec<Branch>, AllocError>
    requires shape { AreThreeTerms args.now }
    requires small { All IsSmallTerm (flat_map terms_of args.now) }
    ensures { IfOk result (λ bs. AreBranchesFor IntMax args.now bs.items) }
{
    let terms = three_terms(args);
    let second_is_less = at_most(alloc, terms.second, terms.first)?;
    let is_first = equal(alloc, terms.third, terms.first)?;
    let first_is_less = at_most(alloc, terms.first, terms.second)?;
    let is_second = equal(alloc, terms.third, terms.second)?;
    let branches = vec![in alloc;
        Branch {
            first: second_is_less,
            second: is_first
        },
        Branch {
            first: first_is_less,
            second: is_second
        },
    ]?;
    Ok(branches)
}

/// The first is not negative and the second is it, or the first is not positive and the two add up to 0.
pub(super) fn absolute_value(alloc: Global, args: &[Arg]) -> Result<Vec<Branch>, AllocError>
    requires shape { AreTwoTerms args.now }
    requires small { All IsSmallTerm (flat_map terms_of args.now) }
    ensures { IfOk result (λ bs. AreBranchesFor IntAbs args.now bs.items) }
{
    let terms = two_terms(args);
    let at_least_zero = one(alloc, Comparison::AtMost, 0, -1, terms.first)?;
    let same = equal(alloc, terms.second, terms.first)?;
    let at_most_zero = one(alloc, Comparison::AtMost, 0, 1, terms.first)?;
    let opposite = two(alloc, Comparison::Equal, 0, 1, terms.first, 1, terms.second)?;
    let branches = vec![in alloc;
        Branch {
            first: at_least_zero,
            second: same
        },
        Branch {
            first: at_most_zero,
            second: opposite
        },
    ]?;
    Ok(branches)
}
