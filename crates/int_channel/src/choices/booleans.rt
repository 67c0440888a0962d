//! Operations on two Booleans.
ghost use Rattle.std.specs.Prelude.{IfOk, All};
ghost use Rattle.std.specs.List.{flat_map};
ghost use Rattle.set_meaning.specs.declared.problems.Relation.TheVariants.{BoolAnd, BoolOr, BoolXor};
ghost use Rattle.set_meaning.specs.Relations.{terms_of};
ghost use Rattle.problem_limits.specs.Limits.{IsSmallTerm};
ghost use Rattle.int_channel.specs.Choices.{AreBranchesFor, AreThreeTerms};

use crate::choices::amounts::{three, trivial};
use crate::choices::arguments::three_terms;
use crate::forms::Branch;
use linear_machine::Comparison;
use set_meaning::Arg;
use std::alloc::{AllocError, Global};

/// Twice the third is at most the sum of the others, and that is at most the third and 1.
pub(super) fn conjunction(alloc: Global, args: &[Arg]) -> Result<Vec<Branch>, AllocError>
    requires shape { AreThreeTerms args.now }
    requires small { All IsSmallTerm (flat_map terms_of args.now) }
    ensures { IfOk result (λ bs. AreBranchesFor BoolAnd args.now bs.items) }
{
    let terms = three_terms(args);
    let low = three(
        alloc,
        Comparison::AtMost,
        0,
        2,
        terms.third,
        -1,
        terms.first,
        -1,
        terms.second,
    )?;
    let high = three(
        alloc,
        Comparison::AtMost,
        -1,
        1,
        terms.first,
        1,
        terms.second,
        -1,
        terms.third,
    )?;
    let branches = vec![in alloc;
        Branch {
            first: low,
            second: high
        },
    ]?;
    Ok(branches)
}

/// The third is at most the sum of the others, and that is at most twice the third.
pub(super) fn disjunction(alloc: Global, args: &[Arg]) -> Result<Vec<Branch>, AllocError>
    requires shape { AreThreeTerms args.now }
    requires small { All IsSmallTerm (flat_map terms_of args.now) }
    ensures { IfOk result (λ bs. AreBranchesFor BoolOr args.now bs.items) }
{
    let terms = three_terms(args);
    let low = three(
        alloc,
        Comparison::AtMost,
        0,
        1,
        terms.third,
        -1,
        terms.first,
        -1,
        terms.second,
    )?;
    let high = three(
        alloc,
        Comparison::AtMost,
        0,
        1,
        terms.first,
        1,
        terms.second,
        -2,
        terms.third,
    )?;
    let branches = vec![in alloc;
        Branch {
            first: low,
            second: high
        },
    ]?;
    Ok(branches)
}

/// None of the three is true, or two are.
pub(super) fn exclusive_or(alloc: Global, args: &[Arg]) -> Result<Vec<Branch>, AllocError>
    requires shape { AreThreeTerms args.now }
    requires small { All IsSmallTerm (flat_map terms_of args.now) }
    ensures { IfOk result (λ bs. AreBranchesFor BoolXor args.now bs.items) }
{
    let terms = three_terms(args);
    let none = three(
        alloc,
        Comparison::Equal,
        0,
        1,
        terms.first,
        1,
        terms.second,
        1,
        terms.third,
    )?;
    let two = three(
        alloc,
        Comparison::Equal,
        -2,
        1,
        terms.first,
        1,
        terms.second,
        1,
        terms.third,
    )?;
    let branches = vec![in alloc;
        Branch {
            first: none,
            second: trivial(alloc)
        },
        Branch {
            first: two,
            second: trivial(alloc)
        },
    ]?;
    Ok(branches)
}
