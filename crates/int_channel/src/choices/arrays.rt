//! Whether all, or some, of an array of Booleans are true.
ghost use Rattle.std.specs.Prelude.{◌≡◌, ◌≤◌, ◌<◌, ◌+◌, ◌∷◌, ◌++◌, [], length, map, unsigned_abs, IfOk, All};
ghost use Rattle.std.specs.List.{flat_map};
ghost use Rattle.set_meaning.specs.declared.problems.Relation.TheVariants.{ArrayBoolAnd, ArrayBoolOr};
ghost use Rattle.set_meaning.specs.Relations.{terms_of};
ghost use Rattle.problem_limits.specs.Limits.{IsSmallTerm};
ghost use Rattle.int_channel.specs.Choices.{AreBranchesFor, AreItemsAndTerm, ComparesSum, IsAtomWhere, multiples_of};

use crate::choices::amounts::Amount;
use crate::choices::arguments::items_and_term;
use crate::forms::{Atom, Branch};
use linear_machine::Comparison;
use set_meaning::{Arg, Term};
use std::alloc::{AllocError, Global};

/// The truth value counts at most one for each item, n times it is at most the sum of n items, and that is at most n - 1 more than it.
pub(super) fn all_true(alloc: Global, args: &[Arg]) -> Result<Vec<Branch>, AllocError>
    requires shape { AreItemsAndTerm args.now }
    requires small { All IsSmallTerm (flat_map terms_of args.now) }
    requires few { length (flat_map terms_of args.now) ≤ 4194304 }
    ensures { IfOk result (λ bs. AreBranchesFor ArrayBoolAnd args.now bs.items) }
{
    let read = items_and_term(args);
    let length = read.items.len() as i64;
    let low = sum_of_items(alloc, 0, -1, read.items, length, read.term)?;
    let high = sum_of_items(alloc, 1 - length, 1, read.items, -1, read.term)?;
    let branches = vec![in alloc;
        Branch {
            first: low,
            second: high
        },
    ]?;
    Ok(branches)
}

/// The truth value is at most the sum of n items, and that is at most n times it.
pub(super) fn some_true(alloc: Global, args: &[Arg]) -> Result<Vec<Branch>, AllocError>
    requires shape { AreItemsAndTerm args.now }
    requires small { All IsSmallTerm (flat_map terms_of args.now) }
    requires few { length (flat_map terms_of args.now) ≤ 4194304 }
    ensures { IfOk result (λ bs. AreBranchesFor ArrayBoolOr args.now bs.items) }
{
    let read = items_and_term(args);
    let length = read.items.len() as i64;
    let low = sum_of_items(alloc, 0, -1, read.items, 1, read.term)?;
    let high = sum_of_items(alloc, 0, 1, read.items, -length, read.term)?;
    let branches = vec![in alloc;
        Branch {
            first: low,
            second: high
        },
    ]?;
    Ok(branches)
}

/// The base, `k` times each item and `l` times `term` together are at most 0.
fn sum_of_items(
    alloc: Global,
    base: i64,
    k: i64,
    items: &[Term],
    l: i64,
    term: &Term,
) -> Result<Atom, AllocError>
    requires base { unsigned_abs base ≤ 1000000000 }
    requires k { unsigned_abs k ≤ 1000000000 }
    requires items { All IsSmallTerm items.now }
    requires few { length items.now < 4194304 }
    requires l { unsigned_abs l ≤ 1000000000 }
    requires term { IsSmallTerm term.now }
    ensures { IfOk result (IsAtomWhere (items.now ++ term.now ∷ []) (ComparesSum Comparison.AtMost base (multiples_of k items.now ++ (l, term.now) ∷ []))) }
{
    let mut amount = Amount::constant(alloc, base);
    for item in items {
        amount.plus(k, item)?;
    }
    amount.plus(l, term)?;
    Ok(amount.compared(Comparison::AtMost))
}
