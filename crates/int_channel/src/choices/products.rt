//! The product of two integers.
ghost use Rattle.std.specs.Prelude.{◌≡◌, ◌∷◌, [], ◌*ℤ◌, List, IfOk, All};
ghost use Rattle.std.specs.List.{AllZip, flat_map};
ghost use Rattle.set_meaning.specs.declared.kinds.Kind.{Kind as AnyKind};
ghost use Rattle.set_meaning.specs.declared.problems.Relation.TheVariants.{IntTimes};
ghost use Rattle.set_meaning.specs.Relations.{terms_of};
ghost use Rattle.set_meaning.specs.Rows.{HasShape, row_of, shapes_of};
ghost use Rattle.problem_limits.specs.Limits.{HasSmallNumbers, IsSmallNumber, IsSmallTerm};
ghost use Rattle.int_channel.specs.Forms.{AreBranchesOf};
ghost use Rattle.int_channel.specs.Choices.{AreChoicesOf, AreThreeTerms, IsBranchWhere, IsOneOf, number_of_term};

use crate::choices::arguments::three_terms;
use crate::choices::facts::{is_number, is_product};
use crate::choices::numbers::numbers_of;
use crate::forms::Branch;
use set_meaning::{Arg, Kind, Term};
use std::alloc::{AllocError, Global};

/// A branch for each number that the factor with fewer of them can be: it is the number, and the number times the other is the third.
pub(super) fn product(
    alloc: Global,
    kinds: &[Kind],
    args: &[Arg],
) -> Result<Vec<Branch>, AllocError>
    requires shape { AreThreeTerms args.now }
    requires small { All IsSmallTerm (flat_map terms_of args.now) }
    requires numbers { All HasSmallNumbers kinds.now }
    ensures { IfOk result (λ bs. AllZip (HasShape kinds.now) (shapes_of (row_of IntTimes)) args.now → AreBranchesOf kinds.now IntTimes args.now bs.items) }
{
    let terms = three_terms(args);
    let first = numbers_of(alloc, kinds, terms.first)?;
    let second = numbers_of(alloc, kinds, terms.second)?;
    if second.len() < first.len() {
        let turned = multiples(
            alloc,
            second.as_slice(),
            terms.second,
            terms.first,
            terms.third,
        )?;
        Ok(turned)
    } else {
        let branches = multiples(
            alloc,
            first.as_slice(),
            terms.first,
            terms.second,
            terms.third,
        )?;
        Ok(branches)
    }
}

/// A branch for each of the numbers: `a` is the number, and the number times `b` is `c`.
fn multiples(
    alloc: Global,
    numbers: &[i64],
    a: &Term,
    b: &Term,
    c: &Term,
) -> Result<Vec<Branch>, AllocError>
    requires numbers { All IsSmallNumber numbers.now }
    requires a { IsSmallTerm a.now }
    requires b { IsSmallTerm b.now }
    requires c { IsSmallTerm c.now }
    ensures { IfOk result (λ bs. (kinds : List AnyKind)
        → AreChoicesOf kinds (a.now ∷ b.now ∷ c.now ∷ []) (IsOneOf a.now numbers.now (λ n values. (n *ℤ number_of_term values b.now) ≡ number_of_term values c.now)) bs.items) }
{
    let mut branches = Vec::new(alloc);
    for number in numbers {
        branches.push(multiple(alloc, *number, a, b, c)?)?;
    }
    Ok(branches)
}

fn multiple(alloc: Global, number: i64, a: &Term, b: &Term, c: &Term) -> Result<Branch, AllocError>
    requires number { IsSmallNumber number }
    requires a { IsSmallTerm a.now }
    requires b { IsSmallTerm b.now }
    requires c { IsSmallTerm c.now }
    ensures { IfOk result (λ branch. (kinds : List AnyKind)
        → IsBranchWhere kinds (a.now ∷ b.now ∷ c.now ∷ []) (λ values. (number_of_term values a.now ≡ number) × ((number *ℤ number_of_term values b.now) ≡ number_of_term values c.now)) branch) }
{
    let first = is_number(alloc, a, number)?;
    let second = is_product(alloc, number, b, c)?;
    Ok(Branch { first, second })
}
