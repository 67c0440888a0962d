//! Items of arrays.
ghost use Rattle.std.specs.Prelude.{◌≡◌, ◌≤◌, ◌∷◌, ◌++◌, [], List, length, map, slice_get, IfOk, IfSome, All};
ghost use Rattle.std.specs.List.{AllZip, flat_map};
ghost use Rattle.set_meaning.specs.declared.kinds.Kind.{Kind as AnyKind};
ghost use Rattle.set_meaning.specs.declared.problems.Relation.TheVariants.{ArrayBoolElement, ArrayIntElement};
ghost use Rattle.set_meaning.specs.Elements.{IsItem};
ghost use Rattle.set_meaning.specs.Relations.{terms_of};
ghost use Rattle.set_meaning.specs.Rows.{HasShape, row_of, shapes_of};
ghost use Rattle.problem_limits.specs.Limits.{HasSmallNumbers, IsSmallNumber, IsSmallTerm};
ghost use Rattle.int_channel.specs.Forms.{AreBranchesOf};
ghost use Rattle.int_channel.specs.Choices.{AreChoicesOf, ArePlaceItemsAndTerm, IsBranchWhere, IsOneOf, IsPlace, number_of_term};

use crate::choices::arguments::place_items_and_term;
use crate::choices::facts::{equal, is_number};
use crate::choices::numbers::{numbers_of, places};
use crate::forms::Branch;
use set_meaning::{Arg, Kind, Term};
use std::alloc::{AllocError, Global};

/// A branch for each place of the array that the first can be: it is the place, and the item there is the third. It serves integers and Booleans.
pub(super) fn element(
    alloc: Global,
    kinds: &[Kind],
    args: &[Arg],
) -> Result<Vec<Branch>, AllocError>
    requires shape { ArePlaceItemsAndTerm args.now }
    requires small { All IsSmallTerm (flat_map terms_of args.now) }
    requires numbers { All HasSmallNumbers kinds.now }
    ensures integers { IfOk result (λ bs. AllZip (HasShape kinds.now) (shapes_of (row_of ArrayIntElement)) args.now → AreBranchesOf kinds.now ArrayIntElement args.now bs.items) }
    ensures booleans { IfOk result (λ bs. AllZip (HasShape kinds.now) (shapes_of (row_of ArrayBoolElement)) args.now → AreBranchesOf kinds.now ArrayBoolElement args.now bs.items) }
{
    let terms = place_items_and_term(args);
    let numbers = numbers_of(alloc, kinds, terms.place)?;
    let places = places(alloc, numbers.as_slice(), terms.items.len())?;
    let branches = items_at(
        alloc,
        places.as_slice(),
        terms.place,
        terms.items,
        terms.item,
    )?;
    Ok(branches)
}

/// A branch for each of the places: `place` is it, and the item there is `item`.
fn items_at(
    alloc: Global,
    places: &[i64],
    place: &Term,
    items: &[Term],
    item: &Term,
) -> Result<Vec<Branch>, AllocError>
    requires places { All (IsPlace (length items.now)) places.now }
    requires small { All IsSmallNumber places.now }
    requires place { IsSmallTerm place.now }
    requires items { All IsSmallTerm items.now }
    requires item { IsSmallTerm item.now }
    ensures { IfOk result (λ bs. (kinds : List AnyKind)
        → AreChoicesOf kinds (place.now ∷ items.now ++ item.now ∷ []) (IsOneOf place.now places.now (λ n values. IsItem n (map (number_of_term values) items.now) (number_of_term values item.now))) bs.items) }
{
    let mut branches = Vec::new(alloc);
    for number in places {
        branches.push(item_at(alloc, *number, place, items, item)?)?;
    }
    Ok(branches)
}

fn item_at(
    alloc: Global,
    number: i64,
    place: &Term,
    items: &[Term],
    item: &Term,
) -> Result<Branch, AllocError>
    requires number { IsPlace (length items.now) number }
    requires small { IsSmallNumber number }
    requires place { IsSmallTerm place.now }
    requires items { All IsSmallTerm items.now }
    requires item { IsSmallTerm item.now }
    ensures { IfOk result (λ branch. (kinds : List AnyKind)
        → IsBranchWhere kinds (place.now ∷ items.now ++ item.now ∷ []) (λ values. (number_of_term values place.now ≡ number) × IsItem number (map (number_of_term values) items.now) (number_of_term values item.now)) branch) }
{
    let first = is_number(alloc, place, number)?;
    let second = equal(alloc, &items[(number - 1) as usize], item)?;
    Ok(Branch { first, second })
}
