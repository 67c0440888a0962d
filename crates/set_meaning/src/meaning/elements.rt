//! The relations of an item of an array and its place, counted from 1.

ghost use Rattle.std.specs.Prelude.{◌≡◌, ◌↔◌, ◌+◌, ◌<ℤ◌, pos, IsTrue, IfOk, IfSome, IfNone, IsSome, All, option_copied, slice_get};
ghost use Rattle.set_meaning.specs.Arguments.{bool_of as one_bool, int_of as one_int, set_of as one_set, bools_of as all_bools, ints_of as all_ints, sets_of as all_sets, set_of_term as term_set, each_of, OfThree, OfThreeArgs};
ghost use Rattle.set_meaning.specs.Elements.{IsItem};

use crate::kinds::Value;
use crate::meaning::terms::{bool_of, bools_of, int_of, ints_of, set_of, set_of_term, set_terms};
use crate::problems::{Arg, Term};
use crate::sets::SetValue;
use std::alloc::{AllocError, Global};

/// Whether the arguments are a place, an array of Booleans and the item there.
pub(super) fn bool_element(
    alloc: Global,
    args: &[Arg],
    values: &[Value],
) -> Result<bool, AllocError>
    ensures { IfOk result (λ holds. IsTrue holds ↔ OfThreeArgs (one_int values.now) (all_bools values.now) (one_bool values.now) IsItem args.now) }
{
    match args {
        [place, items, item] => match (
            int_of(place, values),
            bools_of(alloc, items, values)?,
            bool_of(item, values),
        ) {
            (Some(place), Some(items), Some(item)) => Ok(is_bool_item(
                place,
                items.as_slice(),
                item,
            )),
            _ => Ok(false),
        },
        _ => Ok(false),
    }
}

/// Whether the arguments are a place, an array of integers and the item there.
pub(super) fn int_element(alloc: Global, args: &[Arg], values: &[Value]) -> Result<bool, AllocError>
    ensures { IfOk result (λ holds. IsTrue holds ↔ OfThreeArgs (one_int values.now) (all_ints values.now) (one_int values.now) IsItem args.now) }
{
    match args {
        [place, items, item] => match (
            int_of(place, values),
            ints_of(alloc, items, values)?,
            int_of(item, values),
        ) {
            (Some(place), Some(items), Some(item)) => Ok(is_int_item(
                place,
                items.as_slice(),
                item,
            )),
            _ => Ok(false),
        },
        _ => Ok(false),
    }
}

/// Whether the arguments are a place, an array of sets and the item there.
pub(super) fn set_element(args: &[Arg], values: &[Value]) -> bool
    ensures { IsTrue result ↔ OfThreeArgs (one_int values.now) (all_sets values.now) (one_set values.now) IsItem args.now }
{
    match args {
        [place, items, item] => match (
            int_of(place, values),
            set_terms(items, values),
            set_of(item, values),
        ) {
            (Some(place), Some(items), Some(item)) => is_set_item(place, items, item, values),
            _ => false,
        },
        _ => false,
    }
}

fn is_bool_item(place: i64, items: &[bool], item: bool) -> bool
    ensures { IsTrue result ↔ IsItem place items.now item }
{
    match index_of(place) {
        Some(index) => items.get(index).copied() == Some(item),
        None => false,
    }
}

fn is_int_item(place: i64, items: &[i64], item: i64) -> bool
    ensures { IsTrue result ↔ IsItem place items.now item }
{
    match index_of(place) {
        Some(index) => items.get(index).copied() == Some(item),
        None => false,
    }
}

fn is_set_item(place: i64, items: &[Term], item: &SetValue, values: &[Value]) -> bool
    requires { All (λ t. IsSome (term_set values.now t)) items.now }
    ensures { IsTrue result ↔ OfThree IsItem (Some place) (each_of (term_set values.now) items.now) (Some item.now) }
{
    match index_of(place) {
        Some(index) => match term_at(items, index) {
            Some(term) => has_set(term, item, values),
            None => false,
        },
        None => false,
    }
}

fn term_at<'a>(terms: &'a [Term], index: usize) -> Option<&'a Term>
    ensures { option_copied result ≡ slice_get terms.entry.now index }
{
    terms.get(index)
}

fn has_set(term: &Term, set: &SetValue, values: &[Value]) -> bool
    ensures { IsTrue result ↔ (term_set values.now term.now ≡ Some set.now) }
{
    match set_of_term(term, values) {
        Some(found) => found.is_equal(set),
        None => false,
    }
}

/// The index of a place that is counted from 1.
fn index_of(place: i64) -> Option<usize>
    ensures some { IfSome result (λ index. place ≡ pos (index + 1)) }
    ensures none { IfNone result (place <ℤ pos 1) }
{
    if place < 1 {
        None
    } else {
        Some((place - 1) as usize)
    }
}
