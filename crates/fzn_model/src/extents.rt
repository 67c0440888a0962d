//! How many elements a set literal has and how far they reach.

ghost use Rattle.std.specs.Prelude.{◌≡◌, ◌↔◌, ◌⊎◌, IsTrue, IfOk};
ghost use Rattle.set_meaning.specs.Sets.{ascending_set, integers_between};
ghost use Rattle.bit_layout.specs.Words.{greatest, least, span};
ghost use Rattle.fzn_model.specs.Entities.{elements_of};
ghost use Rattle.fzn_model.specs.FaultsOf.{IsLargeElement};
ghost use Rattle.fzn_model.specs.Extents.{HasExtent, IsExtent};

use crate::literals::{has_large_element, is_large_element};
use crate::sets::{integer_of, integers, range_size};
use fzn_parser::SetForm;
use set_meaning::SetValue;
use std::alloc::{AllocError, Global};

/// What the rules ask of the elements of a type.
#[derive(Clone, Copy, Debug, PartialEq, Eq)]
pub(crate) struct Extent {
    pub count: u128,
    /// How far the greatest is above the least; 0 where there are none.
    pub span: u64,
    /// Whether some element is too large in size.
    pub has_large: bool,
}

/// The extent of a set literal; None where it has a float or an integer that is too large. A range is not made; a
/// list is, doubles dropped, in the time of a sort.
pub(crate) fn extent_of(alloc: Global, literal: &SetForm) -> Result<Option<Extent>, AllocError>
    ensures { IfOk result (HasExtent (elements_of literal.now)) }
{
    match literal {
        SetForm::Range(low, high) => match (integer_of(low), integer_of(high)) {
            (Some(lo), Some(hi)) => Ok(Some(extent_of_range(lo, hi))),
            _ => Ok(None),
        },
        SetForm::List(numbers) => match integers(alloc, numbers.items())? {
            Some(items) => Ok(Some(extent_of_list(alloc, items.as_slice())?)),
            None => Ok(None),
        },
    }
}

#[tactic(auto, using(crate::proofs::Spans::range_extent, crate::proofs::Spans::no_extent))]
fn extent_of_range(lo: i64, hi: i64) -> Extent
    ensures { IsExtent (integers_between lo hi) result }
{
    if hi < lo {
        return Extent {
            count: 0,
            span: 0,
            has_large: false,
        };
    }
    Extent {
        count: range_size(lo, hi),
        span: hi.abs_diff(lo),
        has_large: is_large_at(lo, hi),
    }
}

fn is_large_at(lo: i64, hi: i64) -> bool
    ensures { IsTrue result ↔ (IsLargeElement lo ⊎ IsLargeElement hi) }
{
    is_large_element(lo) || is_large_element(hi)
}

fn extent_of_list(alloc: Global, items: &[i64]) -> Result<Extent, AllocError>
    ensures { IfOk result (IsExtent (ascending_set items.now)) }
{
    let set = SetValue::from_list(alloc, items)?;
    Ok(extent_of_elements(set.elements()))
}

fn extent_of_elements(elements: &[i64]) -> Extent
    ensures { IsExtent elements.now result }
{
    Extent {
        count: elements.len() as u128,
        span: span(elements),
        has_large: has_large_element(elements),
    }
}

/// How far the last element is from the first.
fn span(elements: &[i64]) -> u64
    ensures { result ≡ span elements.now }
{
    greatest(elements).abs_diff(least(elements))
}

/// The first element; 0 where there is none.
fn least(elements: &[i64]) -> i64
    ensures { result ≡ least elements.now }
{
    elements.first().copied().unwrap_or(0)
}

/// The last element; 0 where there is none.
fn greatest(elements: &[i64]) -> i64
    ensures { result ≡ greatest elements.now }
{
    elements.last().copied().unwrap_or(0)
}
