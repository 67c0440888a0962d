//! Set literals, measured.

ghost use Rattle.std.specs.Prelude.{◌≡◌, ◌≤◌, ℤ, Some, IfOk};
ghost use Rattle.std.specs.Option.{option_map};
ghost use Rattle.set_meaning.specs.Sets.{integers_between, count_between, ascending_set};
ghost use Rattle.fzn_model.specs.Entities.{integer_of, elements_of};
ghost use Rattle.fzn_model.specs.Lists.{each_of};
ghost use Rattle.fzn_model.specs.Measures.{IsMeasured};

use crate::shared::SharedSet;
use crate::short_range::ShortRange;
use fzn_parser::{Num, Number, SetForm};
use set_meaning::SetValue;
use std::alloc::{AllocError, Global};
use std::rc::Rc;

/// A set literal, and its elements where it is not too wide.
#[derive(Drop, Debug)]
pub(crate) enum Measure {
    /// It has a float, or an integer that is too large.
    Unknown,
    /// It has more elements than the limit.
    Wide,
    Set(SharedSet),
}

/// The elements of the literal, where there are at most `limit` of them. A range is not made; a list is, doubles
/// dropped, in the time of a sort.
pub(crate) fn measured(alloc: Global, literal: &SetForm, limit: u64) -> Result<Measure, AllocError>
    requires { limit ≤ 65536 }
    ensures { IfOk result (IsMeasured (elements_of literal.now) limit) }
{
    match literal {
        SetForm::Range(low, high) => match (integer_of(low), integer_of(high)) {
            (Some(lo), Some(hi)) => Ok(measured_range(lo, hi, limit)),
            _ => Ok(Measure::Unknown),
        },
        SetForm::List(numbers) => match integers(alloc, numbers.items())? {
            Some(items) => measured_list(alloc, items.as_slice(), limit),
            None => Ok(Measure::Unknown),
        },
    }
}

#[tactic(auto, using(crate::proofs::Ranges::size_of_range))]
fn measured_range(lo: i64, hi: i64, limit: u64) -> Measure
    requires { limit ≤ 65536 }
    ensures { IsMeasured (Some (integers_between lo hi)) limit result }
{
    if range_size(lo, hi) > u128::from(limit) {
        return Measure::Wide;
    }
    Measure::Set(SharedSet::Range(ShortRange::new(lo, hi)))
}

/// How many integers there are from `lo` to `hi`, both included.
pub(crate) fn range_size(lo: i64, hi: i64) -> u128
    ensures { result ≡ count_between lo hi }
{
    if hi < lo {
        return 0;
    }
    u128::from(hi.abs_diff(lo)) + 1
}

fn measured_list(alloc: Global, items: &[i64], limit: u64) -> Result<Measure, AllocError>
    ensures { IfOk result (IsMeasured (Some (ascending_set items.now)) limit) }
{
    let set = SetValue::from_list(alloc, items)?;
    let count = set.elements().len() as u64;
    if count > limit {
        return Ok(Measure::Wide);
    }
    match Rc::new(alloc, set) {
        Ok(set) => Ok(Measure::Set(SharedSet::List(set))),
        Err(_) => Err(AllocError),
    }
}

/// The integers, where each is told.
pub(crate) fn integers(alloc: Global, numbers: &[Number]) -> Result<Option<Vec<i64>>, AllocError>
    ensures { IfOk result (λ found. option_map (λ items. items.items) found ≡ each_of integer_of numbers.now) }
{
    let mut items = Vec::new(alloc);
    for number in numbers {
        match integer_of(number) {
            Some(x) => items.push(x)?,
            None => return Ok(None),
        }
    }
    Ok(Some(items))
}

/// The integer that is told; None for a float and for an integer that is too large.
pub(crate) fn integer_of(number: &Number) -> Option<i64>
    ensures { result ≡ integer_of number.now }
{
    match number.num {
        Num::Int(x) => Some(x),
        Num::Large => None,
        Num::Float => None,
    }
}
