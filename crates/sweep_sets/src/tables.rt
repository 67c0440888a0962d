//! The table by which the bits of set variables are read.
ghost use Rattle.std.specs.Prelude.{◌≡◌, IfOk, IsSomeAnd, All, map, filter_map};
ghost use Rattle.set_meaning.specs.Sets.{Has, IsSetOf, IsAscending};
ghost use Rattle.sweep_sets.specs.Operands.{constant_marks};
ghost use Rattle.sweep_sets.specs.Tables.{all_elements, number_of, number_at, entry_of, entries_of};

use crate::marks::Marks;
use crate::operands::Operands;
use crate::reading::Entry;
use bit_layout::Place;
use set_meaning::SetValue;
use std::alloc::{AllocError, Global};

/// All that may be an element of one of the sets, in ascending order.
pub(crate) fn all_elements(
    alloc: Global,
    operands: &Operands,
    places: &[Place],
) -> Result<SetValue, AllocError>
    ensures { IfOk result (IsSetOf (all_elements operands.now places.now)) }
{
    let mut elements = elements_of_places(alloc, places)?;
    elements.extend_from_slice(operands.first.constant.elements())?;
    elements.extend_from_slice(operands.second.constant.elements())?;
    elements.extend_from_slice(operands.third.constant.elements())?;
    SetValue::from_list(alloc, elements.as_slice())
}

/// The elements for which the places' bits stand, in their order.
fn elements_of_places(alloc: Global, places: &[Place]) -> Result<Vec<i64>, AllocError>
    ensures { IfOk result (λ xs. xs.items ≡ filter_map (λ p. p.element) places.now) }
{
    places
        .iter()
        .filter_map(|place| place.element)
        .collect(alloc)
}

/// For each element the sets whose constants have it.
pub(crate) fn constants_of(
    alloc: Global,
    operands: &Operands,
    elements: &[i64],
) -> Result<Vec<Marks>, AllocError>
    ensures { IfOk result (λ marks. marks.items ≡ map (constant_marks operands.now) elements.now) }
{
    elements
        .iter()
        .map(|x| operands.constant_marks(*x))
        .collect(alloc)
}

/// For each place of a bit its entry. The places are those of sets, and their elements are listed.
pub(crate) fn entries_of(
    alloc: Global,
    operands: &Operands,
    elements: &[i64],
    places: &[Place],
) -> Result<Vec<Entry>, AllocError>
    requires ascending { IsAscending elements.now }
    requires listed { All (λ p. IsSomeAnd p.element (Has elements.now)) places.now }
    ensures { IfOk result (λ entries. entries.items ≡ entries_of operands.now elements.now places.now) }
{
    let mut entries = Vec::new(alloc);
    for place in places {
        entries.push(entry_of(operands, elements, place))?;
    }
    Ok(entries)
}

fn entry_of(operands: &Operands, elements: &[i64], place: &Place) -> Entry
    requires ascending { IsAscending elements.now }
    requires listed { IsSomeAnd place.now.element (Has elements.now) }
    ensures { result ≡ entry_of operands.now elements.now place.now }
{
    Entry {
        marks: operands.variable_marks(place.variable),
        element: number_at(elements, place),
    }
}

/// The number of the element for which the place's bit stands.
fn number_at(elements: &[i64], place: &Place) -> usize
    requires ascending { IsAscending elements.now }
    requires listed { IsSomeAnd place.now.element (Has elements.now) }
    ensures { result ≡ number_at elements.now place.now }
{
    match place.element {
        Some(x) => number_of(elements, x),
        None => 0,
    }
}

/// Where the element stands in the list, by binary search.
fn number_of(elements: &[i64], x: i64) -> usize
    requires ascending { IsAscending elements.now }
    requires listed { Has elements.now x }
    ensures { result ≡ number_of elements.now x }
{
    match elements.binary_search(&x) {
        Ok(number) => number,
        Err(_) => unreachable!(),
    }
}
