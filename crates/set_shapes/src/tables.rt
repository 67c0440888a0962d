//! The table by which the bits of a constraint's variables are read.
ghost use Rattle.std.specs.Prelude.{◌≡◌, ◌<◌, IfOk, IsSomeAnd, Some, All, map};
ghost use Rattle.set_meaning.specs.Sets.{Has, IsSetOf, IsAscending};
ghost use Rattle.set_shapes.specs.Operands.{constant_marks};
ghost use Rattle.set_shapes.specs.Tables.{all_elements, number_of, number_at, entry_of, entries_of, AreSets, IsTable};

use crate::operands::{Operands, universe_of};
use bit_layout::{Bit, Layout, Place};
use element_machine::{Entry, Marks};
use scope_words::{scope_bits, scope_places};
use set_meaning::{Kind, SetValue};
use std::alloc::{AllocError, Global};

/// All that may be an element of one of the sets, in ascending order.
pub(crate) fn all_elements(
    alloc: Global,
    kinds: &[Kind],
    operands: &Operands,
) -> Result<SetValue, AllocError>
    ensures { IfOk result (IsSetOf (all_elements kinds.now operands.now)) }
{
    let mut elements = Vec::from_slice(alloc, universe_of(kinds, &operands.first))?;
    elements.extend_from_slice(universe_of(kinds, &operands.second))?;
    elements.extend_from_slice(universe_of(kinds, &operands.third))?;
    SetValue::from_list(alloc, elements.as_slice())
}

/// For each element the sets whose constants have it.
pub(crate) fn constants_of(
    alloc: Global,
    operands: &Operands,
    elements: &[i64],
) -> Result<Vec<Marks>, AllocError>
    ensures { IfOk result (λ marks. marks.items ≡ map (constant_marks operands.now) elements.now) }
{
    elements
        .iter()
        .map(|x| operands.constant_marks(*x))
        .collect(alloc)
}

/// For each place of a bit its entry. The places are those of sets, and their elements are listed.
pub(crate) fn entries_of(
    alloc: Global,
    operands: &Operands,
    elements: &[i64],
    places: &[Place],
) -> Result<Vec<Entry>, AllocError>
    requires ascending { IsAscending elements.now }
    requires listed { All (λ p. IsSomeAnd p.element (Has elements.now)) places.now }
    ensures { IfOk result (λ entries. entries.items ≡ entries_of operands.now elements.now places.now) }
{
    let mut entries = Vec::new(alloc);
    for place in places {
        entries.push(entry_of(operands, elements, place))?;
    }
    Ok(entries)
}

fn entry_of(operands: &Operands, elements: &[i64], place: &Place) -> Entry
    requires ascending { IsAscending elements.now }
    requires listed { IsSomeAnd place.now.element (Has elements.now) }
    ensures { result ≡ entry_of operands.now elements.now place.now }
{
    Entry {
        marks: operands.variable_marks(place.variable),
        element: number_at(elements, place),
    }
}

/// The number of the element for which the place's bit stands.
fn number_at(elements: &[i64], place: &Place) -> usize
    requires ascending { IsAscending elements.now }
    requires listed { IsSomeAnd place.now.element (Has elements.now) }
    ensures { result ≡ number_at elements.now place.now }
{
    match place.element {
        Some(x) => number_of(elements, x),
        None => 0,
    }
}

/// Where the element stands in the list, by binary search.
fn number_of(elements: &[i64], x: i64) -> usize
    requires ascending { IsAscending elements.now }
    requires listed { Has elements.now x }
    ensures { result ≡ number_of elements.now x }
{
    match elements.binary_search(&x) {
        Ok(number) => number,
        Err(_) => unreachable!(),
    }
}

/// What `ByElements` reads: the bits of the variables among the operands, in order, with an entry for each, and for each element the sets
/// whose constants have it.
#[derive(Drop)]
pub(crate) struct Table {
    pub(crate) bits: Vec<Bit>,
    pub(crate) constants: Vec<Marks>,
    pub(crate) entries: Vec<Entry>,
}

impl Table {
    /// The table for these sets, over a layout of a problem with these kinds.
    pub(crate) fn new(
        alloc: Global,
        layout: &Layout,
        kinds: &[Kind],
        operands: &Operands,
    ) -> Result<Table, AllocError>
        requires kinds { layout.now.kinds ≡ kinds.now }
        requires sets { AreSets kinds.now operands.now }
        ensures { IfOk result (λ t. IsTable layout.now operands.now t.bits.items t.constants.items t.entries.items) }
    {
        layout.obeys_order();
        let variables = operands.variables(alloc)?;
        let bits = scope_bits(alloc, layout, variables.as_slice())?;
        let places = scope_places(alloc, layout, bits.as_slice())?;
        let elements = all_elements(alloc, kinds, operands)?;
        let constants = constants_of(alloc, operands, elements.elements())?;
        let entries = entries_of(alloc, operands, elements.elements(), places.as_slice())?;
        Ok(Table {
            bits,
            constants,
            entries,
        })
    }
}
