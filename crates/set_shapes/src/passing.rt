//! Equality of two sets, read among the bits of other variables.
ghost use Rattle.std.specs.Prelude.{◌≡◌, ◌<◌, true, length, slice_get, All, IfSome, IfOk};
ghost use Rattle.std.specs.List.Sorted.{IsStrictlyIncreasing};
ghost use Rattle.bit_machine.specs.Comparisons.{beq, beq-true, pair_true};
ghost use Rattle.element_machine.specs.Comparisons.{marks_true};
ghost use Rattle.element_machine.specs.Reading.{AreGrouped, by_elements};
ghost use Rattle.set_shapes.specs.declared.tests_of_elements.ElementTest.TheVariants as tests;
ghost use Rattle.set_shapes.specs.Tests.{all_pass};
ghost use Rattle.set_shapes.specs.Passing.{met, places_among, passing};

use crate::tables::Table;
use crate::tests_of_elements::{AllPass, ElementTest};
use bit_layout::Bit;
use bit_machine::Machine;
use choice_machine::Losing;
use element_machine::{ByElements, Marks};
use std::alloc::{AllocError, Global};

/// Accepts where the first two sets of a table are equal. It reads the bits of the table among those of a larger scope, and passes over the
/// others.
#[derive(Drop)]
pub(crate) struct EqualSets {
    pub(crate) table: Table,
    /// For each bit of the scope its place among those of the table.
    pub(crate) places: Vec<Option<usize>>,
}

impl EqualSets {
    /// The machine of the table's own bits.
    fn reader(&self) -> ByElements<'_, AllPass>
        ensures machine { result.machine ≡ record { test = tests.Equal; wanted = true } }
        ensures constants { result.constants.now ≡ self.now.table.constants.items }
        ensures entries { result.entries.now ≡ self.now.table.entries.items }
    {
        ByElements {
            machine: AllPass {
                test: ElementTest::Equal,
                wanted: true,
            },
            constants: self.table.constants.as_slice(),
            entries: self.table.entries.as_slice(),
        }
    }
}

impl Machine for EqualSets {
    type State = (bool, Marks);

    ghost rules = { λ m. passing m.places.items (by_elements (all_pass tests.Equal true) m.table.constants.items m.table.entries.items) };

    ghost places = { λ m. length m.places.items };

    ghost valid = { λ m. AreGrouped (length m.table.constants.items) m.table.entries.items × All (λ p. IfSome p (λ place. place < length m.table.entries.items)) m.places.items };

    ghost occurs = { λ _ _ _. Unit {0} };

    ghost identical = { λ p q is. pair_true beq ⟦<Marks as PartialEq>⟧.eq beq-true marks_true p q is };

    fn start(&self) -> (bool, Marks) {
        self.reader().start()
    }

    fn step(&self, at: usize, state: (bool, Marks), value: bool) -> (bool, Marks) {
        match self.places[at] {
            Some(place) => self.reader().step(place, state, value),
            None => state,
        }
    }

    fn accepts(&self, state: (bool, Marks)) -> bool {
        self.reader().accepts(state)
    }
}

/// Lost where the sets differ at an element.
impl Losing for EqualSets {
    fn is_lost(&self, _at: usize, state: (bool, Marks)) -> bool {
        let (equal, _) = state;
        !equal
    }
}

/// For each of the bits its place among those that are read, both ascending.
pub(crate) fn places_among(
    alloc: Global,
    own: &[Bit],
    bits: &[Bit],
) -> Result<Vec<Option<usize>>, AllocError>
    ensures { IfOk result (λ places. places.items ≡ places_among 0 own.now bits.now) }
{
    let mut places = Vec::new(alloc);
    let mut next = 0;
    for bit in bits {
        let (place, after) = met(own, next, *bit);
        places.push(place)?;
        next = after;
    }
    Ok(places)
}

/// The place of the bit, where it is the next of those that are read, and how many of these have been met after it.
fn met(own: &[Bit], next: usize, bit: Bit) -> (Option<usize>, usize)
    ensures { result ≡ met next (slice_get own.now next) bit }
{
    match own.get(next) {
        Some(first) => {
            if bit == *first {
                (Some(next), next + 1)
            } else {
                (None, next)
            }
        }
        None => (None, next),
    }
}
