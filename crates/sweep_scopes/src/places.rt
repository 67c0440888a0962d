//! The places of some variables.
ghost use Rattle.std.specs.Prelude.{◌≡◌, ◌<◌, IfOk, length, All};
ghost use Rattle.std.specs.List.{flat_map};
ghost use Rattle.sweep_rules.specs.SetPlaces.{AreSetPlaces};
ghost use Rattle.sweep_scopes.specs.Bits.{AreBitsOf, ArePlacesOf, bits_at};

use bit_layout::{Bit, Layout, Place};
use set_meaning::VarId;
use std::alloc::{AllocError, Global};

/// All places of the listed variables, in the order of the problem's bits, each once: for set variables element by element, and
/// within an element by variable. Time is of the order of the bits, times the logarithm of their number. An `Err` is want of memory.
pub fn set_places(alloc: Global, layout: &Layout, sets: &[VarId]) -> Result<Vec<Place>, AllocError>
    requires { All (λ v. v.0 < length layout.now.kinds) sets.now }
    ensures { IfOk result (λ places. AreSetPlaces layout.now.kinds sets.now places.items) }
{
    layout.obeys_order();
    let bits = bits_of_all(alloc, layout, sets)?;
    let places = places_of(alloc, layout, bits.as_slice())?;
    Ok(places)
}

/// All bits of the variables, in order.
fn bits_of_all(alloc: Global, layout: &Layout, sets: &[VarId]) -> Result<Vec<Bit>, AllocError>
    requires { All (λ v. v.0 < length layout.now.kinds) sets.now }
    ensures { IfOk result (λ bits. AreBitsOf layout.now sets.now bits.items) }
{
    layout.obeys_order();
    let mut bits = listed_bits(alloc, layout, sets)?;
    bits.sort_unstable();
    bits.dedup();
    Ok(bits)
}

/// The bits of the variables, variable by variable.
fn listed_bits(alloc: Global, layout: &Layout, sets: &[VarId]) -> Result<Vec<Bit>, AllocError>
    requires { All (λ v. v.0 < length layout.now.kinds) sets.now }
    ensures { IfOk result (λ bits. bits.items ≡ flat_map (bits_at layout.now) sets.now) }
{
    let mut bits = Vec::new(alloc);
    for v in sets {
        bits.extend_from_slice(bits_of(layout, *v))?;
    }
    Ok(bits)
}

/// The bits of one variable, as a list.
fn bits_of(layout: &Layout, v: VarId) -> &[Bit]
    requires { v.0 < length layout.now.kinds }
    ensures { result.now ≡ bits_at layout.now v }
{
    layout.bits_of(v)
}

/// For each of the bits its place.
fn places_of(alloc: Global, layout: &Layout, bits: &[Bit]) -> Result<Vec<Place>, AllocError>
    requires { All (λ b. b < length layout.now.places) bits.now }
    ensures { IfOk result (λ places. ArePlacesOf layout.now bits.now places.items) }
{
    let mut places = Vec::new(alloc);
    for bit in bits {
        places.push(*layout.place_at(*bit))?;
    }
    Ok(places)
}
