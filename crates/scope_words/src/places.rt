//! For what each bit of a scope stands.
ghost use Rattle.std.specs.Prelude.{◌<◌, IfOk, length, All};
ghost use Rattle.scope_words.specs.Places.{ArePlacesOf};

use bit_layout::{Bit, Layout, Place};
use std::alloc::{AllocError, Global};

/// For each of the bits, in the order of `bits`, the place for which it stands: a position of a variable's words, and for a set
/// variable the element there. Time is linear in the number of bits. An `Err` is want of memory.
pub fn scope_places(alloc: Global, layout: &Layout, bits: &[Bit]) -> Result<Vec<Place>, AllocError>
    requires { All (λ b. b < length layout.now.places) bits.now }
    ensures { IfOk result (λ places. ArePlacesOf layout.now bits.now places.items) }
{
    let mut places = Vec::new(alloc);
    for bit in bits {
        places.push(*layout.place_at(*bit))?;
    }
    Ok(places)
}
