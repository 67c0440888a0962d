//! Relations of up to three set variables, read through their sides.
//!
//! `set_places` lists the places of some variables in the order in which shapes of sets read them. `is_met` sweeps a shape over them: whether it
//! accepts a word in which each of three variables has a word that its node accepts.
#![tactic(auto)]

mod laws;
mod meeting;
mod places;

pub use laws::set_places_have_words;
pub use meeting::{Slot, is_met};
pub use places::set_places;
