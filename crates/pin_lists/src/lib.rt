//! Units of work over a pool: lists of pins, and what units leave between which nodes are reclaimed.
//!
//! A unit makes nodes and pins its result. Where it finds no room, `collect` frees what no pin reaches, and the unit is tried once more.
//! Ids are used again, so contracts above units tell nodes by their sets of words, and refs by what is pinned (`specs/`).
#![tactic(auto)]

mod collecting;
mod lists;

pub use collecting::collect;
pub use lists::PinList;
