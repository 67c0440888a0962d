//! Sets of states of a shape, carried from bit to bit.
//!
//! `read_through` reads some bits of a shape in every way that a filter lets through, and gives the states to which they lead, each
//! once. What it answers is said over plain rules (`specs/Sweeps`).
#![tactic(auto)]

mod read;
mod states;

pub use read::read_through;
