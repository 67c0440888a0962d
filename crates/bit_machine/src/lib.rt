//! Relations on words of bits that a small state machine reads bit by bit, and the one builder from such a
//! machine to a decision diagram.
//!
//! A relation is given by a `Machine`: its states, its step, and the states in which it accepts. The
//! definitions are in `specs/`, over plain values: what a machine accepts (`Rules`), and what was built
//! (`Built`). `Both` and `Alike` run two machines side by side, so that all that a word must meet goes into one
//! build; `Not` is the complement of a machine, and `OneBit` reads a truth value.
#![tactic(auto)]

mod builder;
mod combined;
mod laws;
mod machines;

pub use builder::build;
pub use combined::{Alike, Both, Not, OneBit};
pub use laws::{
    accepts_by_its_bits_alone, complemented_accepts, one_bit_accepts, reads_in_pieces,
    side_by_side_accepts,
};
pub use machines::Machine;
