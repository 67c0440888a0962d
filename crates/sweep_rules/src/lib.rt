//! How the checker reads a relation bit by bit: the trait `Shape`, and shapes made of others.
//!
//! A shape reads bits one after another and keeps a small state of what it read, a deterministic finite automaton. What it accepts is
//! said over plain lists of bits (`specs/Rules`). The bits of set variables come element by element (`specs/SetPlaces`).
#![tactic(auto)]

mod combined;
mod laws;
mod shapes;

pub use combined::{Both, Span};
pub use laws::{both_accept, spans_accept};
pub use shapes::Shape;
