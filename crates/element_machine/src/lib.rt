//! Relations of up to three sets that a small state machine reads element by element.
//!
//! An `ElementMachine` is given, for each element in ascending order, which of the sets have it. `ByElements` reads the same from the bits
//! of a word, by a table that says for each bit which sets it puts its element into; it is a `Machine` of bit_machine, and the law
//! `bits_are_read_by_elements` says that it accepts just where the machine of elements does. Definitions stand in `specs/`.
//!
//! It serves relations of two or three sets. A relation that also speaks of an integer, as the cardinality of a set or an element of an
//! array, needs another machine, alone or beside it: one of elements is begun anew with each word, and no state is handed to it from bits before.
#![tactic(auto)]

mod laws;
mod machines;
mod marks;
mod reading;

pub use laws::bits_are_read_by_elements;
pub use machines::ElementMachine;
pub use marks::{Entry, Marks};
pub use reading::ByElements;
