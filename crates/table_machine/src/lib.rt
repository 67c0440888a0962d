//! Machines that accept the words that are listed in tables.
//!
//! A list in ascending order whose words begin alike is cut in two by the next bit, so that a range of positions in it is all that a
//! machine needs to keep of the bits that it has read; and where all words that begin so are listed, nothing needs to be kept. A
//! `TableMachine` reads its bits as the digits of words, one word after another, each of which is to be listed, and may pass over bits
//! between. `initial_values` makes the machine of the words of initial values, and `one_of` that of one table.
#![tactic(auto)]

mod initial;
mod laws;
mod listed_words;
mod machine;
mod states;

pub use laws::{relations_have_words, values_fit_together};
pub use machine::TableMachine;
pub use states::{Reading, State};
