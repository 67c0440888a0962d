//! Reading a decision diagram: its words, their bounds, and how many nodes it has.
#![tactic(auto)]

mod counting;
mod laws;
mod levels;
mod steps;
mod walks;
mod word_bounds;

pub use counting::node_count;
pub use laws::{residual_counts_are_one, words_over_bits};
pub use walks::{first_open, has, single};
pub use word_bounds::{WordBounds, bounds};
