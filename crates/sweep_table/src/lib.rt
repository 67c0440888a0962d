//! The table of nodes of a log, and its nodes read bit by bit.
//!
//! A `Table` holds the nodes that a log writes out. A `Side` is a shape: the words that a node of the table accepts, read beside the
//! bits of other variables. What a walk of a word is stands in `log_rules`.
#![tactic(auto)]

mod laws;
mod sides;
mod table;

pub use laws::sides_accept;
pub use sides::Side;
pub use table::Table;
