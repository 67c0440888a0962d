//! Hash-consed nodes of ordered, reduced decision diagrams.
#![tactic(auto)]

mod hash_consing;
mod laws;
mod nodes;

pub use hash_consing::{Arena, MAX_LIMIT};
pub use laws::{ids_are_in_order, parts_of_parts, reduced_tables, zero_and_one};
pub use nodes::{Node, NodeId, Ref, Stop, Triple};
