//! Nodes with pins, which say what is still needed of them.
#![tactic(auto)]

mod laws;
mod marking;
mod pinning;

pub use laws::{
    SetProperty, new_parts_add_up, news_add_up, pinned_refs_are_kept, pins_are_held, pools_grow,
};
pub use pinning::{Pin, Pool};
