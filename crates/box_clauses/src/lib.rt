//! Boxes whose sides are diagrams: their pins, the store, and the step of a box.
//!
//! A box is a list of sides; a variable without a side has all its initial values. The definitions are in `specs/`:
//! which box sides are, and what a step answers (`Boxes`); what is stored (`Stored`); the refs of sides (`Sides`).
#![tactic(auto)]

mod index;
mod sides;
mod stepping;
mod store;

pub use sides::{Held, Side};
pub use stepping::{BoxResult, box_step};
pub use store::{BoxStore, StoredBox};
