//! The bounds of a variable's domain, read from its diagram: of Booleans and integers the least and the greatest value, of sets what is in
//! every one and what is in some one. Definitions stand in specs/Bounds.
#![tactic(auto)]

mod bounding;
mod ends;

pub use bounding::root_bounds;
