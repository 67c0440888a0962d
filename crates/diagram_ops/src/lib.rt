//! Operations on decision diagrams, with a memo of their results.
#![tactic(auto)]

mod operations;
mod pairs;
mod product;
mod products;
mod projection;
mod question;
mod settled;
mod split;

pub use operations::Ops;
