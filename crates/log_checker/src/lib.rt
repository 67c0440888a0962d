//! The checker of refutation logs: it takes a log line by line, and refuses the first line that is not valid.
//!
//! It shares no code with the diagrams or the search: what it takes is proved from the model and the lines alone.
#![tactic(auto)]

mod answers;
mod checker;
mod earlier;
mod inside;
mod lines;
mod refused;
mod resolvents;
mod scopes;
mod shapes;
mod sides;
mod values;

pub use checker::Checker;
pub use refused::Refused;
