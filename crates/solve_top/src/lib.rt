//! The top call of `setsolve`: from the words of its command line and a desk to what it prints and its status.
#![tactic(auto)]

mod answering;
mod ending;
mod root;
mod running;
mod searching;
mod status;
mod words;

pub use running::run;
pub use status::{Report, Status};
