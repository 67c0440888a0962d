//! The top call of `setcheck`: a model and a log of a solver's run are read, and the log is accepted or refused.
#![tactic(auto)]

mod ending;
mod judging;
mod laws;
mod lines;
mod model;
mod running;
mod verdict;

pub use laws::logs_have_one_verdict;
pub use running::{CheckStatus, check_run};
