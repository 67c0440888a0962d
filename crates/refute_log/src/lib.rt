//! The refutation log, which says step by step why a problem has no further solutions, and its writer, which may be off.
#![tactic(auto)]

mod appending;
mod batches;
mod laws;
mod writer;

pub use laws::{lines_are_valid, logs_go_on, numbers_are_sides, numbers_stay};
pub use writer::{LogStop, LogWriter};
