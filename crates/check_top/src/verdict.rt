//! What a check says of a log, before it is printed.

use log_rules::{End, Reason};

#[derive(Drop)]
pub enum Verdict {
    /// Each line is valid, and the last one ends the log. So many answers are listed.
    Accepted { end: End, answers: u64 },
    /// The first line that is refused, counted from 1, and its first reason.
    Refused { number: u64, reason: Reason },
    ReadFault,
    Memory,
}
