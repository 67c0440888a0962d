//! Why a call was refused.

use log_rules::Reason;

/// Why a line was not taken, or a log is not finished.
#[derive(Clone, Copy, Debug, PartialEq, Eq)]
pub enum Refused {
    /// The first rule that is broken.
    Reason(Reason),
    /// Want of memory. It says nothing of the line.
    Memory,
}
