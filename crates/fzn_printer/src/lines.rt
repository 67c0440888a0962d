//! The lines that stand alone, each with its newline (MiniZinc Handbook, "Solution Output").

/// Ends the block of an answer.
pub const SEPARATOR: &[u8] = b"----------\n";

/// Follows the last block where nothing is left.
pub const COMPLETE: &[u8] = b"==========\n";

/// Nothing is left, and no block was printed.
pub const UNSATISFIABLE: &[u8] = b"=====UNSATISFIABLE=====\n";

/// The run ended before anything was found.
pub const UNKNOWN: &[u8] = b"=====UNKNOWN=====\n";
