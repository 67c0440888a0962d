//! The lines of a log, and their one spelling.
//!
//! A log is a text of lines, each of which ends in a newline. [`write_line`] appends the spelling of a line,
//! [`read_line`] gives the line that a text spells. Each line that has a spelling has exactly one, no two lines share
//! one, and nothing else is read.
#![tactic(auto)]

mod kind;
mod line;
mod number;
mod pieces;
mod read;
mod spelling;
mod value;
mod write;

pub use line::{Ints, Line, LineFault, LogValue, LogValues, Sides};
pub use read::read_line;
pub use spelling::spellings_are_apart;
pub use write::write_line;
