//! The outside as the programs see it: files that are read, a log and standard output that are written, and what each
//! call on them may do. One desk is in memory, for tests, and one is real.
#![tactic(auto)]

mod counted;
mod faults;
mod files;
mod lines;
mod memory_desk;
mod opened;
mod outside;
mod plan;
mod real_desk;
mod requests;
mod steps;
mod texts;

pub use lines::{LineEnd, Lines};
pub use memory_desk::MemoryDesk;
pub use outside::{Asked, Desk, Failed, Slot, To};
pub use plan::DeskCall;
pub use real_desk::RealDesk;
pub use texts::{ReadEnd, read_text, write_text};
