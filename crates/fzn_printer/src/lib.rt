//! What is printed for a problem: the block of an answer, the line of a variable of a root family, and the lines that
//! close a run.
//!
//! The form is that of a FlatZinc solver's output (MiniZinc Handbook, "Solution Output"), with sets in braces only.
#![tactic(auto)]

mod answer;
mod array;
mod lines;
mod root;
mod value;

pub use answer::block;
pub use lines::{COMPLETE, SEPARATOR, UNKNOWN, UNSATISFIABLE};
pub use root::root_line;
