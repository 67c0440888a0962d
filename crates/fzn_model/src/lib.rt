//! From the tree of a FlatZinc model to its problem, or to the first fault of the model, and the line that is printed
//! for a faulty text.
//!
//! Source: FlatZinc in the MiniZinc Handbook, in the profile that docs/FORMATS.md gives.
#![tactic(auto)]

mod arguments;
mod building;
mod constraints;
mod counting;
mod declarations;
mod declared;
mod dims;
mod drafts;
mod earlier;
mod entities;
mod expressions;
mod extents;
mod faults;
mod kinds;
mod known;
mod laws;
mod lines;
mod literals;
mod meanings;
mod names;
mod objectives;
mod outputs;
mod pieces;
mod reading;
mod sets;
mod shared;
mod short_range;
mod so_far;
mod term_counts;
mod texts;
mod typing;
mod variables;
mod weights;

pub use building::build;
pub use faults::{FileFault, ModelFault};
pub use laws::{first_faults_are_one, texts_have_one_end};
pub use lines::fault_line;
pub use names::{ConstraintName, named};
pub use reading::read_problem;
pub use texts::fault_text;
