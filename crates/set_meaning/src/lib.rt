//! What a problem over sets, integers and Booleans is, and what it means.
//!
//! A problem has variables, each of a kind, and constraints over terms. Its definitions, which every layer above cites,
//! stand in `specs/`: the initial values of a kind, an assignment, when a constraint holds, a solution, an answer. The
//! functions here decide them one by one, slowly and plainly.
#![tactic(auto)]

pub mod initial;
pub mod kinds;
pub mod meaning;
pub mod problems;
pub mod rows;
pub mod sets;

pub use initial::initial_values;
pub use kinds::{Kind, Value, in_kind};
pub use meaning::{holds, is_solution, scope};
pub use problems::{
    Arg, Bounds, BoxId, ConId, Constraint, Dim, Goal, Problem, Relation, Shown, Term, Text, VarId,
};
pub use rows::{Row, Shape, Sort, fits_row, row_of};
pub use sets::SetValue;
