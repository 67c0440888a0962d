//! The relations of sets, read bit by bit for the checker of refutation logs.
//!
//! A relation of two or three sets is read element by element, in ascending order: a `Rule` has a small state, what is
//! known so far, and each element moves it by which of the sets have it. The bits of one element follow each other, so
//! the state also keeps what was seen of the element at hand, and the element is closed at its last bit. Elements that
//! no variable may have are closed too.
//!
//! A `SetShape` reads the bits of set variables alone. Whatever else a constraint speaks of, as an index or a truth
//! value, is another shape beside it. Definitions stand in `specs/`.
#![tactic(auto)]

mod making;
mod marks;
mod operands;
mod reading;
mod relations;
mod rules;
mod shapes;
mod tables;

pub use marks::Marks;
pub use reading::{Entry, Seen};
pub use relations::is_between_sets;
pub use rules::{Progress, Rule};
pub use shapes::SetShape;
