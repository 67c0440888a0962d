//! The diagrams of set relations: `is_set_shape` says of which, and `set_shape` makes the diagram of a constraint.
//!
//! A relation is a machine of elements (`element_machine`) that keeps whether all elements have passed the relation's test, or for the
//! order of sets where the two first differ; its bits are read by a table that is made from the constraint's arguments. The element
//! relation is a choice of such machines, each beside that of an index. That what is accepted is what satisfies the relation is the
//! clause `diagram` of `set_shape`.
#![tactic(auto)]

mod branches;
mod element_relation;
mod machines;
mod operands;
mod orders;
mod passing;
mod progress;
mod shapes;
mod tables;
mod tests_of_elements;

pub use machines::is_set_shape;
pub use shapes::set_shape;
