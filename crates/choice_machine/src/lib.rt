//! A choice of machines: the machine that accepts what at least one of several machines accepts.
//!
//! A relation that holds where one of many branches does, as "the index is i and the i-th item is c", is given by a machine a branch. They are
//! run together once, ahead (`choice_of`), and what is kept of each is a table of rows: a deterministic automaton (`ChoiceMachine`). A machine that is
//! lost (`Losing`), as a branch of another index, is no longer run, so that once the index is read one branch is left at each row.
#![tactic(auto)]

mod building;
mod losing;
mod machine;
mod rows;

pub use building::choice_of;
pub use losing::Losing;
pub use machine::ChoiceMachine;
pub use rows::Row;
