//! The search over decision diagrams. So far it finds the root family: the largest family of domains that the exact step of
//! every constraint leaves as it is (domain consistency; Hawkins, Lagoon and Stuckey, JAIR 2005).
#![tactic(auto)]

mod advancing;
mod agenda;
mod answering;
mod beginning;
mod narrowing;
mod root;
mod rows;
mod search;

pub use search::{Found, LastState, NotBegun, RootFound, Search, SearchEnd, StopFault};
