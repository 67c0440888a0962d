//! Tests of what the checker asks of a log's nodes and axioms, against values from outside.
#![tactic(auto)]

#[cfg(test)]
mod axioms;
#[cfg(test)]
mod large;
#[cfg(test)]
mod nodes;
#[cfg(test)]
mod relations;
