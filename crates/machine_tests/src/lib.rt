//! Tests of the crates that read words bit by bit: scope_words, bit_machine and the machines above it.
#![tactic(auto)]

#[cfg(test)]
mod building;
#[cfg(test)]
mod choices;
#[cfg(test)]
mod elements;
#[cfg(test)]
mod samples;
#[cfg(test)]
mod scopes;
#[cfg(test)]
mod sums;
#[cfg(test)]
mod tables;
#[cfg(test)]
mod terms;
