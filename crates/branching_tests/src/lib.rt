//! Tests of branching.
#![tactic(auto)]

#[cfg(test)]
mod samples;
#[cfg(test)]
mod turns;
