//! Tests of propagation.
#![tactic(auto)]

#[cfg(test)]
mod propagating;
#[cfg(test)]
mod samples;
