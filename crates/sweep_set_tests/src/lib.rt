//! Tests of the shapes of sets: what they accept, against sets as bits of a number.
#![tactic(auto)]

#[cfg(test)]
mod tests;
