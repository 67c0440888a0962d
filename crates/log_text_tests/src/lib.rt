//! Tests of the public calls of the log language. Expected values are worked out by hand from docs/FORMATS.md.
#![tactic(auto)]

#[cfg(test)]
mod lines;
