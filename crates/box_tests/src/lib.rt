//! Tests of value sets and of boxes over diagrams.
#![tactic(auto)]

#[cfg(test)]
mod samples;
#[cfg(test)]
mod stepping;
#[cfg(test)]
mod storing;
