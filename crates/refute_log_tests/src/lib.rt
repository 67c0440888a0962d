//! Tests of the writer of a refutation log: refute_log. Lines are worked out by hand from docs/FORMATS.md.
#![tactic(auto)]

#[cfg(test)]
mod boxes;
#[cfg(test)]
mod nodes;
#[cfg(test)]
mod unwritten;
