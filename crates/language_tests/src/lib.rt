//! Tests of the public calls of the language layer: from bytes to problems, what these mean, and what is printed.
//!
//! Expected values are worked out by hand from docs/FORMATS.md. What several tests need stands once, in `samples`.
#![tactic(auto)]

#[cfg(test)]
mod blocks;
#[cfg(test)]
mod fault_lines;
#[cfg(test)]
mod layouts;
#[cfg(test)]
mod limits;
#[cfg(test)]
mod models;
#[cfg(test)]
mod relations;
#[cfg(test)]
mod rows;
#[cfg(test)]
mod samples;
#[cfg(test)]
mod solutions;
#[cfg(test)]
mod syntax;
#[cfg(test)]
mod tokens;
#[cfg(test)]
mod values;
