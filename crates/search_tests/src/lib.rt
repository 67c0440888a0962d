//! Tests of searches: learn_search.
#![tactic(auto)]

#[cfg(test)]
mod answers;
#[cfg(test)]
mod roots;
