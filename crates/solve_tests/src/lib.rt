//! Tests of `solve_top`: runs over a desk in memory. The expected texts are worked out by hand.
#![tactic(auto)]

#[cfg(test)]
mod chance;
#[cfg(test)]
mod failing;
#[cfg(test)]
mod models;
#[cfg(test)]
mod nodes;
#[cfg(test)]
mod roots;
#[cfg(test)]
mod running;
#[cfg(test)]
mod schedule;
#[cfg(test)]
mod searching;
#[cfg(test)]
mod trying;
#[cfg(test)]
mod words;
