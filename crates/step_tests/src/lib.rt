//! Tests of the crates that take exact steps: exact_steps, value_bounds and propagators.
#![tactic(auto)]

#[cfg(test)]
mod bounds;
#[cfg(test)]
mod cases;
#[cfg(test)]
mod compiled;
#[cfg(test)]
mod small_domains;
#[cfg(test)]
mod steps;
