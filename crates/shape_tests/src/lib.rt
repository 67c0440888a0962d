//! Tests of the crates that make diagrams of relations: set_shapes, card_diagram and int_channel.
#![tactic(auto)]

#[cfg(test)]
mod cardinalities;
#[cfg(test)]
mod samples;
#[cfg(test)]
mod scalars;
#[cfg(test)]
mod set_items;
#[cfg(test)]
mod sets;
#[cfg(test)]
mod small_universes;
#[cfg(test)]
mod wide;
