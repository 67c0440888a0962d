//! Tests of the crates of diagrams: diagram_arena, node_reclaim, diagram_ops and diagram_view.
#![tactic(auto)]

#[cfg(test)]
mod arenas;
#[cfg(test)]
mod memo;
#[cfg(test)]
mod operations;
#[cfg(test)]
mod pools;
#[cfg(test)]
mod products;
#[cfg(test)]
mod reclaiming;
#[cfg(test)]
mod views;
#[cfg(test)]
mod words;
