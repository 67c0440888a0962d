//! Compiled problems: the diagrams of constraints and of initial domains, and the exact step of a constraint.
//!
//! `Compiled::new` makes for each variable the domain of its initial values and for each constraint its diagram, its truth value included,
//! and pins them. `step` narrows domains by one constraint (`exact_steps`).
#![tactic(auto)]

mod compiled;
mod initial;
mod laws;
mod reified;
mod relations;
mod steps;
mod units;

pub use compiled::Compiled;
pub use exact_steps::StepResult;
pub use laws::{compiled_stays, initial_domains_are_domains};
pub use relations::relations_have_one_kind;
pub use steps::step;
pub use value_bounds::root_bounds;
