//! The rules of a log: which lines are valid after those before them, and which logs are accepted.
//!
//! The definitions are in `specs/`: the table of nodes and the walk of a word in it (`Tables`), boxes with their sides (`Boxes`), what lines
//! have made (`States`), the rules that a valid line keeps, with the reason that goes with each (`Rules`), and accepted logs (`Logs`).
//! They are over values and lists of lines. Each function of `laws` does nothing: its contract is a law, which a caller cites by calling it.
#![tactic(auto)]

mod laws;
mod nodes;
mod reasons;

pub use laws::{
    children_are_deeper, closed_logs_cover_all, logs_grow_by_lines, refusals_are_one, tables_grow,
    valid_logs_are_sound, walks_go_to_children,
};
pub use nodes::Node;
pub use reasons::{End, Reason};
