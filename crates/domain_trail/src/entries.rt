//! Entries of a trail.

use diagram_arena::Ref;
use set_meaning::{BoxId, ConId, VarId};

/// Why a domain was narrowed.
#[derive(Clone, Copy, Debug, PartialEq, Eq)]
pub enum Reason {
    /// By a decision.
    Decision,
    /// By the step of this constraint.
    Constraint(ConId),
    /// By the step of this box.
    Box(BoxId),
}

/// A narrowing: the variable, its domain from before, the reason, and the level at which it was made.
#[derive(Clone, Copy, Debug, PartialEq, Eq)]
pub struct Entry {
    pub var: VarId,
    pub before: Ref,
    pub reason: Reason,
    pub level: u32,
}
