//! What relations of integers and Booleans are made of.

use linear_machine::Comparison;
use linear_terms::LinearTerm;
use listed::Listed;
use set_meaning::VarId;

/// A linear sum that is compared with 0: terms of variables, and what the constants add up to.
#[derive(Drop)]
pub(crate) struct LinearSum {
    pub(crate) terms: Listed<LinearTerm>,
    pub(crate) constant: i128,
    pub(crate) comparison: Comparison,
}

/// A linear sum that compares so with 0, or a set variable that has the element.
#[derive(Drop)]
pub(crate) enum Atom {
    Sum(LinearSum),
    Member { set: VarId, element: i64 },
}

/// Two facts that both hold.
#[derive(Drop)]
pub(crate) struct Branch {
    pub(crate) first: Atom,
    pub(crate) second: Atom,
}
