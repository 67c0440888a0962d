//! Linear sums.

use crate::comparison::Comparison;
use listed::Listed;
use set_meaning::VarId;

/// A coefficient times the number that a variable's value counts as.
#[derive(Clone, Copy, PartialEq, Eq, Debug, Drop)]
pub struct LinearTerm {
    pub coefficient: i64,
    pub variable: VarId,
}

/// A linear sum that is compared with 0: terms of variables, and what the constants add up to.
#[derive(Drop)]
pub struct LinearSum {
    pub terms: Listed<LinearTerm>,
    pub constant: i128,
    pub comparison: Comparison,
}
