//! What the items so far come to.

use crate::declared::Declared;
use set_meaning::Kind;

/// What the items so far come to, none of which has a fault: the names that they declare, the kinds of their
/// variables, and what is counted over them.
#[derive(Drop)]
pub(crate) struct SoFar {
    pub declared: Declared,
    pub kinds: Vec<Kind>,
    pub counts: Counts,
}

/// What is counted over the items so far.
#[derive(Clone, Copy, Debug)]
pub(crate) struct Counts {
    /// The bits of the variables, each counted as at least one.
    pub bits: u64,
    /// The initial values of the integer variables.
    pub integer_values: u64,
    /// The elements of the constant sets in constraints.
    pub elements: u64,
    pub constraints: u64,
    /// The terms of the constraints.
    pub terms: u64,
}
