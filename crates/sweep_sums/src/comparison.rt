//! How a sum is to compare with 0.

/// How a sum is to compare with 0.
#[derive(Clone, Copy, PartialEq, Eq, Debug, Drop)]
pub enum Comparison {
    /// It is 0.
    Equal,
    /// It is not 0.
    Different,
    /// It is 0 or negative.
    AtMost,
}
