//! On which side of a bound values lie.

/// On which side of a bound values lie; the bound is on both.
#[derive(Clone, Copy, Debug, PartialEq, Eq)]
pub enum Sense {
    /// At least the bound.
    AtLeast,
    /// At most the bound.
    AtMost,
}
