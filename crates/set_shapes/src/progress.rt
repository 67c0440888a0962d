//! What is known of the order of two sets once some elements are read.

/// What the elements read so far say of the order of two sets.
#[derive(Clone, Copy, PartialEq, Eq, Hash, Debug)]
pub(crate) enum Progress {
    /// Both have the same of them.
    Same,
    /// Then the first has one that the second lacks, and the second has none after it.
    FirstHasMore,
    /// Then the second has one that the first lacks, and the first has none after it.
    SecondHasMore,
    /// The lists differ at a place that both have: whether the first is before the second.
    Settled(bool),
}
