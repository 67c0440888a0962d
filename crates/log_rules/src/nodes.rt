//! The nodes of a log.

/// A node of a log's table, which tests the bit at `place` of a word, counted from 0, and leads to node `lo` where the bit is false and
/// to node `hi` where it is true. The nodes of a table are numbered from 2 in their order; node 0 accepts nothing, node 1 everything.
#[derive(Clone, Copy, Debug, PartialEq, Eq)]
pub struct Node {
    pub place: u64,
    pub lo: u64,
    pub hi: u64,
}
