//! Several sets of words taken together, without the nodes of their intersection.

use diagram_arena::Ref;

/// The words that several refs have in common.
#[derive(Clone, Copy, PartialEq, Eq, Hash, Debug)]
pub(crate) enum Product {
    /// Those of one ref.
    Single(Ref),
    /// Those of the pair under this number.
    Both(u32),
}

/// Two products taken together, and the first bit that they ask.
#[derive(Clone, Copy, PartialEq, Eq, Hash, Debug)]
pub(crate) struct Pair {
    pub(crate) bit: u32,
    pub(crate) left: Product,
    pub(crate) right: Product,
}
