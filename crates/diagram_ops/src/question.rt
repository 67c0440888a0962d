//! Operations with their arguments: what the recursion answers, and the memo keeps.

use diagram_arena::Ref;

/// An operation on two sets of words.
#[derive(Clone, Copy, PartialEq, Eq, Hash, Debug)]
pub(crate) enum Op {
    And,
    Or,
    Diff,
}

/// An operation with its arguments: the key of the memo.
#[derive(Clone, Copy, PartialEq, Eq, Hash, Debug)]
pub(crate) enum Question {
    /// An operation on two sets.
    Combine(Op, Ref, Ref),
    /// What is left of a set once a bit has this value.
    Restrict(Ref, u32, bool),
}
