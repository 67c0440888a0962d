//! What the search finds, and why it stops.

use set_meaning::VarId;

/// What was found.
#[derive(Clone, Copy, Debug, PartialEq, Eq)]
pub enum Found {
    /// Each variable has one value, and everything leaves these as they are.
    Single,
    /// Nothing is left.
    Complete,
}

/// Why nothing was found.
#[derive(Clone, Copy, Debug, PartialEq, Eq)]
pub enum FindStop {
    /// As many boxes are learned as conflicts were allowed.
    Conflicts,
    /// There was no room for a node of one unit, right after a reclamation too.
    Full,
    /// Want of memory.
    Memory,
}

/// Where a turn of the search leads.
#[derive(Clone, Copy, Debug, PartialEq, Eq)]
pub(crate) enum Turn {
    /// It narrowed this variable.
    Narrowed(VarId),
    /// It found something.
    Ended(Found),
}
