use set_meaning::VarId;

/// For what a bit stands: a position of the words of a variable, and for a set variable the element there.
///
/// Places are compared by element, then variable, then position. A place without an element is before those with one.
#[derive(Clone, Copy, PartialEq, Eq, PartialOrd, Ord, Debug)]
pub struct Place {
    /// The element of the universe, for a set variable; None for a Boolean or an integer.
    pub element: Option<i64>,
    /// The variable.
    pub variable: VarId,
    /// The position in its words, counted from 0.
    pub position: u32,
}
