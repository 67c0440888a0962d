//! The rows of the automaton.

/// What a state of a `ChoiceMachine` does, as contracts see it. States are numbers of rows, and row 0 is the first.
#[derive(Clone, Copy, PartialEq, Eq, Debug)]
pub struct Row {
    /// The number of the state after a bit that is false.
    pub on_false: usize,
    /// The number of the state after a bit that is true.
    pub on_true: usize,
    /// Whether a word that ends in this state is accepted.
    pub accepts: bool,
}
