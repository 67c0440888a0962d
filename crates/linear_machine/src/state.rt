//! What is kept of the bits that were read.

/// What is kept of the bits that were read.
#[derive(Clone, Copy, PartialEq, Eq, Hash, Debug, Drop)]
pub enum State {
    /// The sum so far; what is to come decides.
    Open(i128),
    /// The answer, whatever is to come.
    Settled(bool),
}
