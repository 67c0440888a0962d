//! What is known of the values of a word that is read.

/// Which of the words that begin with the bits read so far are those of values.
#[derive(Clone, Copy, PartialEq, Eq, PartialOrd, Ord, Debug, Drop)]
pub enum Part {
    /// All of them.
    Every,
    /// Some of them; the bits read so far are the binary digits of this number.
    Partly(u64),
    /// None of them.
    Nothing,
}
