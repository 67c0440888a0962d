//! What the machine keeps, and how it reads a bit.

/// What a table machine keeps of the bits that it has read.
#[derive(Clone, Copy, PartialEq, Eq, Hash, Debug)]
pub enum State {
    /// Whatever the bits to come of this word are, it is listed; between words, each word so far is.
    Free,
    /// Some word is not listed.
    Lost,
    /// Of the words that are listed, those that begin with what was read stand from position `from` up to before position `to`.
    Within { from: usize, to: usize },
}

/// How the bit at a place is read.
#[derive(Clone, Copy, PartialEq, Eq, Debug)]
pub enum Reading {
    /// It is passed over.
    Passed,
    /// It is the first bit of a word that is to be one of those listed from position `from` up to before position `to`. After it come
    /// `rest` bits of the word.
    First { from: usize, to: usize, rest: u32 },
    /// It is a later bit of the word, after which `rest` bits of it come.
    Next { rest: u32 },
}
