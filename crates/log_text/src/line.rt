//! The lines of a log.

ghost use Rattle.std.specs.Prelude.{◌≡◌};
ghost use Rattle.log_text.specs.declared.line.LineFault.TheVariants.{Memory};

use listed::Listed;
use std::alloc::{AllocError, AllocFailed};

/// The sides of a box: each the number of a variable, and the number of the node from which the words of the variable's
/// values in the box are accepted. A variable that is not named has all its initial values.
pub type Sides = Listed<(u64, u64)>;

/// The elements of a set.
pub type Ints = Listed<i64>;

/// The values of an answer, one for each variable in file order.
pub type LogValues = Listed<LogValue>;

/// A value in an answer.
#[derive(Debug, Drop)]
pub enum LogValue {
    Bool(bool),
    /// Has a spelling where it is at most 1,000,000,000 in size.
    Int(i64),
    /// The elements of a set. It has a spelling where they ascend, each at most 1,000,000 in size.
    Set(Ints),
}

/// A line of a log. Nodes are numbered from 2, since 0 is the node that accepts nothing and 1 the one that accepts
/// everything; boxes of all three kinds are numbered together from 0. A line has a spelling only where each number is
/// at most 2^40.
#[derive(Debug, Drop)]
pub enum Line {
    /// The first line.
    Header,
    /// Node `number` tests position `place` of a word, and leads to `lo` where that bit is false, to `hi` where it is
    /// true.
    Node {
        number: u64,
        place: u64,
        lo: u64,
        hi: u64,
    },
    /// No assignment in box `number` satisfies `constraint`.
    Axiom {
        number: u64,
        constraint: u64,
        sides: Sides,
    },
    /// An answer, and box `number` which it covers.
    Answer {
        number: u64,
        values: LogValues,
        sides: Sides,
    },
    /// Box `number` lies in the resolvent of the boxes `left` and `right` on the variable `pivot`.
    Resolvent {
        number: u64,
        left: u64,
        right: u64,
        pivot: u64,
        sides: Sides,
    },
    /// Box `number` is learned.
    Learned {
        number: u64,
    },
    /// Box `number` holds everything: nothing is left.
    Close {
        number: u64,
    },
    /// The run stopped.
    End,
}

/// Why a text was not read as a line.
#[derive(Clone, Copy, Debug, PartialEq, Eq)]
pub enum LineFault {
    /// No line has this spelling.
    BadForm,
    /// Memory ran out.
    Memory,
}

impl From<AllocError> for LineFault {
    ghost from_gives = { λ _ fault. fault ≡ Memory };

    fn from(_error: AllocError) -> LineFault {
        LineFault::Memory
    }
}

impl<T: Drop> From<AllocFailed<T>> for LineFault {
    ghost from_gives = { λ _ fault. fault ≡ Memory };

    fn from(_error: AllocFailed<T>) -> LineFault {
        LineFault::Memory
    }
}
