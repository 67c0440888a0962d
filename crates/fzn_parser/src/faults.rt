//! Why tokens are no model.

use std::alloc::{AllocError, AllocFailed};
use thiserror::Error;

/// What a text is expected to have at a place.
#[derive(Clone, Copy, Debug, PartialEq, Eq)]
pub enum What {
    Item,
    /// The end of the text.
    End,
    Name,
    /// A type, or the rest of one.
    TypeWord,
    Expression,
    Annotation,
    /// An integer, or any number of a set literal.
    Integer,
    /// The integer 1.
    One,
    Of,
    Goal,
    Semicolon,
    Colon,
    Equals,
    Range,
    OpenRound,
    OpenSquare,
    CloseSquare,
    CommaOrRound,
    CommaOrSquare,
    CommaOrCurly,
}

/// Why tokens are no model: the first fault, with its place.
#[derive(Clone, Copy, Debug, PartialEq, Eq, Error)]
pub enum SyntaxFault {
    /// The first token with which the tokens so far begin no model, and what is expected there.
    #[error("unexpected token")]
    Expected { at: usize, what: What },
    /// The text ends, and its tokens begin a model, but are none. `at` is the length of the text.
    #[error("text ends too early")]
    EndOfFile { at: usize },
    /// The `(` or `[` of an annotation that would be the 101st open one. Braces and the brackets of a constraint do not
    /// count.
    #[error("too deep")]
    TooDeep { at: usize },
    /// There was not enough memory.
    #[error("out of memory")]
    Memory,
}

impl From<AllocError> for SyntaxFault {
    ghost use Rattle.std.specs.Prelude.{◌≡◌};
    ghost use Rattle.fzn_parser.specs.declared.faults.SyntaxFault.TheVariants.{Memory};

    ghost from_gives = { λ _ e. e ≡ Memory };

    fn from(_: AllocError) -> SyntaxFault {
        SyntaxFault::Memory
    }
}

impl<T: Drop> From<AllocFailed<T>> for SyntaxFault {
    ghost use Rattle.std.specs.Prelude.{◌≡◌};
    ghost use Rattle.fzn_parser.specs.declared.faults.SyntaxFault.TheVariants.{Memory};

    ghost from_gives = { λ _ e. e ≡ Memory };

    fn from(_: AllocFailed<T>) -> SyntaxFault {
        SyntaxFault::Memory
    }
}
