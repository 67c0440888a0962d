//! The scan of a whole text.

ghost use Rattle.std.specs.Prelude.{◌≡◌, ◌⊎◌, List, Result, IfOk, IfErr, OnOk};
ghost use Rattle.fzn_reader.specs.declared.tokens.Token.{Token};
ghost use Rattle.fzn_reader.specs.Scan.{AreTokensOf, IsFirstLexFault, EndsIn};
ghost use Rattle.fzn_reader.specs.Front.{IsTaken, IsRefused};

use crate::pieces::{Piece, piece_at};
use crate::tokens::Token;
use std::alloc::{AllocError, AllocFailed, Global};
use thiserror::Error;

/// Why a text has no tokens: its first fault, with its place.
#[derive(Clone, Copy, Debug, PartialEq, Eq, Error)]
pub enum LexFault {
    /// Any other byte at which no token, separator or comment begins.
    #[error("bad byte")]
    BadByte { at: usize },
    /// `0x` or `0o`, or a `-` directly before it, with no digit of its base after it.
    #[error("bad number")]
    BadNumber { at: usize },
    /// The opening quote of a string that meets a newline, also one right after a backslash, or the end of the text.
    #[error("string not closed")]
    OpenString { at: usize },
    /// There was not enough memory.
    #[error("out of memory")]
    Memory,
}

impl From<AllocError> for LexFault {
    ghost use Rattle.std.specs.Prelude.{◌≡◌};
    ghost use Rattle.fzn_reader.specs.declared.lexer.LexFault.TheVariants.{Memory};

    ghost from_gives = { λ _ e. e ≡ Memory };

    fn from(_: AllocError) -> LexFault {
        LexFault::Memory
    }
}

impl<T: Drop> From<AllocFailed<T>> for LexFault {
    ghost use Rattle.std.specs.Prelude.{◌≡◌};
    ghost use Rattle.fzn_reader.specs.declared.lexer.LexFault.TheVariants.{Memory};

    ghost from_gives = { λ _ e. e ≡ Memory };

    fn from(_: AllocFailed<T>) -> LexFault {
        LexFault::Memory
    }
}

/// Appends the token that a piece is, or nothing for a gap.
fn append_piece(
    tokens: &mut Vec<Token>,
    piece: Piece,
    from: usize,
    to: usize,
) -> Result<(), LexFault>
    ensures taken { OnOk result (IsTaken piece from to tokens.old.items tokens.new.items) }
    ensures refused { IfErr result (λ e. (e ≡ LexFault.Memory) ⊎ IsRefused piece from e) }
{
    match piece {
        Piece::Token(kind) => {
            tokens.push(Token { kind, from, to })?;
            Ok(())
        }
        Piece::Gap => Ok(()),
        Piece::NoDigits => Err(LexFault::BadNumber { at: from }),
        Piece::OpenQuote => Err(LexFault::OpenString { at: from }),
    }
}

/// The tokens of `text` in their order, or its first fault; `alloc` is where the list is made.
///
/// At each place the longest token is taken. Separators and comments lie between tokens and give none. A token's
/// range has the `-` of a number and the quotes of a string, and its bytes stay in `text`. A place, also that of a
/// fault, is the number of bytes before it. The work is linear in the length of the text.
///
/// Source: the FlatZinc grammar of the MiniZinc Handbook.
pub fn lex(alloc: Global, text: &[u8]) -> Result<Vec<Token>, LexFault>
    ensures tokens { IfOk result (λ ts. AreTokensOf text.now ts.items) }
    ensures fault { IfErr result (λ e. (e ≡ LexFault.Memory) ⊎ IsFirstLexFault text.now e) }
    ensures one_end { (a b : Result (List Token) LexFault)
        → EndsIn text.now a → EndsIn text.now b → a ≡ b }
{
    let mut tokens = Vec::new(alloc);
    let mut from = 0;
    while from < text.len() {
        let Some((piece, len)) = piece_at(&text[from..]) else {
            return Err(LexFault::BadByte { at: from });
        };
        let to = from + len;
        append_piece(&mut tokens, piece, from, to)?;
        from = to;
    }
    Ok(tokens)
}
