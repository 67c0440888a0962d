//! The longest piece at the front of a text: a token, a gap between tokens, or the beginning of a bad number or string.

ghost use Rattle.std.specs.Prelude.{IfSome, IfNone};
ghost use Rattle.fzn_reader.specs.Pieces.{IsLongestPiece, BeginsNoPiece};
ghost use Rattle.fzn_reader.specs.Front.{HasCause};

use crate::gaps::{comment_at, is_separator, separators_at};
use crate::numbers::{begins_number, number_at};
use crate::strings::string_at;
use crate::symbols::symbol_at;
use crate::tokens::TokenKind;
use crate::words::{begins_word, word_at};

/// What a piece of text is.
#[derive(Clone, Copy, Debug, PartialEq, Eq)]
pub enum Piece {
    /// A token.
    Token(TokenKind),
    /// Separators, or a comment.
    Gap,
    /// `0x` or `0o`, with or without a `-`, and no digit: no token.
    NoDigits,
    /// The opening quote of a string that is never closed: no token.
    OpenQuote,
}

/// The longest piece that `text` begins with, and how many bytes it has.
pub fn piece_at(text: &[u8]) -> Option<(Piece, usize)>
    ensures found { IfSome result (λ p. IsLongestPiece text.now p.1 p.0) }
    ensures none { IfNone result (BeginsNoPiece text.now) }
    ensures cause { IfSome result (λ p. HasCause text.now p.0) }
{
    let [first, ..] = text else {
        return None;
    };
    let first = *first;
    if begins_number(first) {
        number_at(text)
    } else if begins_word(first) {
        word_at(text)
    } else if is_separator(first) {
        separators_at(text)
    } else if first == b'"' {
        string_at(text)
    } else if first == b'%' {
        comment_at(text)
    } else {
        symbol_at(text)
    }
}
