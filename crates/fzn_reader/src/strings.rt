//! Strings.

ghost use Rattle.std.specs.Prelude.{IfSome, IfNone};
ghost use Rattle.fzn_reader.specs.Pieces.{IsLongestBy, BeginsNoneBy, NeverCloses, string_piece};
ghost use Rattle.fzn_reader.specs.Front.{IsClosing, HasCause};

use crate::pieces::Piece;
use crate::tokens::TokenKind;

/// How many bytes after an opening quote there are up to the closing one, and with it.
fn closing_len(bytes: &[u8]) -> Option<usize>
    ensures found { IfSome result (λ n. IsClosing bytes.now n) }
    ensures none { IfNone result (NeverCloses bytes.now) }
{
    let mut escaped = false;
    for (i, byte) in bytes.iter().enumerate() {
        if *byte == b'\n' {
            return None;
        }
        if escaped {
            escaped = false;
        } else {
            if *byte == b'"' {
                return Some(i + 1);
            }
            escaped = *byte == b'\\';
        }
    }
    None
}

/// The string at the front of `text`, or its opening quote where it is never closed.
pub fn string_at(text: &[u8]) -> Option<(Piece, usize)>
    ensures found { IfSome result (λ p. IsLongestBy string_piece text.now p.1 p.0) }
    ensures none { IfNone result (BeginsNoneBy string_piece text.now) }
    ensures cause { IfSome result (λ p. HasCause text.now p.0) }
{
    let [first, rest @ ..] = text else {
        return None;
    };
    if *first != b'"' {
        return None;
    }
    match closing_len(rest) {
        Some(len) => Some((Piece::Token(TokenKind::Text), len + 1)),
        None => Some((Piece::OpenQuote, 1)),
    }
}
