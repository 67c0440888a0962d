//! What lies between tokens: separators and comments.

ghost use Rattle.std.specs.Prelude.{◌≡◌, ◌≤◌, length, IfSome, IfNone};
ghost use Rattle.std.specs.List.{prefix_len};
ghost use Rattle.fzn_reader.specs.Pieces.{IsLongestBy, BeginsNoneBy, is_separator, is_within_line, separator_piece, comment_piece};
ghost use Rattle.fzn_reader.specs.Front.{HasCause};

use crate::pieces::Piece;

pub fn is_separator(byte: u8) -> bool
    ensures { result ≡ is_separator byte }
{
    matches!(byte, b' ' | b'\t' | b'\r' | b'\n')
}

fn separators_len(text: &[u8]) -> usize
    ensures run { result ≡ prefix_len is_separator text.now }
    ensures within { result ≤ length text.now }
{
    text.iter().take_while(|b| is_separator(**b)).count()
}

fn line_len(text: &[u8]) -> usize
    ensures run { result ≡ prefix_len is_within_line text.now }
    ensures within { result ≤ length text.now }
{
    text.iter().take_while(|b| **b != b'\n').count()
}

/// The separators at the front of `text`.
pub fn separators_at(text: &[u8]) -> Option<(Piece, usize)>
    ensures found { IfSome result (λ p. IsLongestBy separator_piece text.now p.1 p.0) }
    ensures none { IfNone result (BeginsNoneBy separator_piece text.now) }
    ensures cause { IfSome result (λ p. HasCause text.now p.0) }
{
    let len = separators_len(text);
    if len == 0 {
        return None;
    }
    Some((Piece::Gap, len))
}

/// The comment at the front of `text`, to the end of its line.
pub fn comment_at(text: &[u8]) -> Option<(Piece, usize)>
    ensures found { IfSome result (λ p. IsLongestBy comment_piece text.now p.1 p.0) }
    ensures none { IfNone result (BeginsNoneBy comment_piece text.now) }
    ensures cause { IfSome result (λ p. HasCause text.now p.0) }
{
    let [first, line @ ..] = text else {
        return None;
    };
    if *first != b'%' {
        return None;
    }
    Some((Piece::Gap, line_len(line) + 1))
}
