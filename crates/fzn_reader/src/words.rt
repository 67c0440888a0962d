//! Names and reserved words.

ghost use Rattle.std.specs.Prelude.{◌≡◌, IfSome, IfNone};
ghost use Rattle.std.specs.List.{prefix_len};
ghost use Rattle.fzn_reader.specs.Pieces.{IsLongestBy, BeginsNoneBy, is_name_byte, leads_to_letter, word_kind, word_piece};
ghost use Rattle.fzn_reader.specs.Front.{HasCause, begins_word};

use crate::pieces::Piece;
use crate::tokens::{TokenKind, Word};

/// Whether `byte` can be the first of a name or a reserved word.
pub fn begins_word(byte: u8) -> bool
    ensures { result ≡ begins_word byte }
{
    byte == b'_' || byte.is_ascii_alphabetic()
}

fn is_name_byte(byte: u8) -> bool
    ensures { result ≡ is_name_byte byte }
{
    byte.is_ascii_alphanumeric() || byte == b'_'
}

fn word_len(text: &[u8]) -> usize
    ensures { result ≡ prefix_len is_name_byte text.now }
{
    text.iter().take_while(|b| is_name_byte(**b)).count()
}

/// Whether any number of `_` and then a letter begin `bytes`.
fn leads_to_letter(bytes: &[u8]) -> bool
    ensures { result ≡ leads_to_letter bytes.now }
{
    for byte in bytes {
        if *byte != b'_' {
            return byte.is_ascii_alphabetic();
        }
    }
    false
}

fn word_kind(word: Option<Word>) -> TokenKind
    ensures { result ≡ word_kind word }
{
    match word {
        Some(reserved) => TokenKind::Word(reserved),
        None => TokenKind::Name,
    }
}

/// The longest name or reserved word at the front of `text`.
pub fn word_at(text: &[u8]) -> Option<(Piece, usize)>
    ensures found { IfSome result (λ p. IsLongestBy word_piece text.now p.1 p.0) }
    ensures none { IfNone result (BeginsNoneBy word_piece text.now) }
    ensures cause { IfSome result (λ p. HasCause text.now p.0) }
{
    let len = word_len(text);
    let word = &text[..len];
    if !leads_to_letter(word) {
        return None;
    }
    Some((Piece::Token(word_kind(Word::of(word))), len))
}
