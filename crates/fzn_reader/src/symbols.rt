//! Symbols.

ghost use Rattle.std.specs.Prelude.{◌≡◌, ◌<◌, ◌∷◌, [], IfSome, IfNone, length, slice_get, slice_index};
ghost use Rattle.fzn_reader.specs.Pieces.{IsLongestBy, BeginsNoneBy, symbol_of, symbol_piece};
ghost use Rattle.fzn_reader.specs.Front.{HasCause, symbol_of_two};

use crate::pieces::Piece;
use crate::tokens::{Symbol, TokenKind};

fn single(a: u8) -> Option<Symbol>
    ensures { result ≡ symbol_of (a ∷ []) }
{
    match a {
        b';' => Some(Symbol::Semicolon),
        b':' => Some(Symbol::Colon),
        b',' => Some(Symbol::Comma),
        b'=' => Some(Symbol::Equals),
        b'(' => Some(Symbol::OpenRound),
        b')' => Some(Symbol::CloseRound),
        b'[' => Some(Symbol::OpenSquare),
        b']' => Some(Symbol::CloseSquare),
        b'{' => Some(Symbol::OpenCurly),
        b'}' => Some(Symbol::CloseCurly),
        _ => None,
    }
}

fn double(a: u8, b: u8) -> Option<Symbol>
    ensures { result ≡ symbol_of (a ∷ b ∷ []) }
{
    match (a, b) {
        (b':', b':') => Some(Symbol::ColonColon),
        (b'.', b'.') => Some(Symbol::DotDot),
        _ => None,
    }
}

fn second(text: &[u8]) -> Option<u8>
    ensures { result ≡ slice_get text.now 1 }
{
    text.get(1).copied()
}

fn symbol_of_two(a: u8, next: Option<u8>) -> Option<Symbol>
    ensures { result ≡ symbol_of_two a next }
{
    double(a, next?)
}

/// The longest symbol at the front of `text`.
pub fn symbol_at(text: &[u8]) -> Option<(Piece, usize)>
    requires some { 0 < length text.now }
    ensures found { IfSome result (λ p. IsLongestBy symbol_piece text.now p.1 p.0) }
    ensures none { IfNone result (BeginsNoneBy symbol_piece text.now) }
    ensures cause { IfSome result (λ p. HasCause text.now p.0) }
{
    let first = text[0];
    match symbol_of_two(first, second(text)) {
        Some(symbol) => Some((Piece::Token(TokenKind::Symbol(symbol)), 2)),
        None => {
            let symbol = single(first)?;
            Some((Piece::Token(TokenKind::Symbol(symbol)), 1))
        }
    }
}
