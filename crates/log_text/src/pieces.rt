//! A text cut at a byte.

ghost use Rattle.std.specs.Prelude.{◌≡◌, ◌==◌, [], ◌∷◌, MatchOption, IfSome, IsTrue, ◌↔◌, position, length, ◌<◌};
ghost use Rattle.std.specs.List.{slice_split};

use std::marker::Model;

/// What is still to come of a text that is cut at each `separator`, seen as the list of the pieces.
#[derive(Drop)]
pub(crate) struct Pieces<'a> {
    rest: &'a [u8],
    separator: u8,
    is_done: bool,
}

impl<'a> Model for Pieces<'a> {
    ghost use Rattle.std.specs.Prelude.{ℕ, List};
    ghost use Rattle.log_text.specs.Pieces.{pieces_left};

    ghost Value = { List (List ℕ) };

    ghost view = { λ p. pieces_left p.separator p.is_done p.rest.now };
}

impl<'a> Pieces<'a> {
    pub(crate) fn of(text: &'a [u8], separator: u8) -> Self
        ensures { result ≡ slice_split (λ b. b == separator) text.now }
    {
        Pieces {
            rest: text,
            separator,
            is_done: false,
        }
    }

    /// Whether no piece is left.
    pub(crate) fn is_empty(&self) -> bool
        ensures { IsTrue result ↔ (self.now ≡ []) }
    {
        self.is_done
    }

    /// The next piece.
    pub(crate) fn next_piece(&mut self) -> Option<&'a [u8]>
        ensures { MatchOption result ((self.old ≡ []) × (self.new ≡ [])) (λ piece. self.old ≡ piece.now ∷ self.new) }
    {
        if self.is_done {
            return None;
        }
        let rest = self.rest;
        match separator_at(rest, self.separator) {
            Some(at) => {
                self.rest = &rest[at + 1..];
                Some(&rest[..at])
            }
            None => {
                self.is_done = true;
                Some(rest)
            }
        }
    }
}

/// Where the first separator stands.
fn separator_at(text: &[u8], separator: u8) -> Option<usize>
    ensures first { result ≡ position (λ b. b == separator) text.now }
    ensures within { IfSome result (λ at. at < length text.now) }
{
    text.iter().position(|byte| *byte == separator)
}
