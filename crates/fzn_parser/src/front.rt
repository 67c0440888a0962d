//! The first token, and how a list goes on.

ghost use Rattle.std.specs.Prelude.{◌≡◌, length, MatchOption};
ghost use Rattle.fzn_parser.specs.Grammar.{sign_of, signs};
ghost use Rattle.fzn_parser.specs.ToCome.{same_kind};
ghost use Rattle.fzn_parser.specs.Reading.{Gives, with_seen, first, after, goes_on, after_if, after_symbol};

use crate::faults::{SyntaxFault, What};
use fzn_reader::{Symbol, Token, TokenKind, Word};

/// The first token and those after it.
#[tactic(auto, unfolding(crate::specs::Reading::first))]
pub fn first<'t>(text: &[u8], tokens: &'t [Token]) -> Result<(Token, &'t [Token]), SyntaxFault>
    ensures { Gives (λ x. (sign_of text.now x.0, signs text.now x.1.now)) result
        (first (length text.now) (signs text.now tokens.now)) }
{
    match tokens {
        [token, rest @ ..] => Ok((*token, rest)),
        [] => Err(SyntaxFault::EndOfFile { at: text.len() }),
    }
}

pub fn same_kind(a: TokenKind, b: TokenKind) -> bool
    ensures { result ≡ same_kind a b }
{
    a == b
}

/// The place of the first token, which must be of this kind, and the tokens after it.
#[tactic(auto, unfolding(crate::specs::Reading::after))]
pub fn after<'t>(
    text: &[u8],
    tokens: &'t [Token],
    kind: TokenKind,
    what: What,
) -> Result<(usize, &'t [Token]), SyntaxFault>
    ensures { Gives (with_seen text.now) result
        (after (length text.now) kind what (signs text.now tokens.now)) }
{
    let (token, rest) = first(text, tokens)?;
    if same_kind(kind, token.kind) {
        Ok((token.from, rest))
    } else {
        Err(SyntaxFault::Expected {
            at: token.from,
            what,
        })
    }
}

/// Whether a list goes on after a comma, or ends with the bracket `close`, and the tokens after either.
#[tactic(auto, unfolding(crate::specs::Reading::goes_on))]
pub fn goes_on<'t>(
    text: &[u8],
    tokens: &'t [Token],
    close: Symbol,
    what: What,
) -> Result<(bool, &'t [Token]), SyntaxFault>
    ensures { Gives (with_seen text.now) result
        (goes_on (length text.now) close what (signs text.now tokens.now)) }
{
    let (token, rest) = first(text, tokens)?;
    if same_kind(TokenKind::Symbol(close), token.kind) {
        return Ok((false, rest));
    }
    if same_kind(TokenKind::Symbol(Symbol::Comma), token.kind) {
        return Ok((true, rest));
    }
    Err(SyntaxFault::Expected {
        at: token.from,
        what,
    })
}

/// The place of the symbol and the tokens after it, if it stands first.
#[tactic(auto, unfolding(crate::specs::Reading::after_if))]
pub fn after_if<'t>(
    text: &[u8],
    tokens: &'t [Token],
    symbol: Symbol,
) -> Option<(usize, &'t [Token])>
    ensures { MatchOption result (after_if symbol (signs text.now tokens.now) ≡ None)
        (λ x. after_if symbol (signs text.now tokens.now) ≡ Some (with_seen text.now x)) }
{
    let [token, rest @ ..] = tokens else {
        return None;
    };
    if same_kind(TokenKind::Symbol(symbol), token.kind) {
        Some((token.from, rest))
    } else {
        None
    }
}

/// The place of the symbol, which must stand first, and the tokens after it.
pub fn after_symbol<'t>(
    text: &[u8],
    tokens: &'t [Token],
    symbol: Symbol,
    what: What,
) -> Result<(usize, &'t [Token]), SyntaxFault>
    ensures { Gives (with_seen text.now) result
        (after_symbol (length text.now) symbol what (signs text.now tokens.now)) }
{
    after(text, tokens, TokenKind::Symbol(symbol), what)
}

/// The tokens after the word, which must stand first, and its place.
pub fn after_word<'t>(
    text: &[u8],
    tokens: &'t [Token],
    word: Word,
    what: What,
) -> Result<(usize, &'t [Token]), SyntaxFault>
    ensures { Gives (with_seen text.now) result
        (after (length text.now) (TokenKind.Word word) what (signs text.now tokens.now)) }
{
    after(text, tokens, TokenKind::Word(word), what)
}
