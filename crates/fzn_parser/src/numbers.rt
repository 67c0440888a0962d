//! Numbers and set literals.
//!
//! Each function reads a part of the grammar from the front of `tokens`, which are tokens of `text`, and gives the part
//! with the tokens after it, or the first fault.

ghost use Rattle.std.specs.Prelude.{◌≡◌, length};
ghost use Rattle.fzn_parser.specs.Grammar.{signs};
ghost use Rattle.fzn_parser.specs.Reading.{Gives, with_seen, with_front, more, from_first, a_list, number_by, number, integer_by, integer, range_from, braced, upper_end};

use crate::faults::{SyntaxFault, What};
use crate::front::{after_if, after_symbol, first, goes_on, same_kind};
use crate::tree::{Num, Number, SetForm};
use fzn_reader::{Symbol, Token, TokenKind};
use listed::Listed;
use std::alloc::Global;

/// The number that a token is.
fn number_of(kind: TokenKind, at: usize) -> Result<Number, SyntaxFault>
    ensures { Gives (λ x. x) result (number_by kind at) }
{
    match kind {
        TokenKind::Int(value) => Ok(Number {
            at,
            num: Num::Int(value),
        }),
        TokenKind::LargeInt => Ok(Number {
            at,
            num: Num::Large,
        }),
        TokenKind::Float => Ok(Number {
            at,
            num: Num::Float,
        }),
        _ => Err(SyntaxFault::Expected {
            at,
            what: What::Integer,
        }),
    }
}

#[tactic(auto, unfolding(crate::specs::Reading::number))]
pub fn number_at<'t>(text: &[u8], tokens: &'t [Token]) -> Result<(Number, &'t [Token]), SyntaxFault>
    ensures { Gives (with_seen text.now) result (number (length text.now) (signs text.now tokens.now)) }
{
    let (token, rest) = first(text, tokens)?;
    let number = number_of(token.kind, token.from)?;
    Ok((number, rest))
}

/// The integer that a token is.
fn integer_of(kind: TokenKind, at: usize) -> Result<Number, SyntaxFault>
    ensures { Gives (λ x. x) result (integer_by kind at) }
{
    match kind {
        TokenKind::Int(value) => Ok(Number {
            at,
            num: Num::Int(value),
        }),
        TokenKind::LargeInt => Ok(Number {
            at,
            num: Num::Large,
        }),
        _ => Err(SyntaxFault::Expected {
            at,
            what: What::Integer,
        }),
    }
}

#[tactic(auto, unfolding(crate::specs::Reading::integer))]
pub fn integer_at<'t>(
    text: &[u8],
    tokens: &'t [Token],
) -> Result<(Number, &'t [Token]), SyntaxFault>
    ensures { Gives (with_seen text.now) result (integer (length text.now) (signs text.now tokens.now)) }
{
    let (token, rest) = first(text, tokens)?;
    let number = integer_of(token.kind, token.from)?;
    Ok((number, rest))
}

/// A range, after its lower end.
#[tactic(auto, unfolding(crate::specs::Reading::range_from))]
pub fn range_from<'t>(
    text: &[u8],
    tokens: &'t [Token],
    low: Number,
) -> Result<(SetForm, &'t [Token]), SyntaxFault>
    ensures { Gives (with_seen text.now) result
        (range_from (length text.now) low (signs text.now tokens.now)) }
{
    let (_, tokens) = after_symbol(text, tokens, Symbol::DotDot, What::Range)?;
    let (high, tokens) = number_at(text, tokens)?;
    Ok((SetForm::Range(low, high), tokens))
}

/// The numbers so far with those that follow, up to the closing brace.
fn more_numbers<'t>(
    text: &[u8],
    tokens: &'t [Token],
    numbers: Vec<Number>,
) -> Result<(Vec<Number>, &'t [Token]), SyntaxFault>
    ensures { Gives (λ x. (x.0.items, signs text.now x.1.now)) result
        (with_front numbers.items (more (length text.now) (number (length text.now)) Symbol.CloseCurly What.CommaOrCurly (signs text.now tokens.now))) }
{
    let mut tokens = tokens;
    let mut numbers = numbers;
    'numbers: loop {
        let (goes_on, rest) = goes_on(text, tokens, Symbol::CloseCurly, What::CommaOrCurly)?;
        if !goes_on {
            return Ok((numbers, rest));
        }
        let (number, rest) = number_at(text, rest)?;
        numbers.push(number)?;
        tokens = rest;
    }
}

/// The numbers from the first one on, up to the closing brace.
#[tactic(auto, unfolding(crate::specs::Reading::from_first))]
fn numbers_from_first<'t>(
    alloc: Global,
    text: &[u8],
    tokens: &'t [Token],
) -> Result<(Listed<Number>, &'t [Token]), SyntaxFault>
    ensures { Gives (with_seen text.now) result
        (from_first (length text.now) (number (length text.now)) Symbol.CloseCurly What.CommaOrCurly (signs text.now tokens.now)) }
{
    let (number, rest) = number_at(text, tokens)?;
    let mut numbers = Vec::new(alloc);
    numbers.push(number)?;
    let (numbers, rest) = more_numbers(text, rest, numbers)?;
    Ok((Listed::of(numbers), rest))
}

/// The numbers after an opening brace, up to the closing one.
#[tactic(auto, unfolding(crate::specs::Reading::a_list))]
fn numbers_at<'t>(
    alloc: Global,
    text: &[u8],
    tokens: &'t [Token],
) -> Result<(Listed<Number>, &'t [Token]), SyntaxFault>
    ensures { Gives (with_seen text.now) result
        (a_list (length text.now) (number (length text.now)) Symbol.CloseCurly What.CommaOrCurly (signs text.now tokens.now)) }
{
    let (token, rest) = first(text, tokens)?;
    if same_kind(TokenKind::Symbol(Symbol::CloseCurly), token.kind) {
        return Ok((Listed::of(Vec::new(alloc)), rest));
    }
    numbers_from_first(alloc, text, tokens)
}

/// The numbers of a set literal, after its opening brace.
#[tactic(auto, unfolding(crate::specs::Reading::braced))]
pub fn braced_at<'t>(
    alloc: Global,
    text: &[u8],
    tokens: &'t [Token],
) -> Result<(SetForm, &'t [Token]), SyntaxFault>
    ensures { Gives (with_seen text.now) result (braced (length text.now) (signs text.now tokens.now)) }
{
    let (numbers, rest) = numbers_at(alloc, text, tokens)?;
    Ok((SetForm::List(numbers), rest))
}

/// `..` and a number, if `..` stands here.
#[tactic(auto, unfolding(crate::specs::Reading::upper_end))]
pub fn upper_end_at<'t>(
    text: &[u8],
    tokens: &'t [Token],
) -> Result<(Option<Number>, &'t [Token]), SyntaxFault>
    ensures { Gives (with_seen text.now) result (upper_end (length text.now) (signs text.now tokens.now)) }
{
    let Some((_, rest)) = after_if(text, tokens, Symbol::DotDot) else {
        return Ok((None, tokens));
    };
    let (high, rest) = number_at(text, rest)?;
    Ok((Some(high), rest))
}
