//! Names and basic expressions.

ghost use Rattle.std.specs.Prelude.{◌≡◌, length};
ghost use Rattle.fzn_reader.specs.Text.{bytes_of};
ghost use Rattle.fzn_parser.specs.Grammar.{signs};
ghost use Rattle.fzn_parser.specs.Reading.{Gives, with_seen, ident_by, ident, number_form, number_or_range, braced_form, basic_by, basic};

use crate::faults::{SyntaxFault, What};
use crate::front::first;
use crate::numbers::{braced_at, upper_end_at};
use crate::tree::{Basic, BasicForm, Ident, Num, Number, SetForm, Text};
use fzn_reader::{Symbol, Token, TokenKind, Word};
use std::alloc::Global;

/// A copy of the bytes.
pub fn text_of(alloc: Global, bytes: &[u8]) -> Result<Text, SyntaxFault>
    ensures { Gives (λ x. x) result (Ok bytes.now) }
{
    Ok(Text::of(Vec::from_slice(alloc, bytes)?))
}

/// The name that a token is; `what` says how it is named where it is none.
fn ident_of(alloc: Global, text: &[u8], token: Token, what: What) -> Result<Ident, SyntaxFault>
    ensures { Gives (λ x. x) result (ident_by what token.kind token.from (bytes_of text.now token)) }
{
    match token.kind {
        TokenKind::Name => Ok(Ident {
            at: token.from,
            name: text_of(alloc, token.bytes(text))?,
        }),
        _ => Err(SyntaxFault::Expected {
            at: token.from,
            what,
        }),
    }
}

#[tactic(auto, unfolding(crate::specs::Reading::ident))]
pub fn ident_at<'t>(
    alloc: Global,
    text: &[u8],
    tokens: &'t [Token],
    what: What,
) -> Result<(Ident, &'t [Token]), SyntaxFault>
    ensures { Gives (with_seen text.now) result (ident (length text.now) what (signs text.now tokens.now)) }
{
    let (token, rest) = first(text, tokens)?;
    let ident = ident_of(alloc, text, token, what)?;
    Ok((ident, rest))
}

/// A number, or the range from it on.
fn number_form(low: Number, high: Option<Number>) -> BasicForm
    ensures { result ≡ number_form low high }
{
    match high {
        None => BasicForm::Num(low.num),
        Some(high) => BasicForm::Set(SetForm::Range(low, high)),
    }
}

/// A number, or the range from it on, after the number.
#[tactic(auto, unfolding(crate::specs::Reading::number_or_range))]
fn number_or_range_at<'t>(
    text: &[u8],
    tokens: &'t [Token],
    low: Number,
) -> Result<(BasicForm, &'t [Token]), SyntaxFault>
    ensures { Gives (with_seen text.now) result
        (number_or_range (length text.now) low (signs text.now tokens.now)) }
{
    let (high, rest) = upper_end_at(text, tokens)?;
    Ok((number_form(low, high), rest))
}

#[tactic(auto, unfolding(crate::specs::Reading::braced_form))]
fn braced_form_at<'t>(
    alloc: Global,
    text: &[u8],
    tokens: &'t [Token],
) -> Result<(BasicForm, &'t [Token]), SyntaxFault>
    ensures { Gives (with_seen text.now) result (braced_form (length text.now) (signs text.now tokens.now)) }
{
    let (set, rest) = braced_at(alloc, text, tokens)?;
    Ok((BasicForm::Set(set), rest))
}

fn name_form<'t>(
    alloc: Global,
    text: &[u8],
    token: Token,
    rest: &'t [Token],
) -> Result<(BasicForm, &'t [Token]), SyntaxFault>
    ensures { Gives (with_seen text.now) result (Ok (BasicForm.Name (bytes_of text.now token), signs text.now rest.now)) }
{
    Ok((BasicForm::Name(text_of(alloc, token.bytes(text))?), rest))
}

/// What a basic expression says, whose first token is given.
fn basic_form_at<'t>(
    alloc: Global,
    text: &[u8],
    token: Token,
    rest: &'t [Token],
) -> Result<(BasicForm, &'t [Token]), SyntaxFault>
    ensures { Gives (with_seen text.now) result
        (basic_by (length text.now) token.kind token.from (bytes_of text.now token) (signs text.now rest.now)) }
{
    let at = token.from;
    match token.kind {
        TokenKind::Word(Word::True) => Ok((BasicForm::Bool(true), rest)),
        TokenKind::Word(Word::False) => Ok((BasicForm::Bool(false), rest)),
        TokenKind::Int(value) => number_or_range_at(
            text,
            rest,
            Number {
                at,
                num: Num::Int(value),
            },
        ),
        TokenKind::LargeInt => number_or_range_at(
            text,
            rest,
            Number {
                at,
                num: Num::Large,
            },
        ),
        TokenKind::Float => number_or_range_at(
            text,
            rest,
            Number {
                at,
                num: Num::Float,
            },
        ),
        TokenKind::Symbol(Symbol::OpenCurly) => braced_form_at(alloc, text, rest),
        TokenKind::Name => name_form(alloc, text, token, rest),
        _ => Err(SyntaxFault::Expected {
            at,
            what: What::Expression,
        }),
    }
}

#[tactic(auto, unfolding(crate::specs::Reading::basic))]
pub fn basic_at<'t>(
    alloc: Global,
    text: &[u8],
    tokens: &'t [Token],
) -> Result<(Basic, &'t [Token]), SyntaxFault>
    ensures { Gives (with_seen text.now) result (basic (length text.now) (signs text.now tokens.now)) }
{
    let (token, rest) = first(text, tokens)?;
    let (form, rest) = basic_form_at(alloc, text, token, rest)?;
    Ok((
        Basic {
            at: token.from,
            form,
        },
        rest,
    ))
}
