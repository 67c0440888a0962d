//! Types.

ghost use Rattle.std.specs.Prelude.{◌≡◌, length};
ghost use Rattle.fzn_parser.specs.Grammar.{signs};
ghost use Rattle.fzn_parser.specs.Reading.{Gives, with_seen, set_of_int, range_within, braces_within, set_type_by, set_type, var_type_by, var_type, var_element, set_element, element_by, element_type};

use crate::faults::{SyntaxFault, What};
use crate::front::{after_word, first};
use crate::numbers::{braced_at, range_from};
use crate::tree::{Num, Number, TypeExpr, TypeForm};
use fzn_reader::{Symbol, Token, TokenKind, Word};
use std::alloc::Global;

/// `of int`, after `set`.
#[tactic(auto, unfolding(crate::specs::Reading::set_of_int))]
pub fn set_of_int_at<'t>(
    text: &[u8],
    tokens: &'t [Token],
) -> Result<(TypeExpr, &'t [Token]), SyntaxFault>
    ensures { Gives (with_seen text.now) result (set_of_int (length text.now) (signs text.now tokens.now)) }
{
    let (_, tokens) = after_word(text, tokens, Word::Of, What::Of)?;
    let (at, tokens) = after_word(text, tokens, Word::Int, What::TypeWord)?;
    Ok((
        TypeExpr {
            at,
            form: TypeForm::SetOfInt,
        },
        tokens,
    ))
}

/// A set literal that begins with this number, as a type.
#[tactic(auto, unfolding(crate::specs::Reading::range_within))]
fn range_within<'t>(
    text: &[u8],
    tokens: &'t [Token],
    low: Number,
) -> Result<(TypeExpr, &'t [Token]), SyntaxFault>
    ensures { Gives (with_seen text.now) result
        (range_within (length text.now) (λ s. TypeForm.Within s) low (signs text.now tokens.now)) }
{
    let at = low.at;
    let (set, tokens) = range_from(text, tokens, low)?;
    Ok((
        TypeExpr {
            at,
            form: TypeForm::Within(set),
        },
        tokens,
    ))
}

/// A set literal in braces, whose opening brace has this place, as a type.
#[tactic(auto, unfolding(crate::specs::Reading::braces_within))]
fn braces_within<'t>(
    alloc: Global,
    text: &[u8],
    tokens: &'t [Token],
    at: usize,
) -> Result<(TypeExpr, &'t [Token]), SyntaxFault>
    ensures { Gives (with_seen text.now) result
        (braces_within (length text.now) (λ s. TypeForm.Within s) at (signs text.now tokens.now)) }
{
    let (set, tokens) = braced_at(alloc, text, tokens)?;
    Ok((
        TypeExpr {
            at,
            form: TypeForm::Within(set),
        },
        tokens,
    ))
}

/// A set literal that begins with this number, as the type of sets within it.
#[tactic(auto, unfolding(crate::specs::Reading::range_within))]
fn set_range_within<'t>(
    text: &[u8],
    tokens: &'t [Token],
    low: Number,
) -> Result<(TypeExpr, &'t [Token]), SyntaxFault>
    ensures { Gives (with_seen text.now) result
        (range_within (length text.now) (λ s. TypeForm.SetWithin s) low (signs text.now tokens.now)) }
{
    let at = low.at;
    let (set, tokens) = range_from(text, tokens, low)?;
    Ok((
        TypeExpr {
            at,
            form: TypeForm::SetWithin(set),
        },
        tokens,
    ))
}

/// A set literal in braces, whose opening brace has this place, as the type of sets within it.
#[tactic(auto, unfolding(crate::specs::Reading::braces_within))]
fn set_braces_within<'t>(
    alloc: Global,
    text: &[u8],
    tokens: &'t [Token],
    at: usize,
) -> Result<(TypeExpr, &'t [Token]), SyntaxFault>
    ensures { Gives (with_seen text.now) result
        (braces_within (length text.now) (λ s. TypeForm.SetWithin s) at (signs text.now tokens.now)) }
{
    let (set, tokens) = braced_at(alloc, text, tokens)?;
    Ok((
        TypeExpr {
            at,
            form: TypeForm::SetWithin(set),
        },
        tokens,
    ))
}

/// A type that is one word, at this place.
pub fn word_type(at: usize, form: TypeForm) -> TypeExpr
    ensures { result ≡ record { at = at; form = form } }
{
    TypeExpr { at, form }
}

/// The type after `set of`, whose first token is given.
fn set_type_of<'t>(
    alloc: Global,
    text: &[u8],
    token: Token,
    rest: &'t [Token],
) -> Result<(TypeExpr, &'t [Token]), SyntaxFault>
    ensures { Gives (with_seen text.now) result
        (set_type_by (length text.now) token.kind token.from (signs text.now rest.now)) }
{
    let at = token.from;
    match token.kind {
        TokenKind::Word(Word::Int) => Ok((word_type(at, TypeForm::SetOfInt), rest)),
        TokenKind::Int(value) => set_range_within(
            text,
            rest,
            Number {
                at,
                num: Num::Int(value),
            },
        ),
        TokenKind::LargeInt => set_range_within(
            text,
            rest,
            Number {
                at,
                num: Num::Large,
            },
        ),
        TokenKind::Float => set_range_within(
            text,
            rest,
            Number {
                at,
                num: Num::Float,
            },
        ),
        TokenKind::Symbol(Symbol::OpenCurly) => set_braces_within(alloc, text, rest, at),
        _ => Err(SyntaxFault::Expected {
            at,
            what: What::TypeWord,
        }),
    }
}

#[tactic(auto, unfolding(crate::specs::Reading::set_type))]
fn set_type_at<'t>(
    alloc: Global,
    text: &[u8],
    tokens: &'t [Token],
) -> Result<(TypeExpr, &'t [Token]), SyntaxFault>
    ensures { Gives (with_seen text.now) result (set_type (length text.now) (signs text.now tokens.now)) }
{
    let (_, tokens) = after_word(text, tokens, Word::Of, What::Of)?;
    let (token, rest) = first(text, tokens)?;
    set_type_of(alloc, text, token, rest)
}

/// The type after `var`, whose first token is given.
fn var_type_of<'t>(
    alloc: Global,
    text: &[u8],
    token: Token,
    rest: &'t [Token],
) -> Result<(TypeExpr, &'t [Token]), SyntaxFault>
    ensures { Gives (with_seen text.now) result
        (var_type_by (length text.now) token.kind token.from (signs text.now rest.now)) }
{
    let at = token.from;
    match token.kind {
        TokenKind::Word(Word::Bool) => Ok((word_type(at, TypeForm::Bool), rest)),
        TokenKind::Word(Word::Int) => Ok((word_type(at, TypeForm::Int), rest)),
        TokenKind::Word(Word::Float) => Ok((word_type(at, TypeForm::Float), rest)),
        TokenKind::Word(Word::Set) => set_type_at(alloc, text, rest),
        TokenKind::Int(value) => range_within(
            text,
            rest,
            Number {
                at,
                num: Num::Int(value),
            },
        ),
        TokenKind::LargeInt => range_within(
            text,
            rest,
            Number {
                at,
                num: Num::Large,
            },
        ),
        TokenKind::Float => range_within(
            text,
            rest,
            Number {
                at,
                num: Num::Float,
            },
        ),
        TokenKind::Symbol(Symbol::OpenCurly) => braces_within(alloc, text, rest, at),
        _ => Err(SyntaxFault::Expected {
            at,
            what: What::TypeWord,
        }),
    }
}

/// The type of a variable, after `var`.
#[tactic(auto, unfolding(crate::specs::Reading::var_type))]
pub fn var_type_at<'t>(
    alloc: Global,
    text: &[u8],
    tokens: &'t [Token],
) -> Result<(TypeExpr, &'t [Token]), SyntaxFault>
    ensures { Gives (with_seen text.now) result (var_type (length text.now) (signs text.now tokens.now)) }
{
    let (token, rest) = first(text, tokens)?;
    var_type_of(alloc, text, token, rest)
}

#[tactic(auto, unfolding(crate::specs::Reading::var_element))]
fn var_element<'t>(
    alloc: Global,
    text: &[u8],
    tokens: &'t [Token],
) -> Result<((bool, TypeExpr), &'t [Token]), SyntaxFault>
    ensures { Gives (with_seen text.now) result
        (var_element (length text.now) (signs text.now tokens.now)) }
{
    let (sort, tokens) = var_type_at(alloc, text, tokens)?;
    Ok(((true, sort), tokens))
}

#[tactic(auto, unfolding(crate::specs::Reading::set_element))]
fn set_element<'t>(
    text: &[u8],
    tokens: &'t [Token],
) -> Result<((bool, TypeExpr), &'t [Token]), SyntaxFault>
    ensures { Gives (with_seen text.now) result
        (set_element (length text.now) (signs text.now tokens.now)) }
{
    let (sort, tokens) = set_of_int_at(text, tokens)?;
    Ok(((false, sort), tokens))
}

/// The type of the elements of an array, whose first token is given.
fn element_of<'t>(
    alloc: Global,
    text: &[u8],
    token: Token,
    rest: &'t [Token],
) -> Result<((bool, TypeExpr), &'t [Token]), SyntaxFault>
    ensures { Gives (with_seen text.now) result
        (element_by (length text.now) token.kind token.from (signs text.now rest.now)) }
{
    let at = token.from;
    match token.kind {
        TokenKind::Word(Word::Var) => var_element(alloc, text, rest),
        TokenKind::Word(Word::Bool) => Ok(((false, word_type(at, TypeForm::Bool)), rest)),
        TokenKind::Word(Word::Int) => Ok(((false, word_type(at, TypeForm::Int)), rest)),
        TokenKind::Word(Word::Float) => Ok(((false, word_type(at, TypeForm::Float)), rest)),
        TokenKind::Word(Word::Set) => set_element(text, rest),
        _ => Err(SyntaxFault::Expected {
            at,
            what: What::TypeWord,
        }),
    }
}

/// The type of the elements of an array, and whether they are variables.
#[tactic(auto, unfolding(crate::specs::Reading::element_type))]
pub fn element_type_at<'t>(
    alloc: Global,
    text: &[u8],
    tokens: &'t [Token],
) -> Result<((bool, TypeExpr), &'t [Token]), SyntaxFault>
    ensures { Gives (with_seen text.now) result (element_type (length text.now) (signs text.now tokens.now)) }
{
    let (token, rest) = first(text, tokens)?;
    element_of(alloc, text, token, rest)
}
