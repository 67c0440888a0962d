//! Arrays and expressions.

ghost use Rattle.std.specs.Prelude.{◌≡◌, length};
ghost use Rattle.fzn_parser.specs.Grammar.{signs};
ghost use Rattle.fzn_parser.specs.Reading.{Gives, with_seen, with_front, more, from_first, a_list, basic, array_expression, basic_expression, expression, value};

use crate::basics::basic_at;
use crate::faults::{SyntaxFault, What};
use crate::front::{after_if, first, goes_on, same_kind};
use crate::tree::{Basic, Expr};
use fzn_reader::{Symbol, Token, TokenKind};
use listed::Listed;
use std::alloc::Global;

/// The items so far with those that follow, up to the closing bracket.
fn more_items<'t>(
    alloc: Global,
    text: &[u8],
    tokens: &'t [Token],
    items: Vec<Basic>,
) -> Result<(Vec<Basic>, &'t [Token]), SyntaxFault>
    ensures { Gives (λ x. (x.0.items, signs text.now x.1.now)) result
        (with_front items.items (more (length text.now) (basic (length text.now)) Symbol.CloseSquare What.CommaOrSquare (signs text.now tokens.now))) }
{
    let mut tokens = tokens;
    let mut items = items;
    'items: loop {
        let (goes_on, rest) = goes_on(text, tokens, Symbol::CloseSquare, What::CommaOrSquare)?;
        if !goes_on {
            return Ok((items, rest));
        }
        let (item, rest) = basic_at(alloc, text, rest)?;
        items.push(item)?;
        tokens = rest;
    }
}

/// The items from the first one on, up to the closing bracket.
#[tactic(auto, unfolding(crate::specs::Reading::from_first))]
fn items_from_first<'t>(
    alloc: Global,
    text: &[u8],
    tokens: &'t [Token],
) -> Result<(Listed<Basic>, &'t [Token]), SyntaxFault>
    ensures { Gives (with_seen text.now) result
        (from_first (length text.now) (basic (length text.now)) Symbol.CloseSquare What.CommaOrSquare (signs text.now tokens.now)) }
{
    let (item, rest) = basic_at(alloc, text, tokens)?;
    let mut items = Vec::new(alloc);
    items.push(item)?;
    let (items, rest) = more_items(alloc, text, rest, items)?;
    Ok((Listed::of(items), rest))
}

/// The items of an array, after its opening bracket.
#[tactic(auto, unfolding(crate::specs::Reading::a_list))]
pub fn array_at<'t>(
    alloc: Global,
    text: &[u8],
    tokens: &'t [Token],
) -> Result<(Listed<Basic>, &'t [Token]), SyntaxFault>
    ensures { Gives (with_seen text.now) result
        (a_list (length text.now) (basic (length text.now)) Symbol.CloseSquare What.CommaOrSquare (signs text.now tokens.now)) }
{
    let (token, rest) = first(text, tokens)?;
    if same_kind(TokenKind::Symbol(Symbol::CloseSquare), token.kind) {
        return Ok((Listed::of(Vec::new(alloc)), rest));
    }
    items_from_first(alloc, text, tokens)
}

#[tactic(auto, unfolding(crate::specs::Reading::array_expression))]
fn array_expression_at<'t>(
    alloc: Global,
    text: &[u8],
    tokens: &'t [Token],
    at: usize,
) -> Result<(Expr, &'t [Token]), SyntaxFault>
    ensures { Gives (with_seen text.now) result
        (array_expression (length text.now) at (signs text.now tokens.now)) }
{
    let (items, rest) = array_at(alloc, text, tokens)?;
    Ok((Expr::List { at, items }, rest))
}

#[tactic(auto, unfolding(crate::specs::Reading::basic_expression))]
fn basic_expression_at<'t>(
    alloc: Global,
    text: &[u8],
    tokens: &'t [Token],
) -> Result<(Expr, &'t [Token]), SyntaxFault>
    ensures { Gives (with_seen text.now) result
        (basic_expression (length text.now) (signs text.now tokens.now)) }
{
    let (basic, rest) = basic_at(alloc, text, tokens)?;
    Ok((Expr::One(basic), rest))
}

#[tactic(auto, unfolding(crate::specs::Reading::expression))]
pub fn expression_at<'t>(
    alloc: Global,
    text: &[u8],
    tokens: &'t [Token],
) -> Result<(Expr, &'t [Token]), SyntaxFault>
    ensures { Gives (with_seen text.now) result (expression (length text.now) (signs text.now tokens.now)) }
{
    let (token, rest) = first(text, tokens)?;
    if same_kind(TokenKind::Symbol(Symbol::OpenSquare), token.kind) {
        return array_expression_at(alloc, text, rest, token.from);
    }
    basic_expression_at(alloc, text, tokens)
}

/// `=` and an expression, if `=` stands here.
#[tactic(auto, unfolding(crate::specs::Reading::value))]
pub fn value_at<'t>(
    alloc: Global,
    text: &[u8],
    tokens: &'t [Token],
) -> Result<(Option<Expr>, &'t [Token]), SyntaxFault>
    ensures { Gives (with_seen text.now) result (value (length text.now) (signs text.now tokens.now)) }
{
    let Some((_, rest)) = after_if(text, tokens, Symbol::Equals) else {
        return Ok((None, tokens));
    };
    let (value, rest) = expression_at(alloc, text, rest)?;
    Ok((Some(value), rest))
}

/// The arguments so far with those that follow, up to the closing bracket.
fn more_arguments<'t>(
    alloc: Global,
    text: &[u8],
    tokens: &'t [Token],
    arguments: Vec<Expr>,
) -> Result<(Vec<Expr>, &'t [Token]), SyntaxFault>
    ensures { Gives (λ x. (x.0.items, signs text.now x.1.now)) result
        (with_front arguments.items (more (length text.now) (expression (length text.now)) Symbol.CloseRound What.CommaOrRound (signs text.now tokens.now))) }
{
    let mut tokens = tokens;
    let mut arguments = arguments;
    'arguments: loop {
        let (goes_on, rest) = goes_on(text, tokens, Symbol::CloseRound, What::CommaOrRound)?;
        if !goes_on {
            return Ok((arguments, rest));
        }
        let (argument, rest) = expression_at(alloc, text, rest)?;
        arguments.push(argument)?;
        tokens = rest;
    }
}

/// The arguments from the first one on, up to the closing bracket.
#[tactic(auto, unfolding(crate::specs::Reading::from_first))]
fn arguments_from_first<'t>(
    alloc: Global,
    text: &[u8],
    tokens: &'t [Token],
) -> Result<(Listed<Expr>, &'t [Token]), SyntaxFault>
    ensures { Gives (with_seen text.now) result
        (from_first (length text.now) (expression (length text.now)) Symbol.CloseRound What.CommaOrRound (signs text.now tokens.now)) }
{
    let (argument, rest) = expression_at(alloc, text, tokens)?;
    let mut arguments = Vec::new(alloc);
    arguments.push(argument)?;
    let (arguments, rest) = more_arguments(alloc, text, rest, arguments)?;
    Ok((Listed::of(arguments), rest))
}

/// The arguments of a constraint, after the opening bracket.
#[tactic(auto, unfolding(crate::specs::Reading::a_list))]
pub fn arguments_at<'t>(
    alloc: Global,
    text: &[u8],
    tokens: &'t [Token],
) -> Result<(Listed<Expr>, &'t [Token]), SyntaxFault>
    ensures { Gives (with_seen text.now) result
        (a_list (length text.now) (expression (length text.now)) Symbol.CloseRound What.CommaOrRound (signs text.now tokens.now)) }
{
    let (token, rest) = first(text, tokens)?;
    if same_kind(TokenKind::Symbol(Symbol::CloseRound), token.kind) {
        return Ok((Listed::of(Vec::new(alloc)), rest));
    }
    arguments_from_first(alloc, text, tokens)
}
