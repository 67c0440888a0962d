//! The items of a model.

ghost use Rattle.std.specs.Prelude.{◌≡◌, length};
ghost use Rattle.fzn_parser.specs.Grammar.{signs};
ghost use Rattle.fzn_parser.specs.Reading.{Gives, with_seen, param, set_param, variable, array_length, array_item, constraint, predicate, minimize, maximize, goal_by, goal, solve, item_by, item};

use crate::annotations::annotations_at;
use crate::basics::ident_at;
use crate::expressions::{arguments_at, array_at, expression_at, value_at};
use crate::faults::{SyntaxFault, What};
use crate::front::{after, after_symbol, after_word, first, same_kind};
use crate::numbers::integer_at;
use crate::tree::{Form, GoalForm, Item, Number, TypeExpr, TypeForm};
use crate::types::{element_type_at, set_of_int_at, var_type_at, word_type};
use fzn_reader::{Symbol, Token, TokenKind, Word};
use std::alloc::Global;

/// A parameter, after its type.
#[tactic(auto, unfolding(crate::specs::Reading::param))]
fn param_at<'t>(
    alloc: Global,
    text: &[u8],
    tokens: &'t [Token],
    sort: TypeExpr,
) -> Result<(Form, &'t [Token]), SyntaxFault>
    ensures { Gives (with_seen text.now) result
        (param (length text.now) 100 sort (signs text.now tokens.now)) }
{
    let (_, tokens) = after_symbol(text, tokens, Symbol::Colon, What::Colon)?;
    let (name, tokens) = ident_at(alloc, text, tokens, What::Name)?;
    let (anns, tokens) = annotations_at(alloc, text, tokens)?;
    let (_, tokens) = after_symbol(text, tokens, Symbol::Equals, What::Equals)?;
    let (value, tokens) = expression_at(alloc, text, tokens)?;
    let (_, tokens) = after_symbol(text, tokens, Symbol::Semicolon, What::Semicolon)?;
    Ok((
        Form::Param {
            sort,
            name,
            anns,
            value,
        },
        tokens,
    ))
}

/// A parameter that is a set, after `set`.
#[tactic(auto, unfolding(crate::specs::Reading::set_param))]
fn set_param_at<'t>(
    alloc: Global,
    text: &[u8],
    tokens: &'t [Token],
) -> Result<(Form, &'t [Token]), SyntaxFault>
    ensures { Gives (with_seen text.now) result
        (set_param (length text.now) 100 (signs text.now tokens.now)) }
{
    let (sort, tokens) = set_of_int_at(text, tokens)?;
    param_at(alloc, text, tokens, sort)
}

/// A variable, after `var`.
#[tactic(auto, unfolding(crate::specs::Reading::variable))]
fn variable_at<'t>(
    alloc: Global,
    text: &[u8],
    tokens: &'t [Token],
) -> Result<(Form, &'t [Token]), SyntaxFault>
    ensures { Gives (with_seen text.now) result
        (variable (length text.now) 100 (signs text.now tokens.now)) }
{
    let (sort, tokens) = var_type_at(alloc, text, tokens)?;
    let (_, tokens) = after_symbol(text, tokens, Symbol::Colon, What::Colon)?;
    let (name, tokens) = ident_at(alloc, text, tokens, What::Name)?;
    let (anns, tokens) = annotations_at(alloc, text, tokens)?;
    let (value, tokens) = value_at(alloc, text, tokens)?;
    let (_, tokens) = after_symbol(text, tokens, Symbol::Semicolon, What::Semicolon)?;
    Ok((
        Form::Variable {
            sort,
            name,
            anns,
            value,
        },
        tokens,
    ))
}

/// The length of an array, after `array`.
#[tactic(auto, unfolding(crate::specs::Reading::array_length))]
fn array_length_at<'t>(
    text: &[u8],
    tokens: &'t [Token],
) -> Result<(Number, &'t [Token]), SyntaxFault>
    ensures { Gives (with_seen text.now) result
        (array_length (length text.now) (signs text.now tokens.now)) }
{
    let (_, tokens) = after_symbol(text, tokens, Symbol::OpenSquare, What::OpenSquare)?;
    let (_, tokens) = after(text, tokens, TokenKind::Int(1), What::One)?;
    let (_, tokens) = after_symbol(text, tokens, Symbol::DotDot, What::Range)?;
    let (length, tokens) = integer_at(text, tokens)?;
    let (_, tokens) = after_symbol(text, tokens, Symbol::CloseSquare, What::CloseSquare)?;
    let (_, tokens) = after_word(text, tokens, Word::Of, What::Of)?;
    Ok((length, tokens))
}

/// An array, after `array`.
#[tactic(auto, unfolding(crate::specs::Reading::array_item))]
fn array_item_at<'t>(
    alloc: Global,
    text: &[u8],
    tokens: &'t [Token],
) -> Result<(Form, &'t [Token]), SyntaxFault>
    ensures { Gives (with_seen text.now) result
        (array_item (length text.now) 100 (signs text.now tokens.now)) }
{
    let (length, tokens) = array_length_at(text, tokens)?;
    let ((is_var, sort), tokens) = element_type_at(alloc, text, tokens)?;
    let (_, tokens) = after_symbol(text, tokens, Symbol::Colon, What::Colon)?;
    let (name, tokens) = ident_at(alloc, text, tokens, What::Name)?;
    let (anns, tokens) = annotations_at(alloc, text, tokens)?;
    let (_, tokens) = after_symbol(text, tokens, Symbol::Equals, What::Equals)?;
    let (items_at, tokens) = after_symbol(text, tokens, Symbol::OpenSquare, What::OpenSquare)?;
    let (items, tokens) = array_at(alloc, text, tokens)?;
    let (_, tokens) = after_symbol(text, tokens, Symbol::Semicolon, What::Semicolon)?;
    Ok((
        Form::Array {
            length,
            is_var,
            sort,
            name,
            anns,
            items_at,
            items,
        },
        tokens,
    ))
}

/// A constraint, after `constraint`.
#[tactic(auto, unfolding(crate::specs::Reading::constraint))]
fn constraint_at<'t>(
    alloc: Global,
    text: &[u8],
    tokens: &'t [Token],
) -> Result<(Form, &'t [Token]), SyntaxFault>
    ensures { Gives (with_seen text.now) result
        (constraint (length text.now) 100 (signs text.now tokens.now)) }
{
    let (name, tokens) = ident_at(alloc, text, tokens, What::Name)?;
    let (_, tokens) = after_symbol(text, tokens, Symbol::OpenRound, What::OpenRound)?;
    let (args, tokens) = arguments_at(alloc, text, tokens)?;
    let (anns, tokens) = annotations_at(alloc, text, tokens)?;
    let (_, tokens) = after_symbol(text, tokens, Symbol::Semicolon, What::Semicolon)?;
    Ok((Form::Constraint { name, args, anns }, tokens))
}

/// A predicate item, after `predicate`: all is passed over up to the semicolon.
fn predicate_at<'t>(text: &[u8], tokens: &'t [Token]) -> Result<(Form, &'t [Token]), SyntaxFault>
    ensures { Gives (with_seen text.now) result
        (predicate (length text.now) (signs text.now tokens.now)) }
{
    let mut tokens = tokens;
    'tokens: loop {
        let (token, rest) = first(text, tokens)?;
        if same_kind(TokenKind::Symbol(Symbol::Semicolon), token.kind) {
            return Ok((Form::Predicate, rest));
        }
        tokens = rest;
    }
}

#[tactic(auto, unfolding(crate::specs::Reading::minimize))]
fn minimize_at<'t>(
    alloc: Global,
    text: &[u8],
    tokens: &'t [Token],
) -> Result<(GoalForm, &'t [Token]), SyntaxFault>
    ensures { Gives (with_seen text.now) result (minimize (length text.now) (signs text.now tokens.now)) }
{
    let (value, rest) = expression_at(alloc, text, tokens)?;
    Ok((GoalForm::Minimize(value), rest))
}

#[tactic(auto, unfolding(crate::specs::Reading::maximize))]
fn maximize_at<'t>(
    alloc: Global,
    text: &[u8],
    tokens: &'t [Token],
) -> Result<(GoalForm, &'t [Token]), SyntaxFault>
    ensures { Gives (with_seen text.now) result (maximize (length text.now) (signs text.now tokens.now)) }
{
    let (value, rest) = expression_at(alloc, text, tokens)?;
    Ok((GoalForm::Maximize(value), rest))
}

/// The goal, whose first token is given.
fn goal_of<'t>(
    alloc: Global,
    text: &[u8],
    token: Token,
    rest: &'t [Token],
) -> Result<(GoalForm, &'t [Token]), SyntaxFault>
    ensures { Gives (with_seen text.now) result
        (goal_by (length text.now) token.kind token.from (signs text.now rest.now)) }
{
    match token.kind {
        TokenKind::Word(Word::Satisfy) => Ok((GoalForm::Satisfy, rest)),
        TokenKind::Word(Word::Minimize) => minimize_at(alloc, text, rest),
        TokenKind::Word(Word::Maximize) => maximize_at(alloc, text, rest),
        _ => Err(SyntaxFault::Expected {
            at: token.from,
            what: What::Goal,
        }),
    }
}

#[tactic(auto, unfolding(crate::specs::Reading::goal))]
fn goal_at<'t>(
    alloc: Global,
    text: &[u8],
    tokens: &'t [Token],
) -> Result<(GoalForm, &'t [Token]), SyntaxFault>
    ensures { Gives (with_seen text.now) result (goal (length text.now) (signs text.now tokens.now)) }
{
    let (token, rest) = first(text, tokens)?;
    goal_of(alloc, text, token, rest)
}

/// The solve item, after `solve`.
#[tactic(auto, unfolding(crate::specs::Reading::solve))]
fn solve_at<'t>(
    alloc: Global,
    text: &[u8],
    tokens: &'t [Token],
) -> Result<(Form, &'t [Token]), SyntaxFault>
    ensures { Gives (with_seen text.now) result
        (solve (length text.now) 100 (signs text.now tokens.now)) }
{
    let (anns, tokens) = annotations_at(alloc, text, tokens)?;
    let (goal, tokens) = goal_at(alloc, text, tokens)?;
    let (_, tokens) = after_symbol(text, tokens, Symbol::Semicolon, What::Semicolon)?;
    Ok((Form::Solve { anns, goal }, tokens))
}

/// What an item says, whose first token is given.
fn item_of<'t>(
    alloc: Global,
    text: &[u8],
    token: Token,
    rest: &'t [Token],
) -> Result<(Form, &'t [Token]), SyntaxFault>
    ensures { Gives (with_seen text.now) result
        (item_by (length text.now) 100 token.kind token.from (signs text.now rest.now)) }
{
    let at = token.from;
    match token.kind {
        TokenKind::Word(Word::Predicate) => predicate_at(text, rest),
        TokenKind::Word(Word::Bool) => param_at(alloc, text, rest, word_type(at, TypeForm::Bool)),
        TokenKind::Word(Word::Int) => param_at(alloc, text, rest, word_type(at, TypeForm::Int)),
        TokenKind::Word(Word::Float) => param_at(alloc, text, rest, word_type(at, TypeForm::Float)),
        TokenKind::Word(Word::Set) => set_param_at(alloc, text, rest),
        TokenKind::Word(Word::Var) => variable_at(alloc, text, rest),
        TokenKind::Word(Word::Array) => array_item_at(alloc, text, rest),
        TokenKind::Word(Word::Constraint) => constraint_at(alloc, text, rest),
        TokenKind::Word(Word::Solve) => solve_at(alloc, text, rest),
        _ => Err(SyntaxFault::Expected {
            at,
            what: What::Item,
        }),
    }
}

#[tactic(auto, unfolding(crate::specs::Reading::item))]
pub fn item_at<'t>(
    alloc: Global,
    text: &[u8],
    tokens: &'t [Token],
) -> Result<(Item, &'t [Token]), SyntaxFault>
    ensures { Gives (with_seen text.now) result (item (length text.now) 100 (signs text.now tokens.now)) }
{
    let (token, rest) = first(text, tokens)?;
    let (form, rest) = item_of(alloc, text, token, rest)?;
    Ok((
        Item {
            at: token.from,
            form,
        },
        rest,
    ))
}
