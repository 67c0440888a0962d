//! Annotations.
//!
//! The brackets of annotations nest at most [`MAX_DEPTH`] deep, which bounds the recursion of these functions:
//! `depth` is how many more may be opened.

ghost use Rattle.std.specs.Prelude.{◌≡◌, length};
ghost use Rattle.fzn_reader.specs.Text.{bytes_of};
ghost use Rattle.fzn_parser.specs.Grammar.{signs};
ghost use Rattle.fzn_parser.specs.Reading.{Gives, with_seen, with_front, more, from_first, a_list, number_argument, number_argument_at, braced_argument, call, call_argument, list_argument, argument_by, argument, nested, annotation, one_annotation, annotations as all_annotations};

use crate::basics::{ident_at, text_of};
use crate::faults::{SyntaxFault, What};
use crate::front::{after_if, first, goes_on, same_kind};
use crate::numbers::{braced_at, upper_end_at};
use crate::tree::{Ann, AnnArg, AnnForm, Ident, Num, Number, SetForm, Text};
use fzn_reader::{Symbol, Token, TokenKind, Word};
use listed::Listed;
use sqlite_items::Items;
use std::alloc::Global;

/// How many brackets of annotations may be open at a time.
pub const MAX_DEPTH: usize = 100;

fn number_argument(low: Number, high: Option<Number>) -> AnnForm
    ensures { result ≡ number_argument low high }
{
    match high {
        None => AnnForm::Num(low.num),
        Some(high) => AnnForm::Set(SetForm::Range(low, high)),
    }
}

/// A number as an argument, or the range from it on, after the number.
#[tactic(auto, unfolding(crate::specs::Reading::number_argument_at))]
fn number_argument_at<'t>(
    text: &[u8],
    tokens: &'t [Token],
    low: Number,
) -> Result<(AnnForm, &'t [Token]), SyntaxFault>
    ensures { Gives (with_seen text.now) result
        (number_argument_at (length text.now) low (signs text.now tokens.now)) }
{
    let (high, rest) = upper_end_at(text, tokens)?;
    Ok((number_argument(low, high), rest))
}

#[tactic(auto, unfolding(crate::specs::Reading::braced_argument))]
fn braced_argument_at<'t>(
    alloc: Global,
    text: &[u8],
    tokens: &'t [Token],
) -> Result<(AnnForm, &'t [Token]), SyntaxFault>
    ensures { Gives (with_seen text.now) result
        (braced_argument (length text.now) (signs text.now tokens.now)) }
{
    let (set, rest) = braced_at(alloc, text, tokens)?;
    Ok((AnnForm::Set(set), rest))
}

/// The arguments of an annotation after its name, if it has a list of them.
#[cycle(arguments)]
#[tactic(auto, unfolding(crate::specs::Reading::call))]
fn call_at<'t>(
    alloc: Global,
    text: &[u8],
    tokens: &'t [Token],
    depth: usize,
) -> Result<(Option<Items<AnnArg>>, &'t [Token]), SyntaxFault>
    ensures { Gives (with_seen text.now) result
        (call (nested (length text.now) depth) (signs text.now tokens.now)) }
{
    let Some((at, rest)) = after_if(text, tokens, Symbol::OpenRound) else {
        return Ok((None, tokens));
    };
    let (args, rest) = nested_at(
        alloc,
        text,
        rest,
        depth,
        Symbol::CloseRound,
        What::CommaOrRound,
        at,
    )?;
    Ok((Some(args), rest))
}

/// A name as an argument, with its own arguments.
#[cycle(arguments)]
#[tactic(auto, unfolding(crate::specs::Reading::call_argument))]
fn call_argument_at<'t>(
    alloc: Global,
    text: &[u8],
    token: Token,
    tokens: &'t [Token],
    depth: usize,
) -> Result<(AnnForm, &'t [Token]), SyntaxFault>
    ensures { Gives (with_seen text.now) result
        (call_argument (nested (length text.now) depth) token.from (bytes_of text.now token) (signs text.now tokens.now)) }
{
    let (args, rest) = call_at(alloc, text, tokens, depth)?;
    let name = text_of(alloc, token.bytes(text))?;
    Ok((
        AnnForm::Call(Ann {
            at: token.from,
            name,
            args,
        }),
        rest,
    ))
}

#[cycle(arguments)]
#[tactic(auto, unfolding(crate::specs::Reading::list_argument))]
fn list_argument_at<'t>(
    alloc: Global,
    text: &[u8],
    tokens: &'t [Token],
    depth: usize,
    at: usize,
) -> Result<(AnnForm, &'t [Token]), SyntaxFault>
    ensures { Gives (with_seen text.now) result
        (list_argument (nested (length text.now) depth) at (signs text.now tokens.now)) }
{
    let (items, rest) = nested_at(
        alloc,
        text,
        tokens,
        depth,
        Symbol::CloseSquare,
        What::CommaOrSquare,
        at,
    )?;
    Ok((AnnForm::List(items), rest))
}

/// What an argument says, whose first token is given.
#[cycle(arguments)]
fn argument_form_at<'t>(
    alloc: Global,
    text: &[u8],
    token: Token,
    rest: &'t [Token],
    depth: usize,
) -> Result<(AnnForm, &'t [Token]), SyntaxFault>
    ensures { Gives (with_seen text.now) result
        (argument_by (length text.now) (nested (length text.now) depth) token.kind token.from (bytes_of text.now token) (signs text.now rest.now)) }
{
    let at = token.from;
    match token.kind {
        TokenKind::Word(Word::True) => Ok((AnnForm::Bool(true), rest)),
        TokenKind::Word(Word::False) => Ok((AnnForm::Bool(false), rest)),
        TokenKind::Int(value) => number_argument_at(
            text,
            rest,
            Number {
                at,
                num: Num::Int(value),
            },
        ),
        TokenKind::LargeInt => number_argument_at(
            text,
            rest,
            Number {
                at,
                num: Num::Large,
            },
        ),
        TokenKind::Float => number_argument_at(
            text,
            rest,
            Number {
                at,
                num: Num::Float,
            },
        ),
        TokenKind::Symbol(Symbol::OpenCurly) => braced_argument_at(alloc, text, rest),
        TokenKind::Text => Ok((AnnForm::Str, rest)),
        TokenKind::Name => call_argument_at(alloc, text, token, rest, depth),
        TokenKind::Symbol(Symbol::OpenSquare) => list_argument_at(alloc, text, rest, depth, at),
        _ => Err(SyntaxFault::Expected {
            at,
            what: What::Expression,
        }),
    }
}

#[cycle(arguments)]
#[tactic(auto, unfolding(crate::specs::Reading::argument))]
fn argument_at<'t>(
    alloc: Global,
    text: &[u8],
    tokens: &'t [Token],
    depth: usize,
) -> Result<(AnnArg, &'t [Token]), SyntaxFault>
    ensures { Gives (with_seen text.now) result
        (argument (length text.now) (nested (length text.now) depth) (signs text.now tokens.now)) }
{
    let (token, rest) = first(text, tokens)?;
    let (form, rest) = argument_form_at(alloc, text, token, rest, depth)?;
    Ok((
        AnnArg {
            at: token.from,
            form,
        },
        rest,
    ))
}

/// The arguments so far with those that follow, up to the closing bracket.
#[cycle(arguments)]
fn more_arguments<'t>(
    alloc: Global,
    text: &[u8],
    tokens: &'t [Token],
    depth: usize,
    close: Symbol,
    what: What,
    arguments: Vec<AnnArg>,
) -> Result<(Vec<AnnArg>, &'t [Token]), SyntaxFault>
    ensures { Gives (λ x. (x.0.items, signs text.now x.1.now)) result
        (with_front arguments.items (more (length text.now) (argument (length text.now) (nested (length text.now) depth)) close what (signs text.now tokens.now))) }
{
    let mut tokens = tokens;
    let mut arguments = arguments;
    'arguments: loop {
        let (goes_on, rest) = goes_on(text, tokens, close, what)?;
        if !goes_on {
            return Ok((arguments, rest));
        }
        let (argument, rest) = argument_at(alloc, text, rest, depth)?;
        arguments.push(argument)?;
        tokens = rest;
    }
}

/// The arguments from the first one on, up to the closing bracket.
#[cycle(arguments)]
#[tactic(auto, unfolding(crate::specs::Reading::from_first))]
fn arguments_from_first<'t>(
    alloc: Global,
    text: &[u8],
    tokens: &'t [Token],
    depth: usize,
    close: Symbol,
    what: What,
) -> Result<(Items<AnnArg>, &'t [Token]), SyntaxFault>
    ensures { Gives (with_seen text.now) result
        (from_first (length text.now) (argument (length text.now) (nested (length text.now) depth)) close what (signs text.now tokens.now)) }
{
    let (argument, rest) = argument_at(alloc, text, tokens, depth)?;
    let mut arguments = Vec::new(alloc);
    arguments.push(argument)?;
    let (arguments, rest) = more_arguments(alloc, text, rest, depth, close, what, arguments)?;
    Ok((Items::from_vec(arguments), rest))
}

/// The arguments after an opening bracket.
#[cycle(arguments)]
#[tactic(auto, unfolding(crate::specs::Reading::a_list))]
fn arguments_at<'t>(
    alloc: Global,
    text: &[u8],
    tokens: &'t [Token],
    depth: usize,
    close: Symbol,
    what: What,
) -> Result<(Items<AnnArg>, &'t [Token]), SyntaxFault>
    ensures { Gives (with_seen text.now) result
        (a_list (length text.now) (argument (length text.now) (nested (length text.now) depth)) close what (signs text.now tokens.now)) }
{
    let (token, rest) = first(text, tokens)?;
    if same_kind(TokenKind::Symbol(close), token.kind) {
        return Ok((Items::new(alloc), rest));
    }
    arguments_from_first(alloc, text, tokens, depth, close, what)
}

/// The arguments after an opening bracket, which has the place `at`: it is too deep where no more may be opened.
#[cycle(arguments)]
fn nested_at<'t>(
    alloc: Global,
    text: &[u8],
    tokens: &'t [Token],
    depth: usize,
    close: Symbol,
    what: What,
    at: usize,
) -> Result<(Items<AnnArg>, &'t [Token]), SyntaxFault>
    ensures { Gives (with_seen text.now) result
        (nested (length text.now) depth close what at (signs text.now tokens.now)) }
{
    if depth == 0 {
        return Err(SyntaxFault::TooDeep { at });
    }
    arguments_at(alloc, text, tokens, depth - 1, close, what)
}

#[tactic(auto, unfolding(crate::specs::Reading::annotation))]
fn annotation_at<'t>(
    alloc: Global,
    text: &[u8],
    tokens: &'t [Token],
    depth: usize,
) -> Result<(Ann, &'t [Token]), SyntaxFault>
    ensures { Gives (with_seen text.now) result
        (annotation (length text.now) depth (signs text.now tokens.now)) }
{
    let (ident, rest) = ident_at(alloc, text, tokens, What::Annotation)?;
    let (args, rest) = call_at(alloc, text, rest, depth)?;
    let Ident { at, name } = ident;
    Ok((Ann { at, name, args }, rest))
}

/// The annotations so far with those that follow.
fn more_annotations<'t>(
    alloc: Global,
    text: &[u8],
    tokens: &'t [Token],
    annotations: Vec<Ann>,
) -> Result<(Vec<Ann>, &'t [Token]), SyntaxFault>
    ensures { Gives (λ x. (x.0.items, signs text.now x.1.now)) result
        (with_front annotations.items (all_annotations (length text.now) 100 (signs text.now tokens.now))) }
{
    let mut tokens = tokens;
    let mut annotations = annotations;
    'annotations: while let Some((_, rest)) = after_if(text, tokens, Symbol::ColonColon) {
        let (annotation, rest) = annotation_at(alloc, text, rest, MAX_DEPTH)?;
        annotations.push(annotation)?;
        tokens = rest;
    }
    Ok((annotations, tokens))
}

/// Any number of annotations.
pub fn annotations_at<'t>(
    alloc: Global,
    text: &[u8],
    tokens: &'t [Token],
) -> Result<(Listed<Ann>, &'t [Token]), SyntaxFault>
    ensures { Gives (with_seen text.now) result
        (all_annotations (length text.now) 100 (signs text.now tokens.now)) }
{
    let (annotations, rest) = more_annotations(alloc, text, tokens, Vec::new(alloc))?;
    Ok((Listed::of(annotations), rest))
}
