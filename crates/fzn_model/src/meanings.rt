//! What expressions stand for.

ghost use Rattle.std.specs.Prelude.{◌≡◌, None, IfOk, All, map};
ghost use Rattle.std.specs.Option.{option_map};
ghost use Rattle.fzn_parser.specs.declared.tree.BasicForm.TheVariants as basics;
ghost use Rattle.fzn_model.specs.Lists.{each_of};
ghost use Rattle.fzn_model.specs.Entities.{arg_of, arg_of_part, arg_named, array_of, one_term, term_of_part};
ghost use Rattle.fzn_model.specs.State.{naming_of};
ghost use Rattle.fzn_model.specs.Meanings.{IsShort, IsShortForm, IsShortPart, IsShortSet};
ghost use Rattle.fzn_model.specs.Shared.{arg_in, term_in};

use crate::declared::Declared;
use crate::sets::{Measure, measured};
use crate::shared::{SharedArg, SharedTerm};
use fzn_parser::{Basic, BasicForm, Expr, Num, SetForm};
use std::alloc::{AllocError, Global};

/// The most elements of a constant set.
const CONSTANT_SET_LIMIT: u64 = 65_536;

/// What each expression stands for, in order; None where one stands for nothing.
pub(crate) fn args_of(
    alloc: Global,
    declared: &Declared,
    expressions: &[Expr],
) -> Result<Option<Vec<SharedArg>>, AllocError>
    requires { All IsShort expressions.now }
    ensures { IfOk result (λ args. option_map (λ v. map arg_in v.items) args ≡ each_of (arg_of (naming_of declared.now)) expressions.now) }
{
    let mut args = Vec::new(alloc);
    for expression in expressions {
        match arg_of(alloc, declared, expression)? {
            Some(arg) => args.push(arg)?,
            None => return Ok(None),
        }
    }
    Ok(Some(args))
}

/// What an expression stands for; None where it stands for nothing.
pub(crate) fn arg_of(
    alloc: Global,
    declared: &Declared,
    expression: &Expr,
) -> Result<Option<SharedArg>, AllocError>
    requires { IsShort expression.now }
    ensures { IfOk result (λ arg. option_map arg_in arg ≡ arg_of (naming_of declared.now) expression.now) }
{
    match expression {
        Expr::One(basic) => arg_of_part(alloc, declared, &basic.form),
        Expr::List { items, .. } => array_of(alloc, declared, items.items()),
    }
}

/// The array of what its items stand for; None where one is no single term.
pub(crate) fn array_of(
    alloc: Global,
    declared: &Declared,
    items: &[Basic],
) -> Result<Option<SharedArg>, AllocError>
    requires { All IsShortPart items.now }
    ensures { IfOk result (λ arg. option_map arg_in arg ≡ array_of (naming_of declared.now) items.now) }
{
    match terms_of_parts(alloc, declared, items)? {
        Some(terms) => Ok(Some(SharedArg::array(alloc, terms)?)),
        None => Ok(None),
    }
}

fn terms_of_parts(
    alloc: Global,
    declared: &Declared,
    items: &[Basic],
) -> Result<Option<Vec<SharedTerm>>, AllocError>
    requires { All IsShortPart items.now }
    ensures { IfOk result (λ terms. option_map (λ v. map term_in v.items) terms ≡ each_of (term_of_part (naming_of declared.now)) items.now) }
{
    let mut terms = Vec::new(alloc);
    for item in items {
        match term_of_part(alloc, declared, item)? {
            Some(term) => terms.push(term)?,
            None => return Ok(None),
        }
    }
    Ok(Some(terms))
}

fn term_of_part(
    alloc: Global,
    declared: &Declared,
    item: &Basic,
) -> Result<Option<SharedTerm>, AllocError>
    requires { IsShortPart item.now }
    ensures { IfOk result (λ term. option_map term_in term ≡ term_of_part (naming_of declared.now) item.now) }
{
    match arg_of_part(alloc, declared, &item.form)? {
        Some(arg) => Ok(one_term(arg)),
        None => Ok(None),
    }
}

fn one_term(arg: SharedArg) -> Option<SharedTerm>
    ensures { option_map term_in result ≡ one_term (arg_in arg) }
{
    match arg {
        SharedArg::One(term) => Some(term),
        SharedArg::Many(_) => None,
    }
}

/// What a part of an expression stands for: an array where it names one. None where it stands for nothing.
fn arg_of_part(
    alloc: Global,
    declared: &Declared,
    part: &BasicForm,
) -> Result<Option<SharedArg>, AllocError>
    requires { IsShortForm part.now }
    ensures { IfOk result (λ arg. option_map arg_in arg ≡ arg_of_part (naming_of declared.now) part.now) }
{
    match part {
        BasicForm::Bool(truth) => Ok(Some(SharedArg::One(SharedTerm::Bool(*truth)))),
        BasicForm::Num(num) => Ok(arg_of_num(*num)),
        BasicForm::Set(literal) => arg_of_set(alloc, literal),
        BasicForm::Name(name) => arg_named(declared, name.items()),
    }
}

fn arg_of_num(num: Num) -> Option<SharedArg>
    ensures { option_map arg_in result ≡ arg_of_part (λ name. None) (basics.Num num) }
{
    match num {
        Num::Int(x) => Some(SharedArg::One(SharedTerm::Int(x))),
        Num::Large => None,
        Num::Float => None,
    }
}

fn arg_of_set(alloc: Global, literal: &SetForm) -> Result<Option<SharedArg>, AllocError>
    requires { IsShortSet literal.now }
    ensures { IfOk result (λ arg. option_map arg_in arg ≡ arg_of_part (λ name. None) (basics.Set literal.now)) }
{
    match measured(alloc, literal, CONSTANT_SET_LIMIT)? {
        Measure::Unknown => Ok(None),
        Measure::Wide => Ok(None),
        Measure::Set(set) => Ok(Some(SharedArg::One(SharedTerm::Set(set)))),
    }
}

fn arg_named(declared: &Declared, name: &[u8]) -> Result<Option<SharedArg>, AllocError>
    ensures { IfOk result (λ arg. option_map arg_in arg ≡ arg_named (naming_of declared.now) name.now) }
{
    match declared.known(name) {
        Some(known) => Ok(Some(known.entity.arg.share()?)),
        None => Ok(None),
    }
}
