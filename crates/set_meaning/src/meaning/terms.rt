//! What terms and arguments stand for, under a list of values.

ghost use Rattle.std.specs.Prelude.{◌≡◌, ◌↔◌, IfOk, IfSome, IfNone, IsSome, IsTrue, All, option_copied, option_map, vec_items};
ghost use Rattle.set_meaning.specs.Arguments.{value_of, bool_of_term, int_of_term, set_of_term, constant_of_term, bool_of, int_of, set_of, constant_of, bools_of, ints_of, sets_of, constants_of, each_of};

use crate::kinds::Value;
use crate::problems::{Arg, Term};
use crate::sets::SetValue;
use std::alloc::{AllocError, Global};

fn value_of<'a>(term: &'a Term, values: &'a [Value]) -> Option<&'a Value>
    ensures { option_copied result ≡ value_of term.entry.now values.entry.now }
{
    match term {
        Term::Const(value) => Some(value),
        Term::Var(variable) => values.get(variable.0 as usize),
    }
}

pub(super) fn bool_of_term(term: &Term, values: &[Value]) -> Option<bool>
    ensures { result ≡ bool_of_term values.now term.now }
{
    match value_of(term, values)? {
        Value::Bool(truth) => Some(*truth),
        _ => None,
    }
}

pub(super) fn int_of_term(term: &Term, values: &[Value]) -> Option<i64>
    ensures { result ≡ int_of_term values.now term.now }
{
    match value_of(term, values)? {
        Value::Int(x) => Some(*x),
        _ => None,
    }
}

pub(super) fn set_of_term<'a>(term: &'a Term, values: &'a [Value]) -> Option<&'a SetValue>
    ensures { option_copied result ≡ set_of_term values.entry.now term.entry.now }
{
    match value_of(term, values)? {
        Value::Set(set) => Some(set),
        _ => None,
    }
}

fn constant_of_term(term: &Term) -> Option<i64>
    ensures { result ≡ constant_of_term term.now }
{
    match term {
        Term::Const(Value::Int(x)) => Some(*x),
        _ => None,
    }
}

pub(super) fn bool_of(arg: &Arg, values: &[Value]) -> Option<bool>
    ensures { result ≡ bool_of values.now arg.now }
{
    match arg {
        Arg::One(term) => bool_of_term(term, values),
        Arg::Many(_) => None,
    }
}

pub(super) fn int_of(arg: &Arg, values: &[Value]) -> Option<i64>
    ensures { result ≡ int_of values.now arg.now }
{
    match arg {
        Arg::One(term) => int_of_term(term, values),
        Arg::Many(_) => None,
    }
}

pub(super) fn set_of<'a>(arg: &'a Arg, values: &'a [Value]) -> Option<&'a SetValue>
    ensures { option_copied result ≡ set_of values.entry.now arg.entry.now }
{
    match arg {
        Arg::One(term) => set_of_term(term, values),
        Arg::Many(_) => None,
    }
}

pub(super) fn constant_of(arg: &Arg) -> Option<i64>
    ensures { result ≡ constant_of arg.now }
{
    match arg {
        Arg::One(term) => constant_of_term(term),
        Arg::Many(_) => None,
    }
}

/// The Booleans of an array of terms, in order, or None where the argument is no array or a term has no Boolean.
pub(super) fn bools_of(
    alloc: Global,
    arg: &Arg,
    values: &[Value],
) -> Result<Option<Vec<bool>>, AllocError>
    ensures { IfOk result (λ found. option_map vec_items found ≡ bools_of values.now arg.now) }
{
    match arg {
        Arg::One(_) => Ok(None),
        Arg::Many(terms) => each_bool(alloc, terms.items(), values),
    }
}

/// The integers of an array of terms, in order, or None where the argument is no array or a term has no integer.
pub(super) fn ints_of(
    alloc: Global,
    arg: &Arg,
    values: &[Value],
) -> Result<Option<Vec<i64>>, AllocError>
    ensures { IfOk result (λ found. option_map vec_items found ≡ ints_of values.now arg.now) }
{
    match arg {
        Arg::One(_) => Ok(None),
        Arg::Many(terms) => each_int(alloc, terms.items(), values),
    }
}

/// The integers of an array of constants, in order, or None where the argument is no such array.
pub(super) fn constants_of(alloc: Global, arg: &Arg) -> Result<Option<Vec<i64>>, AllocError>
    ensures { IfOk result (λ found. option_map vec_items found ≡ constants_of arg.now) }
{
    match arg {
        Arg::One(_) => Ok(None),
        Arg::Many(terms) => each_constant(alloc, terms.items()),
    }
}

fn each_bool(
    alloc: Global,
    terms: &[Term],
    values: &[Value],
) -> Result<Option<Vec<bool>>, AllocError>
    ensures { IfOk result (λ found. option_map vec_items found ≡ each_of (bool_of_term values.now) terms.now) }
{
    let mut truths = Vec::new(alloc);
    for term in terms {
        match bool_of_term(term, values) {
            Some(truth) => truths.push(truth)?,
            None => return Ok(None),
        }
    }
    Ok(Some(truths))
}

fn each_int(alloc: Global, terms: &[Term], values: &[Value]) -> Result<Option<Vec<i64>>, AllocError>
    ensures { IfOk result (λ found. option_map vec_items found ≡ each_of (int_of_term values.now) terms.now) }
{
    let mut numbers = Vec::new(alloc);
    for term in terms {
        match int_of_term(term, values) {
            Some(number) => numbers.push(number)?,
            None => return Ok(None),
        }
    }
    Ok(Some(numbers))
}

fn each_constant(alloc: Global, terms: &[Term]) -> Result<Option<Vec<i64>>, AllocError>
    ensures { IfOk result (λ found. option_map vec_items found ≡ each_of constant_of_term terms.now) }
{
    let mut numbers = Vec::new(alloc);
    for term in terms {
        match constant_of_term(term) {
            Some(number) => numbers.push(number)?,
            None => return Ok(None),
        }
    }
    Ok(Some(numbers))
}

/// The terms of an array whose terms all have sets, or None of any other argument.
pub(super) fn set_terms<'a>(arg: &'a Arg, values: &'a [Value]) -> Option<&'a [Term]>
    ensures some { IfSome result (λ terms. (arg.entry.now ≡ Arg.Many terms.now) × All (λ t. IsSome (set_of_term values.entry.now t)) terms.now) }
    ensures none { IfNone result (sets_of values.entry.now arg.entry.now ≡ None) }
{
    match arg {
        Arg::One(_) => None,
        Arg::Many(terms) => {
            if are_sets(terms.items(), values) {
                Some(terms.items())
            } else {
                None
            }
        }
    }
}

fn are_sets(terms: &[Term], values: &[Value]) -> bool
    ensures { IsTrue result ↔ All (λ t. IsSome (set_of_term values.now t)) terms.now }
{
    terms.iter().all(|term| set_of_term(term, values).is_some())
}
