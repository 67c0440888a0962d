//! The integers that a term can be.
ghost use Rattle.std.specs.Prelude.{◌≡◌, ◌↔◌, ◌++◌, ◌∷◌, [], ℤ, if◌then◌else◌, option_copied, slice_get, IfOk, OnOk, IsTrue, All, Contains};
ghost use Rattle.set_meaning.specs.declared.problems.Term.TheVariants.{Const};
ghost use Rattle.problem_limits.specs.Limits.{HasSmallNumbers, IsSmallNumber, IsSmallTerm};
ghost use Rattle.int_channel.specs.Choices.{IsPlace, numbers_in, numbers_of, numbers_of_constant};

use set_meaning::{Kind, Term, Value, VarId};
use std::alloc::{AllocError, Global};

/// The integers that the term can be: a constant itself, or those of the variable's kind.
pub(super) fn numbers_of(alloc: Global, kinds: &[Kind], term: &Term) -> Result<Vec<i64>, AllocError>
    requires kinds { All HasSmallNumbers kinds.now }
    requires term { IsSmallTerm term.now }
    ensures numbers { IfOk result (λ numbers. numbers.items ≡ numbers_of kinds.now term.now) }
    ensures small { IfOk result (λ numbers. All IsSmallNumber numbers.items) }
{
    match term {
        Term::Const(value) => numbers_of_constant(alloc, value),
        Term::Var(variable) => match kind_at(kinds, *variable) {
            Some(kind) => numbers_in(alloc, kind),
            None => Ok(Vec::new(alloc)),
        },
    }
}

/// The kind of a variable, where it is one of the problem's.
pub(super) fn kind_at<'a>(kinds: &'a [Kind], variable: VarId) -> Option<&'a Kind>
    ensures { option_copied result ≡ slice_get kinds.entry.now variable.0 }
{
    kinds.get(variable.0 as usize)
}

fn numbers_of_constant(alloc: Global, value: &Value) -> Result<Vec<i64>, AllocError>
    requires { IsSmallTerm (Const value.now) }
    ensures numbers { IfOk result (λ numbers. numbers.items ≡ numbers_of_constant value.now) }
    ensures small { IfOk result (λ numbers. All IsSmallNumber numbers.items) }
{
    match value {
        Value::Bool(_) => Ok(Vec::new(alloc)),
        Value::Int(x) => {
            let mut numbers = Vec::new(alloc);
            numbers.push(*x)?;
            Ok(numbers)
        }
        Value::Set(_) => Ok(Vec::new(alloc)),
    }
}

fn numbers_in(alloc: Global, kind: &Kind) -> Result<Vec<i64>, AllocError>
    requires { HasSmallNumbers kind.now }
    ensures numbers { IfOk result (λ numbers. numbers.items ≡ numbers_in kind.now) }
    ensures small { IfOk result (λ numbers. All IsSmallNumber numbers.items) }
{
    match kind {
        Kind::Bool => Ok(Vec::new(alloc)),
        Kind::Int(numbers) => Ok(Vec::from_slice(alloc, numbers.elements())?),
        Kind::Set(_) => Ok(Vec::new(alloc)),
    }
}

/// Those of the numbers that are from 1 to `length`.
pub(super) fn places(alloc: Global, numbers: &[i64], length: usize) -> Result<Vec<i64>, AllocError>
    ensures { IfOk result (λ places. (n : ℤ) → Contains places.items n ↔ (Contains numbers.now n × IsPlace length n)) }
{
    let mut places = Vec::new(alloc);
    for number in numbers {
        push_if(&mut places, is_place(*number, length), *number)?;
    }
    Ok(places)
}

fn is_place(number: i64, length: usize) -> bool
    ensures { IsTrue result ↔ IsPlace length number }
{
    number >= 1 && i128::from(number) <= length as i128
}

/// Appends the number where it is to be kept.
pub(super) fn push_if(numbers: &mut Vec<i64>, keep: bool, number: i64) -> Result<(), AllocError>
    ensures { OnOk result (numbers.new.items ≡ (if keep then numbers.old.items ++ number ∷ [] else numbers.old.items)) }
{
    if keep {
        numbers.push(number)?;
    }
    Ok(())
}
