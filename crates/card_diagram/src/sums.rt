//! A cardinality as a linear sum.
ghost use Rattle.std.specs.Prelude.{◌≡◌, ◌≤◌, ◌^◌, ◌++◌, pos, if◌then◌else◌, unsigned_abs, IfOk, OnOk};
ghost use Rattle.linear_terms.specs.Terms.{number_of};
ghost use Rattle.card_diagram.specs.Sums.{card_constant, card_terms, constant_of_arg, constant_of_term, terms_of_arg, terms_of_term};

use linear_terms::LinearTerm;
use set_meaning::{Arg, Term, Value};
use std::alloc::{AllocError, Global};

/// A linear sum: terms of variables, and what the constants add up to.
#[derive(Drop)]
pub(crate) struct LinearSum {
    pub(crate) terms: Vec<LinearTerm>,
    pub(crate) constant: i128,
}

/// How many elements the first argument has, less the second.
pub(crate) fn card_sum(alloc: Global, args: &[Arg]) -> Result<LinearSum, AllocError>
    ensures terms { IfOk result (λ s. s.terms.items ≡ card_terms args.now) }
    ensures constant { IfOk result (λ s. s.constant ≡ card_constant args.now) }
    ensures size { IfOk result (λ s. unsigned_abs s.constant ≤ 2 ^ 100) }
{
    match args {
        [set, number] => {
            let mut terms = Vec::new(alloc);
            push_terms(&mut terms, 1, set)?;
            push_terms(&mut terms, -1, number)?;
            Ok(LinearSum {
                terms,
                constant: constant_of_arg(set) - constant_of_arg(number),
            })
        }
        _ => Ok(LinearSum {
            terms: Vec::new(alloc),
            constant: 0,
        }),
    }
}

/// Appends the term of an argument that is a variable.
fn push_terms(terms: &mut Vec<LinearTerm>, coefficient: i64, arg: &Arg) -> Result<(), AllocError>
    ensures { OnOk result (terms.new.items ≡ terms.old.items ++ terms_of_arg coefficient arg.now) }
{
    match arg {
        Arg::One(term) => push_term(terms, coefficient, term),
        Arg::Many(_) => Ok(()),
    }
}

fn push_term(terms: &mut Vec<LinearTerm>, coefficient: i64, term: &Term) -> Result<(), AllocError>
    ensures { OnOk result (terms.new.items ≡ terms.old.items ++ terms_of_term coefficient term.now) }
{
    match term {
        Term::Const(_) => Ok(()),
        Term::Var(variable) => {
            terms.push(LinearTerm {
                coefficient,
                variable: *variable,
            })?;
            Ok(())
        }
    }
}

/// The number that an argument counts as which is a constant; 0 for any other.
fn constant_of_arg(arg: &Arg) -> i128
    ensures value { result ≡ constant_of_arg arg.now }
    ensures size { unsigned_abs result ≤ 2 ^ 64 }
{
    match arg {
        Arg::One(term) => constant_of_term(term),
        Arg::Many(_) => 0,
    }
}

fn constant_of_term(term: &Term) -> i128
    ensures value { result ≡ constant_of_term term.now }
    ensures size { unsigned_abs result ≤ 2 ^ 64 }
{
    match term {
        Term::Const(value) => number_of(value),
        Term::Var(_) => 0,
    }
}

/// The number that a value counts as.
fn number_of(value: &Value) -> i128
    ensures value { result ≡ number_of value.now }
    ensures size { unsigned_abs result ≤ 2 ^ 64 }
{
    match value {
        Value::Bool(b) => number_of_bool(*b),
        Value::Int(x) => i128::from(*x),
        Value::Set(set) => set.elements().len() as i128,
    }
}

fn number_of_bool(b: bool) -> i128
    ensures value { result ≡ (if b then pos 1 else pos 0) }
    ensures size { unsigned_abs result ≤ 1 }
{
    if b { 1 } else { 0 }
}
