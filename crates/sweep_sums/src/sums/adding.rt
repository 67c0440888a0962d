//! Linear sums that are added up from constants and variables.
ghost use Rattle.std.specs.Prelude.{◌≡◌, ◌+◌, ◌*◌, ◌*ℤ◌, ◌≤◌, ◌^◌, unsigned_abs, [], ◌∷◌, map, length, OnOk, All};
ghost use Rattle.set_meaning.specs.declared.problems.Term.TheVariants.{Const};
ghost use Rattle.set_meaning.specs.Relations.{terms_of};
ghost use Rattle.problem_limits.specs.Limits.{IsSmallTerm};
ghost use Rattle.sweep_sums.specs.SumTables.{Adds, constant_of, each_times, products, times};

use crate::comparison::Comparison;
use crate::forms::{LinearSum, LinearTerm};
use listed::Listed;
use set_meaning::{Arg, Term, Value};
use std::alloc::{AllocError, Global};

/// A sum to which more is added.
#[derive(Drop)]
pub(super) struct PartialSum {
    pub(super) terms: Vec<LinearTerm>,
    pub(super) constant: i128,
}

impl PartialSum {
    /// The sum that is this number so far.
    pub(super) fn of(alloc: Global, constant: i64) -> PartialSum
        ensures terms { result.terms.items ≡ [] }
        ensures constant { result.constant ≡ constant }
    {
        PartialSum {
            terms: Vec::new(alloc),
            constant: i128::from(constant),
        }
    }

    /// The whole, compared so with 0.
    pub(super) fn compared(self, comparison: Comparison) -> LinearSum
        ensures terms { result.terms ≡ self.terms.items }
        ensures constant { result.constant ≡ self.constant }
        ensures comparison { result.comparison ≡ comparison }
    {
        LinearSum {
            terms: Listed::of(self.terms),
            constant: self.constant,
            comparison,
        }
    }

    /// Adds every term of the argument, times the coefficient.
    pub(super) fn add_argument(&mut self, coefficient: i64, arg: &Arg) -> Result<(), AllocError>
        requires coefficient { unsigned_abs coefficient ≤ 1000000000 }
        requires small { All IsSmallTerm (terms_of arg.now) }
        requires room { unsigned_abs self.old.constant + length (terms_of arg.now) * 1000000000000000000 ≤ 2 ^ 100 }
        ensures { OnOk result (Adds (each_times coefficient arg.now) self.old self.new) }
    {
        self.add_terms(coefficient, arg.terms())
    }

    /// Adds each of the terms, times the coefficient.
    fn add_terms(&mut self, coefficient: i64, terms: &[Term]) -> Result<(), AllocError>
        requires coefficient { unsigned_abs coefficient ≤ 1000000000 }
        requires small { All IsSmallTerm terms.now }
        requires room { unsigned_abs self.old.constant + length terms.now * 1000000000000000000 ≤ 2 ^ 100 }
        ensures { OnOk result (Adds (map (times coefficient) terms.now) self.old self.new) }
    {
        for term in terms {
            self.add(coefficient, term)?;
        }
        Ok(())
    }

    /// Adds each term, times the constant that stands at its place.
    pub(super) fn add_products(
        &mut self,
        coefficients: &[Term],
        terms: &[Term],
    ) -> Result<(), AllocError>
        requires paired { length coefficients.now ≡ length terms.now }
        requires coefficients { All IsSmallTerm coefficients.now }
        requires small { All IsSmallTerm terms.now }
        requires room { unsigned_abs self.old.constant + length terms.now * 1000000000000000000 ≤ 2 ^ 100 }
        ensures { OnOk result (Adds (products coefficients.now terms.now) self.old self.new) }
    {
        for (i, term) in terms.iter().enumerate() {
            self.add(constant_of(&coefficients[i]), term)?;
        }
        Ok(())
    }

    /// Adds the term, times the coefficient.
    fn add(&mut self, coefficient: i64, term: &Term) -> Result<(), AllocError>
        requires coefficient { unsigned_abs coefficient ≤ 1000000000 }
        requires small { IsSmallTerm term.now }
        requires room { unsigned_abs self.old.constant + 1000000000000000000 ≤ 2 ^ 100 }
        ensures { OnOk result (Adds (times coefficient term.now ∷ []) self.old self.new) }
    {
        match term {
            Term::Const(value) => {
                self.constant += product(coefficient, number_of(value));
                Ok(())
            }
            Term::Var(variable) => {
                self.terms.push(LinearTerm {
                    coefficient,
                    variable: *variable,
                })?;
                Ok(())
            }
        }
    }
}

/// The product of two integers of at most 1,000,000,000 in size.
fn product(a: i64, b: i64) -> i128
    requires first { unsigned_abs a ≤ 1000000000 }
    requires second { unsigned_abs b ≤ 1000000000 }
    ensures value { result ≡ a *ℤ b }
    ensures size { unsigned_abs result ≤ 1000000000000000000 }
{
    i128::from(a) * i128::from(b)
}

/// The number that a constant counts as; 0 for a variable.
fn constant_of(term: &Term) -> i64
    requires { IsSmallTerm term.now }
    ensures value { result ≡ constant_of term.now }
    ensures size { unsigned_abs result ≤ 1000000000 }
{
    match term {
        Term::Const(value) => number_of(value),
        Term::Var(_) => 0,
    }
}

/// The number that a value counts as; 0 for a set.
fn number_of(value: &Value) -> i64
    requires { IsSmallTerm (Const value.now) }
    ensures value { result ≡ constant_of (Const value.now) }
    ensures size { unsigned_abs result ≤ 1000000000 }
{
    match value {
        Value::Bool(truth) => i64::from(*truth),
        Value::Int(x) => *x,
        Value::Set(_) => 0,
    }
}
