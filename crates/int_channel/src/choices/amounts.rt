//! Linear sums of a few multiples of terms.
ghost use Rattle.std.specs.Prelude.{◌≡◌, ◌≤◌, ◌+◌, ◌^◌, ℤ, ◌++◌, ◌∷◌, [], List, pos, ◌+ℤ◌, ◌*ℤ◌, if◌then◌else◌, length, unsigned_abs, IfOk, OnOk, ⊤};
ghost use Rattle.set_meaning.specs.declared.problems.Term.TheVariants.{Const};
ghost use Rattle.problem_limits.specs.Limits.{IsSmallTerm};
ghost use Rattle.int_channel.specs.Choices.{IsAmount, IsAtomWhere, ComparesSum, Multiple, terms_of_multiples, constant_part, number_of_constant, variable_part};

use crate::forms::{Atom, LinearSum};
use linear_machine::Comparison;
use linear_terms::LinearTerm;
use listed::Listed;
use set_meaning::{Term, Value};
use std::alloc::{AllocError, Global};

/// A constant and terms of variables, which together are a number.
#[derive(Drop)]
pub(super) struct Amount {
    terms: Vec<LinearTerm>,
    constant: i128,
}

impl Amount {
    /// The amount that is this number.
    pub(super) fn constant(alloc: Global, base: i64) -> Amount
        requires { unsigned_abs base ≤ 1000000000 }
        ensures amount { IsAmount base [] result }
        ensures size { unsigned_abs result.constant ≤ 1000000000 }
    {
        Amount {
            terms: Vec::new(alloc),
            constant: i128::from(base),
        }
    }

    /// Adds a multiple of a term. After a refusal the amount is one or the other.
    pub(super) fn plus(&mut self, coefficient: i64, term: &Term) -> Result<(), AllocError>
        requires small { IsSmallTerm term.now }
        requires coefficient { unsigned_abs coefficient ≤ 1000000000 }
        requires room { unsigned_abs self.old.constant ≤ 2 ^ 99 }
        ensures amount { OnOk result ((base : ℤ) (ms : List Multiple) → IsAmount base ms self.old → IsAmount base (ms ++ (coefficient, term.now) ∷ []) self.new) }
        ensures size { OnOk result (unsigned_abs self.new.constant ≤ unsigned_abs self.old.constant + 1000000000000000000) }
    {
        push_term(&mut self.terms, coefficient, term)?;
        self.constant = sum(self.constant, product(coefficient, constant_part(term)));
        Ok(())
    }

    /// The fact that the amount compares so with 0.
    pub(super) fn compared(self, comparison: Comparison) -> Atom
        ensures { (base : ℤ) (ms : List Multiple) → IsAmount base ms self → length ms ≤ 4194304 → IsAtomWhere (terms_of_multiples ms) (ComparesSum comparison base ms) result }
    {
        Atom::Sum(LinearSum {
            terms: Listed::of(self.terms),
            constant: self.constant,
            comparison,
        })
    }
}

/// Appends the term where it is a variable.
fn push_term(terms: &mut Vec<LinearTerm>, coefficient: i64, term: &Term) -> Result<(), AllocError>
    ensures { OnOk result (terms.new.items ≡ terms.old.items ++ variable_part coefficient term.now) }
{
    match term {
        Term::Const(_) => Ok(()),
        Term::Var(variable) => {
            terms.push(LinearTerm {
                coefficient,
                variable: *variable,
            })?;
            Ok(())
        }
    }
}

fn sum(a: i128, b: i128) -> i128
    requires first { unsigned_abs a ≤ 2 ^ 99 }
    requires second { unsigned_abs b ≤ 1000000000000000000 }
    ensures value { result ≡ a +ℤ b }
    ensures size { unsigned_abs result ≤ unsigned_abs a + unsigned_abs b }
{
    a + b
}

fn product(a: i64, b: i64) -> i128
    requires first { unsigned_abs a ≤ 1000000000 }
    requires second { unsigned_abs b ≤ 1000000000 }
    ensures value { result ≡ a *ℤ b }
    ensures size { unsigned_abs result ≤ 1000000000000000000 }
{
    i128::from(a) * i128::from(b)
}

/// The number that a constant counts as; 0 for a variable.
fn constant_part(term: &Term) -> i64
    requires { IsSmallTerm term.now }
    ensures value { result ≡ constant_part term.now }
    ensures size { unsigned_abs result ≤ 1000000000 }
{
    match term {
        Term::Const(value) => number_of_constant(value),
        Term::Var(_) => 0,
    }
}

fn number_of_constant(value: &Value) -> i64
    requires { IsSmallTerm (Const value.now) }
    ensures value { result ≡ number_of_constant value.now }
    ensures size { unsigned_abs result ≤ 1000000000 }
{
    match value {
        Value::Bool(b) => number_of_bool(*b),
        Value::Int(x) => *x,
        Value::Set(_) => 0,
    }
}

fn number_of_bool(b: bool) -> i64
    ensures value { result ≡ (if b then pos 1 else pos 0) }
    ensures size { unsigned_abs result ≤ 1 }
{
    if b { 1 } else { 0 }
}

/// Whether a multiple of a term and the base together compare so with 0.
pub(super) fn one(
    alloc: Global,
    comparison: Comparison,
    base: i64,
    k: i64,
    a: &Term,
) -> Result<Atom, AllocError>
    requires base { unsigned_abs base ≤ 1000000000 }
    requires k { unsigned_abs k ≤ 1000000000 }
    requires a { IsSmallTerm a.now }
    ensures { IfOk result (IsAtomWhere (a.now ∷ []) (ComparesSum comparison base ((k, a.now) ∷ []))) }
{
    let mut amount = Amount::constant(alloc, base);
    amount.plus(k, a)?;
    Ok(amount.compared(comparison))
}

/// Whether multiples of two terms and the base together compare so with 0.
pub(super) fn two(
    alloc: Global,
    comparison: Comparison,
    base: i64,
    k: i64,
    a: &Term,
    l: i64,
    b: &Term,
) -> Result<Atom, AllocError>
    requires base { unsigned_abs base ≤ 1000000000 }
    requires k { unsigned_abs k ≤ 1000000000 }
    requires a { IsSmallTerm a.now }
    requires l { unsigned_abs l ≤ 1000000000 }
    requires b { IsSmallTerm b.now }
    ensures { IfOk result (IsAtomWhere (a.now ∷ b.now ∷ []) (ComparesSum comparison base ((k, a.now) ∷ (l, b.now) ∷ []))) }
{
    let mut amount = Amount::constant(alloc, base);
    amount.plus(k, a)?;
    amount.plus(l, b)?;
    Ok(amount.compared(comparison))
}

/// Whether multiples of three terms and the base together compare so with 0.
pub(super) fn three(
    alloc: Global,
    comparison: Comparison,
    base: i64,
    k: i64,
    a: &Term,
    l: i64,
    b: &Term,
    m: i64,
    c: &Term,
) -> Result<Atom, AllocError>
    requires base { unsigned_abs base ≤ 1000000000 }
    requires k { unsigned_abs k ≤ 1000000000 }
    requires a { IsSmallTerm a.now }
    requires l { unsigned_abs l ≤ 1000000000 }
    requires b { IsSmallTerm b.now }
    requires m { unsigned_abs m ≤ 1000000000 }
    requires c { IsSmallTerm c.now }
    ensures { IfOk result (IsAtomWhere (a.now ∷ b.now ∷ c.now ∷ []) (ComparesSum comparison base ((k, a.now) ∷ (l, b.now) ∷ (m, c.now) ∷ []))) }
{
    let mut amount = Amount::constant(alloc, base);
    amount.plus(k, a)?;
    amount.plus(l, b)?;
    amount.plus(m, c)?;
    Ok(amount.compared(comparison))
}

/// A fact that is always true.
pub(super) fn trivial(alloc: Global) -> Atom
    ensures { IsAtomWhere [] (λ values. ⊤) result }
{
    Amount::constant(alloc, 0).compared(Comparison::Equal)
}
