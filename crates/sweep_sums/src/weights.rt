//! What each variable of a list has before it in a sum.
ghost use Rattle.std.specs.Prelude.{◌≡◌, ◌≤◌, ℕ, pos, ◌+ℤ◌, ◌*◌, List, map, length, unsigned_abs, IfOk, All, Contains};
ghost use Rattle.std.specs.Ordering.{nat_cmp};
ghost use Rattle.std.specs.List.Sorted.{IsStrictlySortedBy};
ghost use Rattle.set_meaning.specs.declared.kinds.Value.{Value};
ghost use Rattle.set_meaning.specs.declared.problems.VarId.{VarId as AnyVariable};
ghost use Rattle.set_meaning.specs.LinearSums.{sum_of_products};
ghost use Rattle.sweep_sums.specs.declared.forms.LinearTerm.{LinearTerm as AnyTerm};
ghost use Rattle.sweep_sums.specs.Forms.{linear_sum};
ghost use Rattle.sweep_sums.specs.Weights.{numbers_at, part_of, weight_of, weights_of};

use crate::forms::LinearTerm;
use set_meaning::VarId;
use std::alloc::{AllocError, Global};

/// Does nothing. Its contract is the law that a sum over terms is the sum of the weights times the numbers of the variables, where these are
/// different and have the terms' variables among them.
pub fn sums_are_weighted()
    ensures { (terms : List AnyTerm) (variables : List AnyVariable) (values : List Value) → IsStrictlySortedBy (λ v w. nat_cmp v.0 w.0) variables
        → All (λ t. Contains variables t.variable) terms → sum_of_products (weights_of terms variables) (numbers_at values variables) ≡ linear_sum terms values }
{}

/// The weight of each variable, in order. Time is of the order of the terms times the variables.
pub(crate) fn weights_of(
    alloc: Global,
    terms: &[LinearTerm],
    variables: &[VarId],
) -> Result<Vec<i64>, AllocError>
    requires coefficients { All (λ t. unsigned_abs t.coefficient ≤ 1000000000) terms.now }
    requires few { length terms.now ≤ 4194304 }
    ensures weights { IfOk result (λ weights. weights.items ≡ weights_of terms.now variables.now) }
    ensures small { IfOk result (λ weights. All (λ w. unsigned_abs w ≤ 4194304000000000) weights.items) }
{
    let mut weights = Vec::new(alloc);
    for v in variables {
        let weight = weight_of(terms, *v);
        weights.push(weight)?;
    }
    Ok(weights)
}

/// The coefficients of the variable's terms together.
fn weight_of(terms: &[LinearTerm], v: VarId) -> i64
    requires coefficients { All (λ t. unsigned_abs t.coefficient ≤ 1000000000) terms.now }
    requires few { length terms.now ≤ 4194304 }
    ensures weight { result ≡ weight_of v terms.now }
    ensures small { unsigned_abs result ≤ 4194304000000000 }
{
    let mut weight: i64 = 0;
    for term in terms {
        weight += part_of(term, v);
    }
    weight
}

/// The term's coefficient, where it is one of this variable; else 0.
fn part_of(term: &LinearTerm, v: VarId) -> i64
    requires { unsigned_abs term.now.coefficient ≤ 1000000000 }
    ensures part { result ≡ part_of v term.now }
    ensures small { unsigned_abs result ≤ 1000000000 }
{
    if term.variable.0 == v.0 {
        term.coefficient
    } else {
        0
    }
}
