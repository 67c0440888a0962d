//! Which totals come of numbers from lists.
ghost use Rattle.std.specs.Prelude.{◌≡◌, ◌↔◌, ◌+◌, ◌+ℤ◌, ◌*ℤ◌, ◌≤◌, ◌*◌, ◌^◌, ◌∷◌, [], ◌++◌, ℤ, length, unsigned_abs, IsTrue, IfOk, OnOk, All, Any, Contains};
ghost use Rattle.sweep_sums.specs.Forms.{Compares, IsSmallSum};
ghost use Rattle.sweep_sums.specs.Reaching.{AreReached, AreWithin, HasTruth, IsWanted, SomeFit, reached_from};

use crate::comparison::Comparison;
use crate::distinct::make_distinct;
use crate::forms::LinearSum;
use crate::weights::weights_of;
use listed::Listed;
use set_meaning::VarId;
use std::alloc::{AllocError, Global};

/// Whether some numbers, one from the list of each of the variables, give the sum a total that compares with 0 as it asks, or does not where
/// `truth` is false. It carries the partial sums from variable to variable, each once: time is of the order of the numbers times the partial
/// sums that occur before them, and memory of the partial sums with one list. An `Err` is want of memory.
pub fn some_fit(
    alloc: Global,
    sum: &LinearSum,
    truth: bool,
    variables: &[VarId],
    lists: &[Listed<i64>],
) -> Result<bool, AllocError>
    requires small { IsSmallSum sum.now }
    requires few { length variables.now ≤ 2048 }
    requires paired { length lists.now ≡ length variables.now }
    ensures { IfOk result (λ yes. IsTrue yes ↔ SomeFit sum.now truth variables.now lists.now) }
{
    let weights = weights_of(alloc, sum.terms.items(), variables)?;
    let weights = weights.as_slice();
    let mut sums = one(alloc, sum.constant)?;
    for i in 0..lists.len() {
        sums = reached(alloc, i, weights[i], lists[i].items(), sums.as_slice())?;
    }
    let yes = some_wanted(sum, truth, sums.as_slice());
    Ok(yes)
}

/// The list of one number.
fn one(alloc: Global, x: i128) -> Result<Vec<i128>, AllocError>
    ensures { IfOk result (λ numbers. numbers.items ≡ x ∷ []) }
{
    let mut numbers = Vec::new(alloc);
    numbers.push(x)?;
    Ok(numbers)
}

/// The sums that come of these with each of the numbers times the weight, each once.
fn reached(
    alloc: Global,
    at: usize,
    weight: i64,
    numbers: &[i64],
    sums: &[i128],
) -> Result<Vec<i128>, AllocError>
    requires weight { unsigned_abs weight ≤ 4194304000000000 }
    requires few { at ≤ 2047 }
    requires within { AreWithin at sums.now }
    ensures reached { IfOk result (λ next. AreReached weight numbers.now sums.now next.items) }
    ensures within { IfOk result (λ next. AreWithin (at + 1) next.items) }
{
    let mut next = Vec::new(alloc);
    for sum in sums {
        push_all(&mut next, at, weight, numbers, *sum)?;
    }
    make_distinct(&mut next);
    Ok(next)
}

/// Appends the sum with each of the numbers times the weight.
fn push_all(
    next: &mut Vec<i128>,
    at: usize,
    weight: i64,
    numbers: &[i64],
    sum: i128,
) -> Result<(), AllocError>
    requires weight { unsigned_abs weight ≤ 4194304000000000 }
    requires few { at ≤ 2047 }
    requires within { unsigned_abs sum ≤ 2 ^ 100 + at * 2 ^ 115 }
    requires before { AreWithin (at + 1) next.old.items }
    ensures pushed { OnOk result (next.new.items ≡ next.old.items ++ reached_from weight numbers.now sum) }
    ensures within { OnOk result (AreWithin (at + 1) next.new.items) }
{
    for x in numbers {
        let total = plus_product(at, sum, weight, *x);
        next.push(total)?;
    }
    Ok(())
}

/// The sum with the product.
fn plus_product(at: usize, sum: i128, weight: i64, x: i64) -> i128
    requires weight { unsigned_abs weight ≤ 4194304000000000 }
    requires few { at ≤ 2047 }
    requires within { unsigned_abs sum ≤ 2 ^ 100 + at * 2 ^ 115 }
    ensures value { result ≡ sum +ℤ (weight *ℤ x) }
    ensures within { unsigned_abs result ≤ 2 ^ 100 + (at + 1) * 2 ^ 115 }
{
    sum + product(weight, x)
}

fn product(weight: i64, x: i64) -> i128
    requires { unsigned_abs weight ≤ 4194304000000000 }
    ensures value { result ≡ weight *ℤ x }
    ensures size { unsigned_abs result ≤ 2 ^ 115 }
{
    i128::from(weight) * i128::from(x)
}

/// Whether one of the totals is as wanted.
fn some_wanted(sum: &LinearSum, truth: bool, totals: &[i128]) -> bool
    ensures { IsTrue result ↔ Any (IsWanted sum.now truth) totals.now }
{
    for total in totals {
        if is_wanted(sum.comparison, truth, *total) {
            return true;
        }
    }
    false
}

/// Whether the comparison of the total with 0 has the truth value.
fn is_wanted(comparison: Comparison, truth: bool, total: i128) -> bool
    ensures { IsTrue result ↔ HasTruth truth (Compares comparison total) }
{
    compares(comparison, total) == truth
}

fn compares(comparison: Comparison, total: i128) -> bool
    ensures { IsTrue result ↔ Compares comparison total }
{
    match comparison {
        Comparison::Equal => total == 0,
        Comparison::Different => total != 0,
        Comparison::AtMost => total <= 0,
    }
}
