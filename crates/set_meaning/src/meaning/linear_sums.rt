//! Linear sums over integers of any size, and their relations.

ghost use Rattle.std.specs.Prelude.{◌≡◌, ◌↔◌, ◌<◌, ◌^◌, ◌≤ℤ◌, ◌<ℤ◌, ◌+ℤ◌, neg_ℤ, pos, length, IsTrue, IfOk};
ghost use Rattle.set_meaning.specs.Arguments.{OfLinear};
ghost use Rattle.set_meaning.specs.Comparisons.{CompareInts};
ghost use Rattle.set_meaning.specs.LinearSums.{sum_of_products, IsLinear};
ghost use Rattle.set_meaning.specs.Sums.{total_of};

use crate::kinds::Value;
use crate::meaning::comparison::Comparison;
use crate::meaning::integers::product;
use crate::meaning::terms::{constant_of, constants_of, ints_of};
use crate::problems::Arg;
use std::alloc::{AllocError, Global};

/// How far a rest goes to either side.
const HALF_TURN: i128 = 1 << 126;

/// An integer of any size: `turns` times 2^127, and a rest within 2^126. A sum of products of two 64-bit integers
/// each can leave 128 bits, and is kept so.
#[derive(Clone, Copy)]
struct Sum {
    turns: i128,
    rest: i128,
    ghost low: { neg_ℤ (pos (2 ^ 126)) ≤ℤ rest },
    ghost high: { rest <ℤ pos (2 ^ 126) },
}

impl Sum {
    fn zero() -> Sum
        ensures turns { result.turns ≡ pos 0 }
        ensures rest { result.rest ≡ pos 0 }
    {
        Sum { turns: 0, rest: 0 }
    }

    /// The sum with one more product of two 64-bit integers.
    fn plus(self, product: i128) -> Sum
        requires low { neg_ℤ (pos (2 ^ 126)) ≤ℤ product }
        requires high { product ≤ℤ pos (2 ^ 126) }
        requires few { neg_ℤ (pos (2 ^ 64)) <ℤ self.turns }
        requires many { self.turns <ℤ pos (2 ^ 64) }
        ensures total { total_of result.turns result.rest ≡ total_of self.turns self.rest +ℤ product }
        ensures down { (self.turns +ℤ neg_ℤ (pos 1)) ≤ℤ result.turns }
        ensures up { result.turns ≤ℤ (self.turns +ℤ pos 1) }
    {
        let rest = self.rest + product;
        if rest >= HALF_TURN {
            return Sum {
                turns: self.turns + 1,
                rest: rest - HALF_TURN - HALF_TURN,
            };
        }
        if rest < -HALF_TURN {
            return Sum {
                turns: self.turns - 1,
                rest: rest + HALF_TURN + HALF_TURN,
            };
        }
        Sum {
            turns: self.turns,
            rest,
        }
    }

    /// Whether the sum compares so with a 64-bit integer.
    fn compares(self, comparison: Comparison, k: i64) -> bool
        ensures { IsTrue result ↔ CompareInts comparison (total_of self.turns self.rest) k }
    {
        let k = i128::from(k);
        match comparison {
            Comparison::Equal => self.turns == 0 && self.rest == k,
            Comparison::Different => self.turns != 0 || self.rest != k,
            Comparison::Before => self.turns < 0 || (self.turns == 0 && self.rest < k),
            Comparison::AtMost => self.turns < 0 || (self.turns == 0 && self.rest <= k),
        }
    }
}

/// Whether the arguments are constants, as many integers and a constant, and the sum of the products compares so with
/// it.
pub(super) fn compared(
    alloc: Global,
    comparison: Comparison,
    args: &[Arg],
    values: &[Value],
) -> Result<bool, AllocError>
    ensures { IfOk result (λ holds. IsTrue holds ↔ OfLinear (CompareInts comparison) args.now values.now) }
{
    match args {
        [cs, xs, k] => match (
            constants_of(alloc, cs)?,
            ints_of(alloc, xs, values)?,
            constant_of(k),
        ) {
            (Some(cs), Some(xs), Some(k)) => Ok(is_linear(
                comparison,
                cs.as_slice(),
                xs.as_slice(),
                k,
            )),
            _ => Ok(false),
        },
        _ => Ok(false),
    }
}

fn is_linear(comparison: Comparison, cs: &[i64], xs: &[i64], k: i64) -> bool
    ensures { IsTrue result ↔ IsLinear (CompareInts comparison) cs.now xs.now k }
{
    if cs.len() != xs.len() {
        return false;
    }
    sum_of_products(cs, xs).compares(comparison, k)
}

fn sum_of_products(cs: &[i64], xs: &[i64]) -> Sum
    requires { length cs.now ≡ length xs.now }
    ensures { total_of result.turns result.rest ≡ sum_of_products cs.now xs.now }
{
    let mut sum = Sum::zero();
    for (c, x) in cs.iter().zip(xs) {
        sum = sum.plus(product(*c, *x));
    }
    sum
}
