//! The machine of a linear sum.
ghost use Rattle.std.specs.Prelude.{◌≡◌, ◌<◌, ◌^◌, pos, neg_ℤ, ◌+ℤ◌, ◌≤ℤ◌, ◌<ℤ◌, unsigned_abs, if◌then◌else◌, length, sum_by, IfOk};
ghost use Rattle.std.specs.Int.{int_max, int_min};
ghost use Rattle.std.specs.Option.{option_map_or};
ghost use Rattle.linear_machine.specs.declared.state.State.TheVariants as variants;
ghost use Rattle.linear_machine.specs.Sums.{IsSmall};
ghost use Rattle.linear_machine.specs.Steps.{greatest_sum, least_sum, rules_of, shared_answer};
ghost use Rattle.linear_machine.specs.Body.{Occurs, places_of};
ghost use Rattle.linear_machine.specs.Comparisons.{state_true};

use crate::comparison::Comparison;
use crate::state::State;
use bit_machine::Machine;
use std::alloc::{AllocError, Global};
use std::marker::Model;

/// The weight of a bit, and the least and the greatest sum of the weights behind it.
#[derive(Clone, Copy, Drop)]
pub(crate) struct Place {
    weight: i128,
    least_behind: i128,
    greatest_behind: i128,
}

/// A machine that accepts where a constant and the weights of the true bits together compare with 0 as asked. Contracts see it as
/// the weights, the constant and the comparison.
#[derive(Drop)]
pub struct Linear {
    places: Vec<Place>,
    constant: i128,
    comparison: Comparison,
    start: State,
}

impl Model for Linear {
    ghost use Rattle.linear_machine.specs.Sums.{LinearState};

    ghost Value = { LinearState };

    ghost use Rattle.linear_machine.specs.Body.{state, IsKept};

    ghost view = { state };

    ghost invariant = { IsKept };
}

impl Linear {
    /// The machine that reads one bit for each weight, in order. The sizes of the weights and the constant together must be below
    /// 2^126. Time and memory are linear in the weights. An `Err` is want of memory.
    pub fn new(
        alloc: Global,
        weights: &[i128],
        constant: i128,
        comparison: Comparison,
    ) -> Result<Linear, AllocError>
        requires { IsSmall weights.now constant }
        ensures weights { IfOk result (λ m. m.weights ≡ weights.now) }
        ensures constant { IfOk result (λ m. m.constant ≡ constant) }
        ensures comparison { IfOk result (λ m. m.comparison ≡ comparison) }
    {
        let least = least_sum(weights);
        let greatest = greatest_sum(weights);
        let start = settle(comparison, constant, least, greatest);
        let places = places_of(alloc, weights)?;
        Ok(Linear {
            places,
            constant,
            comparison,
            start,
        })
    }
}

impl Machine for Linear {
    type State = State;

    ghost rules = { rules_of };

    ghost places = { λ m. length m.weights };

    ghost valid = { λ _. Unit {0} };

    ghost occurs = { Occurs };

    ghost identical = { state_true };

    fn start(&self) -> State {
        self.start
    }

    fn step(&self, at: usize, state: State, value: bool) -> State {
        match state {
            State::Open(sum) => self.places[at].settled(self.comparison, sum, value),
            State::Settled(answer) => State::Settled(answer),
        }
    }

    fn accepts(&self, state: State) -> bool {
        match state {
            State::Open(sum) => self.comparison.holds(sum),
            State::Settled(answer) => answer,
        }
    }
}

impl Place {
    /// What is kept once this bit is read too.
    fn settled(&self, comparison: Comparison, sum: i128, value: bool) -> State
        requires low { neg_ℤ (pos (2 ^ 126)) <ℤ (sum +ℤ (int_min self.now.weight (pos 0) +ℤ self.now.least_behind)) }
        requires high { (sum +ℤ (int_max self.now.weight (pos 0) +ℤ self.now.greatest_behind)) <ℤ pos (2 ^ 126) }
        requires least { self.now.least_behind ≤ℤ pos 0 }
        requires greatest { pos 0 ≤ℤ self.now.greatest_behind }
        ensures { let after = sum +ℤ (if value then self.now.weight else pos 0) in
            result ≡ option_map_or variants.Settled (shared_answer comparison (after +ℤ self.now.least_behind) (after +ℤ self.now.greatest_behind)) (variants.Open after) }
    {
        settle(
            comparison,
            self.added(sum, value),
            self.least_behind,
            self.greatest_behind,
        )
    }

    fn added(&self, sum: i128, value: bool) -> i128
        requires low { neg_ℤ (pos (2 ^ 126)) <ℤ (sum +ℤ int_min self.now.weight (pos 0)) }
        requires high { (sum +ℤ int_max self.now.weight (pos 0)) <ℤ pos (2 ^ 126) }
        ensures { result ≡ sum +ℤ (if value then self.now.weight else pos 0) }
    {
        if value { sum + self.weight } else { sum }
    }
}

/// What is kept where the sum so far is `sum`, and what is to come is from `least` to `greatest`.
fn settle(comparison: Comparison, sum: i128, least: i128, greatest: i128) -> State
    requires low { neg_ℤ (pos (2 ^ 126)) <ℤ (sum +ℤ least) }
    requires high { (sum +ℤ greatest) <ℤ pos (2 ^ 126) }
    requires down { least ≤ℤ pos 0 }
    requires up { pos 0 ≤ℤ greatest }
    ensures { result ≡ option_map_or variants.Settled (shared_answer comparison (sum +ℤ least) (sum +ℤ greatest)) (variants.Open sum) }
{
    match comparison.shared_answer(sum + least, sum + greatest) {
        Some(answer) => State::Settled(answer),
        None => State::Open(sum),
    }
}

/// The least sum that some of the weights have.
fn least_sum(weights: &[i128]) -> i128
    requires { sum_by unsigned_abs weights.now < 2 ^ 126 }
    ensures { result ≡ least_sum weights.now }
{
    let mut least = 0;
    for weight in weights {
        least += (*weight).min(0);
    }
    least
}

/// The greatest sum that some of the weights have.
fn greatest_sum(weights: &[i128]) -> i128
    requires { sum_by unsigned_abs weights.now < 2 ^ 126 }
    ensures { result ≡ greatest_sum weights.now }
{
    let mut greatest = 0;
    for weight in weights {
        greatest += (*weight).max(0);
    }
    greatest
}

/// The places of bits of these weights.
fn places_of(alloc: Global, weights: &[i128]) -> Result<Vec<Place>, AllocError>
    requires { sum_by unsigned_abs weights.now < 2 ^ 126 }
    ensures { IfOk result (λ places. places.items ≡ places_of weights.now) }
{
    let mut places = Vec::new(alloc);
    let mut least_behind = least_sum(weights);
    let mut greatest_behind = greatest_sum(weights);
    for weight in weights {
        least_behind -= (*weight).min(0);
        greatest_behind -= (*weight).max(0);
        places.push(Place {
            weight: *weight,
            least_behind,
            greatest_behind,
        })?;
    }
    Ok(places)
}
