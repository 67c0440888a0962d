//! Shapes made of others.
ghost use Rattle.std.specs.Prelude.{◌≡◌, min, ◌+◌, ◌-◌};
ghost use Rattle.sweep_rules.specs.Rules.{both, span_of};
ghost use Rattle.sweep_rules.specs.Comparisons.{pair_true};

use crate::shapes::Shape;

/// Two shapes that read the same bits side by side and accept where both do.
#[derive(Clone, Copy, Drop)]
pub struct Both<M, N> {
    pub first: M,
    pub second: N,
}

impl<M: Shape, N: Shape> Shape for Both<M, N> {
    type State = (M::State, N::State);

    ghost rules = { λ b. both (M.rules b.first) (N.rules b.second) };

    ghost places = { λ b. min (M.places b.first) (N.places b.second) };

    ghost valid = { λ b. M.valid b.first × N.valid b.second × (M.places b.first ≡ N.places b.second) };

    ghost occurs = { λ b at q. M.occurs b.first at q.0 × N.occurs b.second at q.1 };

    ghost identical = { λ p q is. pair_true M.State.eq N.State.eq M.identical N.identical p q is };

    fn start(&self) -> Self::State {
        (self.first.start(), self.second.start())
    }

    fn step(&self, at: usize, state: Self::State, value: bool) -> Self::State {
        let (first, second) = state;
        (
            self.first.step(at, first, value),
            self.second.step(at, second, value),
        )
    }

    fn accepts(&self, state: Self::State) -> bool {
        let (first, second) = state;
        self.first.accepts(first) && self.second.accepts(second)
    }

    fn is_lost(&self, state: Self::State) -> bool {
        let (first, second) = state;
        self.first.is_lost(first) || self.second.is_lost(second)
    }
}

/// A shape that reads only a span of the bits, those of `shape` from place `skip` on, and passes over `skip` bits before and `more`
/// bits behind them.
#[derive(Clone, Copy, Drop)]
pub struct Span<S> {
    pub skip: usize,
    pub long: usize,
    pub more: usize,
    pub shape: S,
}

impl<S: Shape> Shape for Span<S> {
    type State = S::State;

    ghost rules = { λ s. span_of s.skip s.long (S.rules s.shape) };

    ghost places = { λ s. s.skip + s.long + s.more };

    ghost valid = { λ s. S.valid s.shape × (s.long ≡ S.places s.shape) };

    ghost occurs = { λ s at q. S.occurs s.shape (min (at - s.skip) s.long) q };

    ghost identical = { S.identical };

    fn start(&self) -> Self::State {
        self.shape.start()
    }

    fn step(&self, at: usize, state: Self::State, value: bool) -> Self::State {
        if at >= self.skip && at - self.skip < self.long {
            self.shape.step(at - self.skip, state, value)
        } else {
            state
        }
    }

    fn accepts(&self, state: Self::State) -> bool {
        self.shape.accepts(state)
    }

    fn is_lost(&self, state: Self::State) -> bool {
        self.shape.is_lost(state)
    }
}
