//! Machines made of others.
ghost use Rattle.std.specs.Prelude.{min, ◌&&◌};
ghost use Rattle.bit_machine.specs.Rules.{most_bits, side_by_side, complemented, bit_at};
ghost use Rattle.bit_machine.specs.Comparisons.{beq, beq-true, pair_true};

use crate::machines::Machine;

/// Two machines that read the same bits side by side and accept where both do. Built at once, every node of
/// the result is a part of the set of both: the intersection of two diagrams that were built apart would leave
/// nodes of either. There are at most as many states as pairs of states of the two.
#[derive(Clone, Copy, Drop)]
pub struct Both<M, N> {
    pub first: M,
    pub second: N,
}

impl<M: Machine, N: Machine> Machine for Both<M, N> {
    type State = (M::State, N::State);

    ghost rules = { λ b. side_by_side ◌&&◌ (M.rules b.first) (N.rules b.second) };

    ghost places = { λ b. min (M.places b.first) (N.places b.second) };

    ghost valid = { λ b. M.valid b.first × N.valid b.second };

    ghost occurs = { λ b at q. M.occurs b.first at q.0 × N.occurs b.second at q.1 };

    ghost identical = { λ p q is. pair_true M.State.eq N.State.eq M.identical N.identical p q is };

    fn start(&self) -> Self::State {
        (self.first.start(), self.second.start())
    }

    fn step(&self, at: usize, state: Self::State, value: bool) -> Self::State {
        let (first, second) = state;
        (
            self.first.step(at, first, value),
            self.second.step(at, second, value),
        )
    }

    fn accepts(&self, state: Self::State) -> bool {
        let (first, second) = state;
        self.first.accepts(first) && self.second.accepts(second)
    }
}

/// Two machines that read the same bits side by side and accept where both do or neither does. With `OneBit`
/// for the truth value of a reified constraint and the machine of its relation, this is the machine of the
/// constraint; the machine of the relation must pass over the place of the truth value.
#[derive(Clone, Copy, Drop)]
pub struct Alike<M, N> {
    pub first: M,
    pub second: N,
}

impl<M: Machine, N: Machine> Machine for Alike<M, N> {
    type State = (M::State, N::State);

    ghost rules = { λ b. side_by_side beq (M.rules b.first) (N.rules b.second) };

    ghost places = { λ b. min (M.places b.first) (N.places b.second) };

    ghost valid = { λ b. M.valid b.first × N.valid b.second };

    ghost occurs = { λ b at q. M.occurs b.first at q.0 × N.occurs b.second at q.1 };

    ghost identical = { λ p q is. pair_true M.State.eq N.State.eq M.identical N.identical p q is };

    fn start(&self) -> Self::State {
        (self.first.start(), self.second.start())
    }

    fn step(&self, at: usize, state: Self::State, value: bool) -> Self::State {
        let (first, second) = state;
        (
            self.first.step(at, first, value),
            self.second.step(at, second, value),
        )
    }

    fn accepts(&self, state: Self::State) -> bool {
        let (first, second) = state;
        self.first.accepts(first) == self.second.accepts(second)
    }
}

/// The complement of a machine: it accepts the words that the machine does not. Round a relation, to be put
/// beside the initial values by `Both`; round that, it would accept words of no value.
#[derive(Clone, Copy, Drop)]
pub struct Not<M> {
    pub machine: M,
}

impl<M: Machine> Machine for Not<M> {
    type State = M::State;

    ghost rules = { λ n. complemented (M.rules n.machine) };

    ghost places = { λ n. M.places n.machine };

    ghost valid = { λ n. M.valid n.machine };

    ghost occurs = { λ n at q. M.occurs n.machine at q };

    ghost identical = { M.identical };

    fn start(&self) -> Self::State {
        self.machine.start()
    }

    fn step(&self, at: usize, state: Self::State, value: bool) -> Self::State {
        self.machine.step(at, state, value)
    }

    fn accepts(&self, state: Self::State) -> bool {
        !self.machine.accepts(state)
    }
}

/// The machine that accepts where the bit at one place is true. Places count from 0, and the place is to be one
/// of the bits that are read.
#[derive(Clone, Copy, Debug, Drop)]
pub struct OneBit {
    pub place: usize,
}

impl Machine for OneBit {
    type State = bool;

    ghost rules = { λ b. bit_at b.place };

    ghost places = { λ _. most_bits };

    ghost valid = { λ _. Unit {0} };

    ghost occurs = { λ _ _ _. Unit {0} };

    ghost identical = { beq-true };

    fn start(&self) -> bool {
        false
    }

    fn step(&self, at: usize, state: bool, value: bool) -> bool {
        if at == self.place { value } else { state }
    }

    fn accepts(&self, state: bool) -> bool {
        state
    }
}
