//! What a machine is.
ghost use Rattle.std.specs.Prelude.{◌≡◌, ℕ, ◌+◌, ◌<◌, ◌≤◌, true};
ghost use Rattle.bit_machine.specs.Rules.{Rules};

use std::hash::Hash;

/// A relation on words that is read bit by bit: a deterministic finite automaton whose step may differ from
/// place to place. `build` makes its diagram.
///
/// States should be few and canonical, since a build takes time and nodes for each state that occurs at a
/// place: forget what no later step asks, and let all words that are lost share one state.
pub trait Machine {
    /// What a machine keeps of the bits that it has read.
    type State: Copy + Eq + Hash;

    // what it does, as plain rules
    ghost rules: { Self → Rules Self.State };

    // how many bits it can read
    ghost places: { Self → ℕ };

    // what must hold of a machine before it is run, as bounds on its numbers or the order of its table
    ghost valid: { Self → Type 0 };

    // the states that may occur before the bit at a place is read
    ghost occurs: { Self → ℕ → Self.State → Type 0 };

    /// The state before any bit is read. Where there is no bit to read it decides alone.
    fn start(&self) -> Self::State
        requires { valid self.now }
        ensures state { result ≡ (rules self.now).start }
        ensures first { occurs self.now 0 result };

    /// The state after the bit at place `at`, which has this value. Places count from 0.
    fn step(&self, at: usize, state: Self::State, value: bool) -> Self::State
        requires valid { valid self.now }
        requires within { at < places self.now }
        requires from { occurs self.now at state }
        ensures state { result ≡ (rules self.now).step at state value }
        ensures to { occurs self.now (at + 1) result };

    /// Whether a word that has led to this state is accepted, once all bits are read.
    fn accepts(&self, state: Self::State) -> bool
        requires valid { valid self.now }
        requires from { (at : ℕ) × (at ≤ places self.now) × occurs self.now at state }
        ensures { result ≡ (rules self.now).accept state };

    // states that compare as equal are one
    ghost identical: { (p q : Self.State) → Self.State.eq p q ≡ true → p ≡ q };
}
