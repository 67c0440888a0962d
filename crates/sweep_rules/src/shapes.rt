//! What a shape is.
ghost use Rattle.std.specs.Prelude.{◌≡◌, ℕ, ◌+◌, ◌<◌, ◌≤◌, true, false, Bool, List, IsTrue};
ghost use Rattle.sweep_rules.specs.Rules.{Rules, run};

/// A relation that is read bit by bit: a deterministic finite automaton whose step may differ from place to place.
///
/// A sweep carries a set of states from bit to bit, so states should be few, small and canonical: forget what no later step asks, and
/// let all that cannot accept any more be lost.
pub trait Shape {
    /// What is kept of the bits that were read.
    type State: Copy + Ord;

    // what it does, as plain rules
    ghost rules: { Self → Rules Self.State };

    // how many bits it reads
    ghost places: { Self → ℕ };

    // what must hold of a shape before it reads, as bounds on its numbers
    ghost valid: { Self → Type 0 };

    // the states that may occur before the bit at a place is read
    ghost occurs: { Self → ℕ → Self.State → Type 0 };

    /// The state before any bit is read. Where there is no bit to read it decides alone.
    fn start(&self) -> Self::State
        requires { valid self.now }
        ensures state { result ≡ (rules self.now).start }
        ensures first { occurs self.now 0 result };

    /// The state after the bit at place `at`, which has this value. Places count from 0.
    fn step(&self, at: usize, state: Self::State, value: bool) -> Self::State
        requires valid { valid self.now }
        requires within { at < places self.now }
        requires from { occurs self.now at state }
        ensures state { result ≡ (rules self.now).step at state value }
        ensures to { occurs self.now (at + 1) result };

    /// Whether bits that have led to this state are accepted, once all are read.
    fn accepts(&self, state: Self::State) -> bool
        requires valid { valid self.now }
        requires from { occurs self.now (places self.now) state }
        ensures { result ≡ (rules self.now).accept state };

    /// Whether the state is known never to accept, whatever bits come. A sweep drops such a state.
    fn is_lost(&self, state: Self::State) -> bool
        requires { valid self.now }
        ensures { IsTrue result → (at : ℕ) (rest : List Bool) → (rules self.now).accept (run (rules self.now) at state rest) ≡ false };

    // states that compare as equal are one
    ghost identical: { (p q : Self.State) → Self.State.eq p q ≡ true → p ≡ q };
}
