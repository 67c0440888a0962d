//! Machines that can tell that all is lost.
ghost use Rattle.std.specs.Prelude.{◌≡◌, ◌≤◌, true};
ghost use Rattle.choice_machine.specs.Choices.{IsLost};

use bit_machine::{Both, Machine};
use linear_machine::Linear;
use table_machine::TableMachine;

/// A machine that can tell, of many of its states, that nothing is accepted from there on.
pub trait Losing: Machine {
    /// Whether nothing that is read from this state on, before the bit at place `at`, is accepted. It may answer false where that is so.
    fn is_lost(&self, at: usize, state: Self::State) -> bool
        requires valid { Self.valid self.now }
        requires within { at ≤ Self.places self.now }
        requires from { Self.occurs self.now at state }
        ensures { result ≡ true → IsLost (Self.rules self.now) at state };
}

/// Lost where the sum is settled and not as asked.
impl Losing for Linear {
    fn is_lost(&self, _at: usize, state: linear_machine::State) -> bool {
        match state {
            linear_machine::State::Open(_) => false,
            linear_machine::State::Settled(answer) => !answer,
        }
    }
}

/// Lost where some word is not listed.
impl Losing for TableMachine {
    fn is_lost(&self, _at: usize, state: table_machine::State) -> bool {
        match state {
            table_machine::State::Free => false,
            table_machine::State::Lost => true,
            table_machine::State::Within { .. } => false,
        }
    }
}

/// Lost where one of the two is.
impl<M: Losing, N: Losing> Losing for Both<M, N> {
    fn is_lost(&self, at: usize, state: Self::State) -> bool {
        let (first, second) = state;
        self.first.is_lost(at, first) || self.second.is_lost(at, second)
    }
}
