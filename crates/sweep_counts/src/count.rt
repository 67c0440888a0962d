//! The shape of a cardinality.
ghost use Rattle.std.specs.Prelude.{◌≡◌, ◌≤◌, ◌<◌, ◌^◌};
ghost use Rattle.std.proofs.Common.{eqb-true};
ghost use Rattle.sweep_counts.specs.Counts.{count_rules};

use sweep_rules::Shape;

/// Just so many of the bits are true.
#[derive(Clone, Copy, Drop)]
pub struct Count {
    pub size: u64,
    pub places: usize,
}

impl Shape for Count {
    type State = u64;

    ghost rules = { λ s. count_rules s.size };

    ghost places = { λ s. s.places };

    ghost valid = { λ s. s.places < 2 ^ 63 };

    ghost occurs = { λ _ at q. q ≤ at };

    ghost identical = { λ p q is. eqb-true p q is };

    fn start(&self) -> u64 {
        0
    }

    fn step(&self, _at: usize, state: u64, value: bool) -> u64 {
        if value { state + 1 } else { state }
    }

    fn accepts(&self, state: u64) -> bool {
        state == self.size
    }

    fn is_lost(&self, state: u64) -> bool {
        state > self.size
    }
}
