//! Ranges that may be made.

ghost use Rattle.std.specs.Prelude.{◌≡◌, ◌≤◌, length, IfOk};
ghost use Rattle.set_meaning.specs.Sets.{count_between, integers_between};

use crate::sets::range_size;
use set_meaning::SetValue;
use std::alloc::{AllocError, Global};

/// The integers between two ends, where they are no more than a constant set may have.
#[derive(Clone, Copy, Debug)]
pub(crate) struct ShortRange {
    pub low: i64,
    pub high: i64,
    ghost short: { count_between low high ≤ 65536 },
}

impl ShortRange {
    /// The range from `low` to `high`, both included.
    pub(crate) fn new(low: i64, high: i64) -> ShortRange
        requires { count_between low high ≤ 65536 }
        ensures low { result.low ≡ low }
        ensures high { result.high ≡ high }
    {
        ShortRange { low, high }
    }

    /// The set of these integers.
    pub(crate) fn made(self, alloc: Global) -> Result<SetValue, AllocError>
        ensures { IfOk result (λ set. set ≡ integers_between self.low self.high) }
    {
        SetValue::from_range(alloc, self.low, self.high)
    }

    /// How many integers there are.
    #[tactic(auto, using(crate::proofs::Ranges::size_of_range))]
    pub(crate) fn size(self) -> u64
        ensures { result ≡ length (integers_between self.low self.high) }
    {
        range_size(self.low, self.high) as u64
    }
}
