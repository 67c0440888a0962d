//! How two values are compared.

ghost use Rattle.std.specs.Prelude.{◌↔◌, IsTrue};
ghost use Rattle.set_meaning.specs.Comparisons.{CompareBools, CompareInts, CompareSets};

use crate::sets::SetValue;

/// A test on two values of one sort.
#[derive(Clone, Copy)]
pub(super) enum Comparison {
    Equal,
    Different,
    Before,
    AtMost,
}

impl Comparison {
    /// Whether two Booleans compare so, `false` being before `true`.
    pub(super) fn of_bools(self, a: bool, b: bool) -> bool
        ensures { IsTrue result ↔ CompareBools self a b }
    {
        match self {
            Comparison::Equal => a == b,
            Comparison::Different => a != b,
            Comparison::Before => !a && b,
            Comparison::AtMost => !a || b,
        }
    }

    /// Whether two integers compare so.
    pub(super) fn of_ints(self, a: i64, b: i64) -> bool
        ensures { IsTrue result ↔ CompareInts self a b }
    {
        match self {
            Comparison::Equal => a == b,
            Comparison::Different => a != b,
            Comparison::Before => a < b,
            Comparison::AtMost => a <= b,
        }
    }

    /// Whether two sets compare so, in the lexicographic order of their ascending lists.
    pub(super) fn of_sets(self, a: &SetValue, b: &SetValue) -> bool
        ensures { IsTrue result ↔ CompareSets self a.now b.now }
    {
        match self {
            Comparison::Equal => a.is_equal(b),
            Comparison::Different => !a.is_equal(b),
            Comparison::Before => a.is_before(b),
            Comparison::AtMost => a.is_before(b) || a.is_equal(b),
        }
    }
}
