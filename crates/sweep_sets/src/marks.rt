ghost use Rattle.std.specs.Prelude.{◌≡◌};
ghost use Rattle.sweep_sets.specs.Rules.{unmarked, joined, when};

/// Which of up to three sets have an element.
#[derive(Clone, Copy, PartialEq, Eq, PartialOrd, Ord, Debug)]
pub struct Marks {
    pub first: bool,
    pub second: bool,
    pub third: bool,
}

impl Marks {
    /// No set has it.
    pub(crate) fn none() -> Marks
        ensures { result ≡ unmarked }
    {
        Marks {
            first: false,
            second: false,
            third: false,
        }
    }

    /// The sets of either.
    pub(crate) fn joined(self, other: Marks) -> Marks
        ensures { result ≡ joined self other }
    {
        Marks {
            first: self.first || other.first,
            second: self.second || other.second,
            third: self.third || other.third,
        }
    }

    /// These sets where the bit is true, and none otherwise.
    pub(crate) fn when(self, bit: bool) -> Marks
        ensures { result ≡ when bit self }
    {
        if bit { self } else { Marks::none() }
    }
}
