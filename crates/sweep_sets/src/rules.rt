//! What each relation makes of the elements of its sets.
ghost use Rattle.std.specs.Prelude.{◌≡◌};
ghost use Rattle.sweep_sets.specs.Rules.{passes, checked, parted, compared, close, verdict};

use crate::marks::Marks;

/// A relation of up to three sets, named first, second and third.
#[derive(Clone, Copy, Debug)]
pub enum Rule {
    /// The first two are equal.
    Equal,
    /// The first is a subset of the second.
    Subset,
    /// The second is a subset of the first.
    Superset,
    /// The third is the union of the first two.
    Union,
    /// The third is the intersection of the first two.
    Intersection,
    /// The third is the first without the elements of the second.
    Difference,
    /// The third has what is in just one of the first two.
    SymmetricDifference,
    /// The first is before the second in the lexicographic order of ascending lists.
    Before,
    /// The first is before the second, or they are equal.
    AtMost,
}

/// What is known of a relation once some elements are read.
#[derive(Clone, Copy, PartialEq, Eq, PartialOrd, Ord, Debug)]
pub enum Progress {
    /// Nothing speaks against the relation so far; of an order: both sets have the same elements so far.
    Same,
    /// Of an order: the first set has an element that the second lacks, and the second has none after it so far.
    FirstHasMore,
    /// Of an order: the second set has an element that the first lacks, and the first has none after it so far.
    SecondHasMore,
    /// Whether the relation holds, whatever comes.
    Settled(bool),
}

impl Rule {
    /// Whether an element that these sets have speaks for the relation; of the orders this is not asked.
    fn passes(self, marks: Marks) -> bool
        ensures { result ≡ passes self marks }
    {
        match self {
            Rule::Equal => marks.first == marks.second,
            Rule::Subset => !marks.first || marks.second,
            Rule::Superset => !marks.second || marks.first,
            Rule::Union => marks.third == (marks.first || marks.second),
            Rule::Intersection => marks.third == (marks.first && marks.second),
            Rule::Difference => marks.third == (marks.first && !marks.second),
            Rule::SymmetricDifference => marks.third == (marks.first != marks.second),
            Rule::Before => true,
            Rule::AtMost => true,
        }
    }

    /// What is known after one more element, which these sets have.
    pub(crate) fn close(self, progress: Progress, marks: Marks) -> Progress
        ensures { result ≡ close self progress marks }
    {
        match self {
            Rule::Before => compared(progress, marks),
            Rule::AtMost => compared(progress, marks),
            Rule::Equal => checked(self.passes(marks), progress),
            Rule::Subset => checked(self.passes(marks), progress),
            Rule::Superset => checked(self.passes(marks), progress),
            Rule::Union => checked(self.passes(marks), progress),
            Rule::Intersection => checked(self.passes(marks), progress),
            Rule::Difference => checked(self.passes(marks), progress),
            Rule::SymmetricDifference => checked(self.passes(marks), progress),
        }
    }

    /// Whether the relation holds of sets that have led here, once all elements are read.
    pub(crate) fn verdict(self, progress: Progress) -> bool
        ensures { result ≡ verdict self progress }
    {
        match progress {
            Progress::Same => !matches!(self, Rule::Before),
            Progress::FirstHasMore => false,
            Progress::SecondHasMore => true,
            Progress::Settled(holds) => holds,
        }
    }
}

/// After an element that passes its test or does not.
fn checked(passes: bool, progress: Progress) -> Progress
    ensures { result ≡ checked passes progress }
{
    match progress {
        Progress::Same => {
            if passes {
                Progress::Same
            } else {
                Progress::Settled(false)
            }
        }
        Progress::FirstHasMore => Progress::FirstHasMore,
        Progress::SecondHasMore => Progress::SecondHasMore,
        Progress::Settled(holds) => Progress::Settled(holds),
    }
}

/// What is known of an order after one more element.
fn compared(progress: Progress, marks: Marks) -> Progress
    ensures { result ≡ compared progress marks }
{
    match progress {
        Progress::Same => parted(marks.first, marks.second),
        Progress::FirstHasMore => {
            if marks.second {
                Progress::Settled(true)
            } else {
                Progress::FirstHasMore
            }
        }
        Progress::SecondHasMore => {
            if marks.first {
                Progress::Settled(false)
            } else {
                Progress::SecondHasMore
            }
        }
        Progress::Settled(first_is_before) => Progress::Settled(first_is_before),
    }
}

/// After one more element of a front that both sets have in common.
fn parted(first: bool, second: bool) -> Progress
    ensures { result ≡ parted first second }
{
    match (first, second) {
        (true, true) => Progress::Same,
        (true, false) => Progress::FirstHasMore,
        (false, true) => Progress::SecondHasMore,
        (false, false) => Progress::Same,
    }
}
