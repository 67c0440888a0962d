//! Relations of sets that hold where each element passes a test.
ghost use Rattle.std.specs.Prelude.{◌≡◌};
ghost use Rattle.bit_machine.specs.Comparisons.{beq-true};
ghost use Rattle.set_shapes.specs.Tests.{passes, all_pass};

use element_machine::{ElementMachine, Marks};

/// What each element must pass, of the first, the second and the third set.
#[derive(Clone, Copy, Debug)]
pub(crate) enum ElementTest {
    /// It is in both or in neither of the first two.
    Equal,
    /// It is in the second where it is in the first.
    Subset,
    /// It is in the first where it is in the second.
    Superset,
    /// It is in the third just where it is in the first or the second.
    Union,
    /// It is in the third just where it is in the first and the second.
    Intersection,
    /// It is in the third just where it is in the first and not in the second.
    Difference,
    /// It is in the third just where it is in one of the first and the second.
    SymmetricDifference,
}

impl ElementTest {
    fn passes(self, marks: Marks) -> bool
        ensures { result ≡ passes self marks }
    {
        match self {
            ElementTest::Equal => marks.first == marks.second,
            ElementTest::Subset => !marks.first || marks.second,
            ElementTest::Superset => !marks.second || marks.first,
            ElementTest::Union => marks.third == (marks.first || marks.second),
            ElementTest::Intersection => marks.third == (marks.first && marks.second),
            ElementTest::Difference => marks.third == (marks.first && !marks.second),
            ElementTest::SymmetricDifference => marks.third == (marks.first != marks.second),
        }
    }
}

/// Accepts where it is as wanted whether all elements pass.
#[derive(Clone, Copy, Drop)]
pub(crate) struct AllPass {
    pub(crate) test: ElementTest,
    pub(crate) wanted: bool,
}

impl ElementMachine for AllPass {
    type State = bool;

    ghost rules = { λ m. all_pass m.test m.wanted };

    ghost identical = { beq-true };

    fn start(&self) -> bool {
        true
    }

    fn close(&self, state: bool, marks: Marks) -> bool {
        state && self.test.passes(marks)
    }

    fn accepts(&self, state: bool) -> bool {
        state == self.wanted
    }
}
