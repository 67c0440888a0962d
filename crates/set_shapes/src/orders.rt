//! The order of sets.
ghost use Rattle.std.specs.Prelude.{◌≡◌};
ghost use Rattle.set_shapes.specs.Orders.{compared, compare_next, parted};
ghost use Rattle.set_shapes.specs.ProgressEquality.{progress_true};

use crate::progress::Progress;
use element_machine::{ElementMachine, Marks};

/// Accepts where the first set is before the second in the lexicographic order of their ascending lists, or where they are equal if
/// that is allowed.
#[derive(Clone, Copy, Drop)]
pub(crate) struct InOrder {
    pub(crate) equal: bool,
}

impl ElementMachine for InOrder {
    type State = Progress;

    ghost rules = { λ m. compared m.equal };

    ghost identical = { progress_true };

    fn start(&self) -> Progress {
        Progress::Same
    }

    fn close(&self, state: Progress, marks: Marks) -> Progress {
        compare_next(state, marks)
    }

    fn accepts(&self, state: Progress) -> bool {
        match state {
            Progress::Same => self.equal,
            Progress::FirstHasMore => false,
            Progress::SecondHasMore => true,
            Progress::Settled(first_is_before) => first_is_before,
        }
    }
}

fn compare_next(state: Progress, marks: Marks) -> Progress
    ensures { result ≡ compare_next state marks }
{
    match state {
        Progress::Same => parted(marks.first, marks.second),
        Progress::FirstHasMore => {
            if marks.second {
                Progress::Settled(true)
            } else {
                Progress::FirstHasMore
            }
        }
        Progress::SecondHasMore => {
            if marks.first {
                Progress::Settled(false)
            } else {
                Progress::SecondHasMore
            }
        }
        Progress::Settled(first_is_before) => Progress::Settled(first_is_before),
    }
}

/// After one more element of a front that both sets have in common.
fn parted(first: bool, second: bool) -> Progress
    ensures { result ≡ parted first second }
{
    match (first, second) {
        (true, true) => Progress::Same,
        (true, false) => Progress::FirstHasMore,
        (false, true) => Progress::SecondHasMore,
        (false, false) => Progress::Same,
    }
}
