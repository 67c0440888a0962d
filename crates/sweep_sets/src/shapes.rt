//! The shape of a relation of sets.
ghost use Rattle.std.specs.Prelude.{◌≡◌, length};
ghost use Rattle.sweep_sets.specs.Reading.{AreGrouped};
ghost use Rattle.sweep_sets.specs.Shapes.{rules_of};
ghost use Rattle.sweep_sets.specs.SeenEquality.{seen_true};

use crate::marks::Marks;
use crate::reading::{Entry, Seen, between, closed, first_element};
use crate::rules::{Progress, Rule};
use listed::Listed;
use sweep_rules::Shape;

/// A relation of sets that is to have a truth value, and how the bits of its variables are read. `constants` has an
/// item for each element, in order: the sets whose constants have it. `entries` has one for each bit, in the order of
/// the bits. A caller makes it by `of_relation`, `of_two`, `of_three` or `of_member`, whose contracts say what it accepts.
///
/// A step takes time linear in the elements from that of its bit to before that of the next bit.
#[derive(Drop)]
pub struct SetShape {
    pub rule: Rule,
    pub truth: bool,
    pub constants: Listed<Marks>,
    pub entries: Listed<Entry>,
}

impl Shape for SetShape {
    type State = Seen;

    ghost rules = { rules_of };

    ghost places = { λ s. length s.entries };

    ghost valid = { λ s. AreGrouped (length s.constants) s.entries };

    ghost occurs = { λ _ _ _. Unit {0} };

    ghost identical = { seen_true };

    fn start(&self) -> Seen {
        let constants = self.constants.items();
        let first = first_element(constants.len(), self.entries.items());
        let nothing = Seen {
            progress: Progress::Same,
            marks: Marks::none(),
        };
        closed(self.rule, nothing, between(constants, 0, first))
    }

    fn step(&self, at: usize, state: Seen, value: bool) -> Seen {
        let constants = self.constants.items();
        let entries = self.entries.items();
        let entry = entries[at];
        let next = first_element(constants.len(), &entries[at + 1..]);
        let seen = Seen {
            progress: state.progress,
            marks: state.marks.joined(entry.marks.when(value)),
        };
        closed(self.rule, seen, between(constants, entry.element, next))
    }

    fn accepts(&self, state: Seen) -> bool {
        self.rule.verdict(state.progress) == self.truth
    }

    fn is_lost(&self, state: Seen) -> bool {
        match state.progress {
            Progress::Same => false,
            Progress::FirstHasMore => false,
            Progress::SecondHasMore => false,
            Progress::Settled(holds) => holds != self.truth,
        }
    }
}
