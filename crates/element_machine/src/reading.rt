//! The machine of bits that reads elements.
ghost use Rattle.std.specs.Prelude.{◌≡◌, ◌≤◌, length};
ghost use Rattle.bit_machine.specs.Comparisons.{pair_true};
ghost use Rattle.element_machine.specs.Rules.{after};
ghost use Rattle.element_machine.specs.Reading.{AreGrouped, by_elements, closed, between, first_element};
ghost use Rattle.element_machine.specs.Comparisons.{marks_true};

use crate::machines::ElementMachine;
use crate::marks::{Entry, Marks};
use bit_machine::Machine;

/// The machine that reads, bit by bit, which sets have each element. `constants` has an item for each element, in order: the sets whose
/// constants have it. `entries` has one for each bit, in the order of the bits; their elements must not fall, and each must be one of
/// those that `constants` counts.
///
/// A step takes time linear in the elements from that of its bit to before that of the next bit.
#[derive(Clone, Copy, Drop)]
pub struct ByElements<'a, M> {
    pub machine: M,
    pub constants: &'a [Marks],
    pub entries: &'a [Entry],
}

impl<'a, M: ElementMachine> Machine for ByElements<'a, M> {
    type State = (M::State, Marks);

    ghost rules = { λ m. by_elements (M.rules m.machine) m.constants.now m.entries.now };

    ghost places = { λ m. length m.entries.now };

    ghost valid = { λ m. AreGrouped (length m.constants.now) m.entries.now };

    ghost occurs = { λ _ _ _. Unit {0} };

    ghost identical = { λ p q is. pair_true M.State.eq ⟦<Marks as PartialEq>⟧.eq M.identical marks_true p q is };

    fn start(&self) -> Self::State {
        let first = first_element(self.constants.len(), self.entries);
        let none = between(self.constants, 0, first);
        closed(&self.machine, self.machine.start(), Marks::none(), none)
    }

    fn step(&self, at: usize, state: Self::State, value: bool) -> Self::State {
        let (reached, seen) = state;
        let entry = self.entries[at];
        let next = first_element(self.constants.len(), &self.entries[at + 1..]);
        let ended = between(self.constants, entry.element, next);
        closed(
            &self.machine,
            reached,
            seen.joined(entry.marks.when(value)),
            ended,
        )
    }

    fn accepts(&self, state: Self::State) -> bool {
        self.machine.accepts(state.0)
    }
}

/// The number of the first bit's element, or the end where there are no bits.
fn first_element(end: usize, entries: &[Entry]) -> usize
    ensures { result ≡ first_element end entries.now }
{
    match entries {
        [] => end,
        [first, ..] => first.element,
    }
}

/// The constants of the elements with numbers from `from` to before `to`.
fn between(constants: &[Marks], from: usize, to: usize) -> &[Marks]
    requires order { from ≤ to }
    requires within { to ≤ length constants.now }
    ensures { result.now ≡ between constants.now from to }
{
    &constants[from..to]
}

/// Closes the elements with these constants; of the first of them this was seen.
fn closed<M: ElementMachine>(
    machine: &M,
    state: M::State,
    seen: Marks,
    ended: &[Marks],
) -> (M::State, Marks)
    ensures { result ≡ closed (M.rules machine.now) state seen ended.now }
{
    match ended {
        [] => (state, seen),
        [first, rest @ ..] => {
            let state = machine.close(state, seen.joined(*first));
            (after(machine, state, rest), Marks::none())
        }
    }
}

/// The state after these elements.
fn after<M: ElementMachine>(machine: &M, state: M::State, elements: &[Marks]) -> M::State
    ensures { result ≡ after (M.rules machine.now) state elements.now }
{
    let mut state = state;
    for marks in elements {
        state = machine.close(state, *marks);
    }
    state
}
