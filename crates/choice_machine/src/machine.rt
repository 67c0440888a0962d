//! The automaton.
ghost use Rattle.std.specs.Prelude.{◌≡◌, ◌<◌, length};
ghost use Rattle.std.proofs.lemmas.Bool.{eqb-true};
ghost use Rattle.choice_machine.specs.Choices.{rules_of, IsComplete};

use crate::rows::Row;
use bit_machine::Machine;
use std::marker::Model;

/// A deterministic automaton that was made ahead, with a row for each of its states: `choice_of` makes it. Contracts see it as its rows and
/// how many bits it reads. A step takes constant time.
#[derive(Drop)]
pub struct ChoiceMachine {
    rows: Vec<Row>,
    places: usize,
}

impl Model for ChoiceMachine {
    ghost use Rattle.choice_machine.specs.Choices.{ChoiceState, IsComplete};

    ghost Value = { ChoiceState };

    ghost view = { λ m. record { rows = m.rows.items; places = m.places } };

    ghost invariant = { λ m. IsComplete m.rows.items };
}

impl ChoiceMachine {
    pub(crate) fn of(rows: Vec<Row>, places: usize) -> ChoiceMachine
        requires { IsComplete rows.items }
        ensures { result ≡ record { rows = rows.items; places = places } }
    {
        ChoiceMachine { rows, places }
    }
}

impl Machine for ChoiceMachine {
    type State = usize;

    ghost rules = { rules_of };

    ghost places = { λ m. m.places };

    ghost valid = { λ _. Unit {0} };

    ghost occurs = { λ m _ q. q < length m.rows };

    ghost identical = { eqb-true };

    fn start(&self) -> usize {
        // There is a row.
        let _ = &self.rows;
        0
    }

    fn step(&self, _at: usize, state: usize, value: bool) -> usize {
        let row = self.rows[state];
        if value { row.on_true } else { row.on_false }
    }

    fn accepts(&self, state: usize) -> bool {
        self.rows[state].accepts
    }
}
