//! Words that a node does not accept, and words other than one, as shapes.

ghost use Rattle.std.specs.Prelude.{◌≡◌, length};
ghost use Rattle.std.proofs.Common.{eqb-true};
ghost use Rattle.log_checker.specs.Shapes.{beyond_rules, other_rules};
ghost use Rattle.log_checker.specs.Truths.{truths_equal};

use sweep_rules::Shape;
use sweep_table::Side;

/// The words of one variable that a node of the table does not accept.
#[derive(Drop)]
pub(crate) struct Beyond<'a> {
    pub(crate) side: Side<'a>,
}

impl Shape for Beyond<'_> {
    type State = u64;

    ghost rules = { λ s. beyond_rules s.side.table.now s.side.root s.side.places.items };

    ghost places = { λ s. length s.side.places.items };

    ghost valid = { λ _. Unit {0} };

    ghost occurs = { λ _ _ _. Unit {0} };

    ghost identical = { λ p q is. eqb-true p q is };

    fn start(&self) -> u64 {
        self.side.start()
    }

    fn step(&self, at: usize, state: u64, value: bool) -> u64 {
        self.side.step(at, state, value)
    }

    fn accepts(&self, state: u64) -> bool {
        state != 1
    }

    fn is_lost(&self, state: u64) -> bool {
        state == 1
    }
}

/// The words other than this one.
#[derive(Drop)]
pub(crate) struct Other<'a> {
    pub(crate) word: &'a [bool],
}

impl Shape for Other<'_> {
    type State = bool;

    ghost rules = { λ s. other_rules s.word.now };

    ghost places = { λ s. length s.word.now };

    ghost valid = { λ _. Unit {0} };

    ghost occurs = { λ _ _ _. Unit {0} };

    ghost identical = { truths_equal };

    fn start(&self) -> bool {
        false
    }

    fn step(&self, at: usize, state: bool, value: bool) -> bool {
        if value {
            state || !self.word[at]
        } else {
            state || self.word[at]
        }
    }

    fn accepts(&self, state: bool) -> bool {
        state
    }

    fn is_lost(&self, _state: bool) -> bool {
        false
    }
}
