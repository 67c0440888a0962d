//! A node of the table as a shape.
ghost use Rattle.std.specs.Prelude.{◌≡◌, length};
ghost use Rattle.std.proofs.Common.{eqb-true};
ghost use Rattle.sweep_table.specs.Sides.{descend, side_rules};

use crate::table::Table;
use sweep_rules::Shape;

/// The words of one variable that are accepted from a node of the table. The bits that are read may be of several variables: `places`
/// tells for each bit which place of the variable's words it is, and None where it is another variable's.
#[derive(Drop)]
pub struct Side<'a> {
    pub table: &'a Table,
    pub root: u64,
    pub places: Vec<Option<u64>>,
}

impl Shape for Side<'_> {
    type State = u64;

    ghost rules = { λ s. side_rules s.table.now s.root s.places.items };

    ghost places = { λ s. length s.places.items };

    ghost valid = { λ _. Unit {0} };

    ghost occurs = { λ _ _ _. Unit {0} };

    ghost identical = { λ p q is. eqb-true p q is };

    fn start(&self) -> u64 {
        self.root
    }

    fn step(&self, at: usize, state: u64, value: bool) -> u64 {
        match self.places[at] {
            Some(place) => descend(self.table, state, place, value),
            None => state,
        }
    }

    fn accepts(&self, state: u64) -> bool {
        state == 1
    }

    fn is_lost(&self, state: u64) -> bool {
        state == 0
    }
}

/// The child by this bit, if the node tests this place, and else the node itself.
fn descend(table: &Table, n: u64, place: u64, bit: bool) -> u64
    ensures { result ≡ descend table.now n place bit }
{
    match table.node(n) {
        Some(node) => {
            if node.place != place {
                n
            } else if bit {
                node.hi
            } else {
                node.lo
            }
        }
        None => n,
    }
}
