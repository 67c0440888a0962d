//! Faults of the numbers and the elements of literals.

ghost use Rattle.std.specs.Prelude.{◌≡◌, ◌↔◌, IsTrue, Any};
ghost use Rattle.fzn_model.specs.FaultsOf.{IsLargeElement};
ghost use Rattle.fzn_model.specs.Measures.{number_fault, first_number_fault};

use crate::faults::ModelFault;
use fzn_parser::{Num, Number};

/// The largest size of an element of a universe or of a constant set.
const ELEMENT_LIMIT: u64 = 1_000_000;

/// The fault of the first number that is a float or too large.
pub(crate) fn first_number_fault(numbers: &[Number]) -> Option<ModelFault>
    ensures { result ≡ first_number_fault numbers.now }
{
    for number in numbers {
        match number_fault(number) {
            Some(fault) => return Some(fault),
            None => {}
        }
    }
    None
}

pub(crate) fn number_fault(number: &Number) -> Option<ModelFault>
    ensures { result ≡ number_fault number.now }
{
    match number.num {
        Num::Int(_) => None,
        Num::Large => Some(ModelFault::NumberTooLarge { at: number.at }),
        Num::Float => Some(ModelFault::Float { at: number.at }),
    }
}

/// Whether some element is too large in size.
pub(crate) fn has_large_element(elements: &[i64]) -> bool
    ensures { IsTrue result ↔ Any IsLargeElement elements.now }
{
    elements.iter().any(|x| is_large_element(*x))
}

pub(crate) fn is_large_element(x: i64) -> bool
    ensures { IsTrue result ↔ IsLargeElement x }
{
    x.unsigned_abs() > ELEMENT_LIMIT
}
