//! What a variable counts against the limits on all variables.

ghost use Rattle.std.specs.Prelude.{◌≡◌, ◌↔◌, ◌⊎◌, ◌+◌, ◌<◌, List, ℤ, IsTrue, IfOk};
ghost use Rattle.set_meaning.specs.declared.kinds.Kind.TheVariants as kinds;
ghost use Rattle.bit_layout.specs.Words.{bit_width};
ghost use Rattle.fzn_model.specs.Extents.{IsExtent};
ghost use Rattle.fzn_model.specs.Limits.{bit_limit, value_limit};
ghost use Rattle.fzn_model.specs.ProblemOf.{kind_of};
ghost use Rattle.fzn_model.specs.Weights.{HasWeight, IsWeight};

use crate::extents::{Extent, extent_of};
use crate::so_far::Counts;
use bit_layout::widths_are_least;
use fzn_parser::TypeForm;
use std::alloc::{AllocError, Global};

/// The most bits of all variables, each counted as at least one.
const BIT_LIMIT: u128 = 1_048_576;

/// The most initial values of all integer variables together.
const VALUE_LIMIT: u128 = 67_108_864;

/// What a variable counts: its bits, which are at least 1, and the initial values of an integer variable.
#[derive(Clone, Copy, Debug, PartialEq, Eq)]
pub(crate) struct Weight {
    pub bits: u128,
    pub values: u128,
}

/// What a variable of the type counts; None where the type has no kind.
pub(crate) fn weight_of(alloc: Global, form: &TypeForm) -> Result<Option<Weight>, AllocError>
    ensures { IfOk result (HasWeight (kind_of form.now)) }
{
    match form {
        TypeForm::Bool => Ok(Some(Weight { bits: 1, values: 0 })),
        TypeForm::Within(literal) => match extent_of(alloc, literal)? {
            Some(extent) => Ok(Some(integer_weight(extent))),
            None => Ok(None),
        },
        TypeForm::SetWithin(literal) => match extent_of(alloc, literal)? {
            Some(extent) => Ok(Some(set_weight(extent))),
            None => Ok(None),
        },
        TypeForm::Int => Ok(None),
        TypeForm::Float => Ok(None),
        TypeForm::SetOfInt => Ok(None),
    }
}

fn integer_weight(extent: Extent) -> Weight
    ensures { (numbers : List ℤ) → IsExtent numbers extent → IsWeight (kinds.Int numbers) result }
{
    Weight {
        bits: u128::from(bit_width(extent.span).max(1)),
        values: extent.count,
    }
}

fn set_weight(extent: Extent) -> Weight
    ensures { (universe : List ℤ) → IsExtent universe extent → IsWeight (kinds.Set universe) result }
{
    Weight {
        bits: extent.count.max(1),
        values: 0,
    }
}

/// The least number of binary digits that hold `number`.
fn bit_width(number: u64) -> u32
    ensures { result ≡ bit_width number }
{
    widths_are_least();
    u64::BITS - number.leading_zeros()
}

/// Whether a variable of this weight is too much behind those that are counted.
pub(crate) fn is_too_much(counts: Counts, weight: Weight) -> bool
    ensures { IsTrue result ↔ ((bit_limit < counts.bits + weight.bits) ⊎ (value_limit < counts.integer_values + weight.values)) }
{
    u128::from(counts.bits).saturating_add(weight.bits) > BIT_LIMIT
        || u128::from(counts.integer_values).saturating_add(weight.values) > VALUE_LIMIT
}
