//! Dimensions of shown arrays.

ghost use Rattle.std.specs.Prelude.{◌≡◌, IfOk};
ghost use Rattle.fzn_model.specs.Outputs.{dim_of_set, size_of_dim};

use crate::sets::{integer_of, integers, range_size};
use fzn_parser::SetForm;
use set_meaning::{Dim, SetValue};
use std::alloc::{AllocError, Global};

/// The dimension that a set literal is; None where it has a float or an integer that is too large.
pub(crate) fn dim_of_set(alloc: Global, literal: &SetForm) -> Result<Option<Dim>, AllocError>
    ensures { IfOk result (λ dim. dim ≡ dim_of_set literal.now) }
{
    match literal {
        SetForm::Range(low, high) => match (integer_of(low), integer_of(high)) {
            (Some(lo), Some(hi)) => Ok(Some(Dim::Range(lo, hi))),
            _ => Ok(None),
        },
        SetForm::List(numbers) => match integers(alloc, numbers.items())? {
            Some(items) => Ok(Some(Dim::List(SetValue::from_list(alloc, items.as_slice())?))),
            None => Ok(None),
        },
    }
}

/// How many elements the dimension has.
pub(crate) fn size_of_dim(dim: &Dim) -> u128
    ensures { result ≡ size_of_dim dim.now }
{
    match dim {
        Dim::Range(lo, hi) => range_size(*lo, *hi),
        Dim::List(elements) => elements.elements().len() as u128,
    }
}
