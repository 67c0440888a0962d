//! What declared names stand for.

ghost use Rattle.std.specs.Prelude.{◌≡◌};
ghost use Rattle.fzn_model.specs.Entities.{sort_of};

use crate::shared::SharedArg;
use fzn_parser::TypeForm;
use set_meaning::Sort;

/// What a declared name stands for: a term or an array of terms, with the sort of its declaration, which an empty
/// array keeps.
#[derive(Drop, Debug)]
pub(crate) struct SharedEntity {
    pub sort: Sort,
    pub arg: SharedArg,
}

/// The sort of what a type is a type of; None for a float.
pub(crate) fn sort_of(form: &TypeForm) -> Option<Sort>
    ensures { result ≡ sort_of form.now }
{
    match form {
        TypeForm::Bool => Some(Sort::Boolean),
        TypeForm::Int => Some(Sort::Integer),
        TypeForm::Float => None,
        TypeForm::SetOfInt => Some(Sort::IntegerSet),
        TypeForm::Within(_) => Some(Sort::Integer),
        TypeForm::SetWithin(_) => Some(Sort::IntegerSet),
    }
}
