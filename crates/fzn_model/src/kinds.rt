//! Relations and kinds that types ask for.

ghost use Rattle.std.specs.Prelude.{◌≡◌};
ghost use Rattle.fzn_model.specs.ProblemOf.{equality};

use set_meaning::{Relation, Sort};

/// The relation by which a scalar variable is given a value.
pub(crate) fn equality(sort: Sort) -> Relation
    ensures { result ≡ equality sort }
{
    match sort {
        Sort::Boolean => Relation::BoolEq,
        Sort::Integer => Relation::IntEq,
        Sort::IntegerSet => Relation::SetEq,
    }
}
