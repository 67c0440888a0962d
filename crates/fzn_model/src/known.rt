//! What declared names are known to stand for.

ghost use Rattle.std.specs.Prelude.{◌≡◌, sum_by};
ghost use Rattle.fzn_model.specs.Shapes.{typing_of_arg};
ghost use Rattle.fzn_model.specs.Shared.{arg_in};
ghost use Rattle.fzn_model.specs.ProblemOf.{terms_in};
ghost use Rattle.fzn_model.specs.FaultsOf.{set_size};

use crate::entities::SharedEntity;
use crate::typing::{Typing, typing_of_arg};

/// What a declared name stands for, with what each use asks of it.
#[derive(Drop, Debug)]
pub(crate) struct Known {
    pub entity: SharedEntity,
    /// What it is as an expression.
    pub typing: Typing,
    /// How many elements its constant sets have together.
    pub elements: u128,
    ghost typed: { typing ≡ typing_of_arg entity.sort (arg_in entity.arg) },
    ghost counted: { elements ≡ sum_by set_size (terms_in (arg_in entity.arg)) },
}

impl Known {
    /// An entity, looked through once.
    pub(crate) fn new(entity: SharedEntity) -> Known
        ensures { result.entity ≡ entity }
    {
        let typing = typing_of_arg(entity.sort, &entity.arg);
        let elements = entity.arg.elements();
        Known {
            entity,
            typing,
            elements,
        }
    }
}
