//! Relations that are a choice of branches.
ghost use Rattle.std.specs.Prelude.{◌≡◌, ◌≤◌, true, length, IfOk, All};
ghost use Rattle.std.specs.List.{AllZip, flat_map};
ghost use Rattle.set_meaning.specs.Relations.{terms_of};
ghost use Rattle.set_meaning.specs.Rows.{HasShape, row_of, shapes_of};
ghost use Rattle.problem_limits.specs.Limits.{HasSmallNumbers, IsSmallTerm};
ghost use Rattle.int_channel.specs.Shapes.{is_choice};
ghost use Rattle.int_channel.specs.Forms.{AreBranchesOf};

mod amounts;
mod arguments;
mod arrays;
mod booleans;
mod elements;
mod facts;
mod integers;
mod members;
mod numbers;
mod products;

use crate::forms::Branch;
use set_meaning::{Arg, Kind, Relation};
use std::alloc::{AllocError, Global};

/// Branches of which some holds just where the relation does.
pub(crate) fn branches_of(
    alloc: Global,
    kinds: &[Kind],
    relation: Relation,
    args: &[Arg],
) -> Result<Vec<Branch>, AllocError>
    requires shape { is_choice relation ≡ true }
    requires fits { AllZip (HasShape kinds.now) (shapes_of (row_of relation)) args.now }
    requires numbers { All HasSmallNumbers kinds.now }
    requires constants { All IsSmallTerm (flat_map terms_of args.now) }
    requires few { length (flat_map terms_of args.now) ≤ 4194304 }
    ensures { IfOk result (λ bs. AreBranchesOf kinds.now relation args.now bs.items) }
{
    match relation {
        Relation::SetIn => members::membership(alloc, kinds, args),
        Relation::IntTimes => products::product(alloc, kinds, args),
        Relation::IntMin => integers::minimum(alloc, args),
        Relation::IntMax => integers::maximum(alloc, args),
        Relation::IntAbs => integers::absolute_value(alloc, args),
        Relation::ArrayIntElement => elements::element(alloc, kinds, args),
        Relation::BoolAnd => booleans::conjunction(alloc, args),
        Relation::BoolOr => booleans::disjunction(alloc, args),
        Relation::BoolXor => booleans::exclusive_or(alloc, args),
        Relation::ArrayBoolAnd => arrays::all_true(alloc, args),
        Relation::ArrayBoolOr => arrays::some_true(alloc, args),
        Relation::ArrayBoolElement => elements::element(alloc, kinds, args),
        _ => unreachable!(),
    }
}
