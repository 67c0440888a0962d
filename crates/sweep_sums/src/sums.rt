//! Relations that are one linear sum.
ghost use Rattle.std.specs.Prelude.{◌≡◌, ◌≤◌, true, length, IfOk, IsTrue, All};
ghost use Rattle.std.specs.List.{AllZip, flat_map};
ghost use Rattle.set_meaning.specs.Relations.{terms_of};
ghost use Rattle.set_meaning.specs.Rows.{ArePaired, HasShape, row_of, shapes_of};
ghost use Rattle.problem_limits.specs.Limits.{IsSmallTerm};
ghost use Rattle.sweep_sums.specs.Shapes.{is_sum};
ghost use Rattle.sweep_sums.specs.Forms.{IsSumOf};

mod adding;
mod relations;

use crate::forms::LinearSum;
use relations::table_sum;
use set_meaning::{Arg, Kind, Relation};
use std::alloc::{AllocError, Global};

/// The linear sum that compares with 0 just where the relation holds. Constants count towards its constant; a variable that stands twice has
/// two terms. Time is of the order of the terms. An `Err` is want of memory.
pub fn sum_of(
    alloc: Global,
    kinds: &[Kind],
    relation: Relation,
    args: &[Arg],
) -> Result<LinearSum, AllocError>
    requires shape { is_sum relation ≡ true }
    requires fits { AllZip (HasShape kinds.now) (shapes_of (row_of relation)) args.now }
    requires paired { IsTrue (row_of relation).paired → ArePaired args.now }
    requires constants { All IsSmallTerm (flat_map terms_of args.now) }
    requires few { length (flat_map terms_of args.now) ≤ 4194304 }
    ensures { IfOk result (IsSumOf kinds.now relation args.now) }
{
    table_sum(alloc, relation, args)
}

/// Whether the relation is one linear sum that is compared with 0. Sums of all sizes: equality, order and linear sums of integers, equality,
/// order and negation of Booleans, clauses, and the number of a Boolean.
pub fn is_sum(relation: Relation) -> bool
    ensures { result ≡ is_sum relation }
{
    match relation {
        Relation::IntEq => true,
        Relation::IntNe => true,
        Relation::IntLe => true,
        Relation::IntLt => true,
        Relation::IntLinEq => true,
        Relation::IntLinLe => true,
        Relation::IntLinNe => true,
        Relation::IntPlus => true,
        Relation::BoolEq => true,
        Relation::BoolLe => true,
        Relation::BoolLt => true,
        Relation::BoolNot => true,
        Relation::BoolClause => true,
        Relation::Bool2Int => true,
        _ => false,
    }
}
