//! Which coefficient each argument of a relation has, what is added, and how the sum compares with 0.
ghost use Rattle.std.specs.Prelude.{◌≡◌, ◌≤◌, true, pos, unsigned_abs, length, IfOk, IsTrue, All};
ghost use Rattle.std.specs.List.{flat_map};
ghost use Rattle.set_meaning.specs.Relations.{terms_of};
ghost use Rattle.set_meaning.specs.Rows.{ArePaired, row_of};
ghost use Rattle.problem_limits.specs.Limits.{IsSmallTerm};
ghost use Rattle.sweep_sums.specs.Shapes.{is_sum};
ghost use Rattle.sweep_sums.specs.SumTables.{IsSumOver, clause_offset, comparison_of, of_linear, of_plus, of_two, offset_of, summands_of};

use super::adding::PartialSum;
use crate::comparison::Comparison;
use crate::forms::LinearSum;
use set_meaning::{Arg, Relation};
use std::alloc::{AllocError, Global};

/// The sum of the relation's arguments: one arm a relation.
pub(super) fn table_sum(
    alloc: Global,
    relation: Relation,
    args: &[Arg],
) -> Result<LinearSum, AllocError>
    requires shape { is_sum relation ≡ true }
    requires paired { IsTrue (row_of relation).paired → ArePaired args.now }
    requires constants { All IsSmallTerm (flat_map terms_of args.now) }
    requires few { length (flat_map terms_of args.now) ≤ 4194304 }
    ensures { IfOk result (IsSumOver (summands_of relation args.now) (offset_of relation args.now) (comparison_of relation)) }
{
    match relation {
        Relation::IntEq => of_two(alloc, args, 1, -1, 0, Comparison::Equal),
        Relation::IntNe => of_two(alloc, args, 1, -1, 0, Comparison::Different),
        Relation::IntLe => of_two(alloc, args, 1, -1, 0, Comparison::AtMost),
        Relation::IntLt => of_two(alloc, args, 1, -1, 1, Comparison::AtMost),
        Relation::IntLinEq => of_linear(alloc, args, Comparison::Equal),
        Relation::IntLinLe => of_linear(alloc, args, Comparison::AtMost),
        Relation::IntLinNe => of_linear(alloc, args, Comparison::Different),
        Relation::IntPlus => of_plus(alloc, args),
        Relation::BoolEq => of_two(alloc, args, 1, -1, 0, Comparison::Equal),
        Relation::BoolLe => of_two(alloc, args, 1, -1, 0, Comparison::AtMost),
        Relation::BoolLt => of_two(alloc, args, 1, -1, 1, Comparison::AtMost),
        Relation::BoolNot => of_two(alloc, args, 1, 1, -1, Comparison::Equal),
        Relation::BoolClause => of_two(alloc, args, -1, 1, clause_offset(args), Comparison::AtMost),
        Relation::Bool2Int => of_two(alloc, args, 1, -1, 0, Comparison::Equal),
        _ => unreachable!(),
    }
}

/// The two arguments, each times a coefficient, and the offset.
fn of_two(
    alloc: Global,
    args: &[Arg],
    first: i64,
    second: i64,
    offset: i64,
    comparison: Comparison,
) -> Result<LinearSum, AllocError>
    requires first { unsigned_abs first ≤ 1000000000 }
    requires second { unsigned_abs second ≤ 1000000000 }
    requires offset { unsigned_abs offset ≤ 1000000000 }
    requires constants { All IsSmallTerm (flat_map terms_of args.now) }
    requires few { length (flat_map terms_of args.now) ≤ 4194304 }
    ensures { IfOk result (IsSumOver (of_two first second args.now) offset comparison) }
{
    match args {
        [a, b] => {
            let mut sum = PartialSum::of(alloc, offset);
            sum.add_argument(first, a)?;
            sum.add_argument(second, b)?;
            Ok(sum.compared(comparison))
        }
        _ => Ok(PartialSum::of(alloc, offset).compared(comparison)),
    }
}

/// The first two arguments, less the third, which is 0.
fn of_plus(alloc: Global, args: &[Arg]) -> Result<LinearSum, AllocError>
    requires constants { All IsSmallTerm (flat_map terms_of args.now) }
    requires few { length (flat_map terms_of args.now) ≤ 4194304 }
    ensures { IfOk result (IsSumOver (of_plus args.now) (pos 0) Comparison.Equal) }
{
    match args {
        [a, b, c] => {
            let mut sum = PartialSum::of(alloc, 0);
            sum.add_argument(1, a)?;
            sum.add_argument(1, b)?;
            sum.add_argument(-1, c)?;
            Ok(sum.compared(Comparison::Equal))
        }
        _ => Ok(PartialSum::of(alloc, 0).compared(Comparison::Equal)),
    }
}

/// The products of the first two arguments, less the third.
fn of_linear(alloc: Global, args: &[Arg], comparison: Comparison) -> Result<LinearSum, AllocError>
    requires paired { ArePaired args.now }
    requires constants { All IsSmallTerm (flat_map terms_of args.now) }
    requires few { length (flat_map terms_of args.now) ≤ 4194304 }
    ensures { IfOk result (IsSumOver (of_linear args.now) (pos 0) comparison) }
{
    match args {
        [coefficients, numbers, k] => {
            let mut sum = PartialSum::of(alloc, 0);
            sum.add_products(coefficients.terms(), numbers.terms())?;
            sum.add_argument(-1, k)?;
            Ok(sum.compared(comparison))
        }
        _ => Ok(PartialSum::of(alloc, 0).compared(comparison)),
    }
}

/// 1, less the number of negated terms of a clause.
fn clause_offset(args: &[Arg]) -> i64
    requires { length (flat_map terms_of args.now) ≤ 4194304 }
    ensures value { result ≡ clause_offset args.now }
    ensures size { unsigned_abs result ≤ 1000000000 }
{
    match args {
        [_, negated] => 1 - negated.terms().len() as i64,
        _ => 0,
    }
}
