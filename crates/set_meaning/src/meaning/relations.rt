//! Which test belongs to which relation.

ghost use Rattle.std.specs.Prelude.{◌↔◌, IsTrue, IfOk};
ghost use Rattle.set_meaning.specs.Relations.{HoldsOf};

use crate::kinds::Value;
use crate::meaning::booleans::{self, BoolOperation};
use crate::meaning::comparison::Comparison;
use crate::meaning::integers::{self, IntOperation};
use crate::meaning::{elements, linear_sums, sets};
use crate::problems::{Arg, Relation};
use crate::sets::SetOperation;
use std::alloc::{AllocError, Global};

/// Whether the relation is true of the arguments. Arguments that are not its own make it false.
#[tactic(auto, unfolding(crate::specs::Relations::HoldsOf))]
pub(super) fn relation_holds(
    alloc: Global,
    relation: Relation,
    args: &[Arg],
    values: &[Value],
) -> Result<bool, AllocError>
    ensures { IfOk result (λ holds. IsTrue holds ↔ HoldsOf relation args.now values.now) }
{
    match relation {
        Relation::SetEq => Ok(sets::compared(Comparison::Equal, args, values)),
        Relation::SetNe => Ok(sets::compared(Comparison::Different, args, values)),
        Relation::SetLt => Ok(sets::compared(Comparison::Before, args, values)),
        Relation::SetLe => Ok(sets::compared(Comparison::AtMost, args, values)),
        Relation::SetSubset => Ok(sets::subset(args, values)),
        Relation::SetSuperset => Ok(sets::superset(args, values)),
        Relation::SetIn => Ok(sets::membership(args, values)),
        Relation::SetUnion => Ok(sets::computed(SetOperation::Union, args, values)),
        Relation::SetIntersect => Ok(sets::computed(SetOperation::Intersection, args, values)),
        Relation::SetDiff => Ok(sets::computed(SetOperation::Difference, args, values)),
        Relation::SetSymdiff => Ok(sets::computed(SetOperation::SymmetricDifference, args, values)),
        Relation::SetCard => Ok(sets::cardinality(args, values)),
        Relation::ArraySetElement => Ok(elements::set_element(args, values)),
        Relation::IntEq => Ok(integers::compared(Comparison::Equal, args, values)),
        Relation::IntNe => Ok(integers::compared(Comparison::Different, args, values)),
        Relation::IntLe => Ok(integers::compared(Comparison::AtMost, args, values)),
        Relation::IntLt => Ok(integers::compared(Comparison::Before, args, values)),
        Relation::IntLinEq => linear_sums::compared(alloc, Comparison::Equal, args, values),
        Relation::IntLinLe => linear_sums::compared(alloc, Comparison::AtMost, args, values),
        Relation::IntLinNe => linear_sums::compared(alloc, Comparison::Different, args, values),
        Relation::IntPlus => Ok(integers::computed(IntOperation::Plus, args, values)),
        Relation::IntTimes => Ok(integers::computed(IntOperation::Times, args, values)),
        Relation::IntMin => Ok(integers::computed(IntOperation::Min, args, values)),
        Relation::IntMax => Ok(integers::computed(IntOperation::Max, args, values)),
        Relation::IntAbs => Ok(integers::absolute_value(args, values)),
        Relation::ArrayIntElement => elements::int_element(alloc, args, values),
        Relation::BoolEq => Ok(booleans::compared(Comparison::Equal, args, values)),
        Relation::BoolLe => Ok(booleans::compared(Comparison::AtMost, args, values)),
        Relation::BoolLt => Ok(booleans::compared(Comparison::Before, args, values)),
        Relation::BoolNot => Ok(booleans::compared(Comparison::Different, args, values)),
        Relation::BoolAnd => Ok(booleans::computed(BoolOperation::And, args, values)),
        Relation::BoolOr => Ok(booleans::computed(BoolOperation::Or, args, values)),
        Relation::BoolXor => Ok(booleans::computed(BoolOperation::Xor, args, values)),
        Relation::BoolClause => booleans::clause(alloc, args, values),
        Relation::ArrayBoolAnd => booleans::conjunction(alloc, args, values),
        Relation::ArrayBoolOr => booleans::disjunction(alloc, args, values),
        Relation::Bool2Int => Ok(booleans::number(args, values)),
        Relation::ArrayBoolElement => elements::bool_element(alloc, args, values),
    }
}
