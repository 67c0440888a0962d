//! The relations of sets alone, and the rule by which each is read.
ghost use Rattle.std.specs.Prelude.{◌≡◌, true, ◌∷◌, IfOk, IsSome, All, length};
ghost use Rattle.std.specs.List.Sorted.{IsStrictlySortedBy};
ghost use Rattle.std.proofs.Math.Bool.{beq};
ghost use Rattle.set_meaning.specs.declared.problems.Arg.TheVariants.{One};
ghost use Rattle.bit_layout.specs.Order.{place_cmp};
ghost use Rattle.sweep_sets.specs.Reading.{AreGrouped};
ghost use Rattle.sweep_sets.specs.Relations.{is_between_sets, rule_of, rule_truth, FitsRelation, IsShapeOf, IsOneTerm};

use crate::rules::Rule;
use crate::shapes::SetShape;
use bit_layout::Place;
use set_meaning::{Arg, Relation, Term};
use std::alloc::{AllocError, Global};

/// Whether the relation is one of two or three sets, which `SetShape::of_relation` reads: equality of sets and its
/// negation, the order of sets and the order or equality, subset and superset, the union, the intersection, the
/// difference and the symmetric difference.
pub fn is_between_sets(relation: Relation) -> bool
    ensures { result ≡ is_between_sets relation }
{
    match relation {
        Relation::SetEq => true,
        Relation::SetNe => true,
        Relation::SetLt => true,
        Relation::SetLe => true,
        Relation::SetSubset => true,
        Relation::SetSuperset => true,
        Relation::SetUnion => true,
        Relation::SetIntersect => true,
        Relation::SetDiff => true,
        Relation::SetSymdiff => true,
        _ => false,
    }
}

impl SetShape {
    /// The shape of a relation between sets that is to have this truth value; otherwise as `of_two` and `of_three`.
    pub fn of_relation(
        alloc: Global,
        places: &[Place],
        relation: Relation,
        truth: bool,
        args: &[Arg],
    ) -> Result<SetShape, AllocError>
        requires ascending { IsStrictlySortedBy place_cmp places.now }
        requires elements { All (λ p. IsSome p.element) places.now }
        requires sets { is_between_sets relation ≡ true }
        requires args { FitsRelation relation args.now }
        ensures valid { IfOk result (λ s. AreGrouped (length s.constants) s.entries) }
        ensures places { IfOk result (λ s. length s.entries ≡ length places.now) }
        ensures exact { IfOk result (IsShapeOf places.now relation truth args.now) }
    {
        let rule = rule_of(relation);
        let truth = rule_truth(relation) == truth;
        match args {
            [first, second] => {
                SetShape::of_two(alloc, places, rule, truth, term_of(first), term_of(second))
            }
            [first, second, third] => SetShape::of_three(
                alloc,
                places,
                rule,
                truth,
                term_of(first),
                term_of(second),
                term_of(third),
            ),
            _ => unreachable!(),
        }
    }
}

/// The rule by which a relation between sets is read.
fn rule_of(relation: Relation) -> Rule
    requires { is_between_sets relation ≡ true }
    ensures { result ≡ rule_of relation }
{
    match relation {
        Relation::SetEq => Rule::Equal,
        Relation::SetNe => Rule::Equal,
        Relation::SetLt => Rule::Before,
        Relation::SetLe => Rule::AtMost,
        Relation::SetSubset => Rule::Subset,
        Relation::SetSuperset => Rule::Superset,
        Relation::SetUnion => Rule::Union,
        Relation::SetIntersect => Rule::Intersection,
        Relation::SetDiff => Rule::Difference,
        Relation::SetSymdiff => Rule::SymmetricDifference,
        _ => unreachable!(),
    }
}

/// Whether the rule holds where the relation does.
fn rule_truth(relation: Relation) -> bool
    ensures { result ≡ rule_truth relation }
{
    !matches!(relation, Relation::SetNe)
}

/// The term of an argument that is one.
fn term_of(arg: &Arg) -> &Term
    requires { IsOneTerm arg.now }
    ensures { arg.now ≡ One result.now }
{
    match arg {
        Arg::One(term) => term,
        Arg::Many(_) => unreachable!(),
    }
}
