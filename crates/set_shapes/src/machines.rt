//! The machine of elements for each relation.
ghost use Rattle.std.specs.Prelude.{◌≡◌, true};
ghost use Rattle.set_shapes.specs.Shapes.{is_between_sets, is_element, is_shape, machine_of, tested, ordered};

use crate::orders::InOrder;
use crate::tests_of_elements::{AllPass, ElementTest};
use set_meaning::Relation;

/// How a relation reads the elements of its sets.
#[derive(Clone, Copy, Drop)]
pub(crate) enum SetMachine {
    /// By a test that all must pass.
    Tested(AllPass),
    /// In the order of sets.
    Ordered(InOrder),
}

/// Whether `set_shape` makes the diagram of the relation: equality of sets and its negation, the order of sets and the order or
/// equality, subset and superset, the union, the intersection, the difference and the symmetric difference, and the element relation.
pub fn is_set_shape(relation: Relation) -> bool
    ensures { result ≡ is_shape relation }
{
    is_between_sets(relation) || is_element(relation)
}

/// Whether the relation is one of two or three sets.
fn is_between_sets(relation: Relation) -> bool
    ensures { result ≡ is_between_sets relation }
{
    match relation {
        Relation::SetEq => true,
        Relation::SetNe => true,
        Relation::SetLt => true,
        Relation::SetLe => true,
        Relation::SetSubset => true,
        Relation::SetSuperset => true,
        Relation::SetUnion => true,
        Relation::SetIntersect => true,
        Relation::SetDiff => true,
        Relation::SetSymdiff => true,
        _ => false,
    }
}

/// Whether the relation is that of an index, an array of sets and the set at that place.
pub(crate) fn is_element(relation: Relation) -> bool
    ensures { result ≡ is_element relation }
{
    matches!(relation, Relation::ArraySetElement)
}

pub(crate) fn machine_of(relation: Relation) -> SetMachine
    requires { is_between_sets relation ≡ true }
    ensures { result ≡ machine_of relation }
{
    match relation {
        Relation::SetEq => tested(ElementTest::Equal, true),
        Relation::SetNe => tested(ElementTest::Equal, false),
        Relation::SetLt => ordered(false),
        Relation::SetLe => ordered(true),
        Relation::SetSubset => tested(ElementTest::Subset, true),
        Relation::SetSuperset => tested(ElementTest::Superset, true),
        Relation::SetUnion => tested(ElementTest::Union, true),
        Relation::SetIntersect => tested(ElementTest::Intersection, true),
        Relation::SetDiff => tested(ElementTest::Difference, true),
        Relation::SetSymdiff => tested(ElementTest::SymmetricDifference, true),
        _ => unreachable!(),
    }
}

fn tested(test: ElementTest, wanted: bool) -> SetMachine
    ensures { result ≡ tested test wanted }
{
    SetMachine::Tested(AllPass { test, wanted })
}

fn ordered(equal: bool) -> SetMachine
    ensures { result ≡ ordered equal }
{
    SetMachine::Ordered(InOrder { equal })
}
