//! Relations between up to three set variables, read element by element.
ghost use Rattle.std.specs.Prelude.{◌≡◌, ◌↔◌, ◌<◌, ◌≤◌, pos, true, length, IsTrue, IfOk, All};
ghost use Rattle.set_meaning.specs.declared.problems.Term.TheVariants.{Var};
ghost use Rattle.set_meaning.specs.Problems.{IsKind};
ghost use Rattle.set_meaning.specs.Relations.{IsScope};
ghost use Rattle.log_rules.specs.Boxes.{AreSides, SomeSatisfy};
ghost use Rattle.log_rules.specs.Rules.{StandsIn};
ghost use Rattle.sweep_sets.specs.Relations.{is_between_sets};
ghost use Rattle.sweep_shapes.specs.Slots.{AreSetVariables, IsCardinality, IsMembership, IsReading};

use crate::swept::is_possible_of_shape;
use bit_layout::Layout;
use set_meaning::{Constraint, Kind, Term, VarId};
use std::alloc::{AllocError, Global};
use sweep_counts::{Count, counts_are_sizes};
use sweep_scopes::{set_places, set_places_have_words};
use sweep_sets::SetShape;
use sweep_table::Table;

/// Whether some initial values in the sides satisfy a constraint over one, two or three set variables that says that the
/// relation of `read`, which is between sets, has this truth value. Time is as that of `is_possible_of_shape`.
pub(crate) fn is_possible_of_sets(
    alloc: Global,
    kinds: &[Kind],
    layout: &Layout,
    table: &Table,
    c: &Constraint,
    sides: &[(u64, u64)],
    variables: &[VarId],
    read: &Constraint,
    truth: bool,
) -> Result<bool, AllocError>
    requires legal { All IsKind kinds.now }
    requires layout { layout.now.kinds ≡ kinds.now }
    requires sets { AreSetVariables kinds.now variables.now }
    requires read { IsReading kinds.now c.now variables.now read.now truth }
    requires between { is_between_sets read.now.relation ≡ true }
    requires scope { IsScope c.now variables.now }
    requires some { 0 < length variables.now }
    requires few { length variables.now ≤ 3 }
    requires sides { AreSides kinds.now table.now sides.now }
    requires named { All (λ side. StandsIn c.now side.0) sides.now }
    ensures { IfOk result (λ yes. IsTrue yes ↔ SomeSatisfy kinds.now table.now sides.now c.now) }
{
    let places = set_places(alloc, layout, variables)?;
    let listed = places.as_slice();
    let args = read.args.items();
    let shape = SetShape::of_relation(alloc, listed, read.relation, truth, args)?;
    is_possible_of_shape(alloc, kinds, table, c, sides, variables, listed, &shape)
}

/// The same of a constraint which says that "the set has this element" has this truth value.
pub(crate) fn is_possible_of_member(
    alloc: Global,
    kinds: &[Kind],
    layout: &Layout,
    table: &Table,
    c: &Constraint,
    sides: &[(u64, u64)],
    variables: &[VarId],
    read: &Constraint,
    truth: bool,
    member: i64,
    set: &Term,
) -> Result<bool, AllocError>
    requires legal { All IsKind kinds.now }
    requires layout { layout.now.kinds ≡ kinds.now }
    requires sets { AreSetVariables kinds.now variables.now }
    requires read { IsReading kinds.now c.now variables.now read.now truth }
    requires is { IsMembership read.now member set.now }
    requires scope { IsScope c.now variables.now }
    requires some { 0 < length variables.now }
    requires few { length variables.now ≤ 3 }
    requires sides { AreSides kinds.now table.now sides.now }
    requires named { All (λ side. StandsIn c.now side.0) sides.now }
    ensures { IfOk result (λ yes. IsTrue yes ↔ SomeSatisfy kinds.now table.now sides.now c.now) }
{
    let places = set_places(alloc, layout, variables)?;
    let listed = places.as_slice();
    let shape = SetShape::of_member(alloc, listed, truth, member, set)?;
    is_possible_of_shape(alloc, kinds, table, c, sides, variables, listed, &shape)
}

/// The same of a constraint over one set variable, which says that the set has so many elements.
pub(crate) fn is_possible_of_count(
    alloc: Global,
    kinds: &[Kind],
    layout: &Layout,
    table: &Table,
    c: &Constraint,
    sides: &[(u64, u64)],
    variables: &[VarId],
    read: &Constraint,
    size: u64,
    set: VarId,
) -> Result<bool, AllocError>
    requires legal { All IsKind kinds.now }
    requires layout { layout.now.kinds ≡ kinds.now }
    requires sets { AreSetVariables kinds.now variables.now }
    requires read { IsReading kinds.now c.now variables.now read.now true }
    requires is { IsCardinality read.now (pos size) (Var set) }
    requires scope { IsScope c.now variables.now }
    requires one { length variables.now ≡ 1 }
    requires sides { AreSides kinds.now table.now sides.now }
    requires named { All (λ side. StandsIn c.now side.0) sides.now }
    ensures { IfOk result (λ yes. IsTrue yes ↔ SomeSatisfy kinds.now table.now sides.now c.now) }
{
    set_places_have_words();
    counts_are_sizes();
    let places = set_places(alloc, layout, variables)?;
    let listed = places.as_slice();
    let shape = Count {
        size,
        places: listed.len(),
    };
    is_possible_of_shape(alloc, kinds, table, c, sides, variables, listed, &shape)
}
