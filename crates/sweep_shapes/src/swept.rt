//! A shape of sets that is swept through the sides of up to three set variables.
ghost use Rattle.std.specs.Prelude.{◌≡◌, ◌↔◌, ◌<◌, ◌≤◌, ◌^◌, true, List, map, length, slice_get, Some, IsTrue, IfOk, All};
ghost use Rattle.set_meaning.specs.declared.kinds.Value.{Value as AnyValue};
ghost use Rattle.set_meaning.specs.Kinds.{IsAssignment};
ghost use Rattle.set_meaning.specs.Problems.{IsKind};
ghost use Rattle.set_meaning.specs.Relations.{Holds, IsScope};
ghost use Rattle.log_rules.specs.Boxes.{AreSides, SomeSatisfy};
ghost use Rattle.log_rules.specs.Rules.{StandsIn};
ghost use Rattle.sweep_rules.specs.Rules.{accepts};
ghost use Rattle.sweep_rules.specs.SetPlaces.{AreSetPlaces, set_bit};
ghost use Rattle.sweep_shapes.specs.Slots.{AreSetVariables, IsSlot, node_in};

use bit_layout::Place;
use set_meaning::{Constraint, Kind, VarId};
use std::alloc::{AllocError, Global};
use sweep_rules::Shape;
use sweep_scopes::{Slot, is_met, set_places_have_words};
use sweep_table::Table;

/// Whether some initial values in the sides satisfy a constraint over one, two or three set variables, whose words the shape
/// accepts. Time is of the order of the bits times the states of the shape that occur beside nodes of the sides.
pub(crate) fn is_possible_of_shape<S: Shape>(
    alloc: Global,
    kinds: &[Kind],
    table: &Table,
    c: &Constraint,
    sides: &[(u64, u64)],
    variables: &[VarId],
    places: &[Place],
    shape: &S,
) -> Result<bool, AllocError>
    requires legal { All IsKind kinds.now }
    requires scope { IsScope c.now variables.now }
    requires sets { AreSetVariables kinds.now variables.now }
    requires some { 0 < length variables.now }
    requires few { length variables.now ≤ 3 }
    requires sides { AreSides kinds.now table.now sides.now }
    requires named { All (λ side. StandsIn c.now side.0) sides.now }
    requires places { AreSetPlaces kinds.now variables.now places.now }
    requires small { length places.now < 2 ^ 63 }
    requires valid { S.valid shape.now }
    requires count { S.places shape.now ≡ length places.now }
    requires exact { (values : List AnyValue) → IsAssignment kinds.now values
        → (accepts (S.rules shape.now) (map (set_bit values) places.now) ≡ true) ↔ Holds c.now values }
    ensures { IfOk result (λ yes. IsTrue yes ↔ SomeSatisfy kinds.now table.now sides.now c.now) }
{
    set_places_have_words();
    let first = slot_at(sides, variables, 0);
    let second = slot_at(sides, variables, 1);
    let third = slot_at(sides, variables, 2);
    let met = is_met(alloc, table, places, shape, first, second, third)?;
    Ok(met)
}

/// The `i`-th variable with its side; where there are no more, the first with node 1.
fn slot_at(sides: &[(u64, u64)], variables: &[VarId], i: usize) -> Slot
    requires { 0 < length variables.now }
    ensures { IsSlot sides.now variables.now i result }
{
    if i < variables.len() {
        let variable = variables[i];
        return Slot {
            variable,
            root: node_in(sides, variable.0),
        };
    }
    Slot {
        variable: variables[0],
        root: 1,
    }
}

/// The node of the variable's side; 1 where it has none.
fn node_in(sides: &[(u64, u64)], v: u32) -> u64
    ensures { result ≡ node_in sides.now v }
{
    for side in sides {
        if side.0 == u64::from(v) {
            return side.1;
        }
    }
    1
}
