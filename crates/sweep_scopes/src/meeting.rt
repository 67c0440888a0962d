//! A shape that is swept through the sides of three variables.
ghost use Rattle.std.specs.Prelude.{◌≡◌, ◌↔◌, ◌<◌, ◌^◌, ◌∷◌, [], length, IsTrue, IfOk};
ghost use Rattle.sweep_states.specs.Sweeps.{Each};
ghost use Rattle.sweep_scopes.specs.Meetings.{Accepts, Fits, Meets, place_in, places_in};

use bit_layout::Place;
use set_meaning::VarId;
use std::alloc::{AllocError, Global};
use sweep_rules::{Both, Shape};
use sweep_states::read_through;
use sweep_table::{Side, Table, sides_accept};

/// A variable, and the node from which its words are accepted; node 1 accepts each.
#[derive(Clone, Copy, Debug, Drop)]
pub struct Slot {
    pub variable: VarId,
    pub root: u64,
}

/// Whether the shape accepts a word over the places in which each of the three variables has a word that its node accepts. Where there
/// are fewer variables one may be named again, with node 1. The shape reads a bit a place. An `Err` is want of memory.
pub fn is_met<S: Shape>(
    alloc: Global,
    table: &Table,
    places: &[Place],
    shape: &S,
    first: Slot,
    second: Slot,
    third: Slot,
) -> Result<bool, AllocError>
    requires valid { S.valid shape.now }
    requires count { S.places shape.now ≡ length places.now }
    requires small { length places.now < 2 ^ 63 }
    requires first { Fits table.now places.now first }
    requires second { Fits table.now places.now second }
    requires third { Fits table.now places.now third }
    ensures { IfOk result (λ met. IsTrue met ↔ Meets table.now places.now (S.rules shape.now) first second third) }
{
    table.obeys_rules();
    sides_accept();
    let filter = Both {
        first: side_of(alloc, table, places, first)?,
        second: Both {
            first: side_of(alloc, table, places, second)?,
            second: side_of(alloc, table, places, third)?,
        },
    };
    let first_state = shape.start();
    let states = one(alloc, first_state)?;
    let ends = read_through(alloc, shape, 0, &filter, places.len(), states.as_slice())?;
    let met = some_accepts(shape, ends.as_slice());
    Ok(met)
}

/// The list of one state.
fn one<X: Copy>(alloc: Global, state: X) -> Result<Vec<X>, AllocError>
    ensures { IfOk result (λ states. states.items ≡ state ∷ []) }
{
    let mut states = Vec::new(alloc);
    states.push(state)?;
    Ok(states)
}

/// The side of one variable, beside the bits of the others.
fn side_of<'a>(
    alloc: Global,
    table: &'a Table,
    places: &[Place],
    slot: Slot,
) -> Result<Side<'a>, AllocError>
    ensures table { IfOk result (λ side. side.table.now ≡ table.now) }
    ensures root { IfOk result (λ side. side.root ≡ slot.root) }
    ensures places { IfOk result (λ side. side.places.items ≡ places_in places.now slot.variable) }
{
    let places = places_in(alloc, places, slot.variable)?;
    Ok(Side {
        table,
        root: slot.root,
        places,
    })
}

/// For each place, the place of the variable's words that it is.
fn places_in(alloc: Global, places: &[Place], v: VarId) -> Result<Vec<Option<u64>>, AllocError>
    ensures { IfOk result (λ own. own.items ≡ places_in places.now v) }
{
    places.iter().map(|p| place_in(p, v)).collect(alloc)
}

fn place_in(p: &Place, v: VarId) -> Option<u64>
    ensures { result ≡ place_in v p.now }
{
    if p.variable.0 == v.0 {
        Some(u64::from(p.position))
    } else {
        None
    }
}

/// Whether the shape accepts in one of the states, all bits being read.
fn some_accepts<S: Shape>(shape: &S, states: &[S::State]) -> bool
    requires valid { S.valid shape.now }
    requires occur { Each (S.occurs shape.now (S.places shape.now)) states.now }
    ensures { IsTrue result ↔ Accepts (S.rules shape.now) states.now }
{
    for state in states {
        if shape.accepts(*state) {
            return true;
        }
    }
    false
}
