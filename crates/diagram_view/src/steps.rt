//! A step of a walk down a diagram.
ghost use Rattle.std.specs.Prelude.{◌≡◌, ◌≢◌, ◌<◌, ◌↔◌, IsTrue};
ghost use Rattle.diagram_arena.specs.Table.{IsLive};
ghost use Rattle.diagram_arena.specs.Arena.{table};
ghost use Rattle.diagram_view.specs.Steps as step;

use diagram_arena::{Arena, Ref, reduced_tables, zero_and_one};

/// What is known of the nodes of an arena.
pub(crate) fn laws(arena: &Arena)
    ensures { step.Laws (table arena.now) }
{
    let _ = arena.len();
    reduced_tables();
    zero_and_one();
}

/// What is left of `r` once `bit`, which no node above it asks, has this value.
pub(crate) fn side(arena: &Arena, r: Ref, bit: u32, value: bool) -> Ref
    requires { IsLive (table arena.now) r }
    ensures { result ≡ step.side (table arena.now) r bit value }
{
    match r {
        Ref::Zero => Ref::Zero,
        Ref::One => Ref::One,
        Ref::Node(id) => {
            let node = arena.node(id);
            if node.bit != bit {
                r
            } else if value {
                node.hi
            } else {
                node.lo
            }
        }
    }
}

/// The value that every word of `r` has at `bit`, with what is left of `r` then. None where there are
/// words with either value.
pub(crate) fn forced(arena: &Arena, r: Ref, bit: u32) -> Option<(bool, Ref)>
    requires { IsLive (table arena.now) r }
    ensures { step.IsForced (table arena.now) r bit result }
{
    let lo = side(arena, r, bit, false);
    let hi = side(arena, r, bit, true);
    if is_zero(lo) {
        return Some((true, hi));
    }
    if is_zero(hi) {
        return Some((false, lo));
    }
    None
}

/// Whether `r` has no word.
pub(crate) fn is_zero(r: Ref) -> bool
    ensures { IsTrue result ↔ (r ≡ Ref.Zero) }
{
    r == Ref::Zero
}

/// Whether `r` has every word.
pub(crate) fn is_one(r: Ref) -> bool
    ensures { IsTrue result ↔ (r ≡ Ref.One) }
{
    r == Ref::One
}
