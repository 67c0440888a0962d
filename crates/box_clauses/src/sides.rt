//! Sides of boxes, and their pins.
ghost use Rattle.std.specs.Prelude.{◌≡◌, ◌++◌, [], IfOk, OnOk, OnErr, All};
ghost use Rattle.diagram_arena.specs.Table.{IsLive};
ghost use Rattle.diagram_arena.specs.Arena.{table};
ghost use Rattle.node_reclaim.specs.Pool.{Unpins};
ghost use Rattle.node_reclaim.specs.Holders.{Gains, AreHeld};
ghost use Rattle.pin_lists.specs.Units.{Moves};
ghost use Rattle.box_clauses.specs.Sides.{sets_of};

use diagram_arena::Ref;
use diagram_ops::Ops;
use pin_lists::PinList;
use set_meaning::VarId;
use std::alloc::{AllocError, Global};
use std::marker::Model;

/// A side of a box: a variable with a set of its values.
#[derive(Clone, Copy, PartialEq, Eq, Hash, Debug)]
pub struct Side {
    pub var: VarId,
    pub set: Ref,
}

/// Sides with a pin of each set. They cannot be dropped: `release` takes the pins back, `leave` lets them stay, and a
/// store takes them over. Contracts see the sides.
pub struct Held {
    sides: Vec<Side>,
    pins: PinList,
}

impl Model for Held {
    ghost use Rattle.std.specs.Prelude.{◌≡◌, List};
    ghost use Rattle.box_clauses.specs.declared.sides.Side.{Side};
    ghost use Rattle.box_clauses.specs.Sides.{sets_of};

    ghost Value = { List Side };

    ghost view = { λ h. h.sides.items };

    ghost invariant = { λ h. h.pins ≡ sets_of h.sides.items };
}

impl Held {
    /// The sides, each of whose sets must be live, with a pin of each set. An `Err` is want of memory; it comes also
    /// where a node has 2^64 - 1 pins.
    pub fn new(alloc: Global, ops: &mut Ops, sides: &[Side]) -> Result<Held, AllocError>
        requires { All (λ side. IsLive (table ops.old.arena) side.set) sides.now }
        ensures only { ops.new ≡ record ops.old { counts = ops.new.counts } }
        ensures sides { IfOk result (λ held. held ≡ sides.now) }
        ensures gained { OnOk result (Gains ops.old ops.new (sets_of sides.now)) }
        ensures ungained { OnErr result (Gains ops.old ops.new []) }
    {
        let kept = Vec::from_slice(alloc, sides)?;
        let mut pins = PinList::new(alloc);
        match hold_all(ops, &mut pins, sides) {
            Ok(()) => Ok(Held { sides: kept, pins }),
            Err(refused) => {
                pins.release(ops);
                Err(refused)
            }
        }
    }

    /// The sides. Takes no memory.
    pub fn sides(&self) -> &[Side]
        ensures { result.now ≡ self.now }
    {
        self.sides.as_slice()
    }

    /// Spends the pins: each node has one pin less for each time that it is a set of a side. Takes no memory.
    pub fn release(self, ops: &mut Ops)
        requires { AreHeld ops.old (sets_of self) }
        ensures { Unpins ops.old ops.new (sets_of self) }
    {
        let Held { sides: _, pins } = self;
        pins.release(ops);
    }

    /// Spends the pins, leaves the nodes pinned, and answers the sides. Takes no memory.
    pub fn leave(self) -> Vec<Side>
        ensures { result.items ≡ self }
    {
        let Held { sides, pins } = self;
        pins.leave();
        sides
    }
}

/// Pins the set of each side, in order, at the end of the list.
fn hold_all(ops: &mut Ops, pins: &mut PinList, sides: &[Side]) -> Result<(), AllocError>
    requires { All (λ side. IsLive (table ops.old.arena) side.set) sides.now }
    ensures only { ops.new ≡ record ops.old { counts = ops.new.counts } }
    ensures listed { OnOk result (pins.new ≡ pins.old ++ sets_of sides.now) }
    ensures moved { Moves ops.old ops.new pins.old pins.new }
{
    for side in sides {
        pins.hold(ops, side.set)?;
    }
    Ok(())
}
