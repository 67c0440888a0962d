//! Lists of pins.
ghost use Rattle.std.specs.Prelude.{◌≡◌, ◌<◌, [], ◌∷◌, ◌++◌, OnOk, OnErr, Some, length, slice_get, slice_index_or, slice_set};
ghost use Rattle.std.specs.List.{All};
ghost use Rattle.diagram_arena.specs.Table.{IsLive};
ghost use Rattle.diagram_arena.specs.Arena.{table};
ghost use Rattle.node_reclaim.specs.Pool.{Unpins};
ghost use Rattle.node_reclaim.specs.Holders.{Gains, AreHeld};
ghost use Rattle.pin_lists.specs.Units.{Moves, IsTakenBack};

use diagram_arena::Ref;
use diagram_ops::Ops;
use node_reclaim::Pin;
use std::alloc::{AllocError, Global};
use std::marker::Model;
use std::mem;

/// Pins, each of one ref. They cannot be dropped: `release` takes them back, and `leave` lets the nodes stay pinned for good. Contracts
/// see the refs that are pinned, in order.
pub struct PinList {
    refs: Vec<Ref>,
    pins: Vec<Pin>,
}

impl Model for PinList {
    ghost use Rattle.std.specs.Prelude.{◌≡◌, List};
    ghost use Rattle.diagram_arena.specs.declared.nodes.Ref.{Ref};

    ghost Value = { List Ref };

    ghost view = { λ a. a.refs.items };

    ghost invariant = { λ a. a.pins.items ≡ a.refs.items };
}

impl PinList {
    /// No pins.
    pub fn new(alloc: Global) -> PinList
        ensures { result ≡ [] }
    {
        PinList {
            refs: Vec::new(alloc),
            pins: Vec::new(alloc),
        }
    }

    /// The refs that are pinned, in order. Takes no memory.
    pub fn refs(&self) -> &[Ref]
        ensures { result.now ≡ self.now }
    {
        self.refs.as_slice()
    }

    /// Pins `r`, which must be live, at the end of the list. An `Err` is want of memory; it comes also where the node has 2^64 - 1 pins.
    pub fn hold(&mut self, ops: &mut Ops, r: Ref) -> Result<(), AllocError>
        requires { IsLive (table ops.old.arena) r }
        ensures only { ops.new ≡ record ops.old { counts = ops.new.counts } }
        ensures listed { OnOk result (self.new ≡ self.old ++ r ∷ []) }
        ensures gained { OnOk result (Gains ops.old ops.new (r ∷ [])) }
        ensures same { OnErr result (self.new ≡ self.old) }
        ensures ungained { OnErr result (Gains ops.old ops.new []) }
    {
        self.refs.push(r)?;
        match pin_last(&mut self.pins, ops, r) {
            Ok(()) => Ok(()),
            Err(refused) => {
                let _ = self.refs.pop();
                Err(refused)
            }
        }
    }

    /// Pins each of the refs, which must be live, at the end of the list, in order. An `Err` is want of memory, as of `hold`; some refs
    /// may then be in the list.
    pub fn hold_all(&mut self, ops: &mut Ops, refs: &[Ref]) -> Result<(), AllocError>
        requires { All (IsLive (table ops.old.arena)) refs.now }
        ensures only { ops.new ≡ record ops.old { counts = ops.new.counts } }
        ensures listed { OnOk result (self.new ≡ self.old ++ refs.now) }
        ensures moved { Moves ops.old ops.new self.old self.new }
    {
        for r in refs {
            self.hold(ops, *r)?;
        }
        Ok(())
    }

    /// Pins `r`, which must be live, in place of what is pinned at this place of the list. An `Err` is want of memory, as of `hold`.
    pub fn replace(&mut self, ops: &mut Ops, at: usize, r: Ref) -> Result<(), AllocError>
        requires at { at < length self.old }
        requires live { IsLive (table ops.old.arena) r }
        requires held { AreHeld ops.old self.old }
        ensures only { ops.new ≡ record ops.old { counts = ops.new.counts } }
        ensures listed { OnOk result (self.new ≡ slice_set self.old at r) }
        ensures moved { OnOk result (Moves ops.old ops.new self.old self.new) }
        ensures same { OnErr result (self.new ≡ self.old) }
        ensures unmoved { OnErr result (ops.new ≡ ops.old) }
    {
        let pin = ops.pin(r)?;
        let before = exchange(&mut self.pins, at, pin);
        self.refs[at] = r;
        ops.unpin(before);
        Ok(())
    }

    /// Pins `r`, which must be live, in place of what is pinned at this place of the list, whose pin goes to the end of `aside`. An `Err`
    /// is want of memory, as of `hold`.
    pub fn set_aside(
        &mut self,
        ops: &mut Ops,
        at: usize,
        r: Ref,
        aside: &mut PinList,
    ) -> Result<(), AllocError>
        requires at { at < length self.old }
        requires live { IsLive (table ops.old.arena) r }
        ensures only { ops.new ≡ record ops.old { counts = ops.new.counts } }
        ensures listed { OnOk result (self.new ≡ slice_set self.old at r) }
        ensures put_aside { OnOk result (aside.new ≡ aside.old ++ slice_index_or self.old at Ref.Zero ∷ []) }
        ensures same { OnErr result ((self.new ≡ self.old) × (aside.new ≡ aside.old)) }
        ensures moved { Moves ops.old ops.new (self.old ++ aside.old) (self.new ++ aside.new) }
    {
        aside.hold(ops, r)?;
        let last = aside.refs.len() - 1;
        swap_items(&mut self.refs, at, &mut aside.refs, last);
        swap_items(&mut self.pins, at, &mut aside.pins, last);
        Ok(())
    }

    /// Puts the last pin of `aside` at this place of the list, and spends the pin that was there. Takes no memory.
    pub fn take_back(&mut self, ops: &mut Ops, at: usize, aside: &mut PinList)
        requires at { at < length self.old }
        requires some { 0 < length aside.old }
        requires held { AreHeld ops.old self.old }
        ensures only { ops.new ≡ record ops.old { counts = ops.new.counts } }
        ensures back { IsTakenBack self.old aside.old self.new aside.new at }
        ensures moved { Moves ops.old ops.new (self.old ++ aside.old) (self.new ++ aside.new) }
    {
        let pin = aside.take_last();
        self.refs[at] = pin.at();
        let spent = exchange(&mut self.pins, at, pin);
        ops.unpin(spent);
    }

    /// Takes the last pin out of the list.
    fn take_last(&mut self) -> Pin
        requires { 0 < length self.old }
        ensures { self.old ≡ self.new ++ result ∷ [] }
    {
        let _ = self.refs.pop();
        match self.pins.pop() {
            Some(pin) => pin,
            None => unreachable!(),
        }
    }

    /// Spends the pins: each node has one pin less for each time that it is listed. Takes no memory.
    pub fn release(self, ops: &mut Ops)
        requires { AreHeld ops.old self }
        ensures { Unpins ops.old ops.new self }
    {
        let PinList { refs: _, pins } = self;
        let mut pins = pins;
        while let Some(pin) = pins.pop() {
            ops.unpin(pin);
        }
        pins.destroy_empty();
    }

    /// Spends the pins and leaves the nodes pinned. Takes no memory.
    pub fn leave(self) {
        let PinList { refs: _, pins } = self;
        let mut pins = pins;
        while let Some(pin) = pins.pop() {
            pin.leave();
        }
        pins.destroy_empty();
    }
}

/// Puts the pin at that place, and answers the one that was there.
fn exchange(pins: &mut Vec<Pin>, at: usize, pin: Pin) -> Pin
    requires { at < length pins.old.items }
    ensures before { slice_get pins.old.items at ≡ Some result }
    ensures after { pins.new.items ≡ slice_set pins.old.items at pin }
{
    mem::replace(&mut pins[at], pin)
}

/// The items at these places of two lists change places.
fn swap_items<T>(xs: &mut Vec<T>, at: usize, ys: &mut Vec<T>, to: usize)
    requires at { at < length xs.old.items }
    requires to { to < length ys.old.items }
    ensures one { (d : T) → xs.new.items ≡ slice_set xs.old.items at (slice_index_or ys.old.items to d) }
    ensures other { (d : T) → ys.new.items ≡ slice_set ys.old.items to (slice_index_or xs.old.items at d) }
{
    mem::swap(&mut xs[at], &mut ys[to]);
}

/// Pins the ref at the end of the pins.
fn pin_last(pins: &mut Vec<Pin>, ops: &mut Ops, r: Ref) -> Result<(), AllocError>
    requires { IsLive (table ops.old.arena) r }
    ensures only { ops.new ≡ record ops.old { counts = ops.new.counts } }
    ensures listed { OnOk result (pins.new.items ≡ pins.old.items ++ r ∷ []) }
    ensures gained { OnOk result (Gains ops.old ops.new (r ∷ [])) }
    ensures same { OnErr result (pins.new.items ≡ pins.old.items) }
    ensures ungained { OnErr result (Gains ops.old ops.new []) }
{
    let pin = ops.pin(r)?;
    match pins.push(pin) {
        Ok(()) => Ok(()),
        Err(refused) => {
            ops.unpin(refused.value);
            Err(AllocError)
        }
    }
}
