//! Trails.
ghost use Rattle.std.specs.Prelude.{◌≡◌, ℕ, ◌+◌, ◌-◌, ◌^◌, ◌<◌, ◌↔◌, [], IfOk, OnOk};
ghost use Rattle.std.specs.Prelude.{OnErr, IsErr, Some, length, reverse, slice_get};
ghost use Rattle.std.specs.List.{All};
ghost use Rattle.diagram_arena.specs.Table.{IsLive};
ghost use Rattle.diagram_arena.specs.Arena.{table};
ghost use Rattle.node_reclaim.specs.Pool.{Unpins};
ghost use Rattle.node_reclaim.specs.Holders.{Gains, AreHeld};
ghost use Rattle.pin_lists.specs.Units.{Moves};
ghost use Rattle.domain_trail.specs.Trail.{held, newest_first, narrowed, top, IsUndone, IsUndoneTo};

use crate::entries::{Entry, Reason};
use diagram_arena::Ref;
use diagram_ops::Ops;
use pin_lists::PinList;
use set_meaning::VarId;
use std::alloc::{AllocError, Global};
use std::marker::Model;

/// A domain for each variable, and the narrowings that led to them. What it pins cannot be dropped: `release` takes the
/// pins back, and `leave` lets the nodes stay pinned for good. No call asks what the diagrams mean.
pub struct Trail {
    domains: PinList,
    entries: Vec<Entry>,
    befores: PinList,
    level: u32,
}

impl Model for Trail {
    ghost use Rattle.domain_trail.specs.Trail.{TrailState};

    ghost Value = { TrailState };

    ghost use Rattle.domain_trail.specs.Body.{IsKept};

    ghost view = { λ t. record { domains = t.domains; entries = t.entries.items; level = t.level } };

    ghost invariant = { IsKept };
}

impl Trail {
    /// A trail with no entries, at level 0, whose variables have the domains `start`; these must be live. An `Err` is
    /// want of memory; it comes also where a node has 2^64 - 1 pins.
    pub fn new(alloc: Global, ops: &mut Ops, start: &[Ref]) -> Result<Trail, AllocError>
        requires { All (IsLive (table ops.old.arena)) start.now }
        ensures only { ops.new ≡ record ops.old { counts = ops.new.counts } }
        ensures begun { IfOk result (λ t. t ≡ record { domains = start.now; entries = []; level = 0 }) }
        ensures gained { OnOk result (Gains ops.old ops.new start.now) }
        ensures ungained { OnErr result (Gains ops.old ops.new []) }
    {
        let mut domains = PinList::new(alloc);
        match domains.hold_all(ops, start) {
            Ok(()) => Ok(Trail {
                domains,
                entries: Vec::new(alloc),
                befores: PinList::new(alloc),
                level: 0,
            }),
            Err(refused) => {
                domains.release(ops);
                Err(refused)
            }
        }
    }

    /// The domains, by variable. Takes no memory.
    pub fn domains(&self) -> &[Ref]
        ensures { result.now ≡ self.now.domains }
    {
        self.domains.refs()
    }

    /// The level of the next narrowing. Takes no memory.
    pub fn level(&self) -> u32
        ensures { result ≡ self.now.level }
    {
        self.level
    }

    /// The number of entries. Takes no memory.
    pub fn len(&self) -> usize
        ensures { result ≡ length self.now.entries }
    {
        self.entries.len()
    }

    /// The entry at this place, which is below the number of entries, from the oldest on. Takes no memory.
    pub fn entry(&self, i: usize) -> Entry
        requires { i < length self.now.entries }
        ensures { slice_get self.now.entries i ≡ Some result }
    {
        self.entries[i]
    }

    /// Gives `v` the domain `to`, which must be live, and adds an entry at the present level with its domain from
    /// before. An `Err` is want of memory; it comes also where the node has 2^64 - 1 pins.
    pub fn narrow(
        &mut self,
        ops: &mut Ops,
        v: VarId,
        to: Ref,
        reason: Reason,
    ) -> Result<(), AllocError>
        requires known { v.0 < length self.old.domains }
        requires live { IsLive (table ops.old.arena) to }
        ensures only { ops.new ≡ record ops.old { counts = ops.new.counts } }
        ensures narrowed { OnOk result (self.new ≡ narrowed self.old v to reason) }
        ensures same { OnErr result (self.new ≡ self.old) }
        ensures moved { Moves ops.old ops.new (held self.old) (held self.new) }
    {
        let at = v.0 as usize;
        let before = self.domains.refs()[at];
        self.entries.push(Entry {
            var: v,
            before,
            reason,
            level: self.level,
        })?;
        match self.domains.set_aside(ops, at, to, &mut self.befores) {
            Ok(()) => Ok(()),
            Err(refused) => {
                let _ = self.entries.pop();
                Err(refused)
            }
        }
    }

    /// Begins a level: the entries to come are of it. An `Err` is want of numbers: the level was 2^32 - 1. Takes no
    /// memory.
    pub fn new_level(&mut self) -> Result<(), AllocError>
        ensures raised { OnOk result (self.new ≡ record self.old { level = self.old.level + 1 }) }
        ensures most { IsErr result ↔ self.old.level ≡ 2 ^ 32 - 1 }
        ensures same { OnErr result (self.new ≡ self.old) }
    {
        match self.level.checked_add(1) {
            Some(level) => {
                self.level = level;
                Ok(())
            }
            None => Err(AllocError),
        }
    }

    /// Takes back the newest entry, of which there must be one. Takes no memory.
    pub fn undo_one(&mut self, ops: &mut Ops)
        requires some { 0 < length self.old.entries }
        requires held { AreHeld ops.old (held self.old) }
        ensures only { ops.new ≡ record ops.old { counts = ops.new.counts } }
        ensures undone { IsUndone self.old self.new }
        ensures moved { Moves ops.old ops.new (held self.old) (held self.new) }
    {
        match self.entries.pop() {
            Some(entry) => {
                let at = entry.var.0 as usize;
                self.domains.take_back(ops, at, &mut self.befores);
                self.level = last_level(&self.entries);
            }
            None => unreachable!(),
        }
    }

    /// Takes back all entries above this level, the newest first. The level is then that of the entry newest now, or 0.
    /// Takes no memory.
    pub fn undo_to(&mut self, ops: &mut Ops, level: u32)
        requires { AreHeld ops.old (held self.old) }
        ensures only { ops.new ≡ record ops.old { counts = ops.new.counts } }
        ensures undone { IsUndoneTo level self.old self.new }
        ensures moved { Moves ops.old ops.new (held self.old) (held self.new) }
    {
        while self.newest_level() > level {
            self.undo_one(ops);
        }
        self.fall_to_newest();
    }

    /// The level of the newest entry, 0 where there is none.
    fn newest_level(&self) -> u32
        ensures { result ≡ top (newest_first self.now) }
    {
        last_level(&self.entries)
    }

    /// Goes to the level of the newest entry.
    fn fall_to_newest(&mut self)
        ensures { self.new ≡ record self.old { level = top (newest_first self.old) } }
    {
        self.level = last_level(&self.entries);
    }

    /// Takes the pins back. Takes no memory.
    pub fn release(self, ops: &mut Ops)
        requires { AreHeld ops.old (held self) }
        ensures { Unpins ops.old ops.new (held self) }
    {
        let Trail {
            domains,
            entries: _,
            befores,
            level: _,
        } = self;
        domains.release(ops);
        befores.release(ops);
    }

    /// Leaves the nodes pinned. Takes no memory.
    pub fn leave(self) {
        let Trail {
            domains,
            entries: _,
            befores,
            level: _,
        } = self;
        domains.leave();
        befores.leave();
    }
}

/// The level of the last entry, 0 where there is none.
fn last_level(entries: &[Entry]) -> u32
    ensures { result ≡ top (reverse entries.now) }
{
    match entries.last() {
        Some(entry) => entry.level,
        None => 0,
    }
}
