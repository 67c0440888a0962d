//! The pool: an arena, and a count of pins for each of its nodes.
ghost use Rattle.std.specs.Prelude.{◌≡◌, ◌+◌, ◌-◌, ◌^◌, ◌<◌, ◌≤◌, ◌↔◌, [], ◌∷◌, ◌++◌, replicate, min, IfOk, OnOk, OnErr, IsErr};
ghost use Rattle.std.specs.FinMap as map;
ghost use Rattle.diagram_arena.specs.declared.nodes.NodeId.{NodeId};
ghost use Rattle.diagram_arena.specs.declared.nodes.Node.{Node};
ghost use Rattle.diagram_arena.specs.Table.{IsLive, IsReduced};
ghost use Rattle.diagram_arena.specs.Arena.{most_nodes, table, CanMake, IsNeeded, IsMade, KeepsNodes, NewAreUntagged, Grows, Joins, ChangesNode};
ghost use Rattle.node_reclaim.specs.Reclaim.{Reclaims};
ghost use Rattle.node_reclaim.specs.Pool.{node_count, pins_of, times, Pins, Unpins, IsPinned, pinned_refs};

use crate::marking::mark_counted;
use diagram_arena::{Arena, NodeId, Ref, Stop};
use std::alloc::{AllocError, Global};
use std::collections::BTreeMap;
use std::marker::Model;

/// A claim on a ref: as long as its node is pinned, it stays. A pin cannot be dropped. It is spent by
/// `Pool::unpin`, or by `leave`, which lets the node stay pinned.
pub struct Pin {
    at: Ref,
}

impl Model for Pin {
    ghost use Rattle.diagram_arena.specs.declared.nodes.Ref.{Ref};

    ghost Value = { Ref };

    ghost view = { λ p. p.at };
}

impl Pin {
    /// The ref that is pinned.
    pub fn at(&self) -> Ref
        ensures { result ≡ self.now }
    {
        self.at
    }

    /// Spends the pin and leaves its node pinned for good.
    pub fn leave(self) -> Ref
        ensures { result ≡ self }
    {
        let Pin { at } = self;
        at
    }
}

/// An arena whose nodes are pinned, each up to 2^64 - 1 times. It counts the units of work begun and the nodes made since nodes were last
/// reclaimed.
#[derive(Drop)]
pub struct Pool {
    arena: Arena,
    pins: BTreeMap<NodeId, u64>,
    units: u64,
    made: u64,
}

impl Model for Pool {
    ghost use Rattle.node_reclaim.specs.Pool.{PoolState, pool_code};

    ghost Value = { PoolState };

    ghost coded = { pool_code };

    ghost use Rattle.node_reclaim.specs.Body.{pool, IsPool};

    ghost view = { pool };

    ghost invariant = { λ a. IsPool (pool a) };
}

impl Pool {
    /// A pool with no nodes, that will hold at most `limit` nodes: 1 to `MAX_LIMIT`. It takes no memory.
    pub fn new(alloc: Global, limit: u32) -> Pool
        requires some { 0 < limit }
        requires most { limit ≤ most_nodes }
        ensures empty { result.arena ≡ record { nodes = map.empty; limit = limit } }
        ensures unpinned { result.counts ≡ map.empty }
        ensures units { result.units ≡ 0 }
        ensures made { result.made ≡ 0 }
    {
        Pool {
            arena: Arena::new(alloc, limit),
            pins: BTreeMap::new(alloc),
            units: 0,
            made: 0,
        }
    }

    /// The nodes.
    pub fn arena(&self) -> &Arena
        ensures arena { result.now ≡ self.now.arena }
        ensures reduced { IsReduced (table self.now.arena) }
        ensures pinned_live { (i : NodeId) → 0 < pins_of self.now i → IsLive (table self.now.arena) (Ref.Node i) }
        ensures made { self.now.made ≤ node_count self.now }
    {
        &self.arena
    }

    /// The ref of the words in `hi` whose `bit` is true and those in `lo` whose `bit` is false, as
    /// `Arena::make`. A new node has no pin.
    pub fn make(&mut self, bit: u32, lo: Ref, hi: Ref) -> Result<Ref, Stop>
        requires { CanMake (table self.old.arena) bit lo hi }

        // What is answered, and why it is refused.
        ensures made { IfOk result (IsMade self.old.arena self.new.arena bit lo hi) }
        ensures full { (result ≡ Err Stop.Full) ↔ (IsNeeded (table self.old.arena) bit lo hi × (map.len self.old.arena.nodes ≡ self.old.arena.limit)) }
        ensures needed { OnErr result (IsNeeded (table self.old.arena) bit lo hi) }
        ensures err { OnErr result (self.new ≡ self.old) }
        ensures keeps { KeepsNodes self.old.arena self.new.arena }
        ensures untagged { NewAreUntagged self.old.arena self.new.arena }

        // What it means.
        ensures joins { IfOk result (Joins (table self.old.arena) (table self.new.arena) bit lo hi) }
        ensures only_new { (i : NodeId) → table self.old.arena i ≡ None → IsLive (table self.new.arena) (Ref.Node i) → result ≡ Ok (Ref.Node i) }
        ensures grows { Grows (table self.old.arena) (table self.new.arena) }
        ensures reduced { IsReduced (table self.new.arena) }
        ensures limit { self.new.arena.limit ≡ self.old.arena.limit }
        ensures counts { self.new.counts ≡ self.old.counts }
        ensures unpinned { (i : NodeId) → table self.old.arena i ≡ None → pins_of self.new i ≡ 0 }
        ensures units_kept { self.new.units ≡ self.old.units }
        ensures made_counted { self.new.made + node_count self.old ≡ self.old.made + node_count self.new }
    {
        let before = self.arena.len();
        let answer = self.arena.make(bit, lo, hi);
        let after = self.arena.len();
        self.made += u64::from(after - before);
        answer
    }

    /// Begins a unit of work: what is done between two reclamations is told by units. The count of units stops rising at 2^64 - 1.
    pub fn begin_unit(&mut self)
        ensures units { self.new.units ≡ min (self.old.units + 1) (2 ^ 64 - 1) }
        ensures only { self.new ≡ record self.old { units = self.new.units } }
    {
        self.units = self.units.saturating_add(1);
    }

    /// How many units were begun since nodes were last reclaimed, 2^64 - 1 where they were more.
    pub fn units_since(&self) -> u64
        ensures { result ≡ self.now.units }
    {
        self.units
    }

    /// How many nodes were made since nodes were last reclaimed.
    pub fn made_since(&self) -> u64
        ensures value { result ≡ self.now.made }
        ensures within { self.now.made ≤ node_count self.now }
    {
        self.made
    }

    /// A pin of `r`, which must be live. A pin of Zero or One is counted nowhere. Where the node has 2^64 - 1 pins, the
    /// answer is want of memory.
    pub fn pin(&mut self, r: Ref) -> Result<Pin, AllocError>
        requires { IsLive (table self.old.arena) r }
        ensures at { IfOk result (λ p. p ≡ r) }
        ensures pinned { OnOk result (Pins self.old self.new (r ∷ [])) }
        ensures most { (i : NodeId) → r ≡ Ref.Node i → pins_of self.old i ≡ 2 ^ 64 - 1 → IsErr result }
        ensures err { OnErr result (self.new ≡ self.old) }
    {
        match r {
            Ref::Zero => Ok(Pin { at: r }),
            Ref::One => Ok(Pin { at: r }),
            Ref::Node(id) => {
                self.count_up(id)?;
                Ok(Pin { at: r })
            }
        }
    }

    /// Spends a pin, whose node must have a pin in this pool: it has one pin less.
    pub fn unpin(&mut self, pin: Pin)
        requires { IsPinned self.old pin }
        ensures { Unpins self.old self.new (pin ∷ []) }
    {
        match pin.leave() {
            Ref::Zero => {}
            Ref::One => {}
            Ref::Node(id) => self.count_down(id),
        }
    }

    fn pins_of(&self, id: NodeId) -> u64
        ensures { result ≡ pins_of self.now id }
    {
        self.pins.get(&id).copied().unwrap_or(0)
    }

    fn count_up(&mut self, id: NodeId) -> Result<(), AllocError>
        requires { IsLive (table self.old.arena) (Ref.Node id) }
        ensures ok { OnOk result (Pins self.old self.new (Ref.Node id ∷ [])) }
        ensures most { pins_of self.old id ≡ 2 ^ 64 - 1 → IsErr result }
        ensures err { OnErr result (self.new ≡ self.old) }
    {
        match self.pins_of(id).checked_add(1) {
            Some(count) => {
                self.pins.insert(id, count)?;
                Ok(())
            }
            None => Err(AllocError),
        }
    }

    fn count_down(&mut self, id: NodeId)
        requires { 0 < pins_of self.old id }
        ensures { Unpins self.old self.new (Ref.Node id ∷ []) }
    {
        let left = self.pins_of(id) - 1;
        if left == 0 {
            self.pins.remove(&id);
        } else if let Some(count) = self.pins.get_mut(&id) {
            *count = left;
        }
    }

    /// Removes every node that no pin reaches, and begins the counts of units and of made nodes again. What is kept
    /// has its bit, its children, its tag and its pins, and no mark. The id of a removed node may be given to a later
    /// one, whose tag is 0. It takes no memory, and time linear in the most nodes that there were; it recurs as deep
    /// as the longest path of bits.
    pub fn reclaim(&mut self)
        ensures { Reclaims self.old self.new }
    {
        self.arena.clear_marks();
        mark_counted(&mut self.arena, &self.pins);
        self.arena.drop_unmarked();
        self.arena.clear_marks();
        self.units = 0;
        self.made = 0;
    }

    /// Gives the node under `id` this tag.
    pub fn set_tag(&mut self, id: NodeId, tag: u64)
        requires { IsLive (table self.old.arena) (Ref.Node id) }
        ensures tagged { ChangesNode self.old.arena self.new.arena id (λ (n : Node). record n { tag = tag }) }
        ensures table { table self.new.arena ≡ table self.old.arena }
        ensures only { self.new ≡ record self.old { arena = self.new.arena } }
    {
        self.arena.set_tag(id, tag);
    }

    /// The pinned nodes, ids ascending, each once for each of its pins.
    pub fn pinned(&self, alloc: Global) -> Result<Vec<Ref>, AllocError>
        ensures listed { IfOk result (λ rs. rs.items ≡ pinned_refs self.now) }
        ensures each { IfOk result (λ rs. (i : NodeId) → times i rs.items ≡ pins_of self.now i) }
    {
        let mut refs = Vec::new(alloc);
        for (id, count) in &self.pins {
            push_times(&mut refs, Ref::Node(*id), *count)?;
        }
        Ok(refs)
    }
}

fn push_times(refs: &mut Vec<Ref>, r: Ref, count: u64) -> Result<(), AllocError>
    ensures { OnOk result (refs.new.items ≡ refs.old.items ++ replicate count r) }
{
    for _ in 0..count {
        refs.push(r)?;
    }
    Ok(())
}
