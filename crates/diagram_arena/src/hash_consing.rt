//! The arena: each node is made once, and found again by its bit and its children.
ghost use Rattle.std.specs.Prelude.{◌≡◌, ◌≢◌, ◌<◌, ◌≤◌, ◌↔◌, IsTrue, IfOk, OnErr, IfSome, IfNone, IsSome, refl};
ghost use Rattle.std.specs.Option.{option_map};
ghost use Rattle.std.specs.FinMap as map;
ghost use Rattle.diagram_arena.specs.declared.nodes.NodeId.{NodeId};
ghost use Rattle.diagram_arena.specs.declared.nodes.Node.{Node};
ghost use Rattle.diagram_arena.specs.Table.{Word, has, IsLive, IsReduced};
ghost use Rattle.diagram_arena.specs.Reach.{Bits, ReachesOnly, DependsOn};
ghost use Rattle.diagram_arena.specs.Arena.{most_nodes, table, tag_of, triple_of, CanMake, IsNeeded, AddsNode, IsMade, KeepsNodes, NewAreUntagged, Grows, Joins, Stands, ChangesNode, MarksReachDown, unmarked, if_marked};
ghost use Rattle.diagram_arena.specs.Body.{marked_at};

use crate::nodes::{Node, NodeId, Ref, Stop, Triple};
use slab::Slab;
use std::alloc::Global;
use std::collections::HashMap;
use std::marker::Model;

/// The greatest limit that an arena may have: `most_nodes` of the contracts.
pub const MAX_LIMIT: u32 = 20_000_000;

/// The nodes of ordered, reduced decision diagrams: a bit is greater than those above it, the children
/// of a node differ, and no two nodes have the same bit and children. So two refs are equal exactly
/// where they denote the same set of words.
#[derive(Drop)]
pub struct Arena {
    nodes: Slab<Node>,
    ids: HashMap<Triple, NodeId>,
    limit: u32,
}

impl Model for Arena {
    ghost use Rattle.diagram_arena.specs.Arena.{ArenaState, arena_code};

    ghost Value = { ArenaState };

    ghost coded = { arena_code };

    ghost use Rattle.diagram_arena.specs.Body.{state, IsArena};

    ghost view = { state };

    ghost invariant = { IsArena };
}

impl Arena {
    /// An arena with no nodes, that will hold at most `limit` nodes: 1 to `MAX_LIMIT`. It takes no memory.
    pub fn new(alloc: Global, limit: u32) -> Arena
        requires some { 0 < limit }
        requires most { limit ≤ most_nodes }
        ensures empty { result ≡ record { nodes = map.empty; limit = limit } }
        ensures reduced { IsReduced (table result) }
    {
        Arena {
            nodes: Slab::new(alloc),
            ids: HashMap::new(alloc),
            limit,
        }
    }

    /// The ref of the words in `hi` whose `bit` is true and those in `lo` whose `bit` is false: an
    /// equal child, a node that is there, or a new node with tag 0. Both children must be there and
    /// ask only greater bits. Full comes exactly where a new node is needed and there are `limit`
    /// nodes; otherwise a new node may want memory. After either nothing has changed.
    pub fn make(&mut self, bit: u32, lo: Ref, hi: Ref) -> Result<Ref, Stop>
        requires { CanMake (table self.old) bit lo hi }

        // What is answered, and why it is refused.
        ensures made { IfOk result (IsMade self.old self.new bit lo hi) }
        ensures full { (result ≡ Err Stop.Full) ↔ (IsNeeded (table self.old) bit lo hi × (map.len self.old.nodes ≡ self.old.limit)) }
        ensures needed { OnErr result (IsNeeded (table self.old) bit lo hi) }
        ensures err { OnErr result (self.new ≡ self.old) }
        ensures keeps { KeepsNodes self.old self.new }
        ensures untagged { NewAreUntagged self.old self.new }

        // What it means.
        ensures joins { IfOk result (Joins (table self.old) (table self.new) bit lo hi) }
        ensures only_new { (i : NodeId) → table self.old i ≡ None → IsLive (table self.new) (Ref.Node i) → result ≡ Ok (Ref.Node i) }
        ensures grows { Grows (table self.old) (table self.new) }
        ensures reduced { IsReduced (table self.new) }
        ensures limit { self.new.limit ≡ self.old.limit }
        ensures rises { map.len self.old.nodes ≤ map.len self.new.nodes }
        ensures within { map.len self.new.nodes ≤ self.new.limit }
    {
        // What is known of the table.
        let _ = self.len();
        if is_same(lo, hi) {
            return Ok(lo);
        }
        match self.find(Triple { bit, lo, hi }) {
            Some(id) => Ok(Ref::Node(id)),
            None => self.add(Triple { bit, lo, hi }),
        }
    }

    /// The id of the node with this bit and these children.
    fn find(&self, triple: Triple) -> Option<NodeId>
        ensures found { IfSome result (λ i. table self.now i ≡ Some triple) }
        ensures absent { IfNone result ((i : NodeId) → table self.now i ≢ Some triple) }
        ensures reduced { IsReduced (table self.now) }
    {
        self.ids.get(&triple).copied()
    }

    /// A new node with this bit and these children.
    fn add(&mut self, triple: Triple) -> Result<Ref, Stop>
        requires can { CanMake (table self.old) triple.bit triple.lo triple.hi }
        requires needed { IsNeeded (table self.old) triple.bit triple.lo triple.hi }
        ensures added { IfOk result (λ r. (i : NodeId) × (r ≡ Ref.Node i) × AddsNode self.old self.new triple.bit triple.lo triple.hi i) }
        ensures full { (result ≡ Err Stop.Full) ↔ (map.len self.old.nodes ≡ self.old.limit) }
        ensures err { OnErr result (self.new ≡ self.old) }
        ensures rises { map.len self.old.nodes ≤ map.len self.new.nodes }
        ensures within { map.len self.new.nodes ≤ self.new.limit }
    {
        if self.len() == self.limit {
            return Err(Stop::Full);
        }
        self.nodes.reserve(1)?;
        let id = match NodeId::of_key(self.nodes.vacant_key()) {
            Some(id) => id,
            None => return Err(Stop::Memory),
        };
        match self.ids.insert(triple, id) {
            Ok(_) => {}
            Err(_) => return Err(Stop::Memory),
        }
        self.nodes.insert_reserved(Node::new(triple));
        Ok(Ref::Node(id))
    }

    /// The node under `id`.
    pub fn node(&self, id: NodeId) -> &Node
        requires { IsLive (table self.now) (Ref.Node id) }
        ensures found { map.get self.now.nodes id ≡ Some result.now }
        ensures stands { Stands (table self.now) id (triple_of result.now) }
        ensures reduced { IsReduced (table self.now) }
    {
        &self.nodes[id.key()]
    }

    /// How many nodes there are.
    pub fn len(&self) -> u32
        ensures value { result ≡ map.len self.now.nodes }
        ensures within { map.len self.now.nodes ≤ self.now.limit }
        ensures reduced { IsReduced (table self.now) }
    {
        self.nodes.len() as u32
    }

    /// Whether there are no nodes.
    pub fn is_empty(&self) -> bool
        ensures { IsTrue result ↔ (map.len self.now.nodes ≡ 0) }
    {
        self.nodes.is_empty()
    }

    /// How many nodes there may be.
    pub fn limit(&self) -> u32
        ensures value { result ≡ self.now.limit }
        ensures some { 0 < self.now.limit }
        ensures most { self.now.limit ≤ most_nodes }
    {
        self.limit
    }

    /// Whether `r` is Zero, One or a node of this arena.
    pub fn is_live(&self, r: Ref) -> bool
        ensures { IsTrue result ↔ IsLive (table self.now) r }
    {
        match r {
            Ref::Zero => true,
            Ref::One => true,
            Ref::Node(id) => self.nodes.contains(id.key()),
        }
    }

    /// Whether `f` and `g` denote the same words: exactly where they are one ref, so nothing is walked
    /// (Bryant, IEEE Transactions on Computers, 1986).
    pub fn have_same_words(&self, f: Ref, g: Ref) -> bool
        requires f_live { IsLive (table self.now) f }
        requires g_live { IsLive (table self.now) g }
        ensures words { IsTrue result ↔ ((w : Word) → has (table self.now) f w ≡ has (table self.now) g w) }
        ensures refs { IsTrue result ↔ (f ≡ g) }
    {
        // What is known of the table.
        let _ = &self.ids;
        is_same(f, g)
    }

    /// That a ref reaches only bits on which its words depend, and that its words depend only on bits
    /// that it reaches.
    pub fn reaches_what_words_depend_on(&self, r: Ref)
        requires { IsLive (table self.now) r }
        ensures { (bits : Bits) → ReachesOnly (table self.now) bits r ↔ DependsOn bits (has (table self.now) r) }
    {
        // What is known of the table.
        let _ = &self.ids;
        let _ = r;
    }

    /// The tag of the node under `id`: 0 until it is set.
    pub fn tag(&self, id: NodeId) -> u64
        requires { IsLive (table self.now) (Ref.Node id) }
        ensures { tag_of self.now id ≡ Some result }
    {
        self.nodes[id.key()].tag
    }

    /// Gives the node under `id` this tag.
    pub fn set_tag(&mut self, id: NodeId, tag: u64)
        requires { IsLive (table self.old) (Ref.Node id) }
        ensures tagged { ChangesNode self.old self.new id (λ (n : Node). record n { tag = tag }) }
        ensures table { table self.new ≡ table self.old }
        ensures count { map.len self.new.nodes ≡ map.len self.old.nodes }
    {
        let tagged = &mut self.nodes[id.key()];
        tagged.tag = tag;
    }

    /// Sets or clears the mark of the node under `id`.
    pub fn set_mark(&mut self, id: NodeId, mark: bool)
        requires { IsLive (table self.old) (Ref.Node id) }
        ensures marked { ChangesNode self.old self.new id (λ (n : Node). record n { mark = mark }) }
        ensures table { table self.new ≡ table self.old }
        ensures count { map.len self.new.nodes ≡ map.len self.old.nodes }
    {
        let marked = &mut self.nodes[id.key()];
        marked.mark = mark;
    }

    /// Clears the mark of every node, in time linear in the most nodes that there were.
    pub fn clear_marks(&mut self)
        ensures cleared { (i : NodeId) → map.get self.new.nodes i ≡ option_map unmarked (map.get self.old.nodes i) }
        ensures table { table self.new ≡ table self.old }
        ensures count { map.len self.new.nodes ≡ map.len self.old.nodes }
        ensures limit { self.new.limit ≡ self.old.limit }
    {
        self.nodes.retain(|_, node| {
            node.mark = false;
            true
        });
    }

    /// Removes every node that has no mark, in time linear in the most nodes that there were. The children of
    /// a marked node must be marked. The id of a removed node may be given to a later one.
    pub fn drop_unmarked(&mut self)
        requires { MarksReachDown self.old }
        ensures kept { (i : NodeId) → map.get self.new.nodes i ≡ if_marked (map.get self.old.nodes i) }
        ensures limit { self.new.limit ≡ self.old.limit }
        ensures reduced { IsReduced (table self.new) }
        ensures meaning { Grows (table self.new) (table self.old) }
    {
        let nodes = &self.nodes;
        self.ids.retain(|_, id| is_marked(nodes, *id));
        self.nodes.retain(|_, node| node.mark);
    }
}

fn is_marked(nodes: &Slab<Node>, id: NodeId) -> bool
    ensures { result ≡ marked_at nodes.now.slots id.0 }
{
    match nodes.get(id.key()) {
        Some(node) => node.mark,
        None => false,
    }
}

fn is_same(a: Ref, b: Ref) -> bool
    ensures { IsTrue result ↔ (a ≡ b) }
{
    a == b
}
