//! The table of nodes.
ghost use Rattle.std.specs.Prelude.{◌≡◌, ◌∷◌, [], ◌++◌, ◌<◌, ℕ, length, slice_index_or, IfOk, OnOk, OnErr, IfSome, IfNone};
ghost use Rattle.std.specs.Option.{option_map};
ghost use Rattle.log_rules.specs.Tables.{node_at, next_node, child, walk, IsNext, IsTable, Tests};
ghost use Rattle.sweep_table.specs.Depths.{IsDeepest, IsDepthOver};

use log_rules::Node;
use std::alloc::{AllocError, Global};
use std::marker::Model;

/// The nodes that a log has written out, each over earlier ones. Contracts see them as a list; the first is node 2.
#[derive(Drop)]
pub struct Table {
    entries: Vec<Entry>,
}

/// A node, and the latest place that is tested from it on.
#[derive(Clone, Copy)]
pub(crate) struct Entry {
    node: Node,
    depth: u64,
}

impl Model for Table {
    ghost use Rattle.std.specs.Prelude.{List};
    ghost use Rattle.log_rules.specs.declared.nodes.Node.{Node};

    ghost Value = { List Node };

    ghost use Rattle.sweep_table.specs.Depths.{nodes_of, IsKept};

    ghost view = { nodes_of };

    ghost invariant = { IsKept };
}

impl Table {
    /// A table without nodes. Takes no memory.
    pub fn new(alloc: Global) -> Table
        ensures { result ≡ [] }
    {
        Table {
            entries: Vec::new(alloc),
        }
    }

    /// Does nothing. Its contract is what holds of every table.
    pub fn obeys_rules(&self)
        ensures { IsTable self.now }
    {
        // What is known of the table.
        let _ = &self.entries;
    }

    /// Appends a node that tests bit `place` of a word, counted from 0, and leads to `lo` where the bit is false and to `hi` where it is
    /// true; gives its number. Both children must be earlier nodes, 0 or 1, and test later places. An `Err` is want of memory.
    pub fn add(&mut self, place: u64, lo: u64, hi: u64) -> Result<u64, AllocError>
        requires { IsNext self.old (record { place = place; lo = lo; hi = hi }) }
        ensures added { OnOk result (self.new ≡ self.old ++ record { place = place; lo = lo; hi = hi } ∷ []) }
        ensures number { IfOk result (λ number. number ≡ next_node self.old) }
        ensures same { OnErr result (self.new ≡ self.old) }
    {
        let number = self.len() + 2;
        let depth = self.depth_over(place, lo, hi);
        let node = Node { place, lo, hi };
        self.entries.push(Entry { node, depth })?;
        Ok(number)
    }

    /// How many nodes were added; 0 and 1 are none of them. Takes no memory, and constant time.
    pub fn len(&self) -> u64
        ensures { result ≡ length self.now }
    {
        self.entries.len() as u64
    }

    /// The node of this number; None for 0 and 1, and for numbers that are not there. Takes no memory, and constant time.
    pub fn node(&self, n: u64) -> Option<Node>
        ensures { result ≡ node_at self.now n }
    {
        if n < 2 {
            return None;
        }
        self.entries.get((n - 2) as usize).map(|entry| entry.node)
    }

    /// The bit that the node tests; None where there is no such node. Takes no memory, and constant time.
    pub fn place_of(&self, n: u64) -> Option<u64>
        ensures { result ≡ option_map (λ node. node.place) (node_at self.now n) }
    {
        self.node(n).map(|node| node.place)
    }

    /// The latest place that is tested from node `n` on; None for 0 and 1. Takes no memory, and constant time.
    pub fn deepest(&self, n: u64) -> Option<u64>
        requires { n < next_node self.now }
        ensures some { IfSome result (IsDeepest self.now n) }
        ensures none { IfNone result ((place : ℕ) → Tests self.now n place → ⊥) }
    {
        if n < 2 {
            return None;
        }
        let entry = entry_at(self.entries.as_slice(), (n - 2) as usize);
        Some(entry.depth)
    }

    /// The latest place that is tested from a node over these children on.
    fn depth_over(&self, place: u64, lo: u64, hi: u64) -> u64
        requires lo { lo < next_node self.now }
        requires hi { hi < next_node self.now }
        ensures { IsDepthOver self.now (record { place = place; lo = lo; hi = hi }) result }
    {
        let lo = self.deepest(lo).unwrap_or(0);
        let hi = self.deepest(hi).unwrap_or(0);
        place.max(lo).max(hi)
    }

    /// Whether the walk of the word from node `n` ends in node 1. Bits beyond the word are false. Takes no memory, and a step a node of
    /// the walk.
    pub fn walk(&self, n: u64, word: &[bool]) -> bool
        ensures { result ≡ walk self.now n word.now }
    {
        self.obeys_rules();
        let mut at = n;
        'nodes: loop {
            match self.node(at) {
                Some(node) => at = child(node, word),
                None => return at == 1,
            }
        }
    }
}

/// The child to which the word leads.
fn child(node: Node, word: &[bool]) -> u64
    ensures { result ≡ child node word.now }
{
    let bit = word.get(node.place as usize).copied().unwrap_or(false);
    if bit { node.hi } else { node.lo }
}

fn entry_at(entries: &[Entry], i: usize) -> Entry
    requires { i < length entries.now }
    ensures { result ≡ slice_index_or entries.now i result }
{
    entries[i]
}
