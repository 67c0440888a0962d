//! Lines of nodes, which are built before they are written.
ghost use Rattle.std.specs.Prelude.{◌≡◌, ◌+◌, ◌++◌, [], Some, IfOk, OnErr};
ghost use Rattle.diagram_arena.specs.Table.{IsLive};
ghost use Rattle.diagram_arena.specs.Arena.{table, tag_of, triple_of, Stands};
ghost use Rattle.log_text.specs.Spelling.{HasSpelling};
ghost use Rattle.refute_log.specs.Lines.{node_line, line_text};
ghost use Rattle.refute_log.specs.Naming.{IsOfOneVariable};
ghost use Rattle.refute_log.specs.Batches.{Numbers, Builds};

use bit_layout::Layout;
use diagram_arena::{Node, NodeId, Ref};
use diagram_ops::Ops;
use log_text::{Line, write_line};
use std::alloc::{AllocError, Global};
use std::marker::Model;

/// The largest number in a line.
pub(crate) const MAX_NUMBER: u64 = 1 << 40;

/// Lines of nodes, and the number of the next node.
#[derive(Drop)]
pub(crate) struct Batch {
    next: u64,
    text: Vec<u8>,
}

impl Model for Batch {
    ghost use Rattle.refute_log.specs.Batches.{BatchState};

    ghost Value = { BatchState };

    ghost view = { λ b. record { next = b.next; text = b.text.items } };
}

impl Batch {
    /// No lines yet. Takes no memory.
    pub(crate) fn new(alloc: Global, next: u64) -> Batch
        ensures { result ≡ record { next = next; text = [] } }
    {
        Batch {
            next,
            text: Vec::new(alloc),
        }
    }

    /// The number of the next node.
    pub(crate) fn next(&self) -> u64
        ensures { result ≡ self.now.next }
    {
        self.next
    }

    /// The bytes of the lines.
    pub(crate) fn text(&self) -> &[u8]
        ensures { result.now ≡ self.now.text }
    {
        self.text.as_slice()
    }

    /// Builds the line of a node, and answers its number. A line with a number past 2^40 has no spelling: the answer is
    /// want of memory.
    fn push(&mut self, place: u32, lo: u64, hi: u64) -> Result<u64, AllocError>
        ensures number { IfOk result (λ n. n ≡ self.old.next) }
        ensures spelled { IfOk result (λ n. HasSpelling
            (node_line n (record { place = place; lo = lo; hi = hi }))) }
        ensures text { IfOk result (λ n. self.new.text ≡ self.old.text ++ line_text
            (node_line n (record { place = place; lo = lo; hi = hi }))) }
        ensures next { IfOk result (λ n. self.new.next ≡ n + 1) }
        ensures err { OnErr result (self.new ≡ self.old) }
    {
        let number = self.next;
        if number > MAX_NUMBER {
            return Err(AllocError);
        }
        if lo > MAX_NUMBER {
            return Err(AllocError);
        }
        if hi > MAX_NUMBER {
            return Err(AllocError);
        }
        let line = Line::Node {
            number,
            place: u64::from(place),
            lo,
            hi,
        };
        write_line(&line, &mut self.text)?;
        self.next = number + 1;
        Ok(number)
    }

    /// Builds the lines of the nodes under `r` that have none, each after those of its children, and gives the nodes
    /// the numbers of their lines as tags. Answers the number of `r`. It recurs as deep as the bits of the variable.
    pub(crate) fn number_below(
        &mut self,
        ops: &mut Ops,
        layout: &Layout,
        r: Ref,
    ) -> Result<u64, AllocError>
        requires live { IsLive (table ops.old.arena) r }
        requires one { IsOfOneVariable layout.now (table ops.old.arena) r }
        ensures { Numbers layout.now ops.old ops.new self.old self.new r result }
    {
        match r {
            Ref::Zero => Ok(0),
            Ref::One => Ok(1),
            Ref::Node(id) => {
                let tag = tag_of(ops, id);
                if tag > 0 {
                    return Ok(tag);
                }
                let node = node_of(ops, id);
                let lo = self.number_below(ops, layout, node.lo)?;
                let hi = self.number_below(ops, layout, node.hi)?;
                self.number_node(ops, layout, id, lo, hi)
            }
        }
    }

    /// Builds the line of a node whose children have these numbers, and gives the node the number of its line as tag.
    fn number_node(
        &mut self,
        ops: &mut Ops,
        layout: &Layout,
        id: NodeId,
        lo: u64,
        hi: u64,
    ) -> Result<u64, AllocError>
        requires live { IsLive (table ops.old.arena) (Ref.Node id) }
        requires one { IsOfOneVariable layout.now (table ops.old.arena) (Ref.Node id) }
        ensures { Builds layout.now ops.old ops.new self.old self.new id lo hi result }
    {
        layout.obeys_order();
        let node = node_of(ops, id);
        let (_, position) = layout.place(node.bit);
        let number = self.push(position, lo, hi)?;
        ops.set_tag(id, number);
        Ok(number)
    }
}

/// The tag of a node that is there.
fn tag_of(ops: &Ops, id: NodeId) -> u64
    requires { IsLive (table ops.now.arena) (Ref.Node id) }
    ensures { tag_of ops.now.arena id ≡ Some result }
{
    ops.pool().arena().tag(id)
}

/// A node that is there.
fn node_of(ops: &Ops, id: NodeId) -> Node
    requires { IsLive (table ops.now.arena) (Ref.Node id) }
    ensures { Stands (table ops.now.arena) id (triple_of result) }
{
    *ops.pool().arena().node(id)
}
