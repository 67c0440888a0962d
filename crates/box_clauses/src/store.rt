//! The store of boxes.
ghost use Rattle.std.specs.Prelude.{◌≡◌, ◌≢◌, ◌<◌, ◌-◌, ◌^◌, ◌↔◌, [], ◌∷◌, ◌++◌, IsTrue, IfOk};
ghost use Rattle.std.specs.Prelude.{IfErr, OnOk, OnErr, IsSomeAnd, length, Contains};
ghost use Rattle.node_reclaim.specs.Pool.{Unpins};
ghost use Rattle.node_reclaim.specs.Holders.{AreHeld};
ghost use Rattle.box_clauses.specs.declared.store.StoredBox.{StoredBox as AnyBox};
ghost use Rattle.box_clauses.specs.Sides.{sets_of};
ghost use Rattle.box_clauses.specs.Index.{IsIndexed};
ghost use Rattle.box_clauses.specs.Stored.{stored, box_at, stored_sets};

use crate::index::BoxIndex;
use crate::sides::{Held, Side};
use diagram_ops::Ops;
use set_meaning::BoxId;
use std::alloc::{AllocError, Global};
use std::marker::Model;

/// A box in store.
pub struct StoredBox {
    sides: Held,
    line: u64,
    learned: bool,
}

/// Boxes with their pins, each with the number of its line in the log, and whether it was learned. They cannot be
/// dropped: `release` takes the pins back, and `leave` lets the nodes stay pinned. Contracts see the boxes, oldest
/// first; a box's id is its place.
pub struct BoxStore {
    alloc: Global,
    boxes: Vec<StoredBox>,
    index: BoxIndex,
}

impl Model for BoxStore {
    ghost use Rattle.std.specs.Prelude.{List};
    ghost use Rattle.box_clauses.specs.declared.store.StoredBox.{StoredBox};

    ghost Value = { List StoredBox };

    ghost view = { λ s. s.boxes.items };

    ghost use Rattle.box_clauses.specs.Index.{IsIndexed};

    ghost invariant = { λ s. IsIndexed s.boxes.items s.index };
}

impl BoxStore {
    /// No boxes.
    pub fn new(alloc: Global) -> BoxStore
        ensures { result ≡ [] }
    {
        BoxStore {
            alloc,
            boxes: Vec::new(alloc),
            index: BoxIndex::new(alloc),
        }
    }

    /// Adds the box of these sides, whose pins it takes over. There must be fewer than 2^32 - 1 boxes. Two boxes may
    /// have the same sides. An `Err` is want of memory: then the store is as it was, and the pins of `held` are spent.
    pub fn add(
        &mut self,
        ops: &mut Ops,
        held: Held,
        line: u64,
        learned: bool,
    ) -> Result<BoxId, AllocError>
        requires room { length self.old < 2 ^ 32 - 1 }
        requires held { AreHeld ops.old (sets_of held) }
        ensures id { IfOk result (λ b. b.0 ≡ length self.old) }
        ensures stored { OnOk result (self.new ≡ self.old ++ stored held line learned ∷ []) }
        ensures pinned { OnOk result (ops.new ≡ ops.old) }
        ensures same { OnErr result (self.new ≡ self.old) }
        ensures spent { OnErr result (Unpins ops.old ops.new (sets_of held)) }
    {
        match self.keep(StoredBox {
            sides: held,
            line,
            learned,
        }) {
            Ok(id) => Ok(id),
            Err(refused) => {
                give_back(ops, refused);
                Err(AllocError)
            }
        }
    }

    /// Adds a box at the end, or answers it where there is no memory for it.
    fn keep(&mut self, added: StoredBox) -> Result<BoxId, StoredBox>
        requires { length self.old < 2 ^ 32 - 1 }
        ensures id { IfOk result (λ b. b.0 ≡ length self.old) }
        ensures stored { OnOk result (self.new ≡ self.old ++ added ∷ []) }
        ensures same { OnErr result (self.new ≡ self.old) }
        ensures back { IfErr result (λ refused. refused ≡ added) }
    {
        let id = BoxId(self.boxes.len() as u32);
        match append(self.alloc, &mut self.boxes, &mut self.index, added) {
            Ok(()) => Ok(id),
            Err(refused) => Err(refused),
        }
    }

    /// How many boxes there are. Takes no memory.
    pub fn len(&self) -> u32
        requires { length self.now < 2 ^ 32 }
        ensures { result ≡ length self.now }
    {
        self.boxes.len() as u32
    }

    /// The sides of a box, which must be there. Takes no memory.
    pub fn sides(&self, b: BoxId) -> &[Side]
        requires { b.0 < length self.now }
        ensures { IsSomeAnd (box_at self.now b.0) (λ stored. stored.sides ≡ result.now) }
    {
        self.boxes[b.0 as usize].sides.sides()
    }

    /// Whether a box, which must be there, was learned. Takes no memory.
    pub fn is_learned(&self, b: BoxId) -> bool
        requires { b.0 < length self.now }
        ensures { IsSomeAnd (box_at self.now b.0) (λ stored. stored.learned ≡ result) }
    {
        self.boxes[b.0 as usize].learned
    }

    /// The number of the line of a box, which must be there. Takes no memory.
    pub fn line(&self, b: BoxId) -> u64
        requires { b.0 < length self.now }
        ensures { IsSomeAnd (box_at self.now b.0) (λ stored. stored.line ≡ result) }
    {
        self.boxes[b.0 as usize].line
    }

    /// Whether no box has just these sides. Takes no memory, and the time of one look-up by hash.
    pub fn is_new(&self, sides: &[Side]) -> bool
        ensures { IsTrue result ↔ ((b : AnyBox) → Contains self.now b → b.sides ≢ sides.now) }
    {
        let known = self.index.knows(sides);
        !known
    }

    /// Spends the pins of all boxes. Takes no memory.
    pub fn release(self, ops: &mut Ops)
        requires { AreHeld ops.old (stored_sets self) }
        ensures { Unpins ops.old ops.new (stored_sets self) }
    {
        let BoxStore {
            alloc: _,
            boxes,
            index: _,
        } = self;
        let mut boxes = boxes;
        while let Some(last) = boxes.pop() {
            give_back(ops, last);
        }
        boxes.destroy_empty();
    }

    /// Spends the pins of all boxes and leaves the nodes pinned. Takes no memory.
    pub fn leave(self) {
        let BoxStore {
            alloc: _,
            boxes,
            index: _,
        } = self;
        let mut boxes = boxes;
        while let Some(last) = boxes.pop() {
            let StoredBox {
                sides,
                line: _,
                learned: _,
            } = last;
            let _ = sides.leave();
        }
        boxes.destroy_empty();
    }
}

/// Spends the pins of a box.
fn give_back(ops: &mut Ops, spent: StoredBox)
    requires { AreHeld ops.old (sets_of spent.sides) }
    ensures { Unpins ops.old ops.new (sets_of spent.sides) }
{
    let StoredBox {
        sides,
        line: _,
        learned: _,
    } = spent;
    sides.release(ops);
}

/// Appends the box and notes its sides; or changes nothing, and answers the box.
fn append(
    alloc: Global,
    boxes: &mut Vec<StoredBox>,
    index: &mut BoxIndex,
    added: StoredBox,
) -> Result<(), StoredBox>
    requires { IsIndexed boxes.old.items index.old }
    ensures stored { OnOk result (boxes.new.items ≡ boxes.old.items ++ added ∷ []) }
    ensures same { OnErr result (boxes.new.items ≡ boxes.old.items) }
    ensures back { IfErr result (λ refused. refused ≡ added) }
    ensures indexed { IsIndexed boxes.new.items index.new }
{
    let key = match Vec::from_slice(alloc, added.sides.sides()) {
        Ok(key) => key,
        Err(_) => return Err(added),
    };
    match boxes.push(added) {
        Ok(()) => {}
        Err(refused) => return Err(refused.value),
    }
    match index.insert(key) {
        Ok(()) => Ok(()),
        Err(_) => match boxes.pop() {
            Some(last) => Err(last),
            None => unreachable!(),
        },
    }
}
