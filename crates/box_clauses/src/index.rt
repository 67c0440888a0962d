//! The lists of sides that are known, by hash.
ghost use Rattle.std.specs.Prelude.{◌≡◌, ◌||◌, false, List, OnOk, OnErr};
ghost use Rattle.box_clauses.specs.declared.sides.Side.{Side as AnySide};

use crate::sides::Side;
use indexmap::IndexSet;
use std::alloc::{AllocError, Global};

/// Lists of sides, each once, in the order in which they came.
#[derive(Drop)]
pub(crate) struct BoxIndex {
    lists: IndexSet<Vec<Side>>,
}

impl BoxIndex {
    ghost use Rattle.box_clauses.specs.Index.{same_sides, knows};

    /// No lists.
    pub(crate) fn new(alloc: Global) -> BoxIndex
        ensures { (xs : List AnySide) → knows result xs ≡ false }
    {
        BoxIndex {
            lists: IndexSet::new(alloc),
        }
    }

    /// Whether the list is known. One look-up by hash, and no memory.
    pub(crate) fn knows(&self, sides: &[Side]) -> bool
        ensures { result ≡ knows self.now sides.now }
    {
        self.lists.contains(sides)
    }

    /// Adds the list. An `Err` is want of memory: then what is known stays.
    pub(crate) fn insert(&mut self, key: Vec<Side>) -> Result<(), AllocError>
        ensures known { OnOk result ((xs : List AnySide)
            → knows self.new xs ≡ (same_sides xs key.items || knows self.old xs)) }
        ensures same { OnErr result ((xs : List AnySide) → knows self.new xs ≡ knows self.old xs) }
    {
        self.lists.insert(key)?;
        Ok(())
    }
}
