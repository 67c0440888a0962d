//! The names that are declared so far.

ghost use Rattle.std.specs.Prelude.{◌≡◌, ◌≢◌, List, ℕ, Some, None, IfOk, OnOk};
ghost use Rattle.std.specs.Option.{option_map};

use crate::known::Known;
use indexmap::IndexMap;
use std::alloc::{AllocError, Global};

/// What each declared name is known to stand for, by its bytes.
#[derive(Drop)]
pub(crate) struct Declared {
    names: IndexMap<Vec<u8>, Known>,
}

impl Declared {
    ghost use Rattle.fzn_model.specs.State.{known_of};

    /// No names.
    pub(crate) fn new(alloc: Global) -> Declared
        ensures { (name : List ℕ) → known_of result name ≡ None }
    {
        Declared {
            names: IndexMap::new(alloc),
        }
    }

    /// What the name is known to stand for; None where it is not declared. One look-up.
    pub(crate) fn known(&self, name: &[u8]) -> Option<&Known>
        ensures { option_map (λ known. known.now) result ≡ known_of self.now name.now }
    {
        self.names.get(name)
    }

    /// Declares the name. An `Err` is want of memory.
    pub(crate) fn declare(
        &mut self,
        alloc: Global,
        name: &[u8],
        known: Known,
    ) -> Result<(), AllocError>
        ensures declared { OnOk result (known_of self.new name.now ≡ Some known) }
        ensures others { OnOk result ((other : List ℕ) → other ≢ name.now → known_of self.new other ≡ known_of self.old other) }
    {
        let key = name.to_vec(alloc)?;
        self.names.insert(key, known)?;
        Ok(())
    }
}
