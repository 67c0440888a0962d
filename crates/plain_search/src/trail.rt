//! The trail: the changes of the variables' sets beside the sets that they lead to.

ghost use Rattle.std.specs.Prelude.{◌≡◌, ℕ, ◌<◌, ◌+◌, [], ◌∷◌, length, IfOk, IfSome, OnOk, OnSome, MatchOption};
ghost use Rattle.std.specs.List.{All};
ghost use Rattle.search_rules.specs.Family.{put};
ghost use Rattle.search_rules.specs.Trail.{top, back, cut};
ghost use Rattle.plain_steps.specs.Sets.{has, family as family_of};
ghost use Rattle.plain_search.specs.State.{reason_of, entries_of, IsSized, Fits};
ghost use Rattle.plain_search.specs.Moves.{IsUndone};

use listed::Listed;
use plain_steps::{Set, table_copied};
use std::alloc::{AllocError, Global};
use std::mem::replace;

/// Why a variable's set was made smaller.
#[derive(Drop)]
pub enum Cause {
    /// A decision.
    Decision,
    /// The step of the constraint of this number.
    Constraint(usize),
    /// The step of this learned box.
    Learned(Listed<Set>),
}

/// One entry of the trail.
#[derive(Drop)]
pub struct Change {
    pub var: usize,
    /// The set of the variable from before.
    pub before: Set,
    pub level: usize,
    pub cause: Cause,
}

/// The sets of the variables, and the changes that led to them, oldest first.
#[derive(Drop)]
pub struct Trail {
    pub domains: Vec<Set>,
    pub changes: Vec<Change>,
}

/// What was taken from the trail: the set that the newest change had left to its variable, and its cause.
#[derive(Drop)]
pub struct Undone {
    pub var: usize,
    pub kept: Set,
    pub cause: Cause,
}

impl Trail {
    /// The trail without changes.
    pub fn new(alloc: Global, sets: &[Set]) -> Result<Self, AllocError>
        ensures domains { IfOk result (λ t. t.domains.items ≡ sets.now) }
        ensures changes { IfOk result (λ t. t.changes.items ≡ []) }
    {
        Ok(Trail {
            domains: table_copied(alloc, sets)?,
            changes: Vec::new(alloc),
        })
    }

    /// The level of the newest change, 0 where there is none.
    pub fn level(&self) -> usize
        ensures { result ≡ top (entries_of self.now.changes.items) }
    {
        match self.changes.last() {
            Some(change) => change.level,
            None => 0,
        }
    }

    /// Leaves the variable the set `kept`, as a change of this level and cause. After want of memory the trail has the set but
    /// not the change, and is of no further use.
    pub fn change(
        &mut self,
        var: usize,
        kept: Set,
        level: usize,
        cause: Cause,
    ) -> Result<(), AllocError>
        requires known { var < length self.old.domains.items }
        ensures entry { OnOk result (entries_of self.new.changes.items
            ≡ record { var = var; before = family_of self.old.domains.items var; level = level; reason = reason_of cause } ∷ entries_of self.old.changes.items) }
        ensures family { OnOk result (family_of self.new.domains.items ≡ put (family_of self.old.domains.items) var (has kept)) }
        ensures sets { OnOk result (length self.new.domains.items ≡ length self.old.domains.items) }
        ensures fits { OnOk result ((n : ℕ) → var < n → IsSized n cause → All (Fits n) self.old.changes.items → All (Fits n) self.new.changes.items) }
    {
        let before = replace(&mut self.domains[var], kept);
        self.changes.push(Change {
            var,
            before,
            level,
            cause,
        })?;
        Ok(())
    }

    /// Takes the newest change back, if there is one.
    pub fn undo(&mut self) -> Option<Undone>
        requires fits { All (Fits (length self.old.domains.items)) self.old.changes.items }
        ensures undone { MatchOption result (self.old.changes.items ≡ []) (IsUndone self.old self.new) }
        ensures sets { length self.new.domains.items ≡ length self.old.domains.items }
        ensures shorter { OnSome result (length self.new.changes.items + 1 ≡ length self.old.changes.items) }
        ensures fit { All (Fits (length self.old.domains.items)) self.new.changes.items }
        ensures change { IfSome result (λ u. (u.var < length self.old.domains.items) × IsSized (length self.old.domains.items) u.cause) }
    {
        let Change {
            var,
            before,
            level: _,
            cause,
        } = self.changes.pop()?;
        let kept = replace(&mut self.domains[var], before);
        Some(Undone { var, kept, cause })
    }

    /// Goes back to the end of the level.
    pub fn go_back(&mut self, level: usize)
        requires { All (Fits (length self.old.domains.items)) self.old.changes.items }
        ensures entries { entries_of self.new.changes.items ≡ cut level (entries_of self.old.changes.items) }
        ensures family { family_of self.new.domains.items ≡ back level (entries_of self.old.changes.items) (family_of self.old.domains.items) }
        ensures sets { length self.new.domains.items ≡ length self.old.domains.items }
        ensures fit { All (Fits (length self.old.domains.items)) self.new.changes.items }
    {
        while self.level() > level {
            let _ = self.undo();
        }
    }
}
