//! The queue.
ghost use Rattle.std.specs.Prelude.{◌≡◌, ◌≢◌, ◌<◌, ◌^◌, ◌↔◌, ◌⊎◌, ℕ, true, false, IsTrue, length, IfOk, IfSome, IfNone, Some, All, slice_set, slice_index_or};
ghost use Rattle.set_meaning.specs.declared.problems.ConId.{ConId as AnyConId};
ghost use Rattle.constraint_queue.specs.Queue.{HasFlag, HasNoFlags, IsTakenFrom, HasFlaggedReaders};
ghost use Rattle.constraint_queue.specs.Waiting.{HaveFlags};

use crate::flags::Flags;
use crate::readers::{Readers, readers_of};
use listed::Listed;
use set_meaning::{ConId, VarId};
use std::alloc::{AllocError, Global};
use std::marker::Model;

/// A queue of constraints, each with its scope and a flag. `next` takes the flag of one that has it: of those that waited with the least
/// weight the first one. The weight of a constraint is the largest size of a variable of its scope when it was flagged. Sizes are handed in,
/// by variable; a variable beyond their end has size 0, so that with no sizes at all the first that was flagged comes first. Which one comes is
/// no part of the contracts.
#[derive(Drop)]
pub struct ConstraintQueue {
    scopes: Vec<Listed<VarId>>,
    readers: Vec<Readers>,
    flags: Flags,
}

impl Model for ConstraintQueue {
    ghost use Rattle.constraint_queue.specs.Queue.{QueueState};
    ghost use Rattle.constraint_queue.specs.Waiting.{AreParts};

    ghost Value = { QueueState };

    ghost view = { λ q. record { scopes = q.scopes.items; flags = q.flags } };

    ghost invariant = { λ q. AreParts q.scopes.items q.readers.items q.flags };
}

impl ConstraintQueue {
    /// A queue of the constraints with these scopes, whose variables are among the first `variables`, with no flags. The memory that it takes
    /// is linear in the number of variables and of constraints and the length of all scopes; no later call takes any. An `Err` is want of
    /// memory.
    pub fn new(
        alloc: Global,
        variables: usize,
        scopes: Vec<Listed<VarId>>,
    ) -> Result<ConstraintQueue, AllocError>
        requires few { length scopes.items < 2 ^ 32 }
        requires known { All (All (λ v. v.0 < variables)) scopes.items }
        ensures scopes { IfOk result (λ q. q.scopes ≡ scopes.items) }
        ensures flags { IfOk result (λ q. length q.flags ≡ length scopes.items) }
        ensures none { IfOk result HasNoFlags }
    {
        let readers = readers_of(alloc, variables, scopes.as_slice())?;
        let flags = Flags::new(alloc, scopes.len())?;
        Ok(ConstraintQueue {
            scopes,
            readers,
            flags,
        })
    }

    /// How many constraints there are.
    pub fn len(&self) -> usize
        ensures scopes { result ≡ length self.now.scopes }
        ensures flags { result ≡ length self.now.flags }
    {
        self.scopes.len()
    }

    /// Flags the constraint. One that has its flag keeps its place.
    pub fn flag(&mut self, c: ConId, sizes: &[u64])
        requires { c.0 < length self.old.scopes }
        ensures { self.new ≡ record self.old { flags = slice_set self.old.flags c.0 true } }
    {
        flag_one(self.scopes.as_slice(), &mut self.flags, c.0, sizes);
    }

    /// Flags every constraint, in order. Those that have a flag keep their places.
    pub fn flag_all(&mut self, sizes: &[u64])
        ensures scopes { self.new.scopes ≡ self.old.scopes }
        ensures long { length self.new.flags ≡ length self.old.flags }
        ensures flags { (c : ℕ) → c < length self.old.scopes → HasFlag self.new c }
    {
        flag_first(self.scopes.as_slice(), &mut self.flags, sizes);
    }

    /// Flags the constraints whose scope has the variable, but the one that is named. Those that have a flag keep their places.
    pub fn flag_readers(&mut self, v: VarId, but: Option<ConId>, sizes: &[u64])
        ensures { HasFlaggedReaders self.old self.new v but }
    {
        match self.readers.get(v.0 as usize) {
            Some(readers) => flag_each(
                self.scopes.as_slice(),
                readers.list(),
                &mut self.flags,
                but,
                sizes,
            ),
            None => {}
        }
    }

    /// Some constraint that has a flag, which it has no longer, or None exactly where none has.
    pub fn next(&mut self) -> Option<ConId>
        ensures taken { IfSome result (λ c. IsTakenFrom self.old c self.new) }
        ensures none { IfNone result (HasNoFlags self.old) }
        ensures same { IfNone result (self.new ≡ self.old) }
    {
        match self.flags.take() {
            Some(c) => Some(ConId(c)),
            None => None,
        }
    }

    /// Takes all flags away.
    pub fn clear(&mut self)
        ensures scopes { self.new.scopes ≡ self.old.scopes }
        ensures long { length self.new.flags ≡ length self.old.flags }
        ensures none { HasNoFlags self.new }
    {
        self.flags.clear();
    }
}

/// Sets the flag of the constraint, which waits with the weight of its scope.
fn flag_one(scopes: &[Listed<VarId>], flags: &mut Flags, c: u32, sizes: &[u64])
    requires scope { c < length scopes.now }
    requires flag { c < length flags.old }
    ensures { flags.new ≡ slice_set flags.old c true }
{
    flags.set(c, weight(scopes[c as usize].items(), sizes));
}

/// Sets the flag of each constraint.
fn flag_first(scopes: &[Listed<VarId>], flags: &mut Flags, sizes: &[u64])
    requires few { length scopes.now < 2 ^ 32 }
    requires long { length flags.old ≡ length scopes.now }
    ensures long { length flags.new ≡ length scopes.now }
    ensures all { (c : ℕ) → c < length scopes.now → slice_index_or flags.new c false ≡ true }
{
    for c in 0..scopes.len() as u32 {
        flag_one(scopes, flags, c, sizes);
    }
}

/// Sets the flags of the listed constraints, but the one that is named.
fn flag_each(
    scopes: &[Listed<VarId>],
    listed: &[ConId],
    flags: &mut Flags,
    but: Option<ConId>,
    sizes: &[u64],
)
    requires long { length flags.old ≡ length scopes.now }
    requires known { All (λ c. c.0 < length scopes.now) listed.now }
    ensures long { length flags.new ≡ length flags.old }
    ensures flags { HaveFlags listed.now but flags.old flags.new }
{
    for c in listed {
        flag_unless_named(scopes, flags, *c, but, sizes);
    }
}

/// Sets the flag of the constraint if it is not the one that is named.
fn flag_unless_named(
    scopes: &[Listed<VarId>],
    flags: &mut Flags,
    c: ConId,
    but: Option<ConId>,
    sizes: &[u64],
)
    requires scope { c.0 < length scopes.now }
    requires flag { c.0 < length flags.old }
    ensures named { but ≡ Some c → flags.new ≡ flags.old }
    ensures others { but ≢ Some c → flags.new ≡ slice_set flags.old c.0 true }
{
    if is_named(c, but) {
        return;
    }
    flag_one(scopes, flags, c.0, sizes);
}

/// Whether the constraint is the one that is named.
fn is_named(c: ConId, but: Option<ConId>) -> bool
    ensures { IsTrue result ↔ (but ≡ Some c) }
{
    match but {
        Some(named) => named == c,
        None => false,
    }
}

/// The largest size of a variable of the scope.
fn weight(scope: &[VarId], sizes: &[u64]) -> u64 {
    let mut most = 0;
    for v in scope {
        if let Some(size) = sizes.get(v.0 as usize) {
            most = most.max(*size);
        }
    }
    most
}
