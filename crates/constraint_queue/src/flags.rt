//! A flag for each constraint, and those that have one by their weights.
ghost use Rattle.std.specs.Prelude.{◌≡◌, ◌<◌, ◌+◌, ◌^◌, ℕ, true, false, length, IfOk, IfSome, IfNone, slice_set, slice_index_or, replicate, count_by};

use std::alloc::{AllocError, Global};
use std::cmp::Reverse;
use std::collections::BinaryHeap;
use std::marker::Model;

/// A constraint that waits: its weight, how many were flagged before it, and its number. Of equal weights the earlier one comes first.
#[derive(Clone, Copy, PartialEq, Eq, PartialOrd, Ord)]
struct Waiting {
    weight: u64,
    ticket: u64,
    constraint: u32,
}

/// Flags, seen as the list of them. There is room for all constraints to wait, so a flag takes no memory.
#[derive(Drop)]
pub(crate) struct Flags {
    set: Vec<bool>,
    waiting: BinaryHeap<Reverse<Waiting>>,
    tickets: u64,
}

impl Model for Flags {
    ghost use Rattle.std.specs.Prelude.{Bool, List};
    ghost use Rattle.std.specs.BinaryHeap.{heap_items, heap_len, heap_capacity};
    ghost use Rattle.constraint_queue.specs.Waiting.{AreWaiting};

    ghost Value = { List Bool };

    ghost view = { λ f. f.set.items };

    ghost invariant = { λ f. AreWaiting (λ e. e.0.constraint) f.set.items (heap_items f.waiting) (heap_len f.waiting) (heap_capacity f.waiting) };
}

impl Flags {
    /// So many flags, none of them set. An `Err` is want of memory.
    pub(crate) fn new(alloc: Global, count: usize) -> Result<Flags, AllocError>
        ensures { IfOk result (λ f. f ≡ replicate count false) }
    {
        let mut set = Vec::with_capacity(alloc, count)?;
        set.resize(count, false)?;
        let waiting = BinaryHeap::with_capacity(alloc, count)?;
        Ok(Flags {
            set,
            waiting,
            tickets: 0,
        })
    }

    /// Sets the flag of that constraint; where it is not set yet, the constraint waits with this weight.
    pub(crate) fn set(&mut self, c: u32, weight: u64)
        requires { c < length self.old }
        ensures { self.new ≡ slice_set self.old c true }
    {
        if self.set[c as usize] {
            return;
        }
        let entry = Reverse(Waiting {
            weight,
            ticket: self.tickets,
            constraint: c,
        });
        match self.waiting.push(entry) {
            Ok(()) => {
                self.set[c as usize] = true;
                self.tickets = self.tickets.wrapping_add(1);
            }
            Err(_) => {}
        }
    }

    /// The constraint that waits with the least weight, without its flag from now on.
    pub(crate) fn take(&mut self) -> Option<u32>
        ensures had { IfSome result (λ c. slice_index_or self.old c false ≡ true) }
        ensures new_is { IfSome result (λ c. self.new ≡ slice_set self.old c false) }
        ensures fewer { IfSome result (λ c. count_by (λ b. b) self.new + 1 ≡ count_by (λ b. b) self.old) }
        ensures same { IfNone result (self.new ≡ self.old) }
        ensures none { IfNone result ((c : ℕ) → slice_index_or self.old c false ≡ false) }
    {
        match self.waiting.pop() {
            Some(entry) => {
                let c = entry.0.constraint;
                self.set[c as usize] = false;
                Some(c)
            }
            None => None,
        }
    }

    /// Takes all flags away.
    pub(crate) fn clear(&mut self)
        ensures long { length self.new ≡ length self.old }
        ensures none { (c : ℕ) → slice_index_or self.new c false ≡ false }
    {
        self.waiting.clear();
        self.set.as_mut_slice().fill(false);
    }
}
