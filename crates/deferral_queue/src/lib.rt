//! Frees that are put off: a queue of objects, each with the clock at which it is released.
//!
//! The first to come out is the one with the least due, and of several that are due at once the one
//! with the least object number (docs/deferral-queue.md). Memory is taken by `reserve` alone.
#![tactic(auto)]

ghost use Rattle.std.specs.Prelude.{◌≡◌, ◌+◌, ◌-◌, ◌<◌, ◌≤◌, ◌↔◌, [], ◌∷◌, max, All, IsNone, IfNone, IfSome, OnOk, OnErr, OnSome};

use std::alloc::{AllocError, Global};
use std::cmp::Reverse;
use std::collections::BinaryHeap;
use std::marker::Model;

/// A deferred free: the clock at which the object is released, its number and its address.
#[derive(Clone, Copy, Debug, PartialEq, Eq, PartialOrd, Ord)]
pub struct Due {
    pub due: u64,
    pub object: u64,
    pub addr: u32,
}

/// The deferred frees, the first to be released first, and how many more there is room for.
#[derive(Drop)]
pub struct Queue {
    heap: BinaryHeap<Reverse<Due>>,
    spare: usize,
}

impl Model for Queue {
    ghost use Rattle.deferral_queue.specs.Deferrals.{Deferrals};

    ghost Value = { Deferrals };

    ghost use Rattle.deferral_queue.specs.View.{deferrals, IsKept};

    ghost view = { deferrals };

    ghost invariant = { IsKept };
}

impl Queue {
    ghost use Rattle.deferral_queue.specs.Order.{IsNoLater};
    ghost use Rattle.deferral_queue.specs.Deferrals.{insert_due};

    /// An empty queue with no room.
    pub fn new(alloc: Global) -> Queue
        ensures dues { result.dues ≡ [] }
        ensures spare { result.spare ≡ 0 }
    {
        Queue {
            heap: BinaryHeap::new(alloc),
            spare: 0,
        }
    }

    /// How many more frees can be put off before more room is reserved.
    pub fn spare(&self) -> usize
        ensures { result ≡ self.now.spare }
    {
        self.spare
    }

    /// Makes room for at least `n` more. It grows by a thirty-second and doesn't double, since where each
    /// owned object has room here that room is a good part of all that is kept of it.
    pub fn reserve(&mut self, n: usize) -> Result<(), AllocError>
        ensures ok { OnOk result (self.new ≡ record self.old { spare = max self.old.spare n }) }
        ensures err { OnErr result (self.new ≡ self.old) }
    {
        if self.heap.capacity() - self.heap.len() < n {
            self.heap.reserve_exact(n.saturating_add(n / 32))?;
        }
        self.spare = self.spare.max(n);
        Ok(())
    }

    /// Puts off the free of an object, which is then due at the clock `due`.
    pub fn put(&mut self, due: u64, object: u64, addr: u32)
        requires { 1 ≤ self.old.spare }
        ensures dues { self.new.dues ≡ insert_due (record { due = due; object = object; addr = addr }) self.old.dues }
        ensures spare { self.new.spare + 1 ≡ self.old.spare }
    {
        match self.heap.push(Reverse(Due { due, object, addr })) {
            Ok(()) => self.spare -= 1,
            Err(_) => unreachable!(),
        }
    }

    /// Takes out the first of those that are due at the clock, if there is one. Its room is spare again.
    pub fn pop_due(&mut self, clock: u64) -> Option<Due>
        ensures none { IsNone result ↔ All (λ d. clock < d.due) self.old.dues }
        ensures due { IfSome result (λ d. d.due ≤ clock) }

        // It is the first of the queue, and nothing else changes.
        ensures first { IfSome result (λ d. self.old.dues ≡ d ∷ self.new.dues) }
        ensures least { IfSome result (λ d. All (IsNoLater d) self.old.dues) }
        ensures spare { OnSome result (self.new.spare ≡ self.old.spare + 1) }
        ensures unchanged { IfNone result (self.new ≡ self.old) }
    {
        let next = self.heap.peek()?;
        if clock < next.0.due {
            return None;
        }
        let Reverse(due) = self.heap.pop()?;
        self.spare += 1;
        Some(due)
    }
}

ghost use Rattle.deferral_queue.specs.Laws.{PutsCommute};

/// The order in which two entries are put doesn't matter. The body is empty: a caller has the clause.
pub fn puts_commute()
    ensures { PutsCommute }
{}

#[cfg(test)]
mod tests;
