// What goes through all slots: the check at the end, and the rows.
ghost use Rattle.std.specs.Prelude.{◌≡◌, ℕ, ◌+◌, ◌<◌, ◌≤◌, ◌^◌, Some, true, IfOk, IsTrue};
ghost use Rattle.std.specs.FinSet.{contains};

use crate::parts::{Parts, slot_bytes, slot_laws};
use crate::row::SlotRow;
use crate::signal::{Place, Signal};
use miniheap::{Slot, SlotState};
use rv_memory::Space;
use std::alloc::AllocError;

impl Parts {
    ghost use Rattle.rv_memory.specs.Memory.{is_mapped};
    ghost use Rattle.rv_memory.specs.Spaces.{memory_of};
    ghost use Rattle.miniheap.specs.Slots.{slot_at};
    ghost use Rattle.miniheap.specs.WordList.{HasSpent};
    ghost use Rattle.exact_heap.specs.History.{History};
    ghost use Rattle.exact_heap.specs.Calls.{check_end, end_signal_if};
    ghost use Rattle.exact_heap.specs.Rows.{rows_of, row_at};
    ghost use Rattle.exact_heap.specs.Stands.{PartsStandFor, IsSound, AtHome, AddsSignal, state_at};

    // Each free slot whose canary is broken is a signal.
    pub(crate) fn check_end(&mut self, space: &Space)
        requires sound { IsSound self.old }
        requires home { AtHome self.old space.now }
        ensures stands { (h : History) → PartsStandFor self.old h → PartsStandFor self.new (check_end (state_at h space.now)) }
        ensures sound { IsSound self.new }
        ensures rest { self.new ≡ record self.old { signals = self.new.signals; ended = self.new.ended } }
    {
        slot_laws();
        if self.ended {
            return;
        }
        let mut next = self.slots.grid.first();
        while let Some(slot) = next {
            self.check_at_end(space, &slot);
            next = self.slots.grid.next(&slot);
        }
        self.ended = true;
    }

    fn check_at_end(&mut self, space: &Space, slot: &Slot)
        requires class { slot.now.class ≤ 22 }
        requires mapped { IsTrue (is_mapped (memory_of space.now) slot.now.addr (2 ^ slot.now.class)) }
        requires room { self.old.signals.count + 1 < 2 ^ 64 }
        ensures adds { (h : History) → HasSpent self.old.words h.seed h.spent → AddsSignal (end_signal_if (state_at h space.now) slot.now) self.old self.new }
        ensures few { self.new.signals.count ≤ self.old.signals.count + 1 }
        ensures rest { self.new ≡ record self.old { signals = self.new.signals } }
    {
        if slot.state != SlotState::Free {
            return;
        }
        let broken = space.first_break_at(slot.addr, slot_bytes(slot.class), self.words.canary());
        if let Some(addr) = broken {
            let byte = crate::spoiling::byte_in(space, addr);
            self.signals.add(Signal {
                place: Place::End,
                addr,
                byte,
            });
        }
    }

    // The rows of all slots, by rising address.
    pub(crate) fn rows(&self) -> Result<Vec<SlotRow>, AllocError>
        requires { IsSound self.now }
        ensures { (h : History) → PartsStandFor self.now h → IfOk result (λ rows. rows.items ≡ rows_of h) }
    {
        slot_laws();
        let mut rows = Vec::new(self.alloc);
        let mut next = self.slots.grid.first();
        while let Some(slot) = next {
            if let Some(row) = self.row_at(&slot) {
                rows.push(row)?;
            }
            next = self.slots.grid.next(&slot);
        }
        Ok(rows)
    }

    // The row of a slot, where it ever had an owner or is bad.
    fn row_at(&self, slot: &Slot) -> Option<SlotRow>
        requires sound { IsSound self.now }
        requires found { slot_at self.now.slots.grid slot.now.addr ≡ Some slot.now }
        ensures { (h : History) → PartsStandFor self.now h → result ≡ row_at h slot.now.addr }
    {
        let addr = slot.addr;
        let is_bad = is_bad(slot.state);
        match self.slots.rows.get(slot) {
            Some(row) => Some(SlotRow {
                addr,
                state: state_number(row.freed, slot.state),
                object: row.object,
                size: row.size,
                front: row.addr - addr,
                site: row.site,
                free_site: row.free_site,
                freed: row.freed,
            }),
            None if is_bad => Some(SlotRow {
                addr,
                state: 4,
                object: 0,
                size: 0,
                front: 0,
                site: 0,
                free_site: 0,
                freed: 0,
            }),
            None => None,
        }
    }
}

fn is_bad(state: SlotState) -> bool
    ensures { result ≡ is_bad_state state }
{
    match state {
        SlotState::Bad => true,
        SlotState::Free | SlotState::Held => false,
    }
}

// The number of a slot's state, where it had an owner: the clock of the owner's free and the slot's state
// tell what has become of it.
fn state_number(freed: u64, state: SlotState) -> u8
    ensures { result ≡ kept_number freed state }
{
    if freed == 0 {
        return 0;
    }
    match state {
        SlotState::Held => 1,
        SlotState::Free => 2,
        SlotState::Bad => 3,
    }
}

ghost use Rattle.miniheap.specs.Sound.{is_bad_state};
ghost use Rattle.exact_heap.specs.Stands.{kept_number};
