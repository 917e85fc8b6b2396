// How an object is freed.
ghost use Rattle.std.specs.Prelude.{◌≡◌, ℕ, ◌+◌, ◌<◌, ◌≤◌, ◌^◌, Some, None, IsSome, IsTrue, IfSome, IfNone};

use crate::parts::{Parts, slot_bytes, slot_laws};
use crate::rows::Row;
use miniheap::{Slot, SlotState};
use rv_memory::Space;

impl Parts {
    ghost use Rattle.diefast_canary.specs.Canary.{canary_byte};
    ghost use Rattle.rv_memory.specs.Memory.{Memory, filled, KeepsTaken};
    ghost use Rattle.rv_memory.specs.Spaces.{memory_of, taken_of};
    ghost use Rattle.miniheap.specs.Slots.{slot_at, released_at, IsSlotIn, IsSlotOf, IsInOrder};
    ghost use Rattle.miniheap.specs.WordList.{HasSpent, canary_of};
    ghost use Rattle.exact_heap.specs.History.{History};
    ghost use Rattle.exact_heap.specs.Owners.{Owner, last_owner};
    ghost use Rattle.exact_heap.specs.Freeing.{object_freed, owner_freed};
    ghost use Rattle.exact_heap.specs.RowStore.{kept_row};
    ghost use Rattle.exact_heap.specs.Stands.{PartsStandFor, IsSound, AtHome, IsAt, state_at, rules_in};

    // A held slot is filled with the canary and becomes free.
    pub(crate) fn release_slot(&mut self, space: &mut Space, slot: &Slot)
        requires order { IsInOrder self.old.slots.grid }
        requires known { IsSlotOf self.old.slots.grid slot.now }
        requires held { IsSlotIn self.old.slots.grid slot.now.addr SlotState.Held }
        requires home { AtHome self.old space.old }
        ensures rest { self.new ≡ record self.old { slots = record self.old.slots { grid = released_at self.old.slots.grid slot.now.addr } } }
        ensures painted { (seed spent : ℕ) → HasSpent self.old.words seed spent
            → memory_of space.new ≡ filled (memory_of space.old) slot.now.addr (2 ^ slot.now.class) (canary_byte (canary_of seed)) }
        ensures home { AtHome self.new space.new }
        ensures taken { KeepsTaken (taken_of space.old) (taken_of space.new) }
    {
        slot_laws();
        self.slots.grid.release(slot.addr);
        space.paint(slot.addr, slot_bytes(slot.class), self.words.canary());
    }

    // An owned object is freed by a site: its neighbours are checked, and it is released or put off.
    pub(crate) fn free_owned(&mut self, space: &mut Space, slot: &Slot, row: &Row, free_site: u32)
        requires sound { IsSound self.old }
        requires home { AtHome self.old space.old }
        requires clock { self.old.counts.clock ≤ 2 ^ 62 }
        requires found { slot_at self.old.slots.grid slot.now.addr ≡ Some slot.now }
        requires row { kept_row self.old.slots.grid.classes self.old.slots.rows slot.now.addr ≡ Some row.now }
        requires owned { row.now.freed ≡ 0 }
        ensures freed { (h : History) (owner : Owner) → PartsStandFor self.old h → last_owner h.objects slot.now.addr ≡ Some owner
            → IsAt (owner_freed (rules_in self.old) free_site owner (state_at h space.old)) self.new (memory_of space.new) }
        ensures sound { IsSound self.new }
        ensures home { AtHome self.new space.new }
        ensures taken { KeepsTaken (taken_of space.old) (taken_of space.new) }
        ensures rules { rules_in self.new ≡ rules_in self.old }
        ensures counted { self.new.counts.clock ≡ self.old.counts.clock }
        ensures numbered { self.new.counts.calls ≡ self.old.counts.calls }
    {
        slot_laws();
        self.check_neighbours(space, slot);
        let deferral = self.rules.patches.defer_of(row.site, free_site);
        if deferral == 0 {
            self.free_now(space, slot, row, free_site);
        } else {
            self.free_later(slot, row, free_site, deferral);
        }
    }

    // The object is released at once.
    fn free_now(&mut self, space: &mut Space, slot: &Slot, row: &Row, free_site: u32)
        requires sound { IsSound self.old }
        requires home { AtHome self.old space.old }
        requires clock { self.old.counts.clock ≤ 2 ^ 62 }
        requires known { IsSlotOf self.old.slots.grid slot.now }
        requires row { kept_row self.old.slots.grid.classes self.old.slots.rows slot.now.addr ≡ Some row.now }
        requires owned { row.now.freed ≡ 0 }
        ensures freed { (h : History) (owner : Owner) → PartsStandFor self.old h → last_owner h.objects slot.now.addr ≡ Some owner
            → IsAt (object_freed 0 free_site owner (state_at h space.old)) self.new (memory_of space.new) }
        ensures sound { IsSound self.new }
        ensures home { AtHome self.new space.new }
        ensures taken { KeepsTaken (taken_of space.old) (taken_of space.new) }
        ensures rules { rules_in self.new ≡ rules_in self.old }
        ensures counted { self.new.counts.clock ≡ self.old.counts.clock }
        ensures numbered { self.new.counts.calls ≡ self.old.counts.calls }
    {
        slot_laws();
        self.counts.frees += 1;
        let freed = Row {
            free_site,
            freed: self.counts.clock,
            ..*row
        };
        self.slots.set_row(slot, freed);
        self.release_slot(space, slot);
    }

    // The free is put off.
    fn free_later(&mut self, slot: &Slot, row: &Row, free_site: u32, deferral: u32)
        requires sound { IsSound self.old }
        requires clock { self.old.counts.clock ≤ 2 ^ 62 }
        requires known { IsSlotOf self.old.slots.grid slot.now }
        requires row { kept_row self.old.slots.grid.classes self.old.slots.rows slot.now.addr ≡ Some row.now }
        requires owned { row.now.freed ≡ 0 }
        requires deferral { 0 < deferral }
        ensures freed { (h : History) (owner : Owner) (memory : Memory) → PartsStandFor self.old h → last_owner h.objects slot.now.addr ≡ Some owner
            → IsAt (object_freed deferral free_site owner (record { history = h; memory = memory })) self.new memory }
        ensures sound { IsSound self.new }
        ensures slots { self.new.slots.grid ≡ self.old.slots.grid }
        ensures rules { rules_in self.new ≡ rules_in self.old }
        ensures counted { self.new.counts.clock ≡ self.old.counts.clock }
        ensures numbered { self.new.counts.calls ≡ self.old.counts.calls }
    {
        self.counts.frees += 1;
        let freed = Row {
            free_site,
            freed: self.counts.clock,
            ..*row
        };
        self.slots.set_row(slot, freed);
        self.queue.put(
            self.counts.clock + u64::from(deferral),
            row.object,
            slot.addr,
        );
    }
}
