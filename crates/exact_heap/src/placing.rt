// How an object is placed.
ghost use Rattle.std.specs.Prelude.{◌≡◌, ℕ, ◌+◌, ◌<◌, ◌≤◌, ◌^◌, max, length, IfOk, IfSome, IfNone, IsNone, OnOk, OnErr};
ghost use Rattle.std.specs.Bool.{OnTrue, OnFalse};

use crate::parts::{Parts, Request, slot_bytes, slot_laws};
use crate::rows::Row;
use crate::signal::HeapRefusal;
use miniheap::GrowRefusal;
use rv_memory::{Rest, Space};
use std::alloc::AllocError;

impl Parts {
    ghost use Rattle.rv_memory.specs.Memory.{Memory, KeepsTaken};
    ghost use Rattle.rv_memory.specs.Spaces.{memory_of, taken_of};
    ghost use Rattle.miniheap.specs.Slots.{IsFreeSlot, IsSlotIn};
    ghost use Rattle.exact_heap.specs.History.{History};
    ghost use Rattle.exact_heap.specs.Placing.{HeapState, growth, turn, search, room_left, placed, place, release_due};
    ghost use Rattle.exact_heap.specs.Lawful.{Fits};
    ghost use Rattle.exact_heap.specs.Stands.{PartsStandFor, IsSound, AtHome, IsAt, Gives, Places, Releases, UnlessMemory, state_at};

    // The class's next miniheap, mapped with the canary.
    fn grow(&mut self, space: &mut Space, class: u8) -> Result<Option<u32>, HeapRefusal>
        requires low { 4 ≤ class }
        requires high { class ≤ 22 }
        requires sound { IsSound self.old }
        requires home { AtHome self.old space.old }
        ensures gives { (h : History) → PartsStandFor self.old h
            → Gives (growth class (state_at h space.old)).state (growth class (state_at h space.old)).answer result self.new (memory_of space.new) }
        ensures nearer { OnOk result (room_left class self.new.slots.grid < room_left class self.old.slots.grid) }
        ensures goes_on { IfOk result (λ found. IsNone found) }
        ensures sound { IsSound self.new }
        ensures home { UnlessMemory result (AtHome self.new space.new) }
        ensures taken { KeepsTaken (taken_of space.old) (taken_of space.new) }
        ensures rest { self.new ≡ record self.old { slots = self.new.slots } }
    {
        slot_laws();
        let bytes = self.slots.grid.wanted(class);
        match self.slots.rows.add(bytes >> class) {
            Ok(()) => {}
            Err(_) => return Err(HeapRefusal::Memory),
        }
        let base = match self.slots.grid.grow(self.alloc, class) {
            Ok(base) => base,
            Err(refusal) => {
                self.slots.rows.undo();
                return Err(refusal_of(&refusal));
            }
        };
        let canary = Rest::Canary(self.words.canary());
        match space.map(base, bytes, &[], canary, true, false) {
            Ok(()) => Ok(None),
            Err(_) => Err(HeapRefusal::Memory),
        }
    }

    // One turn of the search for a slot: the class grows where it must, or else a slot is drawn, which is
    // the answer where its canary is whole.
    fn attempt(&mut self, space: &mut Space, class: u8) -> Result<Option<u32>, HeapRefusal>
        requires low { 4 ≤ class }
        requires high { class ≤ 22 }
        requires sound { IsSound self.old }
        requires home { AtHome self.old space.old }
        ensures gives { (h : History) → PartsStandFor self.old h
            → Gives (turn class (state_at h space.old)).state (turn class (state_at h space.old)).answer result self.new (memory_of space.new) }
        ensures nearer { IfOk result (λ found. IfNone found (room_left class self.new.slots.grid < room_left class self.old.slots.grid)) }
        ensures free { IfOk result (λ found. IfSome found (IsFreeSlot self.new.slots.grid class)) }
        ensures sound { IsSound self.new }
        ensures home { UnlessMemory result (AtHome self.new space.new) }
        ensures taken { KeepsTaken (taken_of space.old) (taken_of space.new) }
        ensures rest { self.new ≡ record self.old { slots = self.new.slots; words = self.new.words; signals = self.new.signals } }
    {
        slot_laws();
        if self.slots.grid.must_grow(class) {
            return self.grow(space, class);
        }
        let slot = self.slots.grid.draw(class, &mut self.words);
        match space.first_break_at(slot, slot_bytes(class), self.words.canary()) {
            None => Ok(Some(slot)),
            Some(broken) => {
                self.spoil(space, slot, broken);
                Ok(None)
            }
        }
    }

    // A free slot of the class whose canary is whole.
    fn find_slot(&mut self, space: &mut Space, class: u8) -> Result<u32, HeapRefusal>
        requires low { 4 ≤ class }
        requires high { class ≤ 22 }
        requires sound { IsSound self.old }
        requires home { AtHome self.old space.old }
        ensures gives { (h : History) → PartsStandFor self.old h
            → Gives (search class (state_at h space.old)).state (search class (state_at h space.old)).answer result self.new (memory_of space.new) }
        ensures free { IfOk result (IsFreeSlot self.new.slots.grid class) }
        ensures sound { IsSound self.new }
        ensures home { UnlessMemory result (AtHome self.new space.new) }
        ensures taken { KeepsTaken (taken_of space.old) (taken_of space.new) }
        ensures rest { self.new ≡ record self.old { slots = self.new.slots; words = self.new.words; signals = self.new.signals } }
    {
        slot_laws();
        loop {
            match self.attempt(space, class) {
                Ok(Some(slot)) => return Ok(slot),
                Ok(None) => {}
                Err(refusal) => return Err(refusal),
            }
        }
    }

    // A new object has the slot. All memory that its free will want is taken first.
    fn own(
        &mut self,
        space: &mut Space,
        slot: u32,
        request: &Request,
        zeroed: bool,
    ) -> Result<(), AllocError>
        requires free { IsFreeSlot self.old.slots.grid request.now.class slot }
        requires fits { Fits request.now }
        requires clock { self.old.counts.clock < 2 ^ 62 }
        requires sound { IsSound self.old }
        requires home { AtHome self.old space.old }
        ensures placed { OnOk result ((h : History) → PartsStandFor self.old h → IsAt (placed request.now zeroed slot (state_at h space.old)) self.new (memory_of space.new)) }
        ensures sound { IsSound self.new }
        ensures home { OnOk result (AtHome self.new space.new) }
        ensures clock { self.new.counts.clock ≤ self.old.counts.clock + 1 }
        ensures taken { KeepsTaken (taken_of space.old) (taken_of space.new) }
        ensures rest { self.new ≡ record self.old { slots = self.new.slots; queue = self.new.queue; counts = record self.old.counts { clock = self.new.counts.clock } } }
    {
        slot_laws();
        let Some(place) = self.slots.grid.slot_at(slot) else {
            unreachable!()
        };
        let bytes = slot_bytes(request.class);
        let owned = self.counts.owned();
        space.take_pages(slot, bytes)?;
        self.queue.reserve(owned as usize + 1)?;
        self.slots.rows.set(
            &place,
            Row {
                object: self.counts.clock,
                freed: 0,
                addr: slot + request.front,
                size: request.size,
                site: request.site,
                free_site: 0,
            },
        )?;
        self.slots.grid.hold(slot);
        self.counts.clock += 1;
        if zeroed {
            space.zero(slot, bytes);
        }
        Ok(())
    }

    // Releases the first of the deferred objects that is due, if there is one.
    fn release_next(&mut self, space: &mut Space) -> bool
        requires sound { IsSound self.old }
        requires home { AtHome self.old space.old }
        ensures one { OnTrue result ((h : History) → PartsStandFor self.old h → Releases (state_at h space.old) self.new (memory_of space.new)) }
        ensures fewer { OnTrue result (length self.new.queue.dues < length self.old.queue.dues) }
        ensures none { OnFalse result ((h : History) → PartsStandFor self.old h → release_due (state_at h space.old) ≡ state_at h space.old) }
        ensures kept { OnFalse result (self.new ≡ self.old) }
        ensures untouched { OnFalse result (memory_of space.new ≡ memory_of space.old) }
        ensures sound { IsSound self.new }
        ensures home { AtHome self.new space.new }
        ensures taken { KeepsTaken (taken_of space.old) (taken_of space.new) }
        ensures rest { self.new ≡ record self.old { slots = record self.old.slots { grid = self.new.slots.grid }; queue = self.new.queue } }
    {
        slot_laws();
        let Some(due) = self.queue.pop_due(self.counts.clock) else {
            return false;
        };
        let Some(slot) = self.slots.grid.slot_at(due.addr) else {
            unreachable!()
        };
        self.release_slot(space, &slot);
        true
    }

    // Releases every object that is due.
    fn release_due(&mut self, space: &mut Space)
        requires sound { IsSound self.old }
        requires home { AtHome self.old space.old }
        ensures released { (h : History) → PartsStandFor self.old h → IsAt (release_due (state_at h space.old)) self.new (memory_of space.new) }
        ensures sound { IsSound self.new }
        ensures home { AtHome self.new space.new }
        ensures taken { KeepsTaken (taken_of space.old) (taken_of space.new) }
        ensures rest { self.new ≡ record self.old { slots = record self.old.slots { grid = self.new.slots.grid }; queue = self.new.queue } }
    {
        while self.release_next(space) {}
    }

    // Places an object, and then releases what has become due.
    pub(crate) fn place(
        &mut self,
        space: &mut Space,
        request: &Request,
        zeroed: bool,
    ) -> Result<u32, HeapRefusal>
        requires fits { Fits request.now }
        requires clock { self.old.counts.clock < 2 ^ 62 }
        requires sound { IsSound self.old }
        requires home { AtHome self.old space.old }
        ensures { Places (place request.now zeroed) 0 self.old space.old result self.new space.new }
    {
        slot_laws();
        let slot = match self.find_slot(space, request.class) {
            Ok(slot) => slot,
            Err(refusal) => return Err(refusal),
        };
        match self.own(space, slot, request, zeroed) {
            Ok(()) => {}
            Err(_) => return Err(HeapRefusal::Memory),
        }
        self.release_due(space);
        Ok(slot + request.front)
    }
}

// Why a class didn't grow, as a heap call says it.
fn refusal_of(refusal: &GrowRefusal) -> HeapRefusal
    ensures { result ≡ growth_refusal refusal.now }
{
    match refusal {
        GrowRefusal::Room { used, wanted } => HeapRefusal::Room {
            used: *used,
            wanted: *wanted,
        },
        GrowRefusal::Memory => HeapRefusal::Memory,
    }
}

ghost use Rattle.exact_heap.specs.Stands.{growth_refusal};
