// Broken canaries.
ghost use Rattle.std.specs.Prelude.{◌≡◌, ◌+◌, ◌<◌, ◌^◌, Some, true, IsTrue, IfSome, MatchOption};
ghost use Rattle.std.specs.Option.{ForSome};

use crate::parts::{Parts, slot_bytes, slot_laws};
use crate::signal::{Place, Signal};
use miniheap::{Slot, SlotState};
use rv_memory::Space;

impl Parts {
    ghost use Rattle.rv_memory.specs.Memory.{Memory, is_mapped, is_broken};
    ghost use Rattle.rv_memory.specs.Spaces.{memory_of};
    ghost use Rattle.miniheap.specs.Slots.{IsSlotIn, spoiled_at, slot_at};
    ghost use Rattle.exact_heap.specs.History.{History};
    ghost use Rattle.exact_heap.specs.Placing.{HeapState, signalled, signal_at, break_in, byte_at};
    ghost use Rattle.exact_heap.specs.Freeing.{neighbour_checked, neighbours_checked};
    ghost use Rattle.exact_heap.specs.Stands.{PartsStandFor, IsSound, AtHome, state_at};

    // A free slot whose canary is broken becomes bad.
    pub(crate) fn spoil(&mut self, space: &Space, slot: u32, broken: u32)
        requires sound { IsSound self.old }
        requires free { IsSlotIn self.old.slots.grid slot SlotState.Free }
        ensures stands { (h : History) → PartsStandFor self.old h → PartsStandFor self.new (signalled slot broken (state_at h space.now)).history }
        ensures slots { self.new.slots.grid ≡ spoiled_at self.old.slots.grid slot }
        ensures rest { self.new ≡ record self.old { slots = record self.old.slots { grid = self.new.slots.grid }; signals = self.new.signals } }
    {
        slot_laws();
        let place = Place::Call(self.counts.calls);
        let byte = byte_in(space, broken);
        self.slots.grid.spoil(slot);
        self.signals.add(Signal {
            place,
            addr: broken,
            byte,
        });
    }

    // A neighbour is checked where it is free.
    pub(crate) fn check_neighbour(&mut self, space: &Space, neighbour: Option<Slot>)
        requires sound { IsSound self.old }
        requires home { AtHome self.old space.now }
        requires known { ForSome neighbour (λ t. slot_at self.old.slots.grid t.addr ≡ Some t) }
        ensures stands { (h : History) → PartsStandFor self.old h → PartsStandFor self.new (neighbour_checked (state_at h space.now) neighbour).history }
        ensures places { self.new.slots.grid.classes ≡ self.old.slots.grid.classes }
        ensures held { self.new.slots.grid.held ≡ self.old.slots.grid.held }
        ensures rest { self.new ≡ record self.old { slots = record self.old.slots { grid = self.new.slots.grid }; signals = self.new.signals } }
    {
        slot_laws();
        let Some(slot) = neighbour else {
            return;
        };
        if slot.state != SlotState::Free {
            return;
        }
        if let Some(broken) = space.first_break_at(
            slot.addr,
            slot_bytes(slot.class),
            self.words.canary(),
        ) {
            self.spoil(space, slot.addr, broken);
        }
    }

    // The slots before and after one in its miniheap are checked, in this order.
    pub(crate) fn check_neighbours(&mut self, space: &Space, slot: &Slot)
        requires sound { IsSound self.old }
        requires home { AtHome self.old space.now }
        requires found { slot_at self.old.slots.grid slot.now.addr ≡ Some slot.now }
        ensures stands { (h : History) → PartsStandFor self.old h → PartsStandFor self.new (neighbours_checked slot.now.addr (state_at h space.now)).history }
        ensures sound { IsSound self.new }
        ensures home { AtHome self.new space.now }
        ensures places { self.new.slots.grid.classes ≡ self.old.slots.grid.classes }
        ensures rest { self.new ≡ record self.old { slots = record self.old.slots { grid = self.new.slots.grid }; signals = self.new.signals } }
    {
        slot_laws();
        let before = self.slots.grid.before(slot);
        self.check_neighbour(space, before);
        let after = self.slots.grid.after(slot);
        self.check_neighbour(space, after);
    }
}

// The byte at an address, 0 where none is mapped.
pub(crate) fn byte_in(space: &Space, addr: u32) -> u8
    ensures { result ≡ byte_at (memory_of space.now) addr }
{
    let mut byte = [0];
    let _ = space.span_read(addr, &mut byte);
    byte[0]
}

ghost use Rattle.rv_memory.specs.Spaces.{memory_of};
ghost use Rattle.exact_heap.specs.Placing.{byte_at};
