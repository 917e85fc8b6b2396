ghost use Rattle.std.specs.Prelude.{ℕ, ◌≡◌, ◌+◌, ◌-◌, ◌*◌, ◌^◌, ◌<◌, ◌≤◌, ◌↔◌, ◌⊎◌, false, IsNone, IfSome, IfOk, IfErr, OnOk, OnErr, Some, Ok, Err};
ghost use Rattle.miniheap.specs.Layout.{heap_limit, minis, mini_at};
ghost use Rattle.miniheap.specs.Slots.{Slots, no_slots, slot_count, must_grow, used_of, wanted_of, end_of, grown, held_at, released_at, spoiled_at, nth_slot, slot_at, IsSlotIn, IsSlotOf, IsFreeSlot, IsInOrder, marked, state_before};
ghost use Rattle.miniheap.specs.Draws.{address_of, IsDrawn, IsAttempt, IsNext};
ghost use Rattle.miniheap.specs.Places.{IsPlaceOf};
ghost use Rattle.miniheap.specs.Sound.{place_of, frees, takes};
ghost use Rattle.miniheap.specs.Walk.{address_number, slot_number};
ghost use Rattle.miniheap.specs.WordList.{HasSpent};

use crate::place::{Slot, SlotPlace, SlotState};
use crate::places::{GrowRefusal, Places};
use crate::seeded::Words;
use crate::states::States;
use std::alloc::{AllocError, Global};
use std::marker::Model;

// Draws before the next free slot is looked for.
const DRAWS: u32 = 64;

/// The miniheaps and the state of each of their slots.
#[derive(Drop)]
pub struct Grid {
    places: Places,
    // By miniheap.
    states: Vec<States>,
    // How many slots of each class are held or bad, at the class's own number.
    taken: [u32; 23],
}

impl Model for Grid {
    ghost use Rattle.miniheap.specs.Slots.{Slots, slots_code};

    ghost Value = { Slots };

    ghost coded = { slots_code };

    ghost use Rattle.miniheap.specs.Sound.{stands_for, IsSound};

    ghost view = { λ a. stands_for a.places a.states.items };

    ghost invariant = { λ a. IsSound a.places a.states.items a.taken };
}

impl Grid {
    /// No miniheap yet. It takes no memory.
    pub fn new(alloc: Global) -> Grid
        ensures { result ≡ no_slots }
    {
        Grid {
            places: Places::new(alloc),
            states: Vec::new(alloc),
            taken: [0; 23],
        }
    }

    /// The class of each miniheap, in order of creation.
    pub fn classes(&self) -> &[u8]
        ensures classes { result.now ≡ self.now.classes }
        ensures in_order { IsInOrder self.now }
    {
        self.places.classes()
    }

    /// Whether the class grows before a slot of it is drawn: one more slot held or bad would be
    /// more than half of them.
    pub fn must_grow(&self, class: u8) -> bool
        requires low { 4 ≤ class }
        requires high { class ≤ 22 }
        ensures { result ≡ must_grow self.now class }
    {
        let taken = self.taken[class as usize] as u64;
        (self.places.slot_count(class) as u64) < (taken + 1) * 2
    }

    /// The bytes that the class's next miniheap would have.
    pub fn wanted(&self, class: u8) -> u32
        requires low { 4 ≤ class }
        requires high { class ≤ 22 }
        ensures { result ≡ wanted_of self.now class }
    {
        self.places.wanted(class)
    }

    /// Adds the class's next miniheap, all of its slots free, and answers its address. It alone takes
    /// memory, two bits or so for each slot.
    pub fn grow(&mut self, alloc: Global, class: u8) -> Result<u32, GrowRefusal>
        requires low { 4 ≤ class }
        requires high { class ≤ 22 }
        ensures address { IfOk result (λ base. base ≡ end_of self.old) }
        ensures grows { OnOk result (self.new ≡ grown self.old class) }

        ensures room { (result ≡ Err (GrowRefusal.Room (used_of self.old) (wanted_of self.old class)))
            ↔ (heap_limit < used_of self.old + wanted_of self.old class) }
        ensures refused { IfErr result (λ e. (e ≡ GrowRefusal.Room (used_of self.old) (wanted_of self.old class))
            ⊎ (e ≡ GrowRefusal.Memory)) }
        ensures unchanged { OnErr result (self.new ≡ self.old) }
    {
        let wanted = match self.places.room(class) {
            Ok(wanted) => wanted,
            Err(refusal) => return Err(refusal),
        };
        match self.add(alloc, class, wanted) {
            Ok(base) => Ok(base),
            Err(AllocError) => Err(GrowRefusal::Memory),
        }
    }

    // Room for the states is made before the miniheap is, so that nothing is half done.
    fn add(&mut self, alloc: Global, class: u8, bytes: u32) -> Result<u32, AllocError>
        requires low { 4 ≤ class }
        requires high { class ≤ 22 }
        requires bytes { bytes ≡ wanted_of self.old class }
        requires room { used_of self.old + bytes ≤ heap_limit }
        ensures address { IfOk result (λ base. base ≡ end_of self.old) }
        ensures grows { OnOk result (self.new ≡ grown self.old class) }
        ensures unchanged { OnErr result (self.new ≡ self.old) }
    {
        let states = States::all_free(alloc, bytes >> class)?;
        self.states.reserve(1)?;
        let base = self.places.add(class, bytes)?;
        self.states.push(states)?;
        Ok(base)
    }

    /// The address of a free slot of the class: of the first that is free of the slots that at most
    /// 64 words name, each modulo the number of slots, or else of the next free one in cyclic order
    /// after the last of them. There is one, since half of the slots are free.
    pub fn draw(&self, class: u8, words: &mut Words) -> u32
        requires low { 4 ≤ class }
        requires high { class ≤ 22 }
        requires room { must_grow self.now class ≡ false }
        ensures free { IsFreeSlot self.now class result }
        ensures drawn { (seed spent : ℕ) → HasSpent words.old seed spent
            → IsDrawn seed spent self.now class result words.new }
    {
        match self.draw_often(class, words) {
            Draw::Found(addr) => addr,
            Draw::Missed(last) => self.next_free(class, last),
        }
    }

    fn slot_count(&self, class: u8) -> u32
        requires low { 4 ≤ class }
        requires high { class ≤ 22 }
        ensures { result ≡ slot_count self.now class }
    {
        self.places.slot_count(class)
    }

    // Draws up to 64 times.
    fn draw_often(&self, class: u8, words: &mut Words) -> Draw
        requires low { 4 ≤ class }
        requires high { class ≤ 22 }
        requires some { 0 < slot_count self.now class }
        ensures { IsAttempt self.now class words.old result words.new }
    {
        let slots = self.slot_count(class);
        let mut number = 0;
        for _made in 0..DRAWS {
            number = words.step() % slots;
            let slot = self.numbered(class, number);
            if slot.state == SlotState::Free {
                return Draw::Found(slot.addr);
            }
        }
        Draw::Missed(number)
    }

    // The first free slot after a number, in cyclic order.
    fn next_free(&self, class: u8, from: u32) -> u32
        requires low { 4 ≤ class }
        requires high { class ≤ 22 }
        requires known { from < slot_count self.now class }
        requires room { must_grow self.now class ≡ false }
        ensures next { IsNext self.now class from result }
        ensures free { IsFreeSlot self.now class result }
    {
        let slots = self.slot_count(class);
        let mut number = from;
        for _step in 0..slots {
            number = if number + 1 == slots { 0 } else { number + 1 };
            let slot = self.numbered(class, number);
            if slot.state == SlotState::Free {
                return slot.addr;
            }
        }
        unreachable!()
    }

    // A slot by its number in its class.
    fn numbered(&self, class: u8, number: u32) -> Slot
        requires low { 4 ≤ class }
        requires high { class ≤ 22 }
        requires known { number < slot_count self.now class }
        ensures address { result.addr ≡ address_of self.now class number }
        ensures class { result.class ≡ class }
        ensures found { slot_at self.now result.addr ≡ Some result }
    {
        self.slot(self.places.numbered(class, number))
    }

    // The slot at a place, as it stands.
    fn slot(&self, place: SlotPlace) -> Slot
        requires { IsPlaceOf self.now.classes place }
        ensures { result ≡ nth_slot self.now place.mini place.nth }
    {
        Slot {
            addr: place.addr,
            class: place.class,
            mini: place.mini,
            nth: place.nth,
            state: self.states[place.mini as usize].get(place.nth),
        }
    }

    /// Makes a free slot held.
    pub fn hold(&mut self, addr: u32)
        requires free { IsSlotIn self.old addr SlotState.Free }
        ensures { self.new ≡ held_at self.old addr }
    {
        self.mark(addr, SlotState::Held);
    }

    // A free slot becomes held or bad, or a held one free.
    fn mark(&mut self, addr: u32, state: SlotState)
        requires before { IsSlotIn self.old addr (state_before state) }
        ensures { self.new ≡ marked self.old addr state }
    {
        self.places.classes_are_in_order();
        let Some(place) = self.places.slot_at(addr) else {
            unreachable!()
        };
        let class = place.class as usize;
        self.taken[class] = counted(self.taken[class], state);
        self.states[place.mini as usize].set(place.nth, state);
    }

    /// Makes a held slot free.
    pub fn release(&mut self, addr: u32)
        requires held { IsSlotIn self.old addr SlotState.Held }
        ensures { self.new ≡ released_at self.old addr }
    {
        self.mark(addr, SlotState::Free);
    }

    /// Makes a free slot bad.
    pub fn spoil(&mut self, addr: u32)
        requires free { IsSlotIn self.old addr SlotState.Free }
        ensures { self.new ≡ spoiled_at self.old addr }
    {
        self.mark(addr, SlotState::Bad);
    }

    /// The slot that an address lies in. None exactly outside of every miniheap.
    pub fn slot_at(&self, addr: u32) -> Option<Slot>
        ensures slot { result ≡ slot_at self.now addr }
        ensures none { IsNone result ↔ (addr < 0x40000000 ⊎ end_of self.now ≤ addr) }
        ensures known { IfSome result (IsSlotOf self.now) }
        ensures inside { IfSome result (λ t. (t.addr ≤ addr) × (addr < t.addr + 2 ^ t.class)) }
        ensures within { IfSome result (λ t. (0x40000000 ≤ t.addr) × (t.addr + 2 ^ t.class ≤ end_of self.now)) }
    {
        let place = self.places.slot_at(addr)?;
        Some(self.slot(place))
    }

    /// The slot before this one in the same miniheap. None exactly at the miniheap's start.
    pub fn before(&self, slot: &Slot) -> Option<Slot>
        requires known { IsSlotOf self.now slot.now }
        ensures none { IsNone result ↔ (slot.now.nth ≡ 0) }
        ensures before { IfSome result (λ t. t ≡ nth_slot self.now slot.now.mini (slot.now.nth - 1)) }
    {
        let place = self.places.before(&place_of(slot))?;
        Some(self.slot(place))
    }

    /// The slot after this one in the same miniheap. None exactly at the miniheap's end.
    pub fn after(&self, slot: &Slot) -> Option<Slot>
        requires known { IsSlotOf self.now slot.now }
        ensures none { IsNone result ↔ (slot.now.nth + 1 ≡ (mini_at (minis self.now.classes) slot.now.mini).slots) }
        ensures after { IfSome result (λ t. t ≡ nth_slot self.now slot.now.mini (slot.now.nth + 1)) }
    {
        let place = self.places.after(&place_of(slot))?;
        Some(self.slot(place))
    }

    /// The first slot of all, in order of creation. None exactly where there is no miniheap.
    pub fn first(&self) -> Option<Slot>
        ensures first { result ≡ slot_number self.now 0 }
        ensures from { result ≡ slot_at self.now 0x40000000 }
        ensures known { IfSome result (IsSlotOf self.now) }
    {
        let place = self.places.first()?;
        Some(self.slot(place))
    }

    /// The slot that comes after this one in order of creation, in the same miniheap or the next one. So
    /// from `first` on each slot comes once, and after the last one None.
    pub fn next(&self, slot: &Slot) -> Option<Slot>
        requires known { IsSlotOf self.now slot.now }
        ensures next { (k : ℕ) → address_number self.now.classes k ≡ slot.now.addr → result ≡ slot_number self.now (k + 1) }
        ensures behind { result ≡ slot_at self.now (slot.now.addr + 2 ^ slot.now.class) }
        ensures known { IfSome result (IsSlotOf self.now) }
    {
        let place = self.places.next(&place_of(slot))?;
        Some(self.slot(place))
    }
}

fn place_of(slot: &Slot) -> SlotPlace
    ensures { result ≡ place_of slot.now }
{
    SlotPlace {
        addr: slot.addr,
        class: slot.class,
        mini: slot.mini,
        nth: slot.nth,
    }
}

enum Draw {
    Found(u32),
    Missed(u32),
}

// The count of taken slots after one of them took a state.
fn counted(taken: u32, state: SlotState) -> u32
    requires some { 0 < taken + takes state }
    requires fits { taken + takes state < 2 ^ 32 }
    ensures { result + frees state ≡ taken + takes state }
{
    match state {
        SlotState::Free => taken - 1,
        SlotState::Held | SlotState::Bad => taken + 1,
    }
}
