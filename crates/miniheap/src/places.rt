ghost use Rattle.std.specs.Prelude.{ℕ, ◌≡◌, ◌+◌, ◌-◌, ◌^◌, ◌<◌, ◌≤◌, ◌↔◌, ◌⊎◌, [], ◌∷◌, ◌++◌, length, get_or, IsNone, IfSome, IfOk, IfErr, OnOk, OnErr, Some, Ok, Err};
ghost use Rattle.miniheap.specs.Layout.{heap_limit, minis, mini_at, class_slots};
ghost use Rattle.miniheap.specs.Places.{bytes_used, bytes_wanted, end_behind, nth_place, place_at, IsPlaceOf, AreClasses, mini_of};
ghost use Rattle.miniheap.specs.Rows.{row_at, AreLinked, numbers_end, BasesRise};
ghost use Rattle.miniheap.specs.Walk.{address_number, place_number};

use crate::place::{Miniheap, SlotPlace};
use size_class::miniheap_bytes;
use std::alloc::{AllocError, Global};
use std::marker::Model;
use thiserror::Error;

const START: u32 = 0x4000_0000;

// The bytes of all miniheaps, at most.
const LIMIT: u32 = 1_071_644_672;

/// Why a class didn't grow.
#[derive(Debug, Drop, Error)]
pub enum GrowRefusal {
    /// The miniheaps have `used` bytes, and the next one would take `wanted` more than there is room for.
    #[error("no heap room: {used} bytes used, {wanted} wanted")]
    Room { used: u32, wanted: u32 },
    #[error("out of memory")]
    Memory,
}

// One miniheap. `first` is the number of its first slot in its class, and `prev` the number of the
// class's miniheap before it, where there is one.
#[derive(Clone, Copy)]
struct Row {
    class: u8,
    base: u32,
    slots: u32,
    first: u32,
    prev: u32,
}

// What is kept by class, at the class's own number: how many miniheaps it has and the last of them,
// and how many slots it has.
#[derive(Drop)]
struct Tally {
    members: [u8; 23],
    last: [u32; 23],
    slots: [u32; 23],
}

/// The miniheaps and where each of their slots lies, whichever state it is in. The classes of the
/// miniheaps in order of creation decide it all.
#[derive(Drop)]
pub struct Places {
    classes: Vec<u8>,
    rows: Vec<Row>,
    end: u32,
    tally: Tally,
}

impl Model for Places {
    ghost use Rattle.std.specs.Prelude.{ℕ, List};

    ghost Value = { List ℕ };

    ghost use Rattle.miniheap.specs.Rows.{are_rows};

    ghost view = { λ a. a.classes.items };

    ghost invariant = { are_rows };
}

impl Places {
    /// No miniheap yet. It takes no memory.
    pub fn new(alloc: Global) -> Places
        ensures { result ≡ [] }
    {
        Places {
            classes: Vec::new(alloc),
            rows: Vec::new(alloc),
            end: START,
            tally: Tally {
                members: [0; 23],
                last: [0; 23],
                slots: [0; 23],
            },
        }
    }

    /// The class of each miniheap, in order of creation.
    pub fn classes(&self) -> &[u8]
        ensures classes { result.now ≡ self.now }
        ensures in_order { AreClasses self.now }
    {
        &self.classes
    }

    /// The miniheap of that number, in order of creation, from 0. None exactly from their number on.
    pub fn miniheap(&self, number: usize) -> Option<Miniheap>
        ensures none { IsNone result ↔ (length self.now ≤ number) }
        ensures miniheap { IfSome result (λ m. mini_of m ≡ mini_at (minis self.now) number) }
    {
        if number >= self.rows.len() {
            return None;
        }
        let row = self.rows[number];
        Some(Miniheap {
            class: row.class,
            base: row.base,
            slots: row.slots,
        })
    }

    // What the classes of all miniheaps keep to. The body does nothing: a caller has the clause.
    pub(crate) fn classes_are_in_order(&self)
        ensures { AreClasses self.now }
    {
        let _end = self.end;
    }

    /// Where the next miniheap begins.
    pub fn end(&self) -> u32
        ensures { result ≡ end_behind self.now }
    {
        self.end
    }

    /// The bytes that the class's next miniheap would have.
    pub fn wanted(&self, class: u8) -> u32
        requires low { 4 ≤ class }
        requires high { class ≤ 22 }
        ensures { result ≡ bytes_wanted self.now class }
    {
        match miniheap_bytes(class, self.tally.members[class as usize]) {
            Some(bytes) => bytes,
            None => unreachable!(),
        }
    }

    /// Adds the class's next miniheap, and answers its address. It alone takes memory, some bytes for each
    /// miniheap.
    pub fn grow(&mut self, class: u8) -> Result<u32, GrowRefusal>
        requires low { 4 ≤ class }
        requires high { class ≤ 22 }
        ensures address { IfOk result (λ base. base ≡ end_behind self.old) }
        ensures grows { OnOk result (self.new ≡ self.old ++ class ∷ []) }
        ensures room { (result ≡ Err (GrowRefusal.Room (bytes_used self.old) (bytes_wanted self.old class)))
            ↔ (heap_limit < bytes_used self.old + bytes_wanted self.old class) }
        ensures refused { IfErr result (λ e. (e ≡ GrowRefusal.Room (bytes_used self.old) (bytes_wanted self.old class))
            ⊎ (e ≡ GrowRefusal.Memory)) }
        ensures unchanged { OnErr result (self.new ≡ self.old) }
    {
        let wanted = match self.room(class) {
            Ok(wanted) => wanted,
            Err(refusal) => return Err(refusal),
        };
        match self.add(class, wanted) {
            Ok(base) => Ok(base),
            Err(AllocError) => Err(GrowRefusal::Memory),
        }
    }

    // The bytes that the class's next miniheap will have, where there is room for them.
    pub(crate) fn room(&self, class: u8) -> Result<u32, GrowRefusal>
        requires low { 4 ≤ class }
        requires high { class ≤ 22 }
        ensures wanted { IfOk result (λ bytes. (bytes ≡ bytes_wanted self.now class) × (bytes_used self.now + bytes ≤ heap_limit)) }
        ensures refused { IfErr result (λ e. (e ≡ GrowRefusal.Room (bytes_used self.now) (bytes_wanted self.now class))
            × (heap_limit < bytes_used self.now + bytes_wanted self.now class)) }
    {
        let used = self.end - START;
        let wanted = self.wanted(class);
        if wanted > LIMIT - used {
            return Err(GrowRefusal::Room { used, wanted });
        }
        Ok(wanted)
    }

    // Room for both pushes is made before the first, so that nothing is half done.
    pub(crate) fn add(&mut self, class: u8, bytes: u32) -> Result<u32, AllocError>
        requires low { 4 ≤ class }
        requires high { class ≤ 22 }
        requires bytes { bytes ≡ bytes_wanted self.old class }
        requires room { bytes_used self.old + bytes ≤ heap_limit }
        ensures address { IfOk result (λ base. base ≡ end_behind self.old) }
        ensures grows { OnOk result (self.new ≡ self.old ++ class ∷ []) }
        ensures unchanged { OnErr result (self.new ≡ self.old) }
    {
        self.classes.reserve(1)?;
        self.rows.reserve(1)?;
        let c = class as usize;
        let slots = bytes >> class;
        let base = self.end;
        let number = self.rows.len() as u32;
        let row = Row {
            class,
            base,
            slots,
            first: self.tally.slots[c],
            prev: self.tally.last[c],
        };
        self.rows.push(row)?;
        self.classes.push(class)?;
        self.end += bytes;
        self.tally.members[c] += 1;
        self.tally.last[c] = number;
        self.tally.slots[c] += slots;
        Ok(base)
    }

    // The number of slots of a class.
    pub(crate) fn slot_count(&self, class: u8) -> u32
        requires low { 4 ≤ class }
        requires high { class ≤ 22 }
        ensures { result ≡ length (class_slots class (minis self.now)) }
    {
        self.tally.slots[class as usize]
    }

    // A slot by its number in its class.
    pub(crate) fn numbered(&self, class: u8, number: u32) -> SlotPlace
        requires low { 4 ≤ class }
        requires high { class ≤ 22 }
        requires known { number < length (class_slots class (minis self.now)) }
        ensures address { result.addr ≡ get_or (class_slots class (minis self.now)) number 0 }
        ensures class { result.class ≡ class }
        ensures known { IsPlaceOf self.now result }
    {
        let mini = locate(&self.rows, self.tally.last[class as usize] as usize, number);
        self.nth(mini, number - self.rows[mini].first)
    }

    // A slot by its number in a miniheap.
    fn nth(&self, mini: usize, nth: u32) -> SlotPlace
        requires mini_known { mini < length (minis self.now) }
        requires nth_known { nth < (mini_at (minis self.now) mini).slots }
        ensures { result ≡ nth_place self.now mini nth }
    {
        let row = self.rows[mini];
        SlotPlace {
            addr: row.base + (nth << row.class),
            class: row.class,
            mini: mini as u32,
            nth,
        }
    }

    /// The slot that an address lies in. None exactly outside of every miniheap.
    pub fn slot_at(&self, addr: u32) -> Option<SlotPlace>
        ensures slot { result ≡ place_at self.now addr }
        ensures none { IsNone result ↔ (addr < 0x40000000 ⊎ end_behind self.now ≤ addr) }
        ensures known { IfSome result (IsPlaceOf self.now) }
        ensures class { IfSome result (λ p. (4 ≤ p.class) × (p.class ≤ 22)) }
        ensures inside { IfSome result (λ p. (p.addr ≤ addr) × (addr < p.addr + 2 ^ p.class)) }
        ensures within { IfSome result (λ p. (0x40000000 ≤ p.addr) × (p.addr + 2 ^ p.class ≤ end_behind self.now)) }
    {
        if addr < START || self.end <= addr {
            return None;
        }
        let mini = find(&self.rows, addr);
        let nth = (addr - self.rows[mini].base) >> self.rows[mini].class;
        Some(self.nth(mini, nth))
    }

    /// The slot before this one in the same miniheap. None exactly at the miniheap's start.
    pub fn before(&self, place: &SlotPlace) -> Option<SlotPlace>
        requires known { IsPlaceOf self.now place.now }
        ensures none { IsNone result ↔ (place.now.nth ≡ 0) }
        ensures before { IfSome result (λ p. p ≡ nth_place self.now place.now.mini (place.now.nth - 1)) }
    {
        if place.nth == 0 {
            return None;
        }
        Some(self.nth(place.mini as usize, place.nth - 1))
    }

    /// The slot after this one in the same miniheap. None exactly at the miniheap's end.
    pub fn after(&self, place: &SlotPlace) -> Option<SlotPlace>
        requires known { IsPlaceOf self.now place.now }
        ensures none { IsNone result ↔ (place.now.nth + 1 ≡ (mini_at (minis self.now) place.now.mini).slots) }
        ensures after { IfSome result (λ p. p ≡ nth_place self.now place.now.mini (place.now.nth + 1)) }
    {
        let slots = self.rows[place.mini as usize].slots;
        if place.nth + 1 == slots {
            return None;
        }
        Some(self.nth(place.mini as usize, place.nth + 1))
    }

    /// The first slot of all, in order of creation. None exactly where there is no miniheap.
    pub fn first(&self) -> Option<SlotPlace>
        ensures first { result ≡ place_number self.now 0 }
        ensures from { result ≡ place_at self.now 0x40000000 }
        ensures known { IfSome result (IsPlaceOf self.now) }
    {
        if self.rows.is_empty() {
            return None;
        }
        Some(self.nth(0, 0))
    }

    /// The slot that comes after this one in order of creation, in the same miniheap or the next one. So
    /// from `first` on each slot comes once, and after the last one None.
    pub fn next(&self, place: &SlotPlace) -> Option<SlotPlace>
        requires known { IsPlaceOf self.now place.now }
        ensures next { (k : ℕ) → address_number self.now k ≡ place.now.addr → result ≡ place_number self.now (k + 1) }
        ensures behind { result ≡ place_at self.now (place.now.addr + 2 ^ place.now.class) }
        ensures known { IfSome result (IsPlaceOf self.now) }
    {
        let mini = place.mini as usize;
        let slots = self.rows[mini].slots;
        if place.nth + 1 < slots {
            return Some(self.nth(mini, place.nth + 1));
        }
        if mini + 1 < self.rows.len() {
            return Some(self.nth(mini + 1, 0));
        }
        None
    }
}

// The miniheap of a class that has the class's slot of that number, from its last one back.
fn locate(rows: &[Row], last: usize, number: u32) -> usize
    requires linked { AreLinked rows.now }
    requires known { last < length rows.now }
    requires below { number < numbers_end (row_at rows.now last) }
    ensures known { result < length rows.now }
    ensures class { (row_at rows.now result).class ≡ (row_at rows.now last).class }
    ensures from { (row_at rows.now result).first ≤ number }
    ensures to { number < numbers_end (row_at rows.now result) }
{
    let mut mini = last;
    while rows[mini].first > number {
        mini = rows[mini].prev as usize;
    }
    mini
}

// The last miniheap that begins at an address or before it.
fn find(rows: &[Row], addr: u32) -> usize
    requires rising { BasesRise rows.now }
    requires some { 0 < length rows.now }
    requires from { (row_at rows.now 0).base ≤ addr }
    ensures known { result < length rows.now }
    ensures from { (row_at rows.now result).base ≤ addr }
    ensures to { result + 1 < length rows.now → addr < (row_at rows.now (result + 1)).base }
{
    rows.partition_point(|row| row.base <= addr) - 1
}
