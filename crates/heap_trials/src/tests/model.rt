// The rules of docs/heap.md over plain lists: every slot, and the bytes of all miniheaps.
use super::guest::Call;
use exact_heap::{Place, Signal, SlotRow};
use std::alloc::{AllocError, Global};

const BASE: u32 = 0x4000_0000;

#[derive(Clone, Copy, PartialEq, Eq)]
enum State {
    Free,
    Owned,
    Deferred(u64),
}

#[derive(Clone, Copy)]
struct Cell {
    class: u32,
    mini: u32,
    from: usize,
    state: State,
    bad: bool,
    row: Option<SlotRow>,
}

/// A heap by its rules.
#[derive(Drop)]
pub struct Model {
    number: u64,
    canary: [u8; 4],
    slots: Vec<Cell>,
    minis: Vec<u32>,
    pub bytes: Vec<u8>,
    pub signals: Vec<Signal>,
    pub clock: u64,
    pub frees: u64,
    pub calls: u64,
}

fn pad(site: u32) -> u32 {
    match site {
        1 => 5,
        3 => 40,
        _ => 0,
    }
}

fn front(site: u32) -> u32 {
    match site {
        2 => 48,
        3 => 16,
        _ => 0,
    }
}

// The least multiple of an alignment from a number on, both of which are multiples of 16.
fn front_from(least: u32, align: u32) -> u32 {
    let mut front = 0u32;
    for _ in 0..256 {
        if front >= least && (align == 0 || front % align == 0) {
            return front;
        }
        front = front.saturating_add(16);
    }
    front
}

fn deferral(site: u32, free_site: u32) -> u64 {
    match (site, free_site) {
        (1, 5) => 3,
        (3, 6) => 1,
        _ => 0,
    }
}

// The least class whose slots hold so many bytes.
fn class_of(need: u32) -> u32 {
    for class in 4..22u32 {
        if need <= 1 << class {
            return class;
        }
    }
    22
}

impl Model {
    pub fn new(alloc: Global, seed: u64) -> Model {
        let mut model = Model {
            number: seed.wrapping_add(1),
            canary: [0; 4],
            slots: Vec::new(alloc),
            minis: Vec::new(alloc),
            bytes: Vec::new(alloc),
            signals: Vec::new(alloc),
            clock: 0,
            frees: 0,
            calls: 0,
        };
        model.advance();
        let word = model.word() | 1;
        model.canary = word.to_le_bytes();
        model
    }

    fn advance(&mut self) {
        self.number = self
            .number
            .wrapping_mul(6_364_136_223_846_793_005)
            .wrapping_add(1);
    }

    // The next word of PCG32.
    pub fn word(&mut self) -> u32 {
        let state = self.number;
        self.advance();
        let shifted = ((state >> 18) ^ state) >> 27;
        ((shifted % 0x1_0000_0000) as u32).rotate_right((state >> 59) as u32)
    }

    fn canary_at(&self, addr: usize) -> u8 {
        self.canary[addr % 4]
    }

    // Whether a slot's bytes from `from` on hold the canary; the first that doesn't.
    fn broken(&self, from: usize, class: u32) -> Option<usize> {
        let end = from.saturating_add(1 << class.min(22));
        for at in from..end {
            if self.byte(at) != self.canary_at(at) {
                return Some(at);
            }
        }
        None
    }

    fn byte(&self, at: usize) -> u8 {
        self.bytes.get(at).copied().unwrap_or(0)
    }

    pub fn poke(&mut self, at: usize, byte: u8) {
        if let Some(place) = self.bytes.get_mut(at) {
            *place = byte;
        }
    }

    fn fill(&mut self, from: usize, class: u32, zeroed: bool) {
        let end = from.saturating_add(1 << class.min(22));
        for at in from..end {
            let byte = if zeroed { 0 } else { self.canary_at(at) };
            self.poke(at, byte);
        }
    }

    // How many slots a class has, and how many are held or bad.
    fn count(&self, class: u32) -> (u32, u32) {
        let mut all = 0u32;
        let mut taken = 0u32;
        for slot in &self.slots {
            if slot.class == class {
                all = all.saturating_add(1);
                if slot.bad || slot.state != State::Free {
                    taken = taken.saturating_add(1);
                }
            }
        }
        (all, taken)
    }

    fn grow(&mut self, class: u32) -> Result<(), AllocError> {
        let mut nth = 0u32;
        for other in &self.minis {
            if *other == class {
                nth = nth.saturating_add(1);
            }
        }
        let first = if class <= 16 {
            (1u32 << (16 - class)).max(4)
        } else {
            4
        };
        let slots = first << nth.min(8);
        let mini = (self.minis.len() % 0x1_0000_0000) as u32;
        self.minis.push(class)?;
        for _ in 0..slots {
            let from = self.bytes.len();
            self.slots.push(Cell {
                class,
                mini,
                from,
                state: State::Free,
                bad: false,
                row: None,
            })?;
            for at in from..from.saturating_add(1 << class.min(22)) {
                let byte = self.canary_at(at);
                self.bytes.push(byte)?;
            }
        }
        Ok(())
    }

    // The place in the list of a class's slot of that number.
    fn index_of(&self, class: u32, number: u32) -> usize {
        let mut left = number;
        for (i, slot) in self.slots.iter().enumerate() {
            if slot.class == class {
                if left == 0 {
                    return i;
                }
                left -= 1;
            }
        }
        usize::MAX
    }

    fn is_free(&self, i: usize) -> bool {
        match self.slots.get(i) {
            Some(slot) => !slot.bad && slot.state == State::Free,
            None => false,
        }
    }

    // A free slot of a class that has `all` slots.
    fn draw(&mut self, class: u32, all: u32) -> usize {
        if all == 0 {
            return usize::MAX;
        }
        let mut last = 0;
        for _ in 0..64 {
            last = self.word() % all;
            let i = self.index_of(class, last);
            if self.is_free(i) {
                return i;
            }
        }
        for step in 0..all {
            let i = self.index_of(class, last.wrapping_add(1).wrapping_add(step) % all);
            if self.is_free(i) {
                return i;
            }
        }
        usize::MAX
    }

    fn signal(&mut self, at: usize, place: Place) -> Result<(), AllocError> {
        let byte = self.byte(at);
        let addr = BASE.wrapping_add((at % 0x4000_0000) as u32);
        self.signals.push(Signal { place, addr, byte })?;
        Ok(())
    }

    // A slot that is free is bad from now on where its canary is broken.
    fn check(&mut self, i: usize) -> Result<bool, AllocError> {
        if !self.is_free(i) {
            return Ok(false);
        }
        let Some(slot) = self.slots.get(i).copied() else {
            return Ok(false);
        };
        let Some(at) = self.broken(slot.from, slot.class) else {
            return Ok(false);
        };
        self.signal(at, Place::Call(self.calls))?;
        if let Some(slot) = self.slots.get_mut(i) {
            slot.bad = true;
        }
        Ok(true)
    }

    // A free slot of the class with a whole canary.
    fn find(&mut self, class: u32) -> Result<usize, AllocError> {
        for _ in 0..100_000 {
            let (all, taken) = self.count(class);
            if taken.saturating_add(1).saturating_mul(2) > all {
                self.grow(class)?;
            } else {
                let i = self.draw(class, all);
                if !self.check(i)? {
                    return Ok(i);
                }
            }
        }
        Ok(usize::MAX)
    }

    fn release(&mut self, i: usize) {
        if let Some(slot) = self.slots.get(i).copied() {
            self.fill(slot.from, slot.class, false);
        }
        if let Some(slot) = self.slots.get_mut(i) {
            slot.state = State::Free;
        }
    }

    fn release_due(&mut self) {
        for i in 0..self.slots.len() {
            if let Some(
                Cell {
                    state: State::Deferred(due),
                    ..
                },
            ) = self.slots.get(i).copied()
            {
                if due <= self.clock {
                    self.release(i);
                }
            }
        }
    }

    fn place(&mut self, align: u32, size: u32, site: u32, zeroed: bool) -> Result<u32, AllocError> {
        let front = front_from(front(site), align);
        let reach = 1u32 << class_of(size.saturating_add(pad(site))).min(22);
        let i = self.find(class_of(front.saturating_add(reach).max(align)))?;
        let object = self.clock;
        let Some(slot) = self.slots.get_mut(i) else {
            return Ok(1);
        };
        let addr = BASE.wrapping_add((slot.from % 0x4000_0000) as u32);
        slot.state = State::Owned;
        slot.row = Some(SlotRow {
            addr,
            state: 0,
            object,
            size,
            front,
            site,
            free_site: 0,
            freed: 0,
        });
        let slot = *slot;
        if zeroed {
            self.fill(slot.from, slot.class, true);
        }
        self.clock = self.clock.saturating_add(1);
        self.release_due();
        Ok(addr.wrapping_add(front))
    }

    // The place in the list of the owned object at an address.
    fn owned(&self, addr: u32) -> Option<usize> {
        for (i, slot) in self.slots.iter().enumerate() {
            if let Some(row) = slot.row {
                if slot.state == State::Owned && row.addr.wrapping_add(row.front) == addr {
                    return Some(i);
                }
            }
        }
        None
    }

    fn neighbour(&mut self, i: usize, mini: u32) -> Result<(), AllocError> {
        match self.slots.get(i) {
            Some(slot) if slot.mini == mini => {}
            _ => return Ok(()),
        }
        self.check(i)?;
        Ok(())
    }

    fn free_owned(&mut self, i: usize, free_site: u32) -> Result<(), AllocError> {
        let Some(slot) = self.slots.get(i).copied() else {
            return Ok(());
        };
        self.neighbour(i.wrapping_sub(1), slot.mini)?;
        self.neighbour(i.wrapping_add(1), slot.mini)?;
        self.frees = self.frees.saturating_add(1);
        let clock = self.clock;
        let Some(row) = slot.row else {
            return Ok(());
        };
        let later = deferral(row.site, free_site);
        if let Some(slot) = self.slots.get_mut(i) {
            slot.row = Some(SlotRow {
                free_site,
                freed: clock,
                ..row
            });
            slot.state = State::Deferred(clock.saturating_add(later));
        }
        if later == 0 {
            self.release(i);
        }
        Ok(())
    }

    fn free(&mut self, addr: u32, site: u32) -> Result<(), AllocError> {
        match self.owned(addr) {
            Some(i) => self.free_owned(i, site),
            None => Ok(()),
        }
    }

    fn allocate(
        &mut self,
        align: u32,
        size: u64,
        site: u32,
        zeroed: bool,
    ) -> Result<u32, AllocError> {
        if size > 1 << 20 {
            return Ok(0);
        }
        self.place(align, size as u32, site, zeroed)
    }

    /// Makes a call, and gives its answer, 0 for a free.
    pub fn make(&mut self, call: Call) -> Result<u32, AllocError> {
        self.calls = self.calls.saturating_add(1);
        match call {
            Call::Malloc(size, site) => self.allocate(16, u64::from(size), site, false),
            Call::Memalign(align, size, site) => self.memalign(align, size, site),
            Call::Calloc(count, each, site) => {
                self.allocate(16, u64::from(count) * u64::from(each), site, true)
            }
            Call::Realloc(0, size, site) => self.allocate(16, u64::from(size), site, false),
            Call::Realloc(old, size, site) => self.realloc(old, size, site),
            Call::Free(addr, site) => {
                self.free(addr, site)?;
                Ok(0)
            }
        }
    }

    fn memalign(&mut self, align: u32, size: u32, site: u32) -> Result<u32, AllocError> {
        for power in [1, 2, 4, 8, 16, 32, 64, 128, 256, 512, 1024, 2048, 4096] {
            if align == power {
                return self.allocate(align.max(16), u64::from(size), site, false);
            }
        }
        Ok(0)
    }

    fn realloc(&mut self, old: u32, size: u32, site: u32) -> Result<u32, AllocError> {
        let Some(i) = self.owned(old) else {
            return Ok(0);
        };
        if size > 1 << 20 {
            return Ok(0);
        }
        let Some(
            Cell {
                from,
                row: Some(row),
                ..
            },
        ) = self.slots.get(i).copied()
        else {
            return Ok(0);
        };
        let addr = self.place(16, size, site, false)?;
        let to = (addr as usize).saturating_sub(BASE as usize);
        for at in 0..row.size.min(size) as usize {
            let byte = self.byte(from.saturating_add(row.front as usize).saturating_add(at));
            self.poke(to.saturating_add(at), byte);
        }
        self.free_owned(i, site)?;
        Ok(addr)
    }

    pub fn end(&mut self) -> Result<(), AllocError> {
        for i in 0..self.slots.len() {
            if self.is_free(i) {
                if let Some(slot) = self.slots.get(i).copied() {
                    if let Some(at) = self.broken(slot.from, slot.class) {
                        self.signal(at, Place::End)?;
                    }
                }
            }
        }
        Ok(())
    }

    pub fn rows(&self, alloc: Global) -> Result<Vec<SlotRow>, AllocError> {
        let mut rows = Vec::new(alloc);
        for slot in &self.slots {
            let addr = BASE.wrapping_add((slot.from % 0x4000_0000) as u32);
            match slot.row {
                Some(row) => {
                    let state = match slot.state {
                        State::Owned => 0,
                        State::Deferred(_) => 1,
                        State::Free if slot.bad => 3,
                        State::Free => 2,
                    };
                    rows.push(SlotRow { state, ..row })?;
                }
                None if slot.bad => rows.push(SlotRow {
                    addr,
                    state: 4,
                    object: 0,
                    size: 0,
                    front: 0,
                    site: 0,
                    free_site: 0,
                    freed: 0,
                })?,
                None => {}
            }
        }
        Ok(rows)
    }
}
