// What changes bytes of a space.
ghost use Rattle.std.specs.Prelude.{◌≡◌, ℕ, ◌+◌, ◌-◌, ◌≤◌, ◌<◌, ◌%◌, ◌^◌, ◌⊎◌, true, false, None, Some, is_some, length, slice_index, IsTrue, OnOk, OnErr, IfSome, IfNone};
ghost use Rattle.std.specs.Bool.{OnTrue, OnFalse};
ghost use Rattle.diefast_canary.specs.Canary.{canary_byte};

use crate::access::{Rest, StoreFault, Width};
use crate::range::Purpose;
use crate::space::Space;

// How many bytes are copied at a time.
const PIECE: u32 = 512;

impl Space {
    ghost use Rattle.rv_memory.specs.Access.{bytes_in, bytes_of, StoreAnswers, rest_byte};
    ghost use Rattle.rv_memory.specs.Memory.{page_of, is_mapped, can_write, is_taken, filled, with_bytes, with_copy, KeepsTaken};
    ghost use Rattle.rv_memory.specs.Spaces.{memory_of, taken_of};

    /// Stores the low bytes of a number, the lowest first, from an aligned address on.
    #[inline(always)]
    pub fn store(&mut self, addr: u32, width: Width, value: u32) -> Result<(), StoreFault>
        requires { addr % bytes_in width ≡ 0 }
        ensures answer { StoreAnswers (can_write (memory_of self.old) addr (bytes_in width)) (is_taken (taken_of self.old) addr (bytes_in width)) result }
        ensures stored { OnOk result (memory_of self.new ≡ with_bytes (memory_of self.old) addr (bytes_of (bytes_in width) value)) }
        ensures refused { OnErr result (memory_of self.new ≡ memory_of self.old) }
        ensures taken { KeepsTaken (taken_of self.old) (taken_of self.new) }
    {
        if self.store_hinted(addr, width, value) {
            return Ok(());
        }
        self.store_elsewhere(addr, width, value)
    }

    /// Writes a whole span; refused exactly where one of its bytes isn't mapped or may not be written to.
    pub fn span_write(&mut self, addr: u32, bytes: &[u8]) -> Result<(), StoreFault>
        ensures answer { StoreAnswers (can_write (memory_of self.old) addr (length bytes.now)) (is_taken (taken_of self.old) addr (length bytes.now)) result }
        ensures written { OnOk result (memory_of self.new ≡ with_bytes (memory_of self.old) addr bytes.now) }
        ensures refused { OnErr result (memory_of self.new ≡ memory_of self.old) }
        ensures taken { KeepsTaken (taken_of self.old) (taken_of self.new) }
    {
        if !self.allows(addr, bytes.len() as u64, Purpose::Writing) {
            return Err(StoreFault::Unmapped);
        }
        match self.make(addr, bytes.len() as u64) {
            Ok(()) => {
                self.put(addr, bytes);
                Ok(())
            }
            Err(_) => Err(StoreFault::Memory),
        }
    }

    /// Fills a mapped span in taken pages with the canary of `word`.
    pub fn paint(&mut self, addr: u32, len: u32, word: u32)
        requires mapped { IsTrue (is_mapped (memory_of self.old) addr len) }
        requires sure { IsTrue (is_taken (taken_of self.old) addr len) }
        ensures painted { memory_of self.new ≡ filled (memory_of self.old) addr len (canary_byte word) }
        ensures taken { KeepsTaken (taken_of self.old) (taken_of self.new) }
    {
        self.cover(addr, len, Rest::Canary(word));
    }

    /// Sets a mapped span in taken pages to 0.
    pub fn zero(&mut self, addr: u32, len: u32)
        requires mapped { IsTrue (is_mapped (memory_of self.old) addr len) }
        requires sure { IsTrue (is_taken (taken_of self.old) addr len) }
        ensures cleared { memory_of self.new ≡ filled (memory_of self.old) addr len (λ address. 0) }
        ensures taken { KeepsTaken (taken_of self.old) (taken_of self.new) }
    {
        self.cover(addr, len, Rest::Zero);
    }

    /// Copies a mapped span to another one in taken pages, which has no address in common with it.
    pub fn copy(&mut self, from: u32, to: u32, len: u32)
        requires source { IsTrue (is_mapped (memory_of self.old) from len) }
        requires mapped { IsTrue (is_mapped (memory_of self.old) to len) }
        requires sure { IsTrue (is_taken (taken_of self.old) to len) }
        requires apart { (from + len ≤ to) ⊎ (to + len ≤ from) }
        ensures copied { memory_of self.new ≡ with_copy (memory_of self.old) from to len }
        ensures taken { KeepsTaken (taken_of self.old) (taken_of self.new) }
    {
        let mut done = 0;
        while done < len {
            let count = (len - done).min(PIECE);
            self.copy_piece(from + done, to + done, count);
            done += count;
        }
    }

    // A store where the last access in this part of the addresses was; false where nothing was stored.
    #[inline(always)]
    fn store_hinted(&mut self, addr: u32, width: Width, value: u32) -> bool
        ensures lawful { OnTrue result (can_write (memory_of self.old) addr (bytes_in width) ≡ true) }
        ensures stored { OnTrue result (memory_of self.new ≡ with_bytes (memory_of self.old) addr (bytes_of (bytes_in width) value)) }
        ensures kept { OnFalse result (self.new ≡ self.old) }
        ensures taken { KeepsTaken (taken_of self.old) (taken_of self.new) }
    {
        let hint = self.hints.get(addr);
        if hint < self.ranges.len() {
            let range = &self.ranges[hint];
            let at = range.place(addr);
            if range.writable && at + width.bytes() <= range.bytes.len() {
                self.ranges[hint].write(at, width, value);
                return true;
            }
        }
        false
    }

    // A store that its hint didn't help.
    #[inline(never)]
    fn store_elsewhere(&mut self, addr: u32, width: Width, value: u32) -> Result<(), StoreFault>
        ensures answer { StoreAnswers (can_write (memory_of self.old) addr (bytes_in width)) (is_taken (taken_of self.old) addr (bytes_in width)) result }
        ensures stored { OnOk result (memory_of self.new ≡ with_bytes (memory_of self.old) addr (bytes_of (bytes_in width) value)) }
        ensures refused { OnErr result (memory_of self.new ≡ memory_of self.old) }
        ensures taken { KeepsTaken (taken_of self.old) (taken_of self.new) }
    {
        self.remember(addr);
        if self.store_hinted(addr, width, value) {
            return Ok(());
        }
        match width {
            Width::One => self.span_write(addr, &((value % 256) as u8).to_le_bytes()),
            Width::Two => self.span_write(addr, &((value % 65536) as u16).to_le_bytes()),
            Width::Four => self.span_write(addr, &value.to_le_bytes()),
        }
    }

    // Fills a span.
    fn cover(&mut self, addr: u32, len: u32, rest: Rest)
        requires sure { IsTrue (is_taken (taken_of self.old) addr len) }
        requires mapped { IsTrue (is_mapped (memory_of self.old) addr len) }
        ensures covered { memory_of self.new ≡ filled (memory_of self.old) addr len (rest_byte rest) }
        ensures taken { KeepsTaken (taken_of self.old) (taken_of self.new) }
    {
        let end = u64::from(addr) + u64::from(len);
        let mut at = u64::from(addr);
        while at < end {
            at = self.cover_piece(at, end, rest);
        }
    }

    // Copies a span through a buffer.
    fn copy_piece(&mut self, from: u32, to: u32, len: u32)
        requires fits { len ≤ 512 }
        requires source { IsTrue (is_mapped (memory_of self.old) from len) }
        requires mapped { IsTrue (is_mapped (memory_of self.old) to len) }
        requires sure { IsTrue (is_taken (taken_of self.old) to len) }
        ensures copied { memory_of self.new ≡ with_copy (memory_of self.old) from to len }
        ensures taken { KeepsTaken (taken_of self.old) (taken_of self.new) }
    {
        let mut buffer = [0; PIECE as usize];
        let bytes = &mut buffer[..len as usize];
        match self.span_read(from, bytes) {
            Ok(()) => self.put(to, bytes),
            Err(_) => unreachable!(),
        }
    }

    // Puts bytes into a mapped span that is made, whether or not it may be written to.
    fn put(&mut self, addr: u32, bytes: &[u8])
        requires sure { IsTrue (is_taken (taken_of self.old) addr (length bytes.now)) }
        requires mapped { IsTrue (is_mapped (memory_of self.old) addr (length bytes.now)) }
        ensures written { memory_of self.new ≡ with_bytes (memory_of self.old) addr bytes.now }
        ensures taken { KeepsTaken (taken_of self.old) (taken_of self.new) }
    {
        let mut done = 0;
        while done < bytes.len() {
            done = self.write_piece(addr, bytes, done);
        }
    }

    // Writes as much of a span as one range holds, from a place of the bytes on, and says up to where.
    fn write_piece(&mut self, addr: u32, bytes: &[u8], done: usize) -> usize
        requires room { done < length bytes.now }
        requires mapped { is_some ((memory_of self.old).bytes (addr + done)) ≡ true }
        requires sure { taken_of self.old (page_of (addr + done)) ≡ true }
        ensures more { done < result }
        ensures end { result ≤ length bytes.now }
        ensures written { memory_of self.new ≡ filled (memory_of self.old) (addr + done) (result - done) (λ a. slice_index bytes.now (a - addr)) }
        ensures taken { KeepsTaken (taken_of self.old) (taken_of self.new) }
    {
        match self.find(u64::from(addr) + done as u64) {
            Some(i) => self.ranges[i].write_piece(addr, bytes, done),
            None => self.code.write_piece(addr, bytes, done),
        }
    }

    // Fills as much of a span as one range holds, and says up to where.
    fn cover_piece(&mut self, from: u64, end: u64, rest: Rest) -> u64
        requires more { from < end }
        requires mapped { is_some ((memory_of self.old).bytes from) ≡ true }
        requires sure { taken_of self.old (page_of from) ≡ true }
        ensures more { from < result }
        ensures end { result ≤ end }
        ensures covered { memory_of self.new ≡ filled (memory_of self.old) from (result - from) (rest_byte rest) }
        ensures taken { KeepsTaken (taken_of self.old) (taken_of self.new) }
    {
        match self.find(from) {
            Some(i) => self.ranges[i].cover(from, end, rest),
            None => self.code.cover(from, end, rest),
        }
    }
}
